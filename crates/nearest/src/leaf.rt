// The samples of an octant, measured by their next words. Nothing is trusted: a code is brought into range.
ghost use Rattle.std.specs.Prelude.{◌<◌, ◌≡◌, length, min};
ghost use Rattle.model.specs.Layout.{current, sample_rows};
ghost use Rattle.words.specs.Rows.{octant_limit};
ghost use Rattle.traversal.specs.Search.{own_search};
ghost use Rattle.traversal.specs.Steps.{SearchReady};
ghost use Rattle.nearest.specs.Best.{rank_of, bests};
ghost use Rattle.nearest.specs.Steps.{search_in, search_after};

use crate::best::Search;
use colour::distance::squared;
use colour::{Probe, wrapped};
use traversal::rows::own_rows;
use words::layout::colour as colour_of;
use words::tables::Tables;

// The rank of the sample in a row: by how far, and then by row.
fn rank(samples: &[u32], p: Probe, row: usize) -> u64
    requires { row < sample_rows current (length samples.now) }
    ensures { result ≡ rank_of samples.now p row }
{
    squared(p, wrapped(colour_of(samples, row))) * 4096 + (row as u64)
}

// The lesser of two ranks. (It compares them itself, where `min` would do, so that an edit can leave the row out.)
fn lesser(a: u64, b: u64) -> u64
    ensures { result ≡ min a b }
{
    if a < b { a } else { b }
}

// An entered octant's own samples: the least rank needs no branch. (It starts at the greatest number, so that the first sample is no case of its own. `SearchReady` is of
// tables and search, and so is a field of neither.)
pub fn own(tables: &Tables<'_>, p: Probe, octant: u32, search: &mut Search)
    requires ready { SearchReady tables.now.samples.now tables.now.octants.now (search_in search.old) }
    requires octant_bound { octant < octant_limit current tables.now.octants.now }
    ensures { search.new
        ≡ search_after (own_search (bests tables.now.samples.now p) tables.now.samples.now tables.now.octants.now octant)
        search.old }
{
    let mut seen: u32 = 0;
    let mut best = u64::MAX;
    for row in own_rows(tables, octant, search.visited as u32) {
        seen += 1;
        let found = rank(tables.samples, p, row);
        best = lesser(best, found);
    }
    search.take(octant, best, seen);
}
