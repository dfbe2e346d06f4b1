// The rows of a run of samples, by their next words. Nothing is trusted: a row is tested before it is given, and no more are given than asked for.
ghost use Rattle.std.specs.Prelude.{◌≡◌, ◌<◌, ◌≤◌, length};
ghost use Rattle.std.specs.Iterator.{YieldsFirst, item_count};
ghost use Rattle.model.specs.Layout.{current, octant_rows, sample_rows};
ghost use Rattle.words.specs.Rows.{sample_budget};
ghost use Rattle.traversal.specs.Own.{rows_from, own_rows};

use crate::octant::most;
use words::layout::{next as next_of, octant_first, sample_rows};
use words::tables::Tables;

// What is left of a run: so many rows at most, from a row on. (How many the table has is worked out once.)
#[derive(Drop)]
pub struct Rows<'a> {
    samples: &'a [u32],
    rows: usize,
    row: usize,
    left: u32,
    ghost rows_is: { rows ≡ sample_rows current (length samples.now) },
}

// Count rows at most, from row first on.
pub fn rows_from<'a>(samples: &'a [u32], first: u32, count: u32) -> Rows<'a>
    ensures { rows_from result.samples.now result.left result.row ≡ rows_from samples.now count first }
{
    Rows {
        samples,
        rows: sample_rows(samples.len()),
        row: first as usize,
        left: count,
    }
}

// An octant's own samples: as many as it counts, and as may still be visited.
#[tactic(auto, unfolding(crate::specs::Own::own_rows))]
pub fn own_rows<'a>(tables: &Tables<'a>, row: u32, visited: u32) -> Rows<'a>
    requires row_bound { row < octant_rows current (length tables.now.octants.now) }
    requires visited_bound { visited ≤ sample_budget current tables.now.samples.now }
    ensures { rows_from result.samples.now result.left result.row
        ≡ own_rows tables.now.samples.now tables.now.octants.now row visited }
{
    let first = octant_first(tables.octants, row);
    rows_from(tables.samples, first, most(tables, row, visited))
}

impl<'a> Iterator for Rows<'a> {
    type Item = usize;

    ghost next_gives = { YieldsFirst (λ r. rows_from r.samples.now r.left r.row) };

    ghost remaining = { item_count (λ r. rows_from r.samples.now r.left r.row) };

    #[tactic(auto, using(crate::proofs::Laws::Rows::rows_more, crate::proofs::Laws::Rows::rows_none, crate::proofs::Laws::Rows::rows_out))]
    fn next(&mut self) -> Option<usize> {
        let row = self.row;
        if self.left == 0 {
            return None;
        }
        if self.rows <= row {
            return None;
        }
        self.row = next_of(self.samples, row) as usize;
        self.left -= 1;
        Some(row)
    }
}
