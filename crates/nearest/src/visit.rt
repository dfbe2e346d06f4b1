// The search: it recurses through octants, the depth left falling, and takes the closest child first. Its siblings are looked at once it is done: most are
// then too far.
ghost use Rattle.std.specs.Prelude.{◌<◌, ◌≡◌};
ghost use Rattle.model.specs.Layout.{current};
ghost use Rattle.words.specs.Rows.{octant_limit};
ghost use Rattle.traversal.specs.Steps.{SearchReady};
ghost use Rattle.traversal.specs.Spot.{Stood, search_at, siblings_at, split_at};
ghost use Rattle.nearest.specs.Best.{bests, found_of, best_found};
ghost use Rattle.nearest.specs.Steps.{search_after, search_in};

use crate::best::{Best, Search};
use crate::leaf::own;
use colour::Probe;
use colour::distance::square;
use traversal::children::children_in;
use traversal::nearby::turns;
use traversal::octant::{child_at, ends};
use traversal::spot::{Crossing, Spot, root_spot};
use words::layout::{sample_rows, tag as tag_of};
use words::tables::Tables;

// What is asked: the tables, what distances are measured from, and the limit of octant rows, worked out once. It is lent down the recursion: each call hands
// on one address.
#[derive(Clone, Copy)]
struct Asked<'a> {
    tables: Tables<'a>,
    probe: Probe,
    limit: u32,
    ghost limit_is: { limit ≡ octant_limit current tables.octants.now },
}

// The siblings of the closest child, in turn: those that are still close enough.
#[cycle(siblings_split_visit)]
fn siblings(asked: &Asked<'_>, row: u32, at: Crossing, search: &mut Search)
    requires same { at.probe ≡ asked.now.probe }
    requires row_bound { row < octant_limit current asked.now.tables.octants.now }
    requires ready { SearchReady asked.now.tables.samples.now asked.now.tables.octants.now (search_in search.old) }
    ensures { search.new
        ≡ search_after
        (siblings_at (bests asked.now.tables.samples.now at.probe) asked.now.tables.samples.now asked.now.tables.octants.now at.probe row at.spot)
        search.old }
{
    let far = at.far();
    for turn in children_in(turns(search.distance, at.spot.near, far)) {
        let next = child_at(asked.tables.octants, row, at.fork.first ^ turn);
        let near = at.sibling_near(far, turn);
        if search.reaches(next, asked.limit, near.sum()) {
            visit(asked, next, at.sibling(near, turn), search);
        }
    }
}

// A split octant: the closest child, and then its siblings. (In a function of its own: in `visit`, what is handed on would be copied in pieces.)
#[cycle(siblings_split_visit)]
fn split(asked: &Asked<'_>, row: u32, at: Crossing, search: &mut Search)
    requires same { at.probe ≡ asked.now.probe }
    requires row_bound { row < octant_limit current asked.now.tables.octants.now }
    requires ready { SearchReady asked.now.tables.samples.now asked.now.tables.octants.now (search_in search.old) }
    ensures { search.new
        ≡ search_after
        (split_at (bests asked.now.tables.samples.now at.probe) asked.now.tables.samples.now asked.now.tables.octants.now at.probe row at.spot)
        search.old }
{
    let next = child_at(asked.tables.octants, row, at.fork.first);
    let to = at.closest();
    if search.reaches(next, asked.limit, to.near.sum()) {
        visit(asked, next, to, search);
    }
    siblings(asked, row, at, search);
}

// Enters the octant in a row: its own samples are measured, or its children are searched.
#[cycle(siblings_split_visit)]
fn visit(asked: &Asked<'_>, row: u32, spot: Spot, search: &mut Search)
    requires stood { (Stood asked.now.probe spot) × (row < octant_limit current asked.now.tables.octants.now) }
    requires ready { SearchReady asked.now.tables.samples.now asked.now.tables.octants.now (search_in search.old) }
    requires search_bound { search.old.entered < octant_limit current asked.now.tables.octants.now }
    ensures { search.new
        ≡ search_after
        (search_at (bests asked.now.tables.samples.now asked.now.probe) asked.now.tables.samples.now asked.now.tables.octants.now asked.now.probe row spot)
        search.old }
{
    search.enter();
    if ends(&asked.tables, false, spot.cube.depth, row) {
        own(&asked.tables, asked.probe, row, search);
        return;
    }
    split(asked, row, Crossing::new(asked.probe, spot), search);
}

// What is found, with its tag: nothing, if the closest is still at the limit. The row is tested before it is read.
fn found_of(samples: &[u32], search: &Search, limit: u64) -> Option<Best>
    ensures { result ≡ found_of samples.now limit (search_in search.now).kept }
{
    if limit <= search.distance {
        return None;
    }
    let row = search.row as usize;
    if row < sample_rows(samples.len()) {
        return Some(Best {
            distance: search.distance,
            row: row as u32,
            tag: tag_of(samples, row),
        });
    }
    Some(Best {
        distance: search.distance,
        row: 0,
        tag: 0,
    })
}

// Nearest over codes: the root is entered if it is there.
#[tactic(auto, unfolding(crate::specs::Best::best_found), using(crate::proofs::Laws::Starting::begin_ready, crate::proofs::Laws::Starting::begin_room, crate::proofs::Laws::Starting::from_root, crate::proofs::Laws::Starting::no_root, traversal::proofs::Laws::Search::Spots::root_stood))]
pub fn nearest(tables: &Tables<'_>, p: Probe, radius: u32) -> Option<Best>
    ensures { result ≡ best_found tables.now.samples.now tables.now.octants.now p radius }
{
    let most = square(radius);
    let mut search = Search::new(most);
    let limit = tables.octant_limit();
    if 0 < limit {
        let asked = Asked {
            tables: *tables,
            probe: p,
            limit,
        };
        visit(&asked, 0, root_spot(p), &mut search);
    }
    found_of(tables.samples, &search, most)
}
