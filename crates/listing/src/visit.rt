// The traversal: it recurses through octants, the depth left falling, and serves ball and box alike. What the listing has no room for is
// counted and not written.
ghost use Rattle.std.specs.Prelude.{◌-◌, ◌<◌, ◌≤◌, ◌≡◌};
ghost use Rattle.colour.specs.Octant.{Within};
ghost use Rattle.model.specs.Layout.{current};
ghost use Rattle.words.specs.Rows.{octant_limit, sample_budget};
ghost use Rattle.listing.specs.Pass.{no_tally, own_samples, visit_of, pass_of};
ghost use Rattle.listing.specs.Steps.{tally_of, tally_in, TallyWithin, Counting, Visited};

use crate::follow::follow;
use crate::tally::Tally;
use colour::octant::{child, parent_of, root};
use colour::overlap::{inside, overlapping, overlaps};
use colour::{Cube, Region};
use traversal::children::children_in;
use traversal::octant::{child_at, ends, most};
use words::layout::octant_first;
use words::tables::Tables;

// An entered octant's own samples.
fn own_samples(
    tables: &Tables<'_>,
    region: &Region,
    whole: bool,
    row: u32,
    listing: &mut [u32],
    tally: &mut Tally,
)
    requires counting { Counting tables.now.samples.now tables.now.octants.now tally.old }
    requires row_bound { row < octant_limit current tables.now.octants.now }
    ensures { Visited
        (own_samples tables.now.samples.now tables.now.octants.now region.now whole row (tally_in tally.old))
        tally.old listing.old tally.new listing.new }
{
    let most = most(tables, row, tally.visited);
    let run = follow(
        tables.samples,
        *region,
        whole,
        octant_first(tables.octants, row),
        most,
        listing,
        tally.listed,
    );
    tally.count(whole, run.seen, run.end);
}

// Enters the octant in a row. (The region goes by reference: by value each call would copy it, in pieces that are read before they are there.)
fn visit(
    tables: &Tables<'_>,
    region: &Region,
    row: u32,
    cube: Cube,
    listing: &mut [u32],
    tally: &mut Tally,
)
    requires within { Within cube }
    requires counting { Counting tables.now.samples.now tables.now.octants.now tally.old }
    requires next_bound { (tally.old.next ≤ row) × (row < octant_limit current tables.now.octants.now) }
    ensures { Visited
        (visit_of tables.now.samples.now tables.now.octants.now region.now (16 - cube.depth) row cube.low (tally_in tally.old))
        tally.old listing.old tally.new listing.new }
{
    tally.enter(row);
    let whole = inside(*region, cube);
    if ends(tables, whole, cube.depth, row) {
        own_samples(tables, region, whole, row, listing, tally);
        return;
    }
    let limit = tables.octant_limit();
    let parent = parent_of(cube);
    for k in children_in(overlapping(*region, parent)) {
        let next = child_at(tables.octants, row, k);
        if tally.may_enter(next, limit) {
            visit(tables, region, next, child(parent, k), listing, tally);
        }
    }
}

// A whole pass, with a fresh tally: the root is entered if it is there and overlaps.
pub fn pass(tables: &Tables<'_>, region: &Region, listing: &mut [u32], tally: &mut Tally)
    requires blank { tally.old ≡ tally_of 0 no_tally }
    ensures visited { Visited
        (pass_of tables.now.samples.now tables.now.octants.now region.now)
        tally.old listing.old tally.new listing.new }
    ensures bounded { TallyWithin
        (sample_budget current tables.now.samples.now) (octant_limit current tables.now.octants.now) (tally_in tally.new) }
{
    let limit = tables.octant_limit();
    let all = root();
    if tally.may_enter(0, limit) {
        if overlaps(*region, all) {
            visit(tables, region, 0, all, listing, tally);
        }
    }
}
