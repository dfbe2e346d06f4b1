// The samples of an octant, by their next words. Nothing is trusted: a code is brought into range.
ghost use Rattle.std.specs.Prelude.{◌+◌, ◌≤◌, ◌<◌, ◌≡◌, length, set};
ghost use Rattle.model.specs.Layout.{current, sample_rows};
ghost use Rattle.listing.specs.Pass.{takes};
ghost use Rattle.listing.specs.Steps.{Followed};

use colour::overlap::holds;
use colour::{Region, wrapped};
use traversal::rows::rows_from;
use words::layout::{colour as colour_of, tag as tag_of};

// What a run of samples came to: where the listing then ends, and how many samples it saw.
#[derive(Clone, Copy)]
pub struct Run {
    pub end: u32,
    pub seen: u32,
}

// Whether the sample in a row is listed: always if its octant is taken whole, and otherwise if the region holds it. (`whole` is no
// Option of a region: the octant is passed and counted by it also if no sample is measured.)
#[tactic(auto, unfolding(crate::specs::Pass::takes, words::specs::Rows::sample_in))]
fn takes(samples: &[u32], region: Region, whole: bool, row: usize) -> bool
    requires { row < sample_rows current (length samples.now) }
    ensures { result ≡ takes samples.now region whole row }
{
    if whole {
        return true;
    }
    holds(region, wrapped(colour_of(samples, row)))
}

// Stores a tag where the listing reaches so far.
fn put(listing: &mut [u32], at: u32, tag: u32)
    ensures { listing.new ≡ set listing.old at tag }
{
    let place = at as usize;
    if place < listing.len() {
        listing[place] = tag;
    }
}

// Goes through count samples at most, from row first on, and lists from a start on. (8192 is twice the most samples: no sum overflows.)
pub fn follow(
    samples: &[u32],
    region: Region,
    whole: bool,
    first: u32,
    count: u32,
    listing: &mut [u32],
    start: u32,
) -> Run
    requires { start + count ≤ 8192 }
    ensures { Followed samples.now region whole first count start listing.old result listing.new }
{
    let mut seen: u32 = 0;
    let mut end = start;
    for row in rows_from(samples, first, count) {
        seen += 1;
        if takes(samples, region, whole, row) {
            put(listing, end, tag_of(samples, row));
            end += 1;
        }
    }
    Run { end, seen }
}
