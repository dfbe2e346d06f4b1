// How a region lies to a colour and to an octant. A channel's gap is worked out from the octant's codes, so the closest and the farthest colour are never
// built.
ghost use Rattle.std.specs.Prelude.{◌≡◌, ◌&&◌, ◌+◌, ◌^◌, ◌<◌, ◌≤◌, leb, ltb};
ghost use Rattle.colour.specs.Colour.{distance, greatest_distance};
ghost use Rattle.colour.specs.Octant.{children, Within};
ghost use Rattle.colour.specs.Region.{closest, farthest, holds, overlaps, inside};
ghost use Rattle.colour.specs.Mask.{bit_if, mask_of, overlap_mask};
ghost use Rattle.colour.specs.Nearby.{SmallGaps};
ghost use Rattle.colour.specs.Steps.{closest_square, missed, halves_of, of_channel, child_below, Small};

use crate::distance::{square, squared};
use crate::mask::bit_if;
use crate::nearby::gaps_of;
use crate::octant::Parent;
use crate::span::{Split, spans, splits};
use crate::{Channels, Codes, Colour, Cube, Probe, Region};

// d² from a probe to an octant's closest colour. (Not one function over the gap with the next: its contract would have to say of each channel what the
// gap's does, and be longer than both.)
#[tactic(auto, unfolding(crate::specs::Colour::distance, crate::specs::Colour::sum_of, crate::specs::Region::closest, crate::specs::Colour::colour_by, crate::specs::Colour::code_in, crate::specs::Steps::closest_square))]
pub fn closest_distance(p: Probe, cube: Cube) -> u64
    requires { Within cube }
    ensures is { result ≡ distance p (closest p.centre cube.side cube.low) }
    ensures bounded { result ≤ greatest_distance }
{
    p.centre
        .zip(spans(cube))
        .map(|(x, span)| span.closest_square(x))
        .sum()
}

// d² from a probe to an octant's farthest colour.
#[tactic(auto, unfolding(crate::specs::Colour::distance, crate::specs::Colour::sum_of, crate::specs::Region::farthest, crate::specs::Colour::colour_by, crate::specs::Colour::code_in, crate::specs::Steps::farthest_square))]
pub fn farthest_distance(p: Probe, cube: Cube) -> u64
    requires { Within cube }
    ensures is { result ≡ distance p (farthest p.centre cube.side cube.low) }
    ensures bounded { result ≤ greatest_distance }
{
    p.centre
        .zip(spans(cube))
        .map(|(x, span)| span.farthest_square(x))
        .sum()
}

// Whether a code is in low .. high. `&` and not `&&`: no branch.
fn between(low: u32, x: u16, high: u32) -> bool
    ensures { result ≡ leb low x && leb x high }
{
    let x = u32::from(x);
    (low <= x) & (x <= high)
}

// A box's two colours are passed as `Region::Box` has them, which definitions name: in a struct of both they would be taken apart by `zip` at once.
#[tactic(auto, unfolding(crate::specs::Region::holds, crate::specs::Colour::each, crate::specs::Colour::code_in))]
fn box_holds(low: Colour, high: Colour, c: Codes) -> bool
    ensures { result ≡ holds (Region.Box low high) c }
{
    low.zip(high)
        .zip(c)
        .map(|((low, high), x)| between(low, x, high))
        .every()
}

#[tactic(auto, unfolding(crate::specs::Region::overlaps, crate::specs::Colour::each, crate::specs::Colour::code_in))]
fn box_overlaps(low: Colour, high: Colour, cube: Cube) -> bool
    requires { Within cube }
    ensures { result ≡ overlaps (Region.Box low high) cube.side cube.low }
{
    low.zip(high)
        .zip(spans(cube))
        .map(|((low, high), span)| span.meets(low, high))
        .every()
}

#[tactic(auto, unfolding(crate::specs::Region::inside, crate::specs::Colour::each, crate::specs::Colour::code_in))]
fn box_inside(low: Colour, high: Colour, cube: Cube) -> bool
    requires { Within cube }
    ensures { result ≡ inside (Region.Box low high) cube.side cube.low }
{
    low.zip(high)
        .zip(spans(cube))
        .map(|((low, high), span)| span.lies_in(low, high))
        .every()
}

// Whether a colour is in a region.
#[tactic(auto, unfolding(crate::specs::Region::holds))]
pub fn holds(region: Region, c: Codes) -> bool
    ensures { result ≡ holds region c }
{
    match region {
        Region::Ball(p, radius) => squared(p, c) < square(radius),
        Region::Box(low, high) => box_holds(low, high, c),
    }
}

// Whether some colour of an octant is in a region.
#[tactic(auto, unfolding(crate::specs::Region::overlaps))]
pub fn overlaps(region: Region, cube: Cube) -> bool
    requires { Within cube }
    ensures { result ≡ overlaps region cube.side cube.low }
{
    match region {
        Region::Ball(p, radius) => closest_distance(p, cube) < square(radius),
        Region::Box(low, high) => box_overlaps(low, high, cube),
    }
}

// Whether every colour of an octant is in a ball. An octant's farthest colour is at least half a side away, so most octants need no distance.
#[tactic(auto, unfolding(crate::specs::Region::inside), using(crate::proofs::Laws::Extremes::half_outside, crate::proofs::Laws::Cubes::cube_room))]
fn ball_inside(p: Probe, radius: u32, cube: Cube) -> bool
    requires { Within cube }
    ensures { result ≡ inside (Region.Ball p radius) cube.side cube.low }
{
    if radius <= cube.side / 2 {
        return false;
    }
    farthest_distance(p, cube) < square(radius)
}

// Whether every colour of an octant is in a region.
#[tactic(auto, unfolding(crate::specs::Region::inside))]
pub fn inside(region: Region, cube: Cube) -> bool
    requires { Within cube }
    ensures { result ≡ inside region cube.side cube.low }
{
    match region {
        Region::Ball(p, radius) => ball_inside(p, radius, cube),
        Region::Box(low, high) => box_inside(low, high, cube),
    }
}

// What each half of a channel adds to a child's sum: to the closest d² for a ball, a square of a code at most; 0 or 1 for a box.
// (That they are small is asked where they are added up, and is no ghost field: definitions make halves, and would have to make the proofs with them.)
#[derive(Clone, Copy)]
pub struct Halves {
    pub lower: u64,
    pub upper: u64,
}

// What the halves of a channel add to the closest d² of a ball's centre.
#[tactic(auto, unfolding(crate::specs::Steps::halves_of))]
pub fn closest_squares(x: u16, split: Split) -> Halves
    ensures is { result ≡ halves_of (closest_square x) split.half split.low }
    ensures small { Small result }
{
    Halves {
        lower: split.lower().closest_square(x),
        upper: split.upper().closest_square(x),
    }
}

// What they add for a box: 1 if none of a half's codes is in it.
#[tactic(auto, unfolding(crate::specs::Steps::missed, crate::specs::Steps::halves_of), using(crate::proofs::Laws::Halves::noes_byte, crate::proofs::Laws::Halves::noes_most))]
fn misses(low: u32, high: u32, split: Split) -> Halves
    ensures is { result ≡ halves_of (missed low high) split.half split.low }
    ensures small { Small result }
{
    Halves {
        lower: u64::from(!split.lower().meets(low, high)),
        upper: u64::from(!split.upper().meets(low, high)),
    }
}

// A child's bit.
fn bit(red: u64, green: u64, blue: u64, limit: u64, weight: u32) -> u32
    requires { red + green + blue < 2 ^ 64 }
    ensures is { result ≡ bit_if (ltb (red + green + blue) limit) weight }
    ensures bounded { result ≤ weight }
{
    bit_if(Channels { red, green, blue }.sum() < limit, weight)
}

// The children whose halves add up to less than a limit. The eight sums share the six numbers, and nothing branches.
fn mask(halves: Channels<Halves>, limit: u64) -> u32
    requires { SmallGaps halves }
    ensures is { result ≡ mask_of (child_below (of_channel halves) limit) children }
    ensures bounded { result < 256 }
{
    let Channels { red, green, blue } = halves;
    bit(red.lower, green.lower, blue.lower, limit, 1)
        + bit(red.upper, green.lower, blue.lower, limit, 2)
        + bit(red.lower, green.upper, blue.lower, limit, 4)
        + bit(red.upper, green.upper, blue.lower, limit, 8)
        + bit(red.lower, green.lower, blue.upper, limit, 16)
        + bit(red.upper, green.lower, blue.upper, limit, 32)
        + bit(red.lower, green.upper, blue.upper, limit, 64)
        + bit(red.upper, green.upper, blue.upper, limit, 128)
}

fn ball_overlapping(p: Probe, radius: u32, parent: Parent) -> u32
    ensures is { result ≡ overlap_mask (Region.Ball p radius) parent.half parent.cube.low }
    ensures bounded { result < 256 }
{
    mask(gaps_of(p, parent), square(radius))
}

#[tactic(auto, unfolding(crate::specs::Colour::code_in, crate::specs::Steps::halves_of, crate::specs::Steps::limit_of, crate::specs::Steps::share), using(crate::proofs::Laws::Halves::mask_overlaps))]
fn box_overlapping(low: Colour, high: Colour, parent: Parent) -> u32
    ensures is { result ≡ overlap_mask (Region.Box low high) parent.half parent.cube.low }
    ensures bounded { result < 256 }
{
    let halves = low
        .zip(high)
        .zip(splits(parent))
        .map(|((low, high), split)| misses(low, high, split));
    mask(halves, 1)
}

// The children of a split octant that overlap a region, each a bit of the result.
pub fn overlapping(region: Region, parent: Parent) -> u32
    ensures is { result ≡ overlap_mask region parent.half parent.cube.low }
    ensures bounded { result < 256 }
{
    match region {
        Region::Ball(p, radius) => ball_overlapping(p, radius, parent),
        Region::Box(low, high) => box_overlapping(low, high, parent),
    }
}
