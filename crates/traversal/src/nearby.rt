// How far the children of an octant are from a probe, channel by channel. A probe lies in, or is closest to, one half of each channel: that half is as
// far as the whole octant, and the other, the far half, lies across the middle. So the eight children share six squares, and three are the octant's own.
ghost use Rattle.std.specs.Prelude.{◌+◌, ◌<◌, ◌≤◌, ◌≡◌, leb};
ghost use Rattle.colour.specs.Mask.{bit_if};
ghost use Rattle.traversal.specs.Nearby.{far_square, far_of, turned_by, turn_mask, NearFar};

use colour::distance::square;
use colour::mask::{bit_if, by_bit};
use colour::octant::Parent;
use colour::{Channels, Probe};

// What each channel adds to a d².
pub type Squares = Channels<u64>;

// The square of how far a code is from the far half: one of the two differences is 0. Nothing branches, since in which half a centre lies can't be foreseen.
#[tactic(auto, unfolding(crate::specs::Nearby::far_square), using(crate::proofs::Laws::Nearby::far_apart))]
fn far_square(x: u16, middle: u32) -> u64
    requires { middle ≤ 65536 }
    ensures { result ≡ far_square x middle }
{
    let x = u32::from(x);
    square((x + 1).saturating_sub(middle) + middle.saturating_sub(x))
}

// What the far halves of a split octant add.
#[tactic(auto, using(colour::proofs::Laws::Cubes::parent_room), unfolding(crate::specs::Nearby::far_of, crate::specs::Nearby::squares_by, colour::specs::Colour::code_in))]
pub fn far_of(p: Probe, parent: Parent) -> Squares
    ensures { result ≡ far_of p parent.half parent.cube.low }
{
    let low = parent.cube.low;
    let half = parent.half;
    p.centre
        .zip(low)
        .map(|(x, from)| far_square(x, from + half))
}

// At turn m: the far half in the channels of the bits of m.
#[tactic(auto, using(crate::proofs::Laws::Nearby::turned_is))]
pub fn turned(near: Squares, far: Squares, m: u32) -> Squares
    ensures { result ≡ turned_by near far m }
{
    Squares {
        red: by_bit(m % 2, near.red, far.red),
        green: by_bit(m / 2 % 2, near.green, far.green),
        blue: by_bit(m / 4 % 2, near.blue, far.blue),
    }
}

// The weight if three squares add up to no more than the most, else 0. (`colour::overlap` has a mask of its own: there a sum must be below a limit, and
// here one past the most may not fit 64 bits; here turn 0 is left out. One function for both would be lent the sum, the test and the first child.)
fn within(red: u64, green: u64, blue: u64, most: u64, weight: u32) -> u32
    requires { (red ≤ 4294967296) × ((green ≤ 4294967296) × (blue ≤ 4294967296)) }
    ensures is { result ≡ bit_if (leb (red + green + blue) most) weight }
    ensures bounded { result ≤ weight }
{
    bit_if(red + green + blue <= most, weight)
}

// The turns past the first whose children are no farther than the most, each a bit. Nothing branches.
#[tactic(auto, using(crate::proofs::Laws::Nearby::turn_bits))]
fn turns_within(most: u64, near: Squares, far: Squares) -> u32
    requires { NearFar near far }
    ensures { result ≡ turn_mask most near far }
{
    within(far.red, near.green, near.blue, most, 2)
        + within(near.red, far.green, near.blue, most, 4)
        + within(far.red, far.green, near.blue, most, 8)
        + within(near.red, near.green, far.blue, most, 16)
        + within(far.red, near.green, far.blue, most, 32)
        + within(near.red, far.green, far.blue, most, 64)
        + within(far.red, far.green, far.blue, most, 128)
}

// The same, with an early return: most octants have no such sibling, since each lies in a far half. The test is strict, because at the same d² an octant in a
// lower row comes first. (What the octant itself adds is left out: mostly it is nothing, and of a hundred octants at most 6 more would turn back here.)
pub fn turns(most: u64, near: Squares, far: Squares) -> u32
    requires { NearFar near far }
    ensures { result ≡ turn_mask most near far }
{
    let least = far.red.min(far.green).min(far.blue);
    if most < least {
        return 0;
    }
    turns_within(most, near, far)
}
