// How far the children of an octant are from a probe, and which of them it is closest to. The eight distances share six squares.
ghost use Rattle.std.specs.Prelude.{◌<◌, ◌≡◌};
ghost use Rattle.colour.specs.Nearby.{closest_child, gaps_of, SmallGaps};

use crate::octant::Parent;
use crate::overlap::{Halves, closest_squares};
use crate::span::splits;
use crate::{Channels, Codes, Probe};

// What each half of each channel adds to the closest d² of the children of a split octant.
#[tactic(auto, unfolding(crate::specs::Nearby::gaps_of))]
pub fn gaps_of(p: Probe, parent: Parent) -> Channels<Halves>
    ensures is { result ≡ gaps_of p parent.half parent.cube.low }
    ensures small { SmallGaps result }
{
    p.centre
        .zip(splits(parent))
        .map(|(x, split)| closest_squares(x, split))
}

// The child that a colour lies in or is closest to.
#[tactic(auto, unfolding(crate::specs::Nearby::closest_child, crate::specs::Colour::sum_of, crate::specs::Colour::code_in, crate::specs::Octant::bit_weight))]
pub fn closest_child(c: Codes, parent: Parent) -> u32
    ensures is { result ≡ closest_child c parent.half parent.cube.low }
    ensures bounded { result < 8 }
{
    let splits = splits(parent);
    splits.red.upper_bit(c.red, 1)
        + splits.green.upper_bit(c.green, 2)
        + splits.blue.upper_bit(c.blue, 4)
}
