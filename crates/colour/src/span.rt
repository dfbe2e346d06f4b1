// The codes that an octant has in one channel.
ghost use Rattle.std.specs.Prelude.{◌≡◌, ◌&&◌, ◌+◌, ◌*◌, ◌/◌, ◌%◌, ◌<◌, ◌≤◌, leb};
ghost use Rattle.colour.specs.Colour.{apart};
ghost use Rattle.colour.specs.Octant.{last_code, Within};
ghost use Rattle.colour.specs.Region.{closest_code, farthest_code};
ghost use Rattle.colour.specs.Mask.{bit_if};
ghost use Rattle.colour.specs.Steps.{closest_square, farthest_square};

use crate::distance::square;
use crate::mask::bit_if;
use crate::octant::Parent;
use crate::{Channels, Cube};

// A run of codes: low .. low + side - 1.
#[derive(Clone, Copy)]
pub struct Span {
    pub low: u32,
    pub side: u32,
    ghost some: { 1 ≤ side },
    ghost fits: { low + side ≤ 65536 },
}

impl Span {
    fn new(low: u32, side: u32) -> Span
        requires { (1 ≤ side) × (low + side ≤ 65536) }
        ensures low { result.low ≡ low }
        ensures side { result.side ≡ side }
    {
        Span { low, side }
    }

    // The last of them.
    #[tactic(auto, unfolding(crate::specs::Octant::last_code))]
    fn last(self) -> u32
        ensures { result ≡ last_code self.side self.low }
    {
        self.low + self.side - 1
    }

    // How far x is from the closest: one of the two differences is 0. Nothing branches, since on which side of an octant a centre lies can't be foreseen.
    #[tactic(auto, unfolding(crate::specs::Octant::last_code), using(crate::proofs::Laws::Gaps::closest_apart))]
    fn closest_gap(self, x: u16) -> u32
        ensures is { result ≡ apart x (closest_code self.low (last_code self.side self.low) x) }
        ensures bounded { result ≤ 65535 }
    {
        let x = u32::from(x);
        self.low.saturating_sub(x) + x.saturating_sub(self.last())
    }

    // How far x is from the farthest, which is the first or the last.
    #[tactic(auto, unfolding(crate::specs::Colour::apart, crate::specs::Octant::last_code), using(crate::proofs::Laws::Gaps::farthest_apart))]
    fn farthest_gap(self, x: u16) -> u32
        ensures is { result ≡ apart x (farthest_code self.low (last_code self.side self.low) x) }
        ensures bounded { result ≤ 65535 }
    {
        let x = u32::from(x);
        x.abs_diff(self.low).max(x.abs_diff(self.last()))
    }

    // Their squares. (Of 64 bits: those of 32 bits would be worked out two at a time, by a slow multiplication, and searches took 1.2 times as long.)
    #[tactic(auto, unfolding(crate::specs::Steps::closest_square))]
    pub(crate) fn closest_square(self, x: u16) -> u64
        ensures is { result ≡ closest_square x self.side self.low }
        ensures bounded { result ≤ 4294836225 }
    {
        square(self.closest_gap(x))
    }

    #[tactic(auto, unfolding(crate::specs::Steps::farthest_square))]
    pub(crate) fn farthest_square(self, x: u16) -> u64
        ensures is { result ≡ farthest_square x self.side self.low }
        ensures bounded { result ≤ 4294836225 }
    {
        square(self.farthest_gap(x))
    }

    // Whether some of them are in low .. high. `&` and not `&&`: no branch.
    pub(crate) fn meets(self, low: u32, high: u32) -> bool
        ensures { result ≡ leb low (last_code self.side self.low) && leb self.low high }
    {
        (low <= self.last()) & (self.low <= high)
    }

    // Whether all are.
    pub(crate) fn lies_in(self, low: u32, high: u32) -> bool
        ensures { result ≡ leb low self.low && leb (last_code self.side self.low) high }
    {
        (low <= self.low) & (self.last() <= high)
    }
}

// An octant's codes, channel by channel.
#[tactic(auto, using(crate::proofs::Laws::Cubes::cube_room))]
pub(crate) fn spans(cube: Cube) -> Channels<Span>
    requires { Within cube }
    ensures red { (result.red.low ≡ cube.low.red) × (result.red.side ≡ cube.side) }
    ensures green { (result.green.low ≡ cube.low.green) × (result.green.side ≡ cube.side) }
    ensures blue { (result.blue.low ≡ cube.low.blue) × (result.blue.side ≡ cube.side) }
{
    cube.low.map(|low| Span::new(low, cube.side))
}

// The codes of a split octant: low .. low + half - 1 are its lower children's, and as many after them its upper ones'.
#[derive(Clone, Copy)]
pub struct Split {
    pub low: u32,
    pub half: u32,
    ghost some: { 1 ≤ half },
    ghost fits: { low + (half + half) ≤ 65536 },
}

impl Split {
    fn new(low: u32, half: u32) -> Split
        requires { (1 ≤ half) × (low + (half + half) ≤ 65536) }
        ensures low { result.low ≡ low }
        ensures half { result.half ≡ half }
    {
        Split { low, half }
    }

    // The first code of the upper half.
    fn middle(self) -> u32
        ensures { result ≡ self.low + self.half }
    {
        self.low + self.half
    }

    // The two halves.
    pub(crate) fn lower(self) -> Span
        ensures low { result.low ≡ self.low }
        ensures side { result.side ≡ self.half }
    {
        Span::new(self.low, self.half)
    }

    pub(crate) fn upper(self) -> Span
        ensures low { result.low ≡ self.low + self.half }
        ensures side { result.side ≡ self.half }
    {
        Span::new(self.middle(), self.half)
    }

    // The least code of child k, in the channel of that weight: bit 1 is the upper half.
    pub(crate) fn child_code(self, k: u32, weight: u32) -> u32
        requires { 1 ≤ weight }
        ensures { result ≡ self.low + k / weight % 2 * self.half }
    {
        self.low + k / weight % 2 * self.half
    }

    // The weight if a code is in the upper half, or past it, else 0.
    pub(crate) fn upper_bit(self, x: u16, weight: u32) -> u32
        ensures is { result ≡ bit_if (leb (self.low + self.half) x) weight }
        ensures bounded { result ≤ weight }
    {
        bit_if(self.middle() <= u32::from(x), weight)
    }
}

// A split octant's codes, channel by channel.
#[tactic(auto, using(crate::proofs::Laws::Cubes::parent_room))]
pub(crate) fn splits(parent: Parent) -> Channels<Split>
    ensures red { (result.red.low ≡ parent.cube.low.red) × (result.red.half ≡ parent.half) }
    ensures green { (result.green.low ≡ parent.cube.low.green) × (result.green.half ≡ parent.half) }
    ensures blue { (result.blue.low ≡ parent.cube.low.blue) × (result.blue.half ≡ parent.half) }
{
    parent.cube.low.map(|low| Split::new(low, parent.half))
}
