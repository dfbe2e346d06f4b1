// The squared distance of a colour from a probe, in 64 bits: three squares of codes do not fit 32.
ghost use Rattle.std.specs.Prelude.{pos, ◌-ℤ◌, ◌≡◌, ◌*◌, ◌≤◌};
ghost use Rattle.colour.specs.Colour.{apart, distance, greatest_distance};

use crate::{Codes, Probe};

// Any 32-bit number's square fits 64 bits.
pub fn square(x: u32) -> u64
    ensures { result ≡ x * x }
{
    let wide = u64::from(x);
    wide * wide
}

// The difference of two codes, which is less than 0 if the second is the greater.
fn difference(x: u16, y: u16) -> i64
    ensures { result ≡ pos x -ℤ pos y }
{
    i64::from(x) - i64::from(y)
}

// Its square. A sign is gone in it, so nothing needs to know which code is the greater.
#[tactic(auto, using(crate::proofs::Laws::Distance::apart_most, crate::proofs::Laws::Distance::apart_squared, crate::proofs::Laws::Distance::square_most))]
fn apart_square(x: u16, y: u16) -> u64
    ensures is { result ≡ apart x y * apart x y }
    ensures bounded { result ≤ 4294836225 }
{
    let apart = difference(x, y);
    (apart * apart) as u64
}

// d² of a colour from a probe.
#[tactic(auto, unfolding(crate::specs::Colour::distance, crate::specs::Colour::sum_of, crate::specs::Colour::code_in))]
pub fn squared(p: Probe, c: Codes) -> u64
    ensures is { result ≡ distance p c }
    ensures bounded { result ≤ greatest_distance }
{
    p.centre.zip(c).map(|(x, y)| apart_square(x, y)).sum()
}
