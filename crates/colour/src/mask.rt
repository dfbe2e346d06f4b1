// The children in a mask, taken out one after the other, the bits that make one, and a choice by a bit.
ghost use Rattle.std.specs.Prelude.{◌≡◌, ◌-◌, ◌^◌, ◌<◌, ◌≤◌};
ghost use Rattle.std.specs.Int.Count.{count_trailing_zeros};
ghost use Rattle.colour.specs.Mask.{bit_if, by_bit};

// The least child in a mask that is not 0.
pub fn first(mask: u32) -> u32
    requires { mask ≡ 0 → ⊥ }
    ensures { result ≡ count_trailing_zeros 32 mask }
{
    mask.trailing_zeros()
}

// The mask without child k, which is in it.
pub fn without(mask: u32, k: u32) -> u32
    requires { (k < 32) × (2 ^ k ≤ mask) }
    ensures { result ≡ mask - 2 ^ k }
{
    mask - (1 << k)
}

// A bit of that weight if a test holds, else 0.
#[tactic(auto, unfolding(crate::specs::Mask::bit_if))]
pub fn bit_if(test: bool, weight: u32) -> u32
    ensures is { result ≡ bit_if test weight }
    ensures bounded { result ≤ weight }
{
    if test { weight } else { 0 }
}

// The first if a bit is 0, else the second. (It is used channel by channel, of halves that lie side by side and of squares that lie apart: a method for three
// channels would need both put together first.)
#[tactic(auto, unfolding(crate::specs::Mask::by_bit))]
pub fn by_bit<T: Copy>(bit: u32, lower: T, upper: T) -> T
    ensures { result ≡ by_bit bit lower upper }
{
    if bit == 0 { lower } else { upper }
}
