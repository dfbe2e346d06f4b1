// The children in a mask, least first.
ghost use Rattle.std.specs.Prelude.{◌≡◌};
ghost use Rattle.std.specs.Iterator.{YieldsFirst, item_count};
ghost use Rattle.traversal.specs.Places.{children_in};

use colour::mask::{first, without};

// Those that are still to come.
#[derive(Drop)]
pub struct Children {
    left: u32,
}

// All of a mask.
pub fn children_in(mask: u32) -> Children
    ensures { children_in result.left ≡ children_in mask }
{
    Children { left: mask }
}

impl Iterator for Children {
    type Item = u32;

    ghost next_gives = { YieldsFirst (λ c. children_in c.left) };

    ghost remaining = { item_count (λ c. children_in c.left) };

    #[tactic(auto, using(crate::proofs::Laws::Places::children_none, crate::proofs::Laws::Places::first_child))]
    fn next(&mut self) -> Option<u32> {
        if self.left == 0 {
            return None;
        }
        let k = first(self.left);
        self.left = without(self.left, k);
        Some(k)
    }
}
