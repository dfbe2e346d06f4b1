// Questions 1 and 2, which every call that changes a set but clear asks first.
ghost use Rattle.std.specs.Prelude.{[], ◌∷◌, ◌≡◌, is_ok};
ghost use Rattle.colour.specs.Question.{asks, first_no};
ghost use Rattle.colour.specs.Refusal.{answer_number};
ghost use Rattle.model.specs.Layout.{current};
ghost use Rattle.model.specs.Tables.{tables_read};
ghost use Rattle.model.specs.Sound.{long_enough};
ghost use Rattle.model.specs.Meets.{CheckMeets};

use colour::refusal::Refusal;
use octree::tables::check;
use words::layout::long_enough;

// Are the tables long enough, and those of some set? (It gives no value that goes on with the fact: the call writes the two tables, and after
// the first write they are of no set until both are rebuilt.)
#[tactic(auto, unfolding(model::specs::Sound::long_enough), using(colour::proofs::Laws::Questions::alone_yes, colour::proofs::Laws::Questions::first_no_lem, colour::proofs::Laws::Questions::first_yes, octree::proofs::Laws::Tables::Check::too_short))]
pub fn sound(samples: &[u32], octants: &[u32]) -> Result<(), Refusal>
    ensures set { CheckMeets (tables_read samples octants) (is_ok result) }
    ensures number { answer_number result
        ≡ first_no (asks 1 (long_enough current (tables_read samples octants)) ∷ asks 2 (is_ok result) ∷ []) }
{
    if !long_enough(samples.len(), octants.len()) {
        return Err(Refusal::TooShort);
    }
    if !check(samples, octants) {
        return Err(Refusal::Unsound);
    }
    Ok(())
}
