// Clear: the tables of the empty set.
ghost use Rattle.model.specs.Tables.{tables_lent, tables_left};
ghost use Rattle.model.specs.Machine.{Clear};
ghost use Rattle.model.specs.Meets.{Meets};
ghost use Rattle.samples.specs.Answers.{changed_answer};

use colour::Settings;
use colour::refusal::Refusal;
use octree::tables::write;
use words::layout::{long_enough, settings_fit};

// Empties the set and gives it settings, whatever words the tables held.
pub fn clear(samples: &mut [u32], octants: &mut [u32], settings: Settings) -> Result<(), Refusal>
    ensures { Meets (Clear settings) (tables_lent samples octants) (changed_answer result) (tables_left samples octants) }
{
    if !long_enough(samples.len(), octants.len()) {
        return Err(Refusal::TooShort);
    }
    if !settings_fit(settings) {
        return Err(Refusal::Bucket);
    }
    write(samples, octants, settings, &[]);
    Ok(())
}
