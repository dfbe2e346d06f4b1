// Remove: the sample with a tag out of the set.
ghost use Rattle.model.specs.Tables.{tables_lent, tables_left};
ghost use Rattle.model.specs.Machine.{Change, Remove};
ghost use Rattle.model.specs.Meets.{Meets};
ghost use Rattle.samples.specs.Answers.{changed_answer};

use crate::find::row_of;
use crate::rebuild::rebuild;
use crate::rows::close_row;
use crate::sound::sound;
use colour::refusal::Refusal;
use words::layout::{count as count_of, settings as settings_of};

// Removes the sample with a tag: questions 1, 2 and 8, and the removal. Fewer samples have no more octants, so that the tables of the others fit.
pub fn remove(samples: &mut [u32], octants: &mut [u32], tag: u32) -> Result<(), Refusal>
    ensures { Meets (Change (Remove tag)) (tables_lent samples octants) (changed_answer result) (tables_left samples octants) }
{
    sound(samples, octants)?;
    let settings = settings_of(samples);
    let n = count_of(samples) as usize;
    let row = row_of(samples, n, tag).ok_or(Refusal::UnknownTag)?;
    close_row(samples, row, n);
    let _ = rebuild(samples, octants, settings, n - 1);
    Ok(())
}
