// Add: a sample at the end of the set.
ghost use Rattle.model.specs.Tables.{tables_lent, tables_left};
ghost use Rattle.model.specs.Machine.{Change, Add};
ghost use Rattle.model.specs.Meets.{Meets};
ghost use Rattle.samples.specs.Answers.{changed_answer};
ghost use Rattle.samples.specs.Steps.{FollowsAll, Adding};

use crate::find::row_for;
use crate::rebuild::rebuild;
use crate::sound::sound;
use colour::refusal::Refusal;
use colour::{Codes, Colour, Sample};
use words::layout::{count as count_of, put_sample, settings as settings_of};

// What stands in a row with no sample.
const EMPTY: Sample = Sample {
    tag: 0,
    colour: Colour {
        red: 0,
        green: 0,
        blue: 0,
    },
};

// Question 7 and the add itself, for a sample that every question before it accepts: its row is filled, and emptied again where the tree
// does not fit.
fn add_in_row(samples: &mut [u32], octants: &mut [u32], n: usize, s: Sample) -> Result<(), Refusal>
    requires { Adding s n samples.old octants.old }
    ensures { FollowsAll (Add s) (tables_lent samples octants) (changed_answer result) (tables_left samples octants) }
{
    let settings = settings_of(samples);
    put_sample(samples, n, s);
    let Ok(()) = rebuild(samples, octants, settings, n + 1) else {
        put_sample(samples, n, EMPTY);
        return Err(Refusal::NoOctants);
    };
    Ok(())
}

// Adds a sample: questions 1 and 2, 4, 5 and 6, and then the rest.
pub fn add(samples: &mut [u32], octants: &mut [u32], s: Sample) -> Result<(), Refusal>
    ensures { Meets (Change (Add s)) (tables_lent samples octants) (changed_answer result) (tables_left samples octants) }
{
    sound(samples, octants)?;
    Codes::try_from(s.colour)?;
    let n = count_of(samples) as usize;
    row_for(samples, n, s.tag)?;
    add_in_row(samples, octants, n, s)
}
