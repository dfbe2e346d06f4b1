// Both tables rebuilt from the samples in the first rows: what a build costs by itself, to be measured and compared. Not in the header.
#![tactic(auto)]

ghost use Rattle.colour.specs.Refusal.{answer_number};
ghost use Rattle.model.specs.Tables.{tables_lent, tables_left};
ghost use Rattle.rebuild.specs.Questions.{RebuildMeets};

use colour::Settings;
use colour::refusal::{Refusal, number_of};
use samples::rebuild::rebuild;
use words::layout::{long_enough, sample_rows, settings_fit};

// Questions 1, 3 and 6, and then the rebuild, which asks 4 and 7. (A clear asks 1 and 3 too: two tests, which a function for both would be as long as.)
fn rebuild_tables(
    samples: &mut [u32],
    octants: &mut [u32],
    settings: Settings,
    n: usize,
) -> Result<(), Refusal>
    ensures { RebuildMeets settings n (tables_lent samples octants) (answer_number result) (tables_left samples octants) }
{
    if !long_enough(samples.len(), octants.len()) {
        return Err(Refusal::TooShort);
    }
    if !settings_fit(settings) {
        return Err(Refusal::Bucket);
    }
    if sample_rows(samples.len()) < n {
        return Err(Refusal::NoRow);
    }
    rebuild(samples, octants, settings, n)
}

// Rebuilds both tables from the samples in the first n rows: 0, or the number of the first no of 1, 3, 6, 4, 7. (A number, since C takes no other answer.)
#[unsafe(no_mangle)]
pub extern "C" fn hbx_rebuild(
    samples: &mut [u32],
    octants: &mut [u32],
    bucket: u32,
    n: usize,
) -> u32
    ensures { RebuildMeets (record { bucket = bucket }) n (tables_lent samples octants) result (tables_left samples octants) }
{
    number_of(rebuild_tables(samples, octants, Settings { bucket }, n))
}
