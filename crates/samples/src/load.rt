// Load: the lines of a sheet, in turn, up to the first refused.
ghost use Rattle.std.specs.Prelude.{◌≤◌, length};
ghost use Rattle.sheet.specs.Sheet.{line_start};
ghost use Rattle.model.specs.Layout.{current, sample_rows};
ghost use Rattle.model.specs.Tables.{tables_lent, tables_left};
ghost use Rattle.model.specs.Machine.{Change, Load};
ghost use Rattle.model.specs.Meets.{Meets};
ghost use Rattle.samples.specs.Answers.{loaded_answer};
ghost use Rattle.samples.specs.Steps.{Acceptable, Longest, Stopped};

use crate::answers::Stop;
use crate::find::row_for;
use crate::rebuild::{acceptable, rebuild};
use crate::rows::put_lines;
use crate::sound::sound;
use colour::Settings;
use colour::refusal::Refusal;
use sheet::header::{line_at, read_header};
use words::layout::{count as count_of, settings as settings_of};

// The most of the first rows, from `low` to `high`, that are a set which fits. As samples are added tags stay known and octants do not
// get fewer, so halving finds the end; usually all rows fit, and that is asked first. (The loop is by hand: the bounds come to meet from both sides, which
// no iterator does, and `partition_point` halves slices only.)
fn longest(samples: &[u32], octants: usize, settings: Settings, low: usize, high: usize) -> usize
    requires { (low ≤ high) × (high ≤ sample_rows current (length samples.now))
        × (Acceptable settings samples.now octants low) }
    ensures { Longest settings samples.now octants low high result }
{
    if acceptable(samples, octants, settings, high) {
        return high;
    }
    let mut good = low;
    let mut bad = high;
    while good + 1 < bad {
        let middle = good + (bad - good) / 2;
        if acceptable(samples, octants, settings, middle) {
            good = middle;
        } else {
            bad = middle;
        }
    }
    good
}

// Why a load ends at line `taken`, with n samples in the set: the first no of 12, 5 and 6 there, else 7; or that the sheet ends.
fn stopped(samples: &[u32], n: usize, sheet: &[u8], lines: usize, taken: usize) -> Result<u32, Stop>
    requires { (n ≤ sample_rows current (length samples.now)) × (taken ≤ n) × (taken ≤ lines)
        × (line_start lines ≤ length sheet.now) }
    ensures { Stopped n samples.now sheet.now lines taken result }
{
    let so_far = taken as u32;
    if lines <= taken {
        return Ok(so_far);
    }
    let stop = |refusal| Stop {
        refusal,
        taken: so_far,
    };
    let line = line_at(sheet, taken).map_err(stop)?;
    row_for(samples, n, line.sample.tag).map_err(stop)?;
    Err(stop(Refusal::NoOctants))
}

// Loads a sheet: questions 1, 2 and 11, and then its lines. All that can be rows become rows, and one tree is built: that of the longest run of them
// that is a set which fits.
pub fn load(samples: &mut [u32], octants: &mut [u32], sheet: &[u8]) -> Result<u32, Stop>
    ensures { Meets (Change (Load sheet.now)) (tables_lent samples octants)
        (loaded_answer result) (tables_left samples octants) }
{
    sound(samples, octants)?;
    let lines = read_header(sheet)?;
    let settings = settings_of(samples);
    let n = count_of(samples) as usize;
    let put = put_lines(samples, n, sheet, lines);
    let kept = longest(samples, octants.len(), settings, n, n + put);
    let answer = stopped(samples, kept, sheet, lines, kept - n);
    let _ = rebuild(samples, octants, settings, kept);
    answer
}
