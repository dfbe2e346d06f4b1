// Both tables from the samples in the first rows: what add, remove and load end with.
ghost use Rattle.std.specs.Prelude.{◌≤◌, true, ◌↔◌, ◌≡◌, length};
ghost use Rattle.model.specs.Layout.{current, sample_rows};
ghost use Rattle.model.specs.Tables.{tables_lent, tables_left};
ghost use Rattle.colour.specs.Refusal.{answer_number};
ghost use Rattle.samples.specs.Rebuilding.{room_asked, codes_asked, Rebuilt, Space, Entered};
ghost use Rattle.samples.specs.Steps.{Acceptable};

use colour::Settings;
use colour::refusal::Refusal;
use octree::tables::{judge, write};
use order::entry::fill;
use order::tags::all_apart;
use words::layout::MOST_SAMPLES;

// Writes the tables of the samples whose entries, by arrival, are lent, where they fit. (Entries and scratch are two slices: below, a part of the one goes
// down with all of the other, `order::order`.)
fn write_fitting(
    samples: &mut [u32],
    octants: &mut [u32],
    settings: Settings,
    entries: &mut [u64],
    scratch: &mut [u64],
) -> Result<(), Refusal>
    requires { Entered samples.old octants.old entries.old (length scratch.old) }
    ensures { Rebuilt (room_asked settings (length entries.old) (tables_lent samples octants))
        settings (length entries.old) (tables_lent samples octants) (answer_number result) (tables_left samples octants) }
{
    judge(entries, scratch, settings, samples.len(), octants.len())?;
    write(samples, octants, settings, entries);
    Ok(())
}

// The same, for the samples in the first rows, as many as there are places for entries.
fn rebuild_rows(
    samples: &mut [u32],
    octants: &mut [u32],
    settings: Settings,
    entries: &mut [u64],
    scratch: &mut [u64],
) -> Result<(), Refusal>
    requires { Space samples.old octants.old (length entries.old) (length scratch.old) }
    ensures { Rebuilt (codes_asked settings (length entries.old) (tables_lent samples octants))
        settings (length entries.old) (tables_lent samples octants) (answer_number result) (tables_left samples octants) }
{
    fill(samples, entries)?;
    write_fitting(samples, octants, settings, entries, scratch)
}

// Writes the tables of the samples in the first n rows; or refuses by the first no of 4 and 7, and then nothing is written.
pub fn rebuild(
    samples: &mut [u32],
    octants: &mut [u32],
    settings: Settings,
    n: usize,
) -> Result<(), Refusal>
    requires { Space samples.old octants.old n 4096 }
    ensures { Rebuilt (codes_asked settings n (tables_lent samples octants))
        settings n (tables_lent samples octants) (answer_number result) (tables_left samples octants) }
{
    let mut entries = [0u64; MOST_SAMPLES];
    let mut scratch = [0u64; MOST_SAMPLES];
    rebuild_rows(samples, octants, settings, &mut entries[..n], &mut scratch)
}

// Whether the samples in the first rows, as many as there are places for entries, are a set whose tree fits that many octant words. (The first two tests are
// those of a check too, `octree::tables::hold`: two calls, which a function for both would be as long as.)
fn rows_accepted(
    samples: &[u32],
    octants: usize,
    settings: Settings,
    entries: &mut [u64],
    scratch: &mut [u64],
) -> bool
    requires { (length entries.old ≤ sample_rows current (length samples.now))
        × (length entries.old ≤ length scratch.old) }
    ensures { (result ≡ true) ↔ (Acceptable settings samples.now octants (length entries.old)) }
{
    if !all_apart(samples, entries, scratch) {
        return false;
    }
    if fill(samples, entries).is_err() {
        return false;
    }
    judge(entries, scratch, settings, samples.len(), octants).is_ok()
}

// The same for the samples in the first n rows.
#[tactic(auto, using(crate::proofs::Laws::Accepted::accepted_lent, octree::proofs::Laws::Tables::Check::places_first, words::proofs::Laws::Layout::Places::rows_few))]
pub fn acceptable(samples: &[u32], octants: usize, settings: Settings, n: usize) -> bool
    requires { n ≤ sample_rows current (length samples.now) }
    ensures { (result ≡ true) ↔ (Acceptable settings samples.now octants n) }
{
    let mut entries = [0u64; MOST_SAMPLES];
    let mut scratch = [0u64; MOST_SAMPLES];
    rows_accepted(samples, octants, settings, &mut entries[..n], &mut scratch)
}
