// Whole tables: a list of samples is judged by its rows and octant rows, tables are written, and checked.
ghost use Rattle.std.specs.Prelude.{◌≤◌, ◌<◌, true, ◌↔◌, ◌≡◌, length};
ghost use Rattle.colour.specs.Octant.{depths};
ghost use Rattle.model.specs.SampleSet.{octants_of};
ghost use Rattle.model.specs.Layout.{current, sample_header, octant_header, octant_rows};
ghost use Rattle.model.specs.Tables.{tables_left, tables_read, tables_for};
ghost use Rattle.model.specs.Meets.{CheckMeets};
ghost use Rattle.words.specs.Rows.{count_in, settings_in, first_samples, set_of};
ghost use Rattle.order.specs.Entries.{view};
ghost use Rattle.octree.specs.Steps.{Ordered, RowsGiven, Judged, Writable, Headed, Listed, SameTables, Holds};
ghost use Rattle.octree.specs.Steps.{sample_table_by, octant_table_by};

use crate::next::{all_are, put_all};
use crate::rows::{build, compare};
use colour::Settings;
use colour::refusal::Refusal;
use order::entry::fill;
use order::order::{DEPTHS, order};
use order::tags::all_apart;
use words::layout::{
    MOST_SAMPLES, count as count_of, long_enough, octant_rows, octant_start, put_count, put_header,
    sample_rows, sample_start, settings as settings_of, settings_fit,
};
use words::tables::Tables;
use words::zeros::{are_zero, clear};

// Judges a list of samples by its entries, for tables of these lengths, and puts the entries in their order: whether it finds rows and its tree
// finds octant rows, and how many octants that is (questions 6 and 7). (Entries and scratch are two slices: below, a part of the one goes down with all of
// the other.)
#[tactic(auto, unfolding(colour::specs::Octant::depths), using(crate::proofs::Laws::Tables::Judged::judged, crate::proofs::Laws::Tables::Judged::lacks_octants, crate::proofs::Laws::Tables::Judged::lacks_row))]
pub fn judge(
    entries: &mut [u64],
    scratch: &mut [u64],
    settings: Settings,
    samples: usize,
    octants: usize,
) -> Result<u32, Refusal>
    requires { (length entries.old ≤ 4096) × (length entries.old ≤ length scratch.old) }
    ensures { Judged settings.bucket entries.old entries.new samples octants result }
{
    if sample_rows(samples) < entries.len() {
        return Err(Refusal::NoRow);
    }
    let found = order(entries, scratch, settings.bucket as usize, DEPTHS);
    if octant_rows(octants) < (found as usize) {
        return Err(Refusal::NoOctants);
    }
    Ok(found)
}

// Writes the sample table of the samples in its first rows, given their entries in their order.
fn write_samples(samples: &mut [u32], settings: Settings, ordered: &[u64])
    requires { (sample_header current ≤ length samples.old) × (RowsGiven samples.old ordered.now) }
    ensures { samples.new
        ≡ sample_table_by (length samples.old) settings (view ordered.now)
        (first_samples current samples.old (length ordered.now)) }
{
    let n = ordered.len();
    put_all(samples, ordered);
    put_header(samples, n as u32, settings);
    let from = sample_start(n);
    clear(&mut samples[from..]);
}

// Writes the octant table of ordered entries.
fn write_octants(octants: &mut [u32], bucket: u32, ordered: &[u64])
    requires { (octant_header current ≤ length octants.old) × (length ordered.now ≤ 4096)
        × (Ordered bucket depths ordered.now)
        × (octants_of bucket depths (view ordered.now) ≤ octant_rows current (length octants.old)) }
    ensures { octants.new ≡ octant_table_by (length octants.old) bucket ordered.now }
{
    let start = octant_start(0);
    let used = build(ordered, bucket as usize, DEPTHS, 0, &mut octants[start..]);
    put_count(octants, used);
    let from = octant_start(used);
    clear(&mut octants[from..]);
}

// Writes the tables of the samples that stand in the first rows, as many as there are entries.
#[tactic(auto, using(crate::proofs::Laws::Tables::Judged::tables_written, crate::proofs::Laws::Tables::Judged::written_few, crate::proofs::Laws::Tables::Judged::written_fits, crate::proofs::Laws::Tables::Judged::written_once, crate::proofs::Laws::Tables::Judged::written_ordered))]
pub fn write(samples: &mut [u32], octants: &mut [u32], settings: Settings, ordered: &[u64])
    requires { Writable settings samples.old (length octants.old) ordered.now }
    ensures { tables_left samples octants
        ≡ tables_for current (set_of current samples.old settings (length ordered.now))
        (length samples.old) (length octants.old) }
{
    write_samples(samples, settings, ordered);
    write_octants(octants, settings.bucket, ordered);
}

// Whether the sample table is that of the samples in its first rows, given their entries in their order; the header is known to be right.
fn samples_are(tables: &Tables<'_>, ordered: &[u64]) -> bool
    requires { (RowsGiven tables.now.samples.now ordered.now) × (count_in tables.now.samples.now ≡ length ordered.now) }
    ensures { (result ≡ true) ↔ (tables.now.samples.now
        ≡ sample_table_by (length tables.now.samples.now) (settings_in current tables.now.samples.now) (view ordered.now)
        (first_samples current tables.now.samples.now (length ordered.now))) }
{
    let from = sample_start(ordered.len());
    all_are(tables.samples, ordered) && are_zero(&tables.samples[from..])
}

// Whether the octant table is that of ordered entries, which come to so many octants.
fn octants_are(tables: &Tables<'_>, bucket: u32, count: u32, ordered: &[u64]) -> bool
    requires { (length ordered.now ≤ 4096) × (Ordered bucket depths ordered.now)
        × (count ≡ octants_of bucket depths (view ordered.now)) × (count ≤ octant_rows current (length tables.now.octants.now)) }
    ensures { (result ≡ true)
        ↔ (tables.now.octants.now ≡ octant_table_by (length tables.now.octants.now) bucket ordered.now) }
{
    let octants = tables.octants;
    if count_of(octants) != count {
        return false;
    }
    let start = octant_start(0);
    let Some(used) = compare(ordered, bucket as usize, DEPTHS, 0, &octants[start..]) else {
        return false;
    };
    let from = octant_start(used);
    are_zero(&octants[from..])
}

// Whether the tables are those of the samples whose entries, by arrival, are lent.
fn same_tables(
    tables: &Tables<'_>,
    settings: Settings,
    entries: &mut [u64],
    scratch: &mut [u64],
) -> bool
    requires { Listed settings tables.now.samples.now tables.now.octants.now entries.old (length scratch.old) }
    ensures { (result ≡ true)
        ↔ (SameTables settings (length entries.old) tables.now.samples.now tables.now.octants.now) }
{
    let Ok(count) = judge(
        entries,
        scratch,
        settings,
        tables.samples.len(),
        tables.octants.len(),
    ) else {
        return false;
    };
    samples_are(tables, entries) && octants_are(tables, settings.bucket, count, entries)
}

// Whether the tables are those of the samples in the first rows, as many as there are places for entries.
fn hold(tables: &Tables<'_>, settings: Settings, entries: &mut [u64], scratch: &mut [u64]) -> bool
    requires { Headed settings tables.now.samples.now tables.now.octants.now (length entries.old) (length scratch.old) }
    ensures { (result ≡ true)
        ↔ (Holds settings (length entries.old) tables.now.samples.now tables.now.octants.now) }
{
    all_apart(tables.samples, entries, scratch)
        && fill(tables.samples, entries).is_ok()
        && same_tables(tables, settings, entries, scratch)
}

// The checking call: whether the tables are those of some set. It reads the set off the sample table and compares every word.
pub fn check(samples: &[u32], octants: &[u32]) -> bool
    ensures { CheckMeets (tables_read samples octants) result }
{
    if !long_enough(samples.len(), octants.len()) {
        return false;
    }
    let tables = Tables { samples, octants };
    let settings = settings_of(tables.samples);
    if !settings_fit(settings) {
        return false;
    }
    let n = count_of(tables.samples) as usize;
    if sample_rows(samples.len()) < n {
        return false;
    }
    let mut entries = [0u64; MOST_SAMPLES];
    let mut scratch = [0u64; MOST_SAMPLES];
    hold(&tables, settings, &mut entries[..n], &mut scratch)
}
