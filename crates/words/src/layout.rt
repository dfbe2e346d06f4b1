// Which word of the tables stands where. Nothing else knows an offset. (Rows name one another by their numbers, as document 01 has it of the lent words.
// Readers differ in a word's place alone: their names and contracts say which, and one reader by places would be asked for the place by each caller.)
ghost use Rattle.std.specs.Prelude.{◌+◌, ◌*◌, ◌^◌, ◌≤◌, ◌<◌, min, true, ◌&&◌, ◌↔◌, ◌≡◌, leb, ◌∷◌, ◌++◌, length, take, drop, set};
ghost use Rattle.colour.specs.Colour.{colour_by};
ghost use Rattle.model.specs.SampleSet.{settings_good};
ghost use Rattle.model.specs.Layout.{Tag, Code, Next, First, Count, Child, current};
ghost use Rattle.model.specs.Layout.{sample_header, octant_header, sample_rows, octant_rows, octant_width};
ghost use Rattle.model.specs.Tables.{header_words};
ghost use Rattle.words.specs.Rows.{sample_start, octant_start, sample_at, sample_field, octant_field, settings_in, count_in};
ghost use Rattle.words.specs.Rows.{octant_limit, sample_budget, sample_in, with_sample, octant_row_by};

use colour::{Channels, Colour, Sample, Settings};

// The words before the first row, and the words of a row.
const SAMPLE_HEADER: usize = 2;

const SAMPLE_WIDTH: usize = 5;

const OCTANT_HEADER: usize = 1;

const OCTANT_WIDTH: usize = 11;

// The place of the bucket size in the sample table's header.
const BUCKET: usize = 1;

// The places in a sample row.
const RED: usize = 1;

const GREEN: usize = 2;

const BLUE: usize = 3;

const NEXT: usize = 4;

// The places in an octant row: first sample row, last sample row, sample count, child rows.
const FIRST: usize = 0;

const LAST: usize = 1;

const COUNT: usize = 2;

const CHILD: usize = 3;

// The most samples that a table holds, whatever its length.
pub const MOST_SAMPLES: usize = 4096;

// Whether both tables have their headers.
#[tactic(auto, using(model::proofs::Tables::Numbers::current_numbers))]
pub fn long_enough(samples: usize, octants: usize) -> bool
    ensures { result ≡ (leb (sample_header current) samples && leb (octant_header current) octants) }
{
    SAMPLE_HEADER <= samples && OCTANT_HEADER <= octants
}

// Whether settings are ones that a clear may set: question 3.
#[tactic(auto, unfolding(model::specs::SampleSet::settings_good))]
pub fn settings_fit(settings: Settings) -> bool
    ensures { result ≡ settings_good settings }
{
    let bucket = settings.bucket;
    1 <= bucket && bucket <= 256
}

// The sample rows of a table of that length.
#[tactic(auto, using(model::proofs::Tables::Numbers::current_numbers))]
pub fn sample_rows(length: usize) -> usize
    ensures is { result ≡ sample_rows current length }
    ensures bounded { result ≤ 4096 }
{
    (length.saturating_sub(SAMPLE_HEADER) / SAMPLE_WIDTH).min(MOST_SAMPLES)
}

// The octant rows of a table of that length.
#[tactic(auto, using(model::proofs::Tables::Numbers::current_numbers))]
pub fn octant_rows(length: usize) -> usize
    ensures { result ≡ octant_rows current length }
{
    length.saturating_sub(OCTANT_HEADER) / OCTANT_WIDTH
}

// Where sample row i starts.
#[tactic(auto, using(model::proofs::Tables::Numbers::current_numbers, crate::proofs::Laws::Layout::Places::sample_start_lem))]
pub fn sample_start(i: usize) -> usize
    requires { i ≤ 4096 }
    ensures { result ≡ sample_start current i }
{
    SAMPLE_HEADER + SAMPLE_WIDTH * i
}

// The words of n octant rows.
#[tactic(auto, using(model::proofs::Tables::Numbers::current_numbers))]
pub fn octant_words(n: u32) -> usize
    ensures is { result ≡ octant_width current * n }
    ensures bounded { result < 2 ^ 36 }
{
    OCTANT_WIDTH * (n as usize)
}

// Where octant row i starts.
#[tactic(auto, using(model::proofs::Tables::Numbers::current_numbers, crate::proofs::Laws::Layout::Places::octant_start_lem))]
pub fn octant_start(i: u32) -> usize
    ensures { result ≡ octant_start current i }
{
    OCTANT_HEADER + octant_words(i)
}

// The sample count that a sample table says, or the octant count of an octant table.
#[tactic(auto, unfolding(crate::specs::Rows::count_in))]
pub fn count(table: &[u32]) -> u32
    requires { 1 ≤ length table.now }
    ensures { result ≡ count_in table.now }
{
    table[0]
}

// The settings that a sample table says.
#[tactic(auto, using(crate::proofs::Laws::Layout::Places::settings_in_lem), unfolding(model::specs::Layout::sample_header, model::specs::Layout::current))]
pub fn settings(samples: &[u32]) -> Settings
    requires { sample_header current ≤ length samples.now }
    ensures { result ≡ settings_in current samples.now }
{
    Settings {
        bucket: samples[BUCKET],
    }
}

// The rows below which an octant may be entered, whatever the words are: the lesser of the count that the table says and the rows that it has.
#[tactic(auto, unfolding(crate::specs::Rows::octant_limit))]
pub fn octant_limit(octants: &[u32]) -> u32
    requires { octant_header current ≤ length octants.now }
    ensures { result ≡ octant_limit current octants.now }
{
    (count(octants) as usize).min(octant_rows(octants.len())) as u32
}

// The samples that are there to be read, whatever the words are.
#[tactic(auto, unfolding(crate::specs::Rows::sample_budget, model::specs::Layout::sample_header, model::specs::Layout::current))]
pub fn sample_budget(samples: &[u32]) -> u32
    requires { sample_header current ≤ length samples.now }
    ensures is { result ≡ sample_budget current samples.now }
    ensures bounded { result ≤ 4096 }
{
    (count(samples) as usize).min(sample_rows(samples.len())) as u32
}

// Where sample row i of a table that has it starts. It is there whole.
fn sample_row(samples: &[u32], i: usize) -> usize
    requires { i < sample_rows current (length samples.now) }
    ensures is { result ≡ sample_start current i }
    ensures whole { result + 5 ≤ length samples.now }
{
    sample_start(i)
}

// The tag in row i. (That there is such a row is asked, here and below: it is the bound of an index.)
#[tactic(auto, using(crate::proofs::Laws::Layout::Places::tag_in))]
pub fn tag(samples: &[u32], i: usize) -> u32
    requires { i < sample_rows current (length samples.now) }
    ensures { result ≡ sample_field current samples.now i Tag }
{
    let at = sample_row(samples, i);
    samples[at]
}

// The colour in row i.
pub fn colour(samples: &[u32], i: usize) -> Colour
    requires { i < sample_rows current (length samples.now) }
    ensures { result ≡ colour_by (λ h. sample_field current samples.now i (Code h)) }
{
    let at = sample_row(samples, i);
    Channels {
        red: samples[at + RED],
        green: samples[at + GREEN],
        blue: samples[at + BLUE],
    }
}

// The sample in row i.
#[tactic(auto, unfolding(crate::specs::Rows::sample_in))]
pub fn sample(samples: &[u32], i: usize) -> Sample
    requires { i < sample_rows current (length samples.now) }
    ensures { result ≡ sample_in current samples.now i }
{
    let c = colour(samples, i);
    Sample {
        tag: tag(samples, i),
        colour: c,
    }
}

// Puts a sample in row i; the next word stays.
#[tactic(auto, using(crate::proofs::Laws::Layout::Put::put_at_lem))]
pub fn put_sample(samples: &mut [u32], i: usize, s: Sample)
    requires { i < sample_rows current (length samples.old) }
    ensures { samples.new ≡ with_sample current samples.old i s }
{
    let at = sample_row(samples, i);
    samples[at] = s.tag;
    samples[at + RED] = s.colour.red;
    samples[at + GREEN] = s.colour.green;
    samples[at + BLUE] = s.colour.blue;
}

// The next word of row i.
#[tactic(auto, unfolding(crate::proofs::Laws::Layout::Places::field_place), using(crate::proofs::Laws::Layout::Places::field_in))]
pub fn next(samples: &[u32], i: usize) -> u32
    requires { i < sample_rows current (length samples.now) }
    ensures { result ≡ sample_field current samples.now i Next }
{
    let at = sample_row(samples, i);
    samples[at + NEXT]
}

// Sets the next word of row i.
#[tactic(auto, unfolding(crate::proofs::Laws::Layout::Places::field_place), using(crate::proofs::Laws::Layout::Places::sample_start_lem, crate::proofs::Laws::Layout::Places::sample_at_lem))]
pub fn put_next(samples: &mut [u32], i: usize, next: u32)
    requires { i < sample_rows current (length samples.old) }
    ensures { samples.new ≡ set samples.old (sample_at current Next i) next }
{
    let at = sample_row(samples, i);
    samples[at + NEXT] = next;
}

// Sets the words before the first sample row: the count and the settings.
#[tactic(auto, unfolding(model::specs::Layout::sample_header, model::specs::Layout::current, model::specs::Tables::setting_word))]
pub fn put_header(samples: &mut [u32], count: u32, settings: Settings)
    requires { sample_header current ≤ length samples.old }
    ensures { samples.new ≡ header_words current count settings
        ++ drop (sample_header current) samples.old }
{
    samples[0] = count;
    samples[BUCKET] = settings.bucket;
}

// Sets the word before the first octant row.
pub fn put_count(octants: &mut [u32], count: u32)
    requires { octant_header current ≤ length octants.old }
    ensures { octants.new ≡ count ∷ drop (octant_header current) octants.old }
{
    octants[0] = count;
}

// Where an octant row of a table that has it starts. It is there whole.
#[tactic(auto, using(crate::proofs::Laws::Layout::Places::octant_room))]
fn octant_row(octants: &[u32], row: u32) -> usize
    requires { row < octant_rows current (length octants.now) }
    ensures is { result ≡ octant_start current row }
    ensures whole { result + 11 ≤ length octants.now }
{
    octant_start(row)
}

// The first sample row of octant row `row`.
#[tactic(auto, using(crate::proofs::Laws::Layout::Places::first_in))]
pub fn octant_first(octants: &[u32], row: u32) -> u32
    requires { row < octant_rows current (length octants.now) }
    ensures { result ≡ octant_field current octants.now row First }
{
    let at = octant_row(octants, row);
    octants[at]
}

// Its sample count.
#[tactic(auto, unfolding(crate::proofs::Laws::Layout::Places::octant_place), using(crate::proofs::Laws::Layout::Places::octant_in))]
pub fn octant_count(octants: &[u32], row: u32) -> u32
    requires { row < octant_rows current (length octants.now) }
    ensures { result ≡ octant_field current octants.now row Count }
{
    let at = octant_row(octants, row);
    octants[at + COUNT]
}

// Its word for child k: 0 for none, as the table has it.
pub fn octant_child(octants: &[u32], row: u32, k: u32) -> u32
    requires { (row < octant_rows current (length octants.now)) × (k < 8) }
    ensures { result ≡ octant_field current octants.now row (Child k) }
{
    let at = octant_row(octants, row);
    octants[at + (CHILD + (k as usize))]
}

// What an octant row says.
#[derive(Clone, Copy)]
pub struct Octant {
    pub first: u32,
    pub last: u32,
    pub count: u32,
    pub children: [u32; 8],
}

impl Octant {
    // Its row. (The children are named one by one, so that an edit can exchange them.)
    #[tactic(auto, using(crate::proofs::Laws::Layout::Octants::octant_row_lem), unfolding(crate::proofs::Laws::Words::words_from))]
    fn row(&self) -> [u32; OCTANT_WIDTH]
        ensures { result ≡ octant_row_by current self.now.first self.now.last self.now.count self.now.children }
    {
        let c = &self.children;
        let mut row = [0; OCTANT_WIDTH];
        row[FIRST] = self.first;
        row[LAST] = self.last;
        row[COUNT] = self.count;
        row[CHILD..].copy_from_slice(&[c[0], c[1], c[2], c[3], c[4], c[5], c[6], c[7]]);
        row
    }
}

// Writes an octant's row at the front of the rows lent.
#[tactic(auto, using(model::proofs::Tables::Numbers::current_numbers))]
pub fn put_octant(rows: &mut [u32], octant: &Octant)
    requires { octant_width current ≤ length rows.old }
    ensures { rows.new ≡ octant_row_by current octant.now.first octant.now.last octant.now.count octant.now.children
        ++ drop (octant_width current) rows.old }
{
    rows[..OCTANT_WIDTH].copy_from_slice(&octant.row());
}

// Whether the row at the front of the rows lent is that octant's.
#[tactic(auto, using(model::proofs::Tables::Numbers::current_numbers, crate::proofs::Laws::Layout::Octants::octant_same))]
pub fn octant_is(rows: &[u32], octant: &Octant) -> bool
    requires { octant_width current ≤ length rows.now }
    ensures { (result ≡ true) ↔ (take (octant_width current) rows.now
        ≡ octant_row_by current octant.now.first octant.now.last octant.now.count octant.now.children) }
{
    (octant.first == rows[FIRST])
        & (octant.last == rows[LAST])
        & (octant.count == rows[COUNT])
        & rows[CHILD..].starts_with(&octant.children)
}
