// The octant rows of ordered entries: written, and compared with a table's.
ghost use Rattle.std.specs.Prelude.{ℕ, ◌+◌, ◌-◌, ◌*◌, ◌^◌, ◌≤◌, ◌<◌, List, ◌++◌, Bool, ◌≡◌, length, drop, replicate, IfSome, is_some};
ghost use Rattle.model.specs.SampleSet.{octants_of};
ghost use Rattle.model.specs.Layout.{current, octant_width};
ghost use Rattle.words.specs.Rows.{octant_row_by};
ghost use Rattle.order.specs.Entries.{view};
ghost use Rattle.octree.specs.Passes.{PassLaws, Put, Compared};
ghost use Rattle.octree.specs.Steps.{Rooted, RowsTold, Says, rows_of, child_word_of};
ghost use Rattle.octree.specs.Laws.{written_laws, compared_laws};

use order::entry::row_of;
use order::order::{child_shift, splits};
use order::partition::sizes;
use words::layout::{Octant, octant_is, octant_words, put_octant};

// The octant that holds these entries, as one with no child.
#[tactic(auto, using(crate::proofs::Laws::Rows::Octant::first_entry, crate::proofs::Laws::Rows::Octant::last_entry))]
fn octant_of(part: &[u64]) -> Octant
    requires { (1 ≤ length part.now) × (length part.now ≤ 4096) }
    ensures says { Says result.first result.last result.count part.now }
    ensures children { result.children ≡ replicate 8 0 }
{
    let n = part.len();
    Octant {
        first: row_of(part[0]),
        last: row_of(part[n - 1]),
        count: n as u32,
        children: [0; 8],
    }
}

// The word for a child of so many samples whose row would be `number`: a child that holds none is not in the tree.
#[tactic(auto, unfolding(crate::specs::Steps::child_word_of))]
fn child_word(size: usize, number: u32) -> u32
    ensures { result ≡ child_word_of size number }
{
    if size == 0 { 0 } else { number }
}

// Octant rows that are lent: they are written, or compared.
trait Rows {
    // How many words are lent.
    ghost lent: { Self → ℕ };

    // What it comes to that words are passed from a place on: whether they stand there now, and the rows after that.
    ghost passed: { Self → ℕ → List ℕ → Bool → Self → Type 0 };

    ghost laws: { PassLaws lent passed };

    // Passes the row of an octant from the word `at` on.
    fn pass(&mut self, at: usize, octant: &Octant) -> bool
        requires { at + octant_width current ≤ lent self.old }
        ensures { passed self.old at
            (octant_row_by current octant.now.first octant.now.last octant.now.count octant.now.children)
            result self.new };
}

// Rows that are written. It is a struct, since what is left behind a `&mut` that is lent by `&mut` is known only where a struct holds it.
#[derive(Drop)]
struct Written<'a> {
    rows: &'a mut [u32],
}

impl<'a> Rows for Written<'a> {
    ghost lent = { λ s. length s.rows.now };

    ghost passed = { λ s at words yes t. (t.rows.ghost_name ≡ s.rows.ghost_name) × Put s.rows.now at words yes t.rows.now };

    ghost laws = { written_laws (λ s. s.rows.now) (λ s. s.rows.ghost_name) };

    fn pass(&mut self, at: usize, octant: &Octant) -> bool {
        put_octant(&mut self.rows[at..], octant);
        true
    }
}

// Rows that are compared.
impl Rows for &[u32] {
    ghost lent = { λ s. length s.now };

    ghost passed = { λ s at words yes t. Compared s.now at words yes t.now };

    ghost laws = { compared_laws (λ s. s.now) };

    fn pass(&mut self, at: usize, octant: &Octant) -> bool {
        octant_is(&self[at..], octant)
    }
}

// Passes the rows of the octant that is row `number`, and of those below it, from the word `at` on; says how many, unless a no ends it. An
// octant's own row comes first there, and is passed last: it names the rows of its children. (Its entries, the depths left and its number go together, and
// each child has others: a struct of them would be made anew for each.)
fn pass_all<R: Rows>(
    part: &[u64],
    bucket: usize,
    left: u32,
    number: u32,
    at: usize,
    rows: &mut R,
) -> Option<u32>
    requires within { (at ≤ R.lent rows.old) × (R.lent rows.old < 2 ^ 63) }
    requires rooted { Rooted bucket left number part.now (R.lent rows.old - at) }
    ensures octants { IfSome result (λ n. n ≡ octants_of bucket left (view part.now)) }
    ensures rows { R.passed rows.old at (rows_of bucket left number part.now) (is_some result) rows.new }
{
    let n = part.len();
    if n == 0 {
        return Some(0);
    }
    let mut octant = octant_of(part);
    if !splits(n, bucket, left) {
        return rows.pass(at, &octant).then_some(1);
    }
    let counts = sizes(part, child_shift(left));
    let mut used = 1;
    let mut from = 0;
    for (k, size) in counts.iter().enumerate() {
        let end = from + *size;
        octant.children[k] = child_word(*size, number + used);
        used += pass_all(
            &part[from..end],
            bucket,
            left - 1,
            number + used,
            at + octant_words(used),
            rows,
        )?;
        from = end;
    }
    rows.pass(at, &octant).then_some(used)
}

// Writes the rows of the octant that is row `number`, and of those below it, from the front of the rows lent on; says how many.
pub fn build(part: &[u64], bucket: usize, left: u32, number: u32, rows: &mut [u32]) -> u32
    requires { Rooted bucket left number part.now (length rows.old) }
    ensures octants { result ≡ octants_of bucket left (view part.now) }
    ensures rows { rows.new
        ≡ rows_of bucket left number part.now ++ drop (octant_width current * result) rows.old }
{
    let mut lent = Written { rows };
    // No row that is written is answered by no.
    pass_all(part, bucket, left, number, 0, &mut lent).unwrap_or(0)
}

// Compares the rows of the octant that is row `number`, and of those below it, with the rows lent; says how many, where all are right.
pub fn compare(part: &[u64], bucket: usize, left: u32, number: u32, rows: &[u32]) -> Option<u32>
    requires { Rooted bucket left number part.now (length rows.now) }
    ensures { RowsTold bucket left number part.now rows.now result }
{
    let mut lent = rows;
    pass_all(part, bucket, left, number, 0, &mut lent)
}
