// The line writer.
ghost use Rattle.std.specs.Prelude.{[], ◌∷◌, ◌++◌, ◌≡◌, ◌+◌, ◌≤◌, length, drop};
ghost use Rattle.colour.specs.Question.{asks, first_no};
ghost use Rattle.sheet.specs.Answers.{written_answer};
ghost use Rattle.colour.specs.Refusal.{answer_number};
ghost use Rattle.sheet.specs.Line.{name_columns, blank_at, line_length, name_good, number_columns, line_bytes, write_line};

use crate::line::{
    BLANK_AT, BLUE, GREEN, LINE_LENGTH, NAME_COLUMNS, NAME_START, NEWLINE_AT, RED, TAG,
};
use crate::text::{name_bytes, put_left};
use colour::Sample;
use colour::panel::codes_fit;
use colour::refusal::Refusal;

// Whether a name is good: question 10.
#[tactic(auto, unfolding(crate::specs::Line::name_columns), using(crate::proofs::Laws::Names::name_empty, crate::proofs::Laws::Names::name_tested, crate::proofs::Laws::Names::name_too_long))]
fn name_good(name: &[u8]) -> bool
    ensures { result ≡ name_good name.now }
{
    if name.is_empty() || name.len() > NAME_COLUMNS {
        return false;
    }
    name_bytes(name) == name.len()
}

// Writes a sample's numbers into the columns of a line.
#[tactic(auto, unfolding(crate::specs::Computes::sheet_numbers))]
fn put_numbers(sample: Sample, line: &mut [u8])
    requires { blank_at ≤ length line.old }
    ensures { line.new ≡ number_columns sample ++ drop blank_at line.old }
{
    TAG.put(line, u64::from(sample.tag));
    RED.put(line, u64::from(sample.colour.red));
    GREEN.put(line, u64::from(sample.colour.green));
    BLUE.put(line, u64::from(sample.colour.blue));
}

// Writes a line whose name fits over the first bytes of those lent.
#[tactic(auto, unfolding(crate::specs::Computes::sheet_numbers, crate::specs::Column::blank, crate::specs::Column::newline), using(crate::proofs::Laws::Writing::Lines::line_written))]
fn put_line(sample: Sample, name: &[u8], line: &mut [u8])
    requires { (length name.now ≤ name_columns) × (line_length ≤ length line.old) }
    ensures { line.new ≡ line_bytes sample name.now ++ drop line_length line.old }
{
    put_numbers(sample, line);
    line[BLANK_AT] = b' ';
    put_left(&mut line[NAME_START..NEWLINE_AT], name);
    line[NEWLINE_AT] = b'\n';
}

// The first of the writer's questions that has a no: the refusal of question 4, 10 or 13. (It takes the three answers, as the definition's list does.)
#[tactic(auto, unfolding(colour::specs::Question::first_no))]
fn first_no(codes: bool, name: bool, room: bool) -> Result<(), Refusal>
    ensures { answer_number result ≡ first_no (asks 4 codes ∷ asks 10 name ∷ asks 13 room ∷ []) }
{
    if !codes {
        return Err(Refusal::Code);
    }
    if !name {
        return Err(Refusal::Name);
    }
    if !room {
        return Err(Refusal::NoRoom);
    }
    Ok(())
}

// Writes a line over the first 62 bytes lent, and leaves the rest; a refusal writes nothing: an exported call.
pub fn write_line(sample: Sample, name: &[u8], line: &mut [u8]) -> Result<(), Refusal>
    ensures { written_answer result line.new ≡ write_line sample name.now line.old }
{
    first_no(
        codes_fit(sample.colour),
        name_good(name),
        line.len() >= LINE_LENGTH,
    )?;
    put_line(sample, name, line);
    Ok(())
}
