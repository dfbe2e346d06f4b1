// A line: its columns, and what it says.
ghost use Rattle.std.specs.Prelude.{◌≡◌, ◌≤◌, length};
ghost use Rattle.sheet.specs.Answers.{line_answer};
ghost use Rattle.sheet.specs.Line.{name_columns, line_length, line_numbers, line_of, read_line};
ghost use Rattle.sheet.specs.Steps.{name_length_in};

use crate::column::Columns;
use crate::text::{blanks, name_bytes};
use colour::refusal::Refusal;
use colour::{Colour, Sample};

const CODE_WIDTH: usize = 6;

// The columns of a line: its numbers, a blank, the name and a newline.
pub const TAG: Columns = Columns {
    start: 0,
    width: 10,
};

pub const RED: Columns = Columns {
    start: TAG.start + TAG.width,
    width: CODE_WIDTH,
};

pub const GREEN: Columns = Columns {
    start: RED.start + CODE_WIDTH,
    width: CODE_WIDTH,
};

pub const BLUE: Columns = Columns {
    start: GREEN.start + CODE_WIDTH,
    width: CODE_WIDTH,
};

pub const BLANK_AT: usize = BLUE.start + CODE_WIDTH;

pub const NAME_COLUMNS: usize = 32;

pub const NAME_START: usize = BLANK_AT + 1;

pub const NEWLINE_AT: usize = NAME_START + NAME_COLUMNS;

pub const LINE_LENGTH: usize = NEWLINE_AT + 1;

// The greatest tag and the greatest code.
const GREATEST_TAG: u64 = 0xffff_ffff;

const GREATEST_CODE: u64 = 65535;

// What a good line says: its sample, and the length of its name.
#[derive(Clone, Copy)]
pub struct Line {
    pub sample: Sample,
    pub name_length: usize,
}

// The length of the name in its columns, if they are a good name and blanks after.
#[tactic(auto, using(crate::proofs::Laws::Text::leading_most, crate::proofs::Laws::Parts::part_tail, crate::proofs::Laws::Reading::Lines::name_alone, crate::proofs::Laws::Reading::Lines::name_followed, crate::proofs::Laws::Reading::Lines::name_none))]
fn name_length(field: &[u8]) -> Option<usize>
    requires { length field.now ≤ name_columns }
    ensures { result ≡ name_length_in field.now }
{
    let n = name_bytes(field);
    let rest = &field[n..];
    if n == 0 || blanks(rest) < rest.len() {
        return None;
    }
    Some(n)
}

// What a line's numbers say, beside a name of the length given. (The three codes have a line each, since each has its place by name in the specification.)
#[tactic(auto, using(crate::proofs::Laws::Reading::Digits::within_some), unfolding(crate::specs::Computes::sheet_numbers))]
fn numbers(line: &[u8], name_length: usize) -> Option<Line>
    requires { length line.now ≡ line_length }
    ensures { result ≡ line_numbers line.now name_length }
{
    let tag = TAG.read(line, GREATEST_TAG)?;
    let red = RED.read(line, GREATEST_CODE)?;
    let green = GREEN.read(line, GREATEST_CODE)?;
    let blue = BLUE.read(line, GREATEST_CODE)?;
    Some(Line {
        sample: Sample {
            tag: tag as u32,
            colour: Colour {
                red: red as u32,
                green: green as u32,
                blue: blue as u32,
            },
        },
        name_length,
    })
}

// What a line says, if it is good.
#[tactic(auto, unfolding(crate::specs::Computes::sheet_numbers, crate::specs::Column::blank, crate::specs::Column::newline, crate::specs::Line::name_field), using(crate::proofs::Laws::Reading::Lines::has_name, crate::proofs::Laws::Reading::Lines::no_blank, crate::proofs::Laws::Reading::Lines::no_name, crate::proofs::Laws::Reading::Lines::no_newline, crate::proofs::Laws::Reading::Lines::other_length))]
fn line_of(line: &[u8]) -> Option<Line>
    ensures { result ≡ line_of line.now }
{
    if line.len() != LINE_LENGTH {
        return None;
    }
    if line[BLANK_AT] != b' ' || line[NEWLINE_AT] != b'\n' {
        return None;
    }
    let name_length = name_length(&line[NAME_START..NEWLINE_AT])?;
    numbers(line, name_length)
}

// Reads a line: what it says, or the refusal of question 12.
#[tactic(auto, unfolding(crate::specs::Line::read_line), using(crate::proofs::Laws::Reading::Lines::line_read))]
pub fn read_line(line: &[u8]) -> Result<Line, Refusal>
    ensures { line_answer result ≡ read_line line.now }
{
    line_of(line).ok_or(Refusal::Line)
}
