// The header of a sheet, and where its lines stand.
ghost use Rattle.std.specs.Prelude.{◌≡◌, suc, ◌≤◌, ◌<◌, ◌^◌, length};
ghost use Rattle.sheet.specs.Answers.{header_answer, line_answer};
ghost use Rattle.sheet.specs.Line.{read_line};
ghost use Rattle.sheet.specs.Sheet.{line_start, line_part, line_count, read_header};

use crate::column::Columns;
use crate::line::{LINE_LENGTH, Line, read_line};
use colour::refusal::Refusal;

const TITLE_LENGTH: usize = 8;

const COUNT: Columns = Columns {
    start: TITLE_LENGTH,
    width: 6,
};

const COUNT_END: usize = COUNT.start + COUNT.width;

// Where line 0 starts.
const HEADER_LENGTH: usize = COUNT_END + 1;

// The number of lines that a good header says. The sheet's length says how many lines there can be, and the count has to be that
// number: so no length is worked out from a count, and nothing overflows.
fn line_count(sheet: &[u8]) -> Option<usize>
    ensures { result ≡ line_count sheet.now }
{
    if sheet.len() < HEADER_LENGTH {
        return None;
    }
    if !sheet.starts_with(b"SWATCHES") || sheet[COUNT_END] != b'\n' {
        return None;
    }
    let lines = (sheet.len() - HEADER_LENGTH) / LINE_LENGTH;
    if HEADER_LENGTH + LINE_LENGTH * lines != sheet.len() {
        return None;
    }
    let count = COUNT.read(sheet, lines as u64)?;
    if count != lines as u64 {
        return None;
    }
    Some(lines)
}

// Reads a header: the number of lines, or the refusal of question 11.
#[tactic(auto, using(crate::proofs::Laws::Reading::Header::header_read))]
pub fn read_header(sheet: &[u8]) -> Result<usize, Refusal>
    ensures { header_answer result ≡ read_header sheet.now }
{
    line_count(sheet).ok_or(Refusal::Header)
}

// Where line k starts.
#[tactic(auto, using(crate::proofs::Laws::Numbers::line_start_is))]
pub fn line_start(k: usize) -> usize
    requires { line_start k < 2 ^ 64 }
    ensures { result ≡ line_start k }
{
    HEADER_LENGTH + LINE_LENGTH * k
}

// What line k of a sheet says. The line is handed on as a part of the sheet that starts in its middle.
#[tactic(auto, unfolding(crate::specs::Computes::sheet_numbers), using(crate::proofs::Laws::Reading::Header::line_ends, crate::proofs::Laws::Reading::Header::line_part_is))]
pub fn line_at(sheet: &[u8], k: usize) -> Result<Line, Refusal>
    requires { line_start (suc k) ≤ length sheet.now }
    ensures { line_answer result ≡ read_line (line_part sheet.now k) }
{
    let at = line_start(k);
    read_line(&sheet[at..at + LINE_LENGTH])
}
