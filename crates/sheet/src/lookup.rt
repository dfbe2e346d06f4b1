// The name lookup.
ghost use Rattle.std.specs.Prelude.{◌≡◌};
ghost use Rattle.std.specs.Option.{unwrap_or};
ghost use Rattle.sheet.specs.Sheet.{empty_part, name_part, NameIn};

use crate::header::{line_at, line_start, read_header};
use crate::line::NAME_START;

// A part of a sheet: where it starts, and how many bytes it has.
#[derive(Clone, Copy)]
pub struct Part {
    pub start: usize,
    pub size: usize,
}

// The part of a sheet that holds the name in the first line with the tag; none also if the header or any line is not good. A
// line after the one wanted can be bad, so all are read.
#[tactic(auto, using(crate::proofs::Laws::Reading::Header::line_ends), unfolding(crate::specs::Computes::sheet_numbers))]
fn part_of(sheet: &[u8], tag: u32) -> Option<Part>
    ensures { unwrap_or result empty_part ≡ name_part sheet.now tag }
{
    let count = read_header(sheet).ok()?;
    let mut found = None;
    for k in 0..count {
        let line = line_at(sheet, k).ok()?;
        if found.is_none() && line.sample.tag == tag {
            found = Some(Part {
                start: line_start(k) + NAME_START,
                size: line.name_length,
            });
        }
    }
    found
}

// The same, or the empty part: C and the paper have no other word for none.
#[tactic(auto, unfolding(crate::specs::Sheet::empty_part))]
pub fn name_part(sheet: &[u8], tag: u32) -> Part
    ensures { result ≡ name_part sheet.now tag }
{
    part_of(sheet, tag).unwrap_or(Part { start: 0, size: 0 })
}

// That part of the caller's own slice: an exported call.
#[tactic(auto, using(crate::proofs::Laws::Reading::Lookup::name_within, crate::proofs::Laws::Reading::Lookup::name_in))]
pub fn name_of(sheet: &[u8], tag: u32) -> &[u8]
    ensures { NameIn sheet.entry tag result }
{
    let part = name_part(sheet, tag);
    let start = part.start;
    let end = start + part.size;
    &sheet[start..end]
}
