// What walklist prints for what stands on its standard input.
ghost use Rattle.std.specs.Prelude.{◌≤◌, ◌≡◌, length};
ghost use Rattle.model.specs.Tables.{pair, tables_read, tables_left};
ghost use Rattle.model.specs.Walklist.{walklist_prints};
ghost use Rattle.samples.specs.Answers.{loaded_number};
ghost use Rattle.tag_list.specs.Printed.{Printed, OrderPrinted, Fits, SheetLoaded};

use crate::lines::{PRINTED_LINE, put_refusal, put_tags};
use colour::{Colour, Region, Settings};
use listing::list::list;
use samples::answers::{Stop, load_number};
use samples::clear::clear;
use samples::load::load;
use words::tables::Tables;

// The most bytes that are read.
pub const INPUT_LENGTH: usize = 32768;

// The most bytes that are printed: a line for each of 512 samples. (They are a text that is lent and a length, since nothing is allocated.)
pub const TEXT_LENGTH: usize = 5632;

// The words of 512 sample rows.
const SAMPLE_WORDS: usize = 2562;

// The words of 1,489 octant rows.
const OCTANT_WORDS: usize = 16380;

// The bucket size, b.
const BUCKET: u32 = 2;

// Writes the tags of the set in sound tables, in the order (the paper's walk). A box of all colours lists every sample.
fn put_order(samples: &[u32], octants: &[u32], text: &mut [u8]) -> usize
    requires { (Fits (pair samples.now octants.now)) × (5632 ≤ length text.old) }
    ensures { OrderPrinted (tables_read samples octants) text.old text.new result }
{
    let mut tags = [0u32; 512];
    let all = Region::Box(Colour::all(0), Colour::all(65535));
    // There is room for the tags of all rows, so that none is refused.
    let Ok(counts) = list(&Tables { samples, octants }, all, &mut tags) else {
        return 0;
    };
    let lines = counts.listed as usize;
    put_tags(text, &tags[..lines]);
    PRINTED_LINE * lines
}

// Loads a sheet into an empty set.
fn load_sheet(samples: &mut [u32], octants: &mut [u32], sheet: &[u8]) -> Result<u32, Stop>
    requires { (length samples.old ≡ 2562) × (length octants.old ≡ 16380) }
    ensures { SheetLoaded sheet.now (loaded_number result) (tables_left samples octants) }
{
    let _ = clear(samples, octants, Settings { bucket: BUCKET });
    load(samples, octants, sheet)
}

// Writes what walklist prints over the first bytes of a text, and says how many they are: an exported call. Input past 32,768 bytes is
// cut off.
pub fn print(input: &[u8], text: &mut [u8; TEXT_LENGTH]) -> usize
    ensures { Printed (walklist_prints input.now) text.old text.new result }
{
    let mut samples = [0u32; SAMPLE_WORDS];
    let mut octants = [0u32; OCTANT_WORDS];
    let end = INPUT_LENGTH.min(input.len());
    let number = load_number(load_sheet(&mut samples, &mut octants, &input[..end]));
    if number != 0 {
        put_refusal(text, number);
        return PRINTED_LINE;
    }
    put_order(&samples, &octants, text)
}
