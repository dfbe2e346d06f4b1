// The round trip in use: a written line reads back as it was given, and the names of a sheet of written lines are found.
#![tactic(auto)]

ghost use Rattle.std.specs.Prelude.{◌&&◌, ◌++◌, ◌≡◌, ◌≤◌, length, take, drop};
ghost use Rattle.colour.specs.Colour.{codes_fit};
ghost use Rattle.sheet.specs.Line.{name_good, write_line};
ghost use Rattle.sheet_trip.specs.Grey.{grey_of};

use colour::{Colour, Sample};
use sheet::line::{LINE_LENGTH, NAME_START, read_line};
use sheet::lookup::name_of;
use sheet::writer::write_line;
use std::io::Print;

// Whether a line written from a sample and a name reads back as both. It does exactly where the sample has codes and the name
// is good; for no other is a line written.
fn comes_back(sample: Sample, name: &[u8]) -> bool
    ensures { result ≡ (codes_fit sample.colour && name_good name.now) }
{
    let mut line = [0u8; LINE_LENGTH];
    let Ok(()) = write_line(sample, name, &mut line) else {
        return false;
    };
    let Ok(read) = read_line(&line) else {
        return false;
    };
    let end = NAME_START + read.name_length;
    read.sample == sample && &line[NAME_START..end] == name
}

// A sample with one code in each channel.
fn grey(tag: u32, code: u32) -> Sample
    ensures { result ≡ grey_of tag code }
{
    Sample {
        tag,
        colour: Colour::all(code),
    }
}

// Prints the name that a sheet has for a tag, and a newline. Where a write fails nothing more can be said.
fn print_name(rt: &HostRuntime, sheet: &[u8], tag: u32) {
    let _name = rt.write_all(name_of(sheet, tag));
    let _newline = rt.write_all(b"\n");
}

// Writes a line into a sheet, from byte `at` on.
#[tactic(auto, using(crate::proofs::Trip::line_put))]
fn put_line_at(sheet: &mut [u8], at: usize, sample: Sample, name: &[u8])
    requires { at ≤ length sheet.old }
    ensures { sheet.new
        ≡ take at sheet.old ++ (write_line sample name.now (drop at sheet.old)).left }
{
    let _answer = write_line(sample, name, &mut sheet[at..]);
}

// Makes a sheet of three written lines, the first and the last with one tag, and prints the names that it has for three tags.
fn print_names(rt: &HostRuntime) {
    let mut sheet =
        *b"SWATCHES     3\n                                                                                                                                                                                          ";
    put_line_at(&mut sheet, 15, grey(7, 0), b"A001");
    put_line_at(&mut sheet, 77, grey(8, 65535), b"B002");
    put_line_at(&mut sheet, 139, grey(7, 9), b"C003");
    print_name(rt, &sheet, 7);
    print_name(rt, &sheet, 8);
    print_name(rt, &sheet, 9);
}

#[tactic(auto, unfolding(sheet::specs::Computes::sheet_computes))]
fn main(rt: HostRuntime) {
    check::expect(comes_back(grey(0, 0), b"A"));
    check::expect(comes_back(grey(4294967295, 65535), b"A-reel-name-of-thirty-two-bytes!"));
    check::expect(!comes_back(grey(1, 65536), b"A001"));
    check::expect(!comes_back(grey(1, 1), b"A-reel-name-of-thirty-three-bytes"));
    print_names(&rt);
}
