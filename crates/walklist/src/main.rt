// The program walklist: the tags of a sheet's samples, in the order, or a refusal. What it prints is `tag_list`'s; here it only reads and writes.
#![tactic(auto)]

ghost use Rattle.std.specs.Prelude.{◌≤◌, length};

use std::io::{Print, Read};
use tag_list::print::{INPUT_LENGTH, TEXT_LENGTH, print};

// Reads until the buffer is full or the input ends, and says how many bytes there are. A read that fails counts as the end.
// A loop by hand, since each turn goes on by as many bytes as were read, and `read_exact` would not say how many.
// (How much of the buffer is read stands beside it: a Vec, which would know, needs a heap.)
fn read_full<R: Read>(reader: &mut R, input: &mut [u8]) -> usize
    ensures { result ≤ length input.new }
{
    let mut end = 0;
    while end < input.len() {
        let Ok(read) = reader.read(&mut input[end..]) else {
            return end;
        };
        if read == 0 {
            return end;
        }
        end += read;
    }
    end
}

// Where a write fails nothing more can be said.
fn main(rt: HostRuntime) {
    let mut input = [0u8; INPUT_LENGTH];
    let read = read_full(&mut rt.stdin(), &mut input);
    let mut text = [0u8; TEXT_LENGTH];
    let printed = print(&input[..read], &mut text);
    let _written = rt.write_all(&text[..printed]);
}
