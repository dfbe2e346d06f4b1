// Text: blanks and name bytes at its start, and text put into its place.
ghost use Rattle.std.specs.Prelude.{◌++◌, ◌≡◌, ◌-◌, ◌≤◌, length, replicate};
ghost use Rattle.sheet.specs.Column.{blank, trimmed};
ghost use Rattle.sheet.specs.Line.{leading};

// How many blanks stand first.
pub fn blanks(text: &[u8]) -> usize
    ensures { result ≡ length text.now - length (trimmed text.now) }
{
    text.iter()
        .position(|byte| *byte != b' ')
        .unwrap_or(text.len())
}

// How many name bytes, 33 to 126, stand first.
pub fn name_bytes(text: &[u8]) -> usize
    ensures { result ≡ length (leading text.now) }
{
    text.iter()
        .position(|byte| !byte.is_ascii_graphic())
        .unwrap_or(text.len())
}

// A text at the left of its place, blanks after. (By a loop: `copy_from_slice` of a length that is not known is a call of `memmove`, which the C library would
// need from outside.)
#[tactic(auto, unfolding(crate::specs::Column::blank), using(crate::proofs::Laws::Parts::left_whole))]
pub fn put_left(place: &mut [u8], text: &[u8])
    requires { length text.now ≤ length place.old }
    ensures { place.new ≡ text.now
        ++ replicate (length place.old - length text.now) blank }
{
    for (i, byte) in text.iter().enumerate() {
        place[i] = *byte;
    }
    place[text.len()..].fill(b' ');
}
