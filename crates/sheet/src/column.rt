// Numbers in columns, read and written. (By hand: a column is a lent text of fixed width with blanks at the left, and a number has no sign and no leading
// zero. `parse` takes texts that are no column, and `Display` writes to what grows; the library has no heap.)
ghost use Rattle.std.specs.Prelude.{[], ◌∷◌, ◌≡◌, ◌+◌, ◌≤◌, length, take, drop};
ghost use Rattle.sheet.specs.Column.{digits_after, decimal_in, column_number, column_of};
ghost use Rattle.sheet.specs.Steps.{within, put_at};

use crate::text::blanks;

// Columns of a text that hold a number: where they start, and how many they are.
#[derive(Clone, Copy)]
pub struct Columns {
    pub start: usize,
    pub width: usize,
}

impl Columns {
    // The number in them, if it is at most `most`.
    pub fn read(self, text: &[u8], most: u64) -> Option<u64>
        requires { self.start + self.width ≤ length text.now }
        ensures { result ≡ within most (column_number (take self.width (drop self.start text.now))) }
    {
        read_number(&text[self.start..self.start + self.width], most)
    }

    // Writes a number into them.
    #[tactic(auto, using(crate::proofs::Laws::Writing::Lines::column_put))]
    pub fn put(self, text: &mut [u8], n: u64)
        requires { self.start + self.width ≤ length text.old }
        ensures { text.new ≡ put_at self.start (column_of self.width n) text.old }
    {
        put_number(&mut text[self.start..self.start + self.width], n);
    }
}

// The number that n followed by one digit gives, if it is at most `most`; tested before it is worked out, so that nothing
// overflows however many digits there are.
#[tactic(auto, unfolding(crate::specs::Column::between, crate::specs::Column::digit_byte), using(crate::proofs::Laws::Reading::Digits::not_digit, crate::proofs::Laws::Reading::Digits::single, crate::proofs::Laws::Reading::Digits::within_none, crate::proofs::Laws::Reading::Digits::within_over, crate::proofs::Laws::Reading::Digits::within_yes))]
fn digit_after(n: u64, digit: u8, most: u64) -> Option<u64>
    ensures { result ≡ within most (digits_after n (digit ∷ [])) }
{
    if !digit.is_ascii_digit() {
        return None;
    }
    let value = u64::from(digit - b'0');
    if value > most || n > (most - value) / 10 {
        return None;
    }
    Some(10 * n + value)
}

// The number that digits give, if it is at most `most`.
fn digits(text: &[u8], most: u64) -> Option<u64>
    ensures { result ≡ within most (digits_after 0 text.now) }
{
    let mut n = 0;
    for digit in text {
        n = digit_after(n, *digit, most)?;
    }
    Some(n)
}

// The same, with no leading zero but in 0 itself.
#[tactic(auto, using(crate::proofs::Laws::Reading::Digits::decimal_empty, crate::proofs::Laws::Reading::Digits::decimal_plain, crate::proofs::Laws::Reading::Digits::decimal_single, crate::proofs::Laws::Reading::Digits::leading_zero, crate::proofs::Laws::Reading::Digits::within_none))]
fn decimal_in(text: &[u8], most: u64) -> Option<u64>
    ensures { result ≡ within most (decimal_in text.now) }
{
    if text.is_empty() {
        return None;
    }
    if text.len() > 1 && text[0] == b'0' {
        return None;
    }
    digits(text, most)
}

// The number in a column, of any width, if it is at most `most`.
#[tactic(auto, unfolding(crate::specs::Column::column_number), using(crate::proofs::Laws::Parts::part_tail, crate::proofs::Laws::Text::after_blanks))]
pub fn read_number(column: &[u8], most: u64) -> Option<u64>
    ensures { result ≡ within most (column_number column.now) }
{
    decimal_in(&column[blanks(column)..], most)
}

// A number written at the right of its column, blanks before it. Of one that is too long for the column the low digits are
// written.
pub fn put_number(column: &mut [u8], n: u64)
    ensures { column.new ≡ column_of (length column.old) n }
{
    let mut left = n;
    for i in (0..column.len()).rev() {
        column[i] = b'0' + (left % 10) as u8;
        if left < 10 {
            column[..i].fill(b' ');
            return;
        }
        left /= 10;
    }
}
