// Sample rows that move, and rows that are filled from a sheet's lines. (Each function that reads the first n rows asks that the table has them. It is
// the bound of an index, and n is another at each call, so that a struct of the table and n would be made anew for each.)
ghost use Rattle.std.specs.Prelude.{◌-◌, ◌≤◌, ◌<◌, ◌≡◌, length};
ghost use Rattle.sheet.specs.Sheet.{line_start};
ghost use Rattle.model.specs.Layout.{current, sample_rows};
ghost use Rattle.words.specs.Rows.{first_samples};
ghost use Rattle.samples.specs.Steps.{without_row, LinesPut};

use sheet::header::line_at;
use words::layout::{put_sample, sample, sample_rows};

// Moves the samples after a row, of n, one row up, over the one that stands there.
pub fn close_row(samples: &mut [u32], row: usize, n: usize)
    requires { (row < n) × (n ≤ sample_rows current (length samples.old)) }
    ensures { first_samples current samples.new (n - 1)
        ≡ without_row row (first_samples current samples.old n) }
{
    for i in row + 1..n {
        let s = sample(samples, i);
        put_sample(samples, i - 1, s);
    }
}

// Puts the samples of a sheet's lines in the rows after the first n, up to a line that is not good or finds no row; says how many.
// (The sheet and its count of lines go together to this and to `load::stopped` alone: a struct of the two would be taken apart in both contracts.)
pub fn put_lines(samples: &mut [u32], n: usize, sheet: &[u8], lines: usize) -> usize
    requires { (n ≤ sample_rows current (length samples.old)) × (line_start lines ≤ length sheet.now) }
    ensures { LinesPut n samples.old sheet.now lines result samples.new }
{
    let room = sample_rows(samples.len()) - n;
    let most = lines.min(room);
    for k in 0..most {
        let Ok(line) = line_at(sheet, k) else {
            return k;
        };
        put_sample(samples, n + k, line.sample);
    }
    most
}
