// The next words of the sample rows: each names the row that follows in the order.
ghost use Rattle.std.specs.Prelude.{◌%◌, ◌≤◌, ◌<◌, true, ◌↔◌, ◌≡◌, length, get_or};
ghost use Rattle.model.specs.Layout.{current};
ghost use Rattle.model.specs.Tables.{next_row};
ghost use Rattle.words.specs.Rows.{first_samples};
ghost use Rattle.order.specs.Entries.{view};
ghost use Rattle.octree.specs.Steps.{RowsOnce, RowsGiven, NextsAre};

use order::entry::row_of;
use words::layout::{next, put_next};

// The next word of the sample of entry i, of ordered entries: the row of the entry after it, and their number after the last.
fn row_after(ordered: &[u64], i: usize) -> u32
    requires { (RowsOnce (length ordered.now) ordered.now) × ((length ordered.now ≤ 4096) × (i < length ordered.now)) }
    ensures { result ≡ next_row (length ordered.now) (get_or ordered.now i 0 % 4096) (view ordered.now) }
{
    if i + 1 < ordered.len() {
        row_of(ordered[i + 1])
    } else {
        ordered.len() as u32
    }
}

// Writes the next words of ordered entries. (`RowsGiven` is of a table and entries, and so is a field of neither.)
pub fn put_all(samples: &mut [u32], ordered: &[u64])
    requires { RowsGiven samples.old ordered.now }
    ensures nexts { NextsAre (length ordered.now) ordered.now samples.new }
    ensures samples { first_samples current samples.new (length ordered.now)
        ≡ first_samples current samples.old (length ordered.now) }
{
    for (i, entry) in ordered.iter().enumerate() {
        put_next(samples, row_of(*entry) as usize, row_after(ordered, i));
    }
}

// Whether the next words are those of ordered entries.
pub fn all_are(samples: &[u32], ordered: &[u64]) -> bool
    requires { RowsGiven samples.now ordered.now }
    ensures { (result ≡ true) ↔ (NextsAre (length ordered.now) ordered.now samples.now) }
{
    for (i, entry) in ordered.iter().enumerate() {
        if next(samples, row_of(*entry) as usize) != row_after(ordered, i) {
            return false;
        }
    }
    true
}
