// The sample with a tag, and the row for a new one.
ghost use Rattle.std.specs.Prelude.{◌≤◌, ◌≡◌, length};
ghost use Rattle.colour.specs.Question.{first_no};
ghost use Rattle.colour.specs.Refusal.{answer_number};
ghost use Rattle.model.specs.Layout.{current, sample_rows};
ghost use Rattle.words.specs.Rows.{first_samples};
ghost use Rattle.samples.specs.Steps.{row_found, row_questions};

use colour::refusal::Refusal;
use words::layout::{sample_rows, tag as tag_of};

// The row of the sample with a tag among the first n rows, if there is one.
#[tactic(auto, unfolding(words::specs::Rows::sample_in), using(crate::proofs::Laws::Tags::passed_all, crate::proofs::Laws::Tags::passed_more, crate::proofs::Laws::Tags::passed_to, crate::proofs::Laws::Tags::row_missing, crate::proofs::Laws::Tags::row_there))]
pub fn row_of(samples: &[u32], n: usize, tag: u32) -> Option<usize>
    requires { n ≤ sample_rows current (length samples.now) }
    ensures { result ≡ row_found tag (first_samples current samples.now n) }
{
    for row in 0..n {
        if tag_of(samples, row) == tag {
            return Some(row);
        }
    }
    None
}

// Questions 5 and 6, where the samples in the first n rows are in the set: is a tag new, and is there a row after theirs?
#[tactic(auto, unfolding(crate::specs::Steps::row_questions), using(colour::proofs::Laws::Questions::alone_yes, colour::proofs::Laws::Questions::first_no_lem, colour::proofs::Laws::Questions::first_yes, crate::proofs::Laws::Tags::row_has, words::proofs::Laws::Layout::Samples::samples_length))]
pub fn row_for(samples: &[u32], n: usize, tag: u32) -> Result<(), Refusal>
    requires { n ≤ sample_rows current (length samples.now) }
    ensures { answer_number result
        ≡ first_no (row_questions tag (first_samples current samples.now n) (sample_rows current (length samples.now))) }
{
    if row_of(samples, n, tag).is_some() {
        return Err(Refusal::KnownTag);
    }
    if sample_rows(samples.len()) <= n {
        return Err(Refusal::NoRow);
    }
    Ok(())
}
