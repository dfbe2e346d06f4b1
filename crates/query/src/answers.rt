// What a query answers.
ghost use Rattle.std.specs.Prelude.{true, false, List, ◌≡◌, ℕ, Ok};
ghost use Rattle.listing.specs.Answers.{listed_answer};
ghost use Rattle.nearest.specs.Best.{answer_of};
ghost use Rattle.query.specs.Answers.{reply_answer, of_kind};

use colour::refusal::Refusal;
use listing::list::Counts;
use nearest::best::Best;

// A sample that was found: its tag and d².
#[derive(Clone, Copy, PartialEq, Eq)]
pub struct Near {
    pub tag: u32,
    pub distance: u64,
}

// What an accepted query gives: how many were listed, with octants entered and samples measured; or what is nearest, if anything is. A refusal is by 1, 9
// or 13.
#[derive(Clone, Copy)]
pub enum Reply {
    Listed(Counts),
    Nearest(Option<Near>),
}

// A listing's answer.
#[tactic(auto, unfolding(crate::specs::Answers::reply_answer, crate::specs::Answers::of_kind, listing::specs::Answers::listed_answer))]
pub fn of_listed(listed: Result<Counts, Refusal>) -> Result<Reply, Refusal>
    ensures is { (left : List ℕ) → reply_answer result left ≡ listed_answer listed left }
    ensures kind { of_kind true result ≡ true }
{
    listed.map(Reply::Listed)
}

// The answer of a search.
#[tactic(auto, unfolding(crate::specs::Answers::of_kind, crate::specs::Answers::reply_answer, model::specs::Machine::list_answer, model::specs::Machine::nearest_answer, nearest::specs::Best::answer_of))]
pub fn of_best(best: Option<Best>) -> Reply
    ensures is { (left : List ℕ) → reply_answer (Ok result) left ≡ answer_of best left }
    ensures kind { of_kind false (Ok result) ≡ true }
{
    Reply::Nearest(best.map(|best| Near {
        tag: best.tag,
        distance: best.distance,
    }))
}
