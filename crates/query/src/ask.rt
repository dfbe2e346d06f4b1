// Ball and box, by the one entry that takes a query apart; that entry; and nearest, which asks the same questions itself.
ghost use Rattle.std.specs.Prelude.{true, false, List, ◌≡◌, ℕ};
ghost use Rattle.model.specs.Tables.{tables_read};
ghost use Rattle.model.specs.Meets.{lists};
ghost use Rattle.query.specs.Answers.{reply_answer, of_kind, Bounds, AskMeets};

use crate::answers::{Reply, of_best, of_listed};
use colour::panel::{Wanted, sphere_of};
use colour::refusal::Refusal;
use colour::{PanelColour, Query};
use listing::list::list;
use nearest::visit::nearest as nearest_code;
use words::layout::long_enough;
use words::tables::Tables;

// The query entry: an exported call. Questions 1 and 9, and then the listing or the search. A nearest query leaves the listing as it is.
pub fn ask(
    samples: &[u32],
    octants: &[u32],
    query: Query,
    listing: &mut [u32],
) -> Result<Reply, Refusal>
    ensures meets { AskMeets query listing.old (tables_read samples octants) (reply_answer result listing.new) }
    ensures bounds { Bounds listing.old (tables_read samples octants) (reply_answer result listing.new) }
    ensures kind { of_kind (lists query) result ≡ true }
{
    if !long_enough(samples.len(), octants.len()) {
        return Err(Refusal::TooShort);
    }
    let tables = Tables { samples, octants };
    match Wanted::try_from(query) {
        Ok(Wanted::Listed(region)) => of_listed(list(&tables, region, listing)),
        Ok(Wanted::Nearest(p, radius)) => Ok(of_best(nearest_code(&tables, p, radius))),
        Err(refusal) => Err(refusal),
    }
}

// A ball: an exported call.
#[tactic(auto, unfolding(model::specs::Meets::lists))]
pub fn ball(
    samples: &[u32],
    octants: &[u32],
    centre: PanelColour,
    radius: f32,
    listing: &mut [u32],
) -> Result<Reply, Refusal>
    ensures meets { AskMeets
        (Query.Ball centre radius) listing.old (tables_read samples octants) (reply_answer result listing.new) }
    ensures bounds { Bounds listing.old (tables_read samples octants) (reply_answer result listing.new) }
    ensures kind { of_kind true result ≡ true }
{
    ask(samples, octants, Query::Ball(centre, radius), listing)
}

// A box: an exported call.
#[tactic(auto, unfolding(model::specs::Meets::lists))]
pub fn boxed(
    samples: &[u32],
    octants: &[u32],
    low: PanelColour,
    high: PanelColour,
    listing: &mut [u32],
) -> Result<Reply, Refusal>
    ensures meets { AskMeets
        (Query.Box low high) listing.old (tables_read samples octants) (reply_answer result listing.new) }
    ensures bounds { Bounds listing.old (tables_read samples octants) (reply_answer result listing.new) }
    ensures kind { of_kind true result ≡ true }
{
    ask(samples, octants, Query::Box(low, high), listing)
}

// Nearest: an exported call. It uses no listing, so it promises its answer with any. It asks its questions itself: to build a query only to take it
// apart again costs a good part of a search of few samples.
pub fn nearest(
    samples: &[u32],
    octants: &[u32],
    centre: PanelColour,
    radius: f32,
) -> Result<Reply, Refusal>
    ensures meets { (listing : List ℕ) → AskMeets
        (Query.Nearest centre radius) listing (tables_read samples octants) (reply_answer result listing) }
    ensures bounds { (listing : List ℕ) → Bounds listing (tables_read samples octants) (reply_answer result listing) }
    ensures kind { of_kind false result ≡ true }
{
    if !long_enough(samples.len(), octants.len()) {
        return Err(Refusal::TooShort);
    }
    let tables = Tables { samples, octants };
    let (p, r) = sphere_of(centre, radius)?;
    Ok(of_best(nearest_code(&tables, p, r)))
}
