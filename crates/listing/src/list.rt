// Ball and box over codes: the tags of the samples in a region, with what was entered and measured.
ghost use Rattle.std.specs.Prelude.{◌≤◌, ◌≡◌, length, Ok};
ghost use Rattle.listing.specs.Pass.{pass_of};
ghost use Rattle.listing.specs.Answers.{listed_answer, pass_answer};

use crate::tally::Tally;
use crate::visit::pass;
use colour::Region;
use colour::refusal::Refusal;
use words::tables::Tables;

// What a listing came to: how many are listed, octants entered, and samples measured.
#[derive(Clone, Copy)]
pub struct Counts {
    pub listed: u32,
    pub entered: u32,
    pub measured: u32,
}

impl From<Tally> for Counts {
    ghost from_gives = { λ t c. c ≡ record { listed = t.listed; entered = t.entered; measured = t.measured } };

    fn from(tally: Tally) -> Self {
        Counts {
            listed: tally.listed,
            entered: tally.entered,
            measured: tally.measured,
        }
    }
}

// How many a pass lists. It writes on a word of its own, and so only counts.
fn how_many(tables: &Tables<'_>, region: Region) -> usize
    ensures { result ≡ length (pass_of tables.now.samples.now tables.now.octants.now region).tags }
{
    let mut tally = Tally::new();
    let mut word = [0u32; 1];
    pass(tables, &region, &mut word, &mut tally);
    tally.listed as usize
}

// A pass that writes.
#[tactic(auto, using(crate::proofs::Laws::Answers::Listing::listed_all))]
fn write(tables: &Tables<'_>, region: Region, listing: &mut [u32]) -> Counts
    requires room { length (pass_of tables.now.samples.now tables.now.octants.now region).tags ≤ length listing.old }
    ensures { listed_answer (Ok result) listing.new
        ≡ pass_answer (pass_of tables.now.samples.now tables.now.octants.now region) listing.old }
{
    let mut tally = Tally::new();
    pass(tables, &region, listing, &mut tally);
    Counts::from(tally)
}

// Question 13, and the listing. A listing as long as the samples that a pass may visit holds all, so that one pass does; else it is counted
// first, and nothing is written if it is too short.
#[tactic(auto, using(crate::proofs::Laws::Answers::Answered::tags_budget, crate::proofs::Laws::Answers::Listing::no_room))]
pub fn list(tables: &Tables<'_>, region: Region, listing: &mut [u32]) -> Result<Counts, Refusal>
    ensures { listed_answer result listing.new
        ≡ pass_answer (pass_of tables.now.samples.now tables.now.octants.now region) listing.old }
{
    let room = listing.len();
    if room < tables.sample_budget() as usize {
        if room < how_many(tables, region) {
            return Err(Refusal::NoRoom);
        }
    }
    Ok(write(tables, region, listing))
}
