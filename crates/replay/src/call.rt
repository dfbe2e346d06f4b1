// One entry for every call: what a run of calls knows of each is what this function ensures.
ghost use Rattle.std.specs.Prelude.{[]};
ghost use Rattle.model.specs.Tables.{tables_lent, tables_left};
ghost use Rattle.model.specs.Machine.{Change};
ghost use Rattle.model.specs.Meets.{Meets};
ghost use Rattle.replay.specs.Calls.{change_meant, answer_of, CallMeets};

use crate::calls::{Call, Changing, Given};
use query::ask::ask;
use samples::add::add;
use samples::clear::clear;
use samples::load::load;
use samples::remove::remove;

// Makes a call that changes a set.
#[tactic(auto, unfolding(crate::specs::Calls::answer_of, crate::specs::Calls::change_meant, model::specs::Machine::load_answer, samples::specs::Answers::changed_answer, samples::specs::Answers::loaded_answer))]
fn change(samples: &mut [u32], octants: &mut [u32], change: Changing, sheet: &[u8]) -> Given
    ensures { Meets (Change (change_meant change sheet.now)) (tables_lent samples octants)
        (answer_of result []) (tables_left samples octants) }
{
    match change {
        Changing::Load => Given::Loaded(load(samples, octants, sheet)),
        Changing::Add(sample) => Given::Changed(add(samples, octants, sample)),
        Changing::Remove(tag) => Given::Changed(remove(samples, octants, tag)),
    }
}

// Makes a call. The sheet is a load's, and the listing a query's; the other calls leave them alone.
pub fn call(
    samples: &mut [u32],
    octants: &mut [u32],
    call: Call,
    sheet: &[u8],
    listing: &mut [u32],
) -> Given
    ensures { CallMeets call sheet.now listing.old (tables_lent samples octants)
        result listing.new (tables_left samples octants) }
{
    match call {
        Call::Clear(settings) => Given::Changed(clear(samples, octants, settings)),
        Call::Change(changing) => change(samples, octants, changing, sheet),
        Call::Ask(query) => Given::Replied(ask(samples, octants, query, listing)),
    }
}
