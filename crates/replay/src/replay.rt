// The driver: the calls of a script, one after the other, each made by the one entry.
ghost use Rattle.std.specs.Prelude.{◌%◌, ◌/◌, ◌^◌, ◌≤◌, [], ◌∷◌, ◌≡◌, length};
ghost use Rattle.model.specs.Tables.{tables_lent, tables_left};
ghost use Rattle.replay.specs.Calls.{answer_of};
ghost use Rattle.replay.specs.Format.{answer_width};
ghost use Rattle.replay.specs.Script.{script_of, written_over, answer_words};
ghost use Rattle.replay.specs.Replayed.{Stepped, Replayed};

use crate::call::call;
use crate::calls::Given;
use crate::format::{
    ANSWER, DISTANCE, ENTERED, FOUND, LISTED, MEASURED, NEAR_TAG, NUMBER, STEP, TAKEN,
};
use crate::script::{call_in, lent_to, sheet_in, steps_of};
use colour::refusal::number_of;
use query::answers::Reply;
use samples::answers::{lines_taken, load_number};

// What the upper word of a number of two words counts in.
const HALF: u64 = 4294967296;

// A number as two words, the lower first.
fn halves(n: u64) -> [u32; 2]
    ensures { result ≡ n % 2 ^ 32 ∷ n / 2 ^ 32 ∷ [] }
{
    [(n % HALF) as u32, (n / HALF) as u32]
}

// Writes what a call gave, as the words of an answer. What its call does not report is 0, and so are the two spare words.
#[tactic(auto, unfolding(crate::specs::Script::answer_words, crate::specs::Script::written_over, crate::specs::Script::flag, crate::specs::Calls::answer_of, query::specs::Answers::reply_answer, model::specs::Machine::plain, model::specs::Machine::list_answer, model::specs::Machine::nearest_answer))]
fn put_given(given: Given, words: &mut [u32])
    requires { answer_width ≤ length words.old }
    ensures { words.new ≡ written_over (answer_words (answer_of given [])) words.old }
{
    words[..ANSWER].fill(0);
    match given {
        Given::Changed(answer) => words[NUMBER] = number_of(answer),
        Given::Loaded(answer) => {
            words[NUMBER] = load_number(answer);
            words[TAKEN] = lines_taken(answer);
        }
        Given::Replied(Ok(Reply::Listed(counts))) => {
            words[LISTED] = counts.listed;
            words[ENTERED] = counts.entered;
            words[MEASURED] = counts.measured;
        }
        Given::Replied(Ok(Reply::Nearest(Some(near)))) => {
            words[FOUND] = 1;
            [words[NEAR_TAG], words[NEAR_TAG + 1]] = halves(u64::from(near.tag));
            [words[DISTANCE], words[DISTANCE + 1]] = halves(near.distance);
        }
        Given::Replied(Ok(Reply::Nearest(None))) => {}
        Given::Replied(Err(refusal)) => words[NUMBER] = u32::from(refusal),
    }
}

// Makes one step: lends its call the first words of the listings and writes its answer. Says how many words were lent.
#[tactic(auto, using(crate::proofs::Laws::Steps::stepped))]
fn step(
    samples: &mut [u32],
    octants: &mut [u32],
    words: &[u32],
    floats: &[f32],
    sheets: &[u8],
    listings: &mut [u32],
    answers: &mut [u32],
) -> usize
    requires { answer_width ≤ length answers.old }
    ensures { Stepped words.now floats.now sheets.now
        listings.old answers.old (tables_lent samples octants)
        result listings.new answers.new (tables_left samples octants) }
{
    let next = call_in(words, floats);
    let lent = lent_to(next, words, listings.len());
    let sheet = sheet_in(words, sheets);
    let given = call(samples, octants, next, sheet, &mut listings[..lent]);
    put_given(given, answers);
    lent
}

// Makes the steps of a script that there is room to answer, and says how many. (By number and not by chunks: a step is lent all that is left of each slice.)
#[unsafe(no_mangle)]
pub extern "C" fn hbx_replay(
    samples: &mut [u32],
    octants: &mut [u32],
    script: &[u32],
    floats: &[f32],
    sheets: &[u8],
    listings: &mut [u32],
    answers: &mut [u32],
) -> usize
    ensures { Replayed (script_of script.now floats.now sheets.now listings.old)
        answers.old (tables_lent samples octants)
        result listings.new answers.new (tables_left samples octants) }
{
    let steps = steps_of(script.len(), floats.len(), answers.len());
    let mut at = 0;
    for i in 0..steps {
        let from = STEP * i;
        let to = ANSWER * i;
        let lent = step(
            samples,
            octants,
            &script[from..],
            &floats[from..],
            sheets,
            &mut listings[at..],
            &mut answers[to..],
        );
        at += lent;
    }
    steps
}
