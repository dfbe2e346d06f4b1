// A step of a script: the call that it says, the part of the sheets that it names, and how much of the listings it is lent.
ghost use Rattle.std.specs.Prelude.{◌+◌, ◌/◌, min, ◌≡◌, get_or};
ghost use Rattle.replay.specs.Calls.{query_of};
ghost use Rattle.replay.specs.Format.{step_width, answer_width, lent_at};
ghost use Rattle.replay.specs.Script.{kind_of, colour_at, sample_said, call_in, sheet_in, wants};

use crate::calls::{Call, Changing};
use crate::format::{
    ANSWER, BLUE, BUCKET, GREEN, HIGH, KIND, LENT, LOW, RADIUS, RED, SHEET_LENGTH, SHEET_START,
    STEP, TAG,
};
use colour::{Colour, PanelColour, Query, Sample, Settings};

// The seven calls.
#[derive(Clone, Copy)]
pub enum Kind {
    Clear,
    Load,
    Add,
    Remove,
    Ball,
    Box,
    Nearest,
}

// By the word that says which: every word says one.
impl From<u32> for Kind {
    ghost from_gives = { λ word kind. kind ≡ kind_of word };

    #[tactic(auto, unfolding(crate::specs::Script::kind_of))]
    fn from(word: u32) -> Self {
        match word {
            0 => Kind::Clear,
            1 => Kind::Load,
            2 => Kind::Add,
            3 => Kind::Remove,
            4 => Kind::Ball,
            5 => Kind::Box,
            _ => Kind::Nearest,
        }
    }
}

// How many steps there are words, floats and answer words for.
pub fn steps_of(words: usize, floats: usize, answers: usize) -> usize
    ensures { result ≡ min (words / step_width) (min (floats / step_width) (answers / answer_width)) }
{
    (words / STEP).min((floats / STEP).min(answers / ANSWER))
}

// The item at a place; past the end, what stands there for none.
fn item_or<T: Copy>(items: &[T], k: usize, none: T) -> T
    ensures { result ≡ get_or items.now k none }
{
    items.get(k).copied().unwrap_or(none)
}

// The colour in three floats from float k on.
#[tactic(auto, unfolding(crate::specs::Script::colour_at))]
fn colour_at(floats: &[f32], k: u32) -> PanelColour
    ensures { result ≡ colour_at floats.now k }
{
    let at = k as usize;
    PanelColour {
        red: item_or(floats, at, 0.0),
        green: item_or(floats, at + 1, 0.0),
        blue: item_or(floats, at + 2, 0.0),
    }
}

// The sample that an add says.
#[tactic(auto, unfolding(crate::specs::Script::sample_said))]
fn sample_said(words: &[u32]) -> Sample
    ensures { result ≡ sample_said words.now }
{
    Sample {
        tag: item_or(words, TAG, 0),
        colour: Colour {
            red: item_or(words, RED, 0),
            green: item_or(words, GREEN, 0),
            blue: item_or(words, BLUE, 0),
        },
    }
}

// The call that a step says.
#[tactic(auto, unfolding(crate::specs::Script::call_in, crate::specs::Script::call_of_kind, crate::specs::Script::sample_said))]
pub fn call_in(words: &[u32], floats: &[f32]) -> Call
    ensures { result ≡ call_in words.now floats.now }
{
    let bucket = item_or(words, BUCKET, 0);
    let sample = sample_said(words);
    let low = colour_at(floats, LOW);
    let high = colour_at(floats, HIGH);
    let radius = item_or(floats, RADIUS, 0.0);
    match Kind::from(item_or(words, KIND, 0)) {
        Kind::Clear => Call::Clear(Settings { bucket }),
        Kind::Load => Call::Change(Changing::Load),
        Kind::Add => Call::Change(Changing::Add(sample)),
        Kind::Remove => Call::Change(Changing::Remove(sample.tag)),
        Kind::Ball => Call::Ask(Query::Ball(low, radius)),
        Kind::Box => Call::Ask(Query::Box(low, high)),
        Kind::Nearest => Call::Ask(Query::Nearest(low, radius)),
    }
}

// The part of the sheets that a step names, clipped to what is there.
#[tactic(auto, unfolding(crate::specs::Script::sheet_in), using(crate::proofs::Laws::Parts::part_clipped))]
pub fn sheet_in<'a>(words: &[u32], sheets: &'a [u8]) -> &'a [u8]
    ensures { result.now ≡ sheet_in words.now sheets.now }
{
    let start = (item_or(words, SHEET_START, 0) as usize).min(sheets.len());
    let size = (item_or(words, SHEET_LENGTH, 0) as usize).min(sheets.len() - start);
    let end = start + size;
    &sheets[start..end]
}

// How many words of what is left of the listings a step's call is lent: none if it is no query.
#[tactic(auto, unfolding(crate::specs::Calls::query_of, crate::specs::Script::wants))]
pub fn lent_to(call: Call, words: &[u32], left: usize) -> usize
    ensures { result ≡ min (wants (query_of call) (get_or words.now lent_at 0)) left }
{
    let most = (item_or(words, LENT, 0) as usize).min(left);
    match call {
        Call::Clear(_) | Call::Change(_) => 0,
        Call::Ask(_) => most,
    }
}
