// Panel floats to codes and back, and queries taken apart.
ghost use Rattle.std.specs.Prelude.{◌&&◌, ◌≡◌, ◌≤◌, ◌^◌};
ghost use Rattle.colour.specs.Colour.{is_code, codes_fit};
ghost use Rattle.colour.specs.Panel.{below, answer_if, channel_if, channel_good, radius_good, panel_good};
ghost use Rattle.colour.specs.Panel.{codes_if, codes_answer, floats_to_codes, code_if, fit_if, Shown, floats_if, floats_answer, codes_to_floats};
ghost use Rattle.colour.specs.Query.{ordered, query_questions, sphere_if, asked_of};
ghost use Rattle.colour.specs.Question.{first_no};
ghost use Rattle.colour.specs.Refusal.{answer_number};

use crate::refusal::Refusal;
use crate::{Channels, Codes, Colour, PanelColour, Probe, Query, Region};

// What a query wants, in codes: what lies in a region, or what is nearest to a probe within a radius.
#[derive(Clone, Copy)]
pub enum Wanted {
    Listed(Region),
    Nearest(Probe, u32),
}

// The code of v, which has to be below 2 to the power twos, by exponent and fraction out of its bits.
// to_bits takes no NaN, so a NaN is refused first. The sign's bit stands above the exponent, so what is
// negative is past every exponent, and is refused by the same test. Below 2^-16 the code is 0; from there
// on it is the significand without the digits that stand for less than 2^-16.
fn code_of(v: f32, twos: u32) -> Option<u32>
    requires { twos ≤ 1 }
    ensures { result ≡ answer_if (below (2 ^ twos) v) v }
{
    if v != v {
        return None;
    }
    let bits = f32::to_bits(v);
    if bits == 0x8000_0000 {
        return Some(0);
    }
    let exponent = bits >> 23;
    let fraction = bits & 0x7f_ffff;
    if exponent >= 127 + twos {
        return None;
    }
    if exponent < 111 {
        return Some(0);
    }
    Some((0x80_0000 + fraction) >> (134 - exponent))
}

// A channel's code: 0 ≤ v < 1.
#[tactic(auto, unfolding(crate::specs::Panel::channel_good), using(crate::proofs::Floats::Answers::code_told, crate::proofs::Floats::Answers::refused_code, crate::proofs::Floats::Codes::code_below, crate::proofs::Laws::Refused::passed_on))]
fn channel_code(v: f32) -> Result<u16, Refusal>
    ensures { result ≡ channel_if (channel_good v) v }
{
    let code = code_of(v, 0).ok_or(Refusal::OutOfRange)?;
    Ok(code as u16)
}

// A radius in codes: 0 ≤ v < 2.
#[tactic(auto, unfolding(crate::specs::Panel::radius_good), using(crate::proofs::Floats::Answers::refused_code))]
fn radius_code(v: f32) -> Result<u32, Refusal>
    ensures { result ≡ channel_if (radius_good v) v }
{
    code_of(v, 1).ok_or(Refusal::OutOfRange)
}

// Floats to codes: an exported call. (Each code is named, so that an edit can give one for another.)
impl TryFrom<PanelColour> for Codes {
    type Error = Refusal;

    ghost try_from_gives = { λ p r. (codes_answer r ≡ floats_to_codes p) × (r ≡ codes_if (panel_good p) p) };

    fn try_from(p: PanelColour) -> Result<Self, Refusal> {
        let Channels { red, green, blue } = p.try_map(channel_code)?;
        Ok(Channels { red, green, blue })
    }
}

// A word that is a code: question 4.
#[tactic(auto, unfolding(crate::specs::Panel::code_if, crate::specs::Colour::is_code))]
fn code_in(word: u32) -> Result<u16, Refusal>
    ensures { result ≡ code_if (is_code word) word }
{
    u16::try_from(word).map_err(|_| Refusal::Code)
}

// A colour whose words are codes: question 4.
impl TryFrom<Colour> for Codes {
    type Error = Refusal;

    ghost try_from_gives = { λ c r. r ≡ fit_if (codes_fit c) c };

    fn try_from(c: Colour) -> Result<Self, Refusal> {
        c.try_map(code_in)
    }
}

// Whether a colour's words are codes: question 4.
#[tactic(auto, unfolding(crate::specs::Panel::fit_if))]
pub fn codes_fit(c: Colour) -> bool
    ensures { result ≡ codes_fit c }
{
    Codes::try_from(c).is_ok()
}

// Codes as words.
impl From<Codes> for Colour {
    ghost from_gives = { λ c r. r ≡ c };

    fn from(c: Codes) -> Self {
        c.map(u32::from)
    }
}

// A code as a float: one division, which is exact.
#[tactic(auto, using(crate::proofs::Floats::Shown::divided, crate::proofs::Floats::Shown::shown_meets))]
fn show(code: u16) -> f32
    ensures { Shown code result }
{
    f32::from(code) / 65536.0
}

// Codes to floats: an exported call.
impl TryFrom<Colour> for PanelColour {
    type Error = Refusal;

    ghost try_from_gives = { λ c r. (floats_answer r ≡ codes_to_floats c) × (r ≡ floats_if (codes_fit c) c) };

    fn try_from(c: Colour) -> Result<Self, Refusal> {
        Ok(Codes::try_from(c)?.map(show))
    }
}

// Whether a colour is at most another in each channel.
#[tactic(auto, unfolding(crate::specs::Query::ordered, crate::specs::Colour::each, crate::specs::Colour::code_in))]
fn at_most(low: Codes, high: Codes) -> bool
    ensures { result ≡ ordered low high }
{
    low.zip(high).map(|(least, most)| least <= most).every()
}

// A probe at a centre, and a radius in codes, or the refusal by 9. (Nearest asks it itself: a query in between, made and taken apart, took 8 ns a call.)
pub fn sphere_of(centre: PanelColour, radius: f32) -> Result<(Probe, u32), Refusal>
    ensures { result ≡ sphere_if (panel_good centre && radius_good radius) centre radius }
{
    let c = Codes::try_from(centre)?;
    let r = radius_code(radius)?;
    Ok((Probe { centre: c }, r))
}

// What a box asks.
fn box_asked(low: PanelColour, high: PanelColour) -> Result<Wanted, Refusal>
    ensures { result ≡ asked_of (Query.Box low high) }
{
    let l = Codes::try_from(low)?;
    let h = Codes::try_from(high)?;
    if at_most(l, h) {
        Ok(Wanted::Listed(Region::Box(Colour::from(l), Colour::from(h))))
    } else {
        Err(Refusal::OutOfRange)
    }
}

// A query taken apart: an exported call.
impl TryFrom<Query> for Wanted {
    type Error = Refusal;

    ghost try_from_gives = { λ q r. (answer_number r ≡ first_no (query_questions q)) × (r ≡ asked_of q) };

    fn try_from(q: Query) -> Result<Self, Refusal> {
        match q {
            Query::Ball(centre, radius) => {
                let (p, r) = sphere_of(centre, radius)?;
                Ok(Wanted::Listed(Region::Ball(p, r)))
            }
            Query::Box(low, high) => box_asked(low, high),
            Query::Nearest(centre, radius) => {
                let (p, r) = sphere_of(centre, radius)?;
                Ok(Wanted::Nearest(p, r))
            }
        }
    }
}
