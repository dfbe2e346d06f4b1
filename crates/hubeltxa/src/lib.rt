// The C boundary. Each call takes numbers, floats and lent words, and is a thin call of the crate that does the work. C takes a refusal as its number, and 0
// for what there is none of.
#![tactic(auto)]

ghost use Rattle.std.specs.Prelude.{ℕ, ◌≤◌, List, [], ◌≡◌};
ghost use Rattle.colour.specs.Refusal.{answer_number};
ghost use Rattle.colour.specs.Panel.{floats_to_codes, codes_to_floats};
ghost use Rattle.sheet.specs.Line.{write_line};
ghost use Rattle.sheet.specs.Sheet.{name_part};
ghost use Rattle.model.specs.Tables.{tables_lent, tables_left, tables_read};
ghost use Rattle.model.specs.Machine.{Clear, Change, Add, Remove, Load, plain, load_answer};
ghost use Rattle.model.specs.Meets.{Meets, CheckMeets};
ghost use Rattle.query.specs.Answers.{AskMeets, Bounds};
ghost use Rattle.hubeltxa.specs.Left.{channels_or, colour_of, panel_colour_of, sample_of, codes_left, floats_left, line_left, part_left};
ghost use Rattle.hubeltxa.specs.Left.{list_left, is_yes, near_left, Told, ToldNear};

use colour::refusal::{Refusal, number_of};
use colour::{Channels, Codes, Colour, PanelColour, Query, Sample, Settings};
use query::answers::Reply;
use samples::answers::{lines_taken, load_number};

// What a call with three channels answers: the number is returned, and the channels, or those of `none` after a refusal, go to the words or floats lent for
// them. (Its callers write `none` out, so that an edit can spoil one channel of it.)
fn tell_channels<T: Copy>(
    channels: Result<Channels<T>, Refusal>,
    none: Channels<T>,
    red: &mut T,
    green: &mut T,
    blue: &mut T,
) -> u32
    ensures number { result ≡ answer_number channels }
    ensures left { record { red = red.new; green = green.new; blue = blue.new } ≡ channels_or channels none }
{
    let left = channels.unwrap_or(none);
    *red = left.red;
    *green = left.green;
    *blue = left.blue;
    number_of(channels)
}

// Floats to codes.
#[tactic(auto, unfolding(colour::specs::Panel::codes_answer, colour::specs::Colour::black, colour::specs::Colour::colour_by))]
#[unsafe(no_mangle)]
pub extern "C" fn hbx_codes(
    red: f32,
    green: f32,
    blue: f32,
    red_code: &mut u32,
    green_code: &mut u32,
    blue_code: &mut u32,
) -> u32
    ensures { codes_left result red_code.new green_code.new blue_code.new
        ≡ floats_to_codes (panel_colour_of red green blue) }
{
    let codes = Codes::try_from(PanelColour { red, green, blue });
    let none = Colour {
        red: 0,
        green: 0,
        blue: 0,
    };
    tell_channels(
        codes.map(Colour::from),
        none,
        red_code,
        green_code,
        blue_code,
    )
}

// Codes to floats.
#[unsafe(no_mangle)]
pub extern "C" fn hbx_floats(
    red: u32,
    green: u32,
    blue: u32,
    red_out: &mut f32,
    green_out: &mut f32,
    blue_out: &mut f32,
) -> u32
    ensures { floats_left result red_out.new green_out.new blue_out.new
        ≡ codes_to_floats (colour_of red green blue) }
{
    let floats = PanelColour::try_from(Colour { red, green, blue });
    let none = PanelColour {
        red: 0.0,
        green: 0.0,
        blue: 0.0,
    };
    tell_channels(floats, none, red_out, green_out, blue_out)
}

// A sample from four numbers.
fn sample_of(tag: u32, red: u32, green: u32, blue: u32) -> Sample
    ensures { result ≡ sample_of tag red green blue }
{
    Sample {
        tag,
        colour: Colour { red, green, blue },
    }
}

// Writes a sheet's line.
#[tactic(auto, unfolding(sheet::specs::Answers::written_answer))]
#[unsafe(no_mangle)]
pub extern "C" fn hbx_line(
    tag: u32,
    red: u32,
    green: u32,
    blue: u32,
    name: &[u8],
    line: &mut [u8],
) -> u32
    ensures { line_left result line.new
        ≡ write_line (sample_of tag red green blue) name.now line.old }
{
    let sample = sample_of(tag, red, green, blue);
    number_of(sheet::writer::write_line(sample, name, line))
}

// Looks a name up: where in the sheet it starts, and its length.
#[unsafe(no_mangle)]
pub extern "C" fn hbx_name(sheet: &[u8], tag: u32, start: &mut usize, length: &mut usize)
    ensures { part_left start.new length.new ≡ name_part sheet.now tag }
{
    let part = sheet::lookup::name_part(sheet, tag);
    *start = part.start;
    *length = part.size;
}

// Empties the set and sets the bucket size.
#[tactic(auto, unfolding(samples::specs::Answers::changed_answer))]
#[unsafe(no_mangle)]
pub extern "C" fn hbx_clear(samples: &mut [u32], octants: &mut [u32], bucket: u32) -> u32
    ensures { Meets (Clear (record { bucket = bucket })) (tables_lent samples octants)
        (plain result []) (tables_left samples octants) }
{
    let settings = Settings { bucket };
    number_of(samples::clear::clear(samples, octants, settings))
}

// Adds a sample.
#[tactic(auto, unfolding(samples::specs::Answers::changed_answer))]
#[unsafe(no_mangle)]
pub extern "C" fn hbx_add(
    samples: &mut [u32],
    octants: &mut [u32],
    tag: u32,
    red: u32,
    green: u32,
    blue: u32,
) -> u32
    ensures { Meets (Change (Add (sample_of tag red green blue))) (tables_lent samples octants)
        (plain result []) (tables_left samples octants) }
{
    let sample = sample_of(tag, red, green, blue);
    number_of(samples::add::add(samples, octants, sample))
}

// Removes the sample with a tag.
#[tactic(auto, unfolding(samples::specs::Answers::changed_answer))]
#[unsafe(no_mangle)]
pub extern "C" fn hbx_remove(samples: &mut [u32], octants: &mut [u32], tag: u32) -> u32
    ensures { Meets (Change (Remove tag)) (tables_lent samples octants) (plain result []) (tables_left samples octants) }
{
    number_of(samples::remove::remove(samples, octants, tag))
}

// Loads a sheet, and says how many lines were taken.
#[tactic(auto, unfolding(samples::specs::Answers::loaded_answer))]
#[unsafe(no_mangle)]
pub extern "C" fn hbx_load(
    samples: &mut [u32],
    octants: &mut [u32],
    sheet: &[u8],
    taken: &mut u32,
) -> u32
    ensures { Meets (Change (Load sheet.now)) (tables_lent samples octants)
        (load_answer result taken.new) (tables_left samples octants) }
{
    let answer = samples::load::load(samples, octants, sheet);
    *taken = lines_taken(answer);
    load_number(answer)
}

// What a ball or a box answers: the number is returned, and the counts go to the words lent for them.
#[tactic(auto, unfolding(query::specs::Answers::reply_answer, model::specs::Machine::plain, model::specs::Machine::list_answer, model::specs::Machine::nearest_answer))]
fn tell(
    reply: Result<Reply, Refusal>,
    listed: &mut u32,
    entered: &mut u32,
    measured: &mut u32,
) -> u32
    ensures { Told reply result listed.new entered.new measured.new }
{
    *listed = 0;
    *entered = 0;
    *measured = 0;
    if let Ok(Reply::Listed(counts)) = reply {
        *listed = counts.listed;
        *entered = counts.entered;
        *measured = counts.measured;
    }
    number_of(reply)
}

// Lists the samples in a ball, and says how many were listed, entered and measured.
#[tactic(auto, unfolding(model::specs::Meets::lists), using(crate::proofs::Laws::Told::listed_told))]
#[unsafe(no_mangle)]
pub extern "C" fn hbx_ball(
    samples: &[u32],
    octants: &[u32],
    red: f32,
    green: f32,
    blue: f32,
    radius: f32,
    listing: &mut [u32],
    listed: &mut u32,
    entered: &mut u32,
    measured: &mut u32,
) -> u32
    ensures meets { AskMeets (Query.Ball (panel_colour_of red green blue) radius)
        listing.old (tables_read samples octants)
        (list_left result listed.new entered.new measured.new listing.new) }
    ensures bounds { Bounds listing.old (tables_read samples octants)
        (list_left result listed.new entered.new measured.new listing.new) }
{
    let centre = PanelColour { red, green, blue };
    let reply = query::ask::ball(samples, octants, centre, radius, listing);
    tell(reply, listed, entered, measured)
}

// Lists the samples in a box, and says the same.
#[tactic(auto, unfolding(model::specs::Meets::lists), using(crate::proofs::Laws::Told::listed_told))]
#[unsafe(no_mangle)]
pub extern "C" fn hbx_box(
    samples: &[u32],
    octants: &[u32],
    low_red: f32,
    low_green: f32,
    low_blue: f32,
    high_red: f32,
    high_green: f32,
    high_blue: f32,
    listing: &mut [u32],
    listed: &mut u32,
    entered: &mut u32,
    measured: &mut u32,
) -> u32
    ensures meets { AskMeets
        (Query.Box (panel_colour_of low_red low_green low_blue) (panel_colour_of high_red high_green high_blue))
        listing.old (tables_read samples octants)
        (list_left result listed.new entered.new measured.new listing.new) }
    ensures bounds { Bounds listing.old (tables_read samples octants)
        (list_left result listed.new entered.new measured.new listing.new) }
{
    let low = PanelColour {
        red: low_red,
        green: low_green,
        blue: low_blue,
    };
    let high = PanelColour {
        red: high_red,
        green: high_green,
        blue: high_blue,
    };
    let reply = query::ask::boxed(samples, octants, low, high, listing);
    tell(reply, listed, entered, measured)
}

// What a nearest query answers: the number is returned, and what was found goes to the words lent for it.
#[tactic(auto, unfolding(crate::specs::Left::is_yes, query::specs::Answers::reply_answer, model::specs::Machine::plain, model::specs::Machine::list_answer, model::specs::Machine::nearest_answer))]
fn tell_near(
    answer: Result<Reply, Refusal>,
    found: &mut u32,
    tag: &mut u32,
    distance: &mut u64,
) -> u32
    ensures { ToldNear answer result found.new tag.new distance.new }
{
    *found = 0;
    *tag = 0;
    *distance = 0;
    if let Ok(Reply::Nearest(Some(near))) = answer {
        *found = 1;
        *tag = near.tag;
        *distance = near.distance;
    }
    number_of(answer)
}

// Finds the nearest sample within a radius, and says its tag and its squared distance. It is lent no listing, and promises its answer with any.
#[unsafe(no_mangle)]
pub extern "C" fn hbx_near(
    samples: &[u32],
    octants: &[u32],
    red: f32,
    green: f32,
    blue: f32,
    radius: f32,
    found: &mut u32,
    tag: &mut u32,
    distance: &mut u64,
) -> u32
    ensures meets { (listing : List ℕ) → AskMeets (Query.Nearest (panel_colour_of red green blue) radius)
        listing (tables_read samples octants)
        (near_left result found.new tag.new distance.new listing) }
    ensures bounds { (listing : List ℕ) → Bounds listing (tables_read samples octants)
        (near_left result found.new tag.new distance.new listing) }
    ensures bit { found.new ≤ 1 }
{
    let from = PanelColour { red, green, blue };
    let reply = query::ask::nearest(samples, octants, from, radius);
    tell_near(reply, found, tag, distance)
}

// Whether the tables are those of some set.
#[tactic(auto, unfolding(crate::specs::Left::is_yes))]
#[unsafe(no_mangle)]
pub extern "C" fn hbx_check(samples: &[u32], octants: &[u32]) -> u32
    ensures meets { CheckMeets (tables_read samples octants) (is_yes result) }
    ensures bit { result ≤ 1 }
{
    u32::from(octree::tables::check(samples, octants))
}
