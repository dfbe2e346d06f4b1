// Colours, octant cubes, Morton keys, and panel floats to codes and back.
// The types that every crate shares are declared here, and how any three words are brought into range.
#![tactic(auto)]

pub mod distance;
pub mod mask;
pub mod morton;
pub mod nearby;
pub mod octant;
pub mod overlap;
pub mod panel;
pub mod refusal;
pub mod span;

ghost use Rattle.std.specs.Prelude.{◌≡◌, ◌+◌, ◌^◌, ◌<◌, ◌&&◌};
ghost use Rattle.colour.specs.Channels.{Tried};
ghost use Rattle.colour.specs.Colour.{wrapped};

// What is said of red, green and blue alike.
#[derive(Clone, Copy, PartialEq, Eq)]
pub struct Channels<T> {
    pub red: T,
    pub green: T,
    pub blue: T,
}

impl<T: Copy> Channels<T> {
    // The same in each channel.
    pub fn all(value: T) -> Self
        ensures { result ≡ record { red = value; green = value; blue = value } }
    {
        Channels {
            red: value,
            green: value,
            blue: value,
        }
    }

    // The channels of two, side by side.
    pub fn zip<U>(self, other: Channels<U>) -> Channels<(T, U)>
        ensures { result ≡ record { red = (self.red, other.red); green = (self.green, other.green); blue = (self.blue, other.blue) } }
    {
        Channels {
            red: (self.red, other.red),
            green: (self.green, other.green),
            blue: (self.blue, other.blue),
        }
    }

    // f of each channel.
    pub fn map<U, F: Fn(T) -> U>(self, f: F) -> Channels<U>
        requires red { F.pre f self.red }
        requires green { F.pre f self.green }
        requires blue { F.pre f self.blue }
        ensures red { F.post f self.red result.red }
        ensures green { F.post f self.green result.green }
        ensures blue { F.post f self.blue result.blue }
    {
        Channels {
            red: f(self.red),
            green: f(self.green),
            blue: f(self.blue),
        }
    }

    // The same where f can refuse: the first refusal, if there is one.
    pub fn try_map<U: Copy, E, F: Fn(T) -> Result<U, E>>(self, f: F) -> Result<Channels<U>, E>
        requires red { F.pre f self.red }
        requires green { F.pre f self.green }
        requires blue { F.pre f self.blue }
        ensures { Tried (F.post f) self result }
    {
        let red = f(self.red)?;
        let green = f(self.green)?;
        let blue = f(self.blue)?;
        Ok(Channels { red, green, blue })
    }
}

impl Channels<bool> {
    // Whether all three hold. `&` and not `&&`: no branch.
    pub fn every(self) -> bool
        ensures { result ≡ self.red && self.green && self.blue }
    {
        self.red & self.green & self.blue
    }
}

impl Channels<u64> {
    // What the three come to.
    pub fn sum(self) -> u64
        requires { self.red + self.green + self.blue < 2 ^ 64 }
        ensures { result ≡ self.red + self.green + self.blue }
    {
        self.red + self.green + self.blue
    }
}

// A colour as three words. They are wider than a code, so that a code out of range can be passed and refused.
pub type Colour = Channels<u32>;

// A colour that is in range: its words are codes, and no more needs to be said of it.
pub type Codes = Channels<u16>;

// A panel colour: three floats that travel together.
pub type PanelColour = Channels<f32>;

// A sample (the paper's swatch).
#[derive(Clone, Copy, PartialEq, Eq)]
pub struct Sample {
    pub tag: u32,
    pub colour: Colour,
}

// What a clear sets (document 01, "The bin"): the bucket size b.
#[derive(Clone, Copy)]
pub struct Settings {
    pub bucket: u32,
}

// A query (the paper's gesture), with its panel floats: a centre and a radius, or a low and a high colour.
#[derive(Clone, Copy)]
pub enum Query {
    Ball(PanelColour, f32),
    Box(PanelColour, PanelColour),
    Nearest(PanelColour, f32),
}

// What distances are measured from: a centre.
#[derive(Clone, Copy)]
pub struct Probe {
    pub centre: Codes,
}

// The colours that a ball or a box asks for, in codes: those within a radius of a probe, or from a low colour to a high one. A box's words are only
// compared, so any will do.
#[derive(Clone, Copy)]
pub enum Region {
    Ball(Probe, u32),
    Box(Colour, Colour),
}

// An octant as a cube of colours: its least colour, its depth, and its side, which goes with it so that it is looked up once. (That it lies within the root
// is asked where it is needed: definitions make cubes, and would have to make the proofs with them. Its least colour is words: codes would be stored two
// bytes at a time and read eight at a time, which made searches slower.)
#[derive(Clone, Copy)]
pub struct Cube {
    pub low: Colour,
    pub depth: u32,
    pub side: u32,
}

// A colour of any three words, each brought into range.
#[tactic(auto, unfolding(crate::specs::Colour::wrapped, crate::specs::Colour::colour_by, crate::specs::Colour::code_in))]
pub fn wrapped(c: Colour) -> Codes
    ensures { result ≡ wrapped c }
{
    c.map(|word| (word % 65536) as u16)
}
