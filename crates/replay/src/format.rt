// The numbers of a script, each once. Words and floats that a call does not use may be any. Which word says which call stands in
// `script::Kind` alone. (They are places in words and no structs: C lends a script and room for its answers as words.)

// How many words and how many floats a step has: which call it is, eight words of arguments, and a length. A tag has two words.
pub const STEP: usize = 10;

// How many words an answer has; the last two are spare, and 0.
pub const ANSWER: usize = 12;

// The word that says which call.
pub const KIND: usize = 0;

// A clear's bucket size.
pub const BUCKET: usize = 1;

// The tag of an add or a remove; the word after it is kept for the upper half of a longer tag.
pub const TAG: usize = 1;

// An add's codes.
pub const RED: usize = 3;

pub const GREEN: usize = 4;

pub const BLUE: usize = 5;

// A load's sheet: where it starts among the sheets, and its length.
pub const SHEET_START: usize = 1;

pub const SHEET_LENGTH: usize = 2;

// How many words a query is lent for its listing.
pub const LENT: usize = 9;

// A query's floats: the centre of a ball, or a box's low colour; a radius, or a box's high colour.
pub const LOW: u32 = 0;

pub const HIGH: u32 = 3;

pub const RADIUS: usize = 3;

// Where an answer's words stand: its number; the lines that a load took; what a ball or a box listed, entered and measured; whether a nearest query found
// one, and its tag and its d², of two words each.
pub const NUMBER: usize = 0;

pub const TAKEN: usize = 1;

pub const LISTED: usize = 2;

pub const ENTERED: usize = 3;

pub const MEASURED: usize = 4;

pub const FOUND: usize = 5;

pub const NEAR_TAG: usize = 6;

pub const DISTANCE: usize = 8;
