// Sheets: numbers in columns, the header, lines read and written, and the name lookup.
#![tactic(auto)]

pub mod column;
pub mod header;
pub mod line;
pub mod lookup;
pub mod text;
pub mod writer;
