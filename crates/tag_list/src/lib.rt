// What the program walklist prints.
#![tactic(auto)]

mod lines;
pub mod print;
