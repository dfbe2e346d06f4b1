// The calls that change a sample set: clear, add, remove and load. Each leaves the tables of the machine's set, every word.
// (The two tables go as two slices. In a struct of both, as `Tables` is for calls that read, they would be lent on one by one by each function that writes one,
// and each contract would have to say that the struct lends the same two still.)
#![tactic(auto)]

pub mod add;
pub mod answers;
pub mod clear;
pub mod find;
pub mod load;
pub mod rebuild;
pub mod remove;
pub mod rows;
mod sound;
