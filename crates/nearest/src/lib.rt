// Nearest over the tables. Nothing in them is trusted: on any words at all a search ends within what it is lent.
#![tactic(auto)]

pub mod best;
mod leaf;
pub mod visit;
