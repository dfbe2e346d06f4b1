// Ball and box over the tables. Nothing in the tables is trusted: on any words at all a pass ends within what it is lent.
#![tactic(auto)]

mod follow;
pub mod list;
mod tally;
mod visit;
