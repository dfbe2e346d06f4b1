// The words of the two tables: where each stands, and those that are not named.
#![tactic(auto)]

pub mod layout;
pub mod tables;
pub mod zeros;
