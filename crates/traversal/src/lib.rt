// What every traversal of the tables asks of an octant, and the octants that a search goes through. Nothing in the tables is trusted.
#![tactic(auto)]

pub mod children;
pub mod nearby;
pub mod octant;
pub mod rows;
pub mod spot;
