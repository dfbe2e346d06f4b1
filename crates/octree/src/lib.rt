// The two tables: the next words and the octant rows of ordered entries, whole tables, and the checking call.
#![tactic(auto)]

pub mod next;
pub mod rows;
pub mod tables;
