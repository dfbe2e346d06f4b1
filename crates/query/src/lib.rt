// The queries: ball, box and nearest over panel floats, and the entry that takes a query apart.
#![tactic(auto)]

pub mod answers;
pub mod ask;
