// Any run of calls: the calls as values, one entry for each of them, and a driver that makes those of a script.
#![tactic(auto)]

pub mod call;
pub mod calls;
pub mod format;
pub mod replay;
pub mod script;
