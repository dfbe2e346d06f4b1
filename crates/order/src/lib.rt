// The order of samples: entries made of them, partitioned and ordered; no tag twice.
#![tactic(auto)]

pub mod entry;
pub mod order;
pub mod partition;
pub mod tags;
