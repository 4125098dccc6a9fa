// A run and a call into records that the caller lends.
#![tactic(auto)]

pub mod list;
pub mod tally;
