// What the bench program prints.
#![tactic(auto)]

pub mod lines;
pub mod report;
