// Reading a net's bytes as the rules read the net, and changing one entry, route or channel of it: the actions above know no
// offset.
#![tactic(auto)]

pub mod change;
pub mod read;
