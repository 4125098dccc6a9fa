// The ground: big-endian numbers in a slice of bytes, and masks of 16 bits.
#![tactic(auto)]

pub mod mask;
pub mod number;
