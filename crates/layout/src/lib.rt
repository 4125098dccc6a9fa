// Where each thing stands among the bytes of a net, and tests over stretches of bytes.
#![tactic(auto)]

pub mod form;
pub mod front;
pub mod offset;
pub mod stretch;
