// Whether bytes are a well-shaped plan: the header, the groups and the cables, which a net has too.
#![tactic(auto)]

mod cables;
mod groups;
pub mod whole;
