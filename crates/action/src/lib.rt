// What the nine actions have in common: their operands, a station that leaves, and their answer.
#![tactic(auto)]

pub mod leave;
pub mod operands;

use protocol::Case;

// What came of an action: it was refused; or it was accepted, and moved no message, sent one, answered a request, heard a reply of this
// case, or lost one. Which number a refusal has is not told here: a run only counts it. It is one of six and not a result with an option
// in it: the tally of a run is counted by one match over the six.
#[derive(Clone, Copy)]
pub enum Answer {
    Refused,
    Changed,
    Sent,
    Answered,
    Heard(Case),
    Lost,
}
