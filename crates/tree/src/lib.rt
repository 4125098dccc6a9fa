// One entry of the reach list: a station that a call reaches, its parent, and how deep it stands. The root's parent is the number 255, as in
// the list that C lends, and no option.
#![tactic(auto)]

#[derive(Clone, Copy)]
pub struct Reach {
    pub station: u8,
    pub parent: u8,
    pub depth: u8,
}
