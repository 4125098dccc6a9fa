// The numbers of document 01 that the code names, as in specs/Net.antt; the records that the rules speak of: what a station knows of one
// group, a message, what a reply comes to, and the counts of a run; and why a call is refused.
#![tactic(auto)]

pub const NIL: u8 = 255;

pub const MOST_STATIONS: usize = 16;

pub const MOST_GROUPS: usize = 4;

pub const LONGEST_NAME: usize = 16;

pub const LARGEST_CLOCK: u32 = 4294967295;

pub const CAPACITY: u8 = 8;

pub const REQUEST: u8 = 1;

pub const REPLY: u8 = 2;

pub const LONGEST_SCRIPT: usize = 16384;

// What a station knows of a group, and a message. A flag, a kind and a station that may be nil are the numbers that stand in memory, and no
// enums: the rules, and the view of any bytes (`net/specs/View.antt`), speak of these records whatever the numbers are, and only a shape
// (`protocol/specs/Shaped.antt`) says that a flag is below 2 and a kind 1 or 2.
#[derive(Clone, Copy)]
pub struct Entry {
    pub parent: u8,
    pub tentative: u8,
    pub member: u8,
    pub clock: u32,
    pub children: u16,
    pub waiting: u16,
}

#[derive(Clone, Copy)]
pub struct Message {
    pub kind: u8,
    pub group: u8,
    pub connected: u8,
    pub clock: u32,
}

// What comes of a reply, in the order in which it is tested, with the number of each case.
#[derive(Clone, Copy, PartialEq, Eq)]
pub enum Case {
    Adopted = 1,
    NotTentative,
    Unconnected,
    NotGreater,
}

// How many replies of each case were heard.
#[derive(Clone, Copy, Default)]
pub struct Replies {
    pub adopted: u32,
    pub not_tentative: u32,
    pub unconnected: u32,
    pub not_greater: u32,
}

#[derive(Clone, Copy, Default)]
pub struct Tally {
    pub accepted: u32,
    pub refused: u32,
    pub sent: u32,
    pub delivered: u32,
    pub lost: u32,
    pub replies: Replies,
}

// Why a call is refused: the rows of the outcome table, with their numbers. 0 is no refusal.
#[derive(Clone, Copy, PartialEq, Eq)]
pub enum Refusal {
    NotANet = 1,
    NotAnAction,
    BadOperand,
    NotEnabled,
    LastClock,
    FullChannel,
    NoSuchName,
    NotOnTree,
    NotAPlan,
    WrongSize,
    CutScript,
    LongScript,
}
