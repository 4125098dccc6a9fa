// A form of a net's bytes: its mark in byte 7, and where the station entries stand.
ghost use Rattle.std.specs.Prelude.{◌≡◌, ◌+◌, ◌≤◌, ◌<◌, length};
ghost use Rattle.protocol.specs.Net.{most_groups, most_stations};
ghost use Rattle.layout.specs.Layout.{plan_length, entry_size, channels_at};
ghost use Rattle.layout.specs.Marks.{mark_byte, mark_of, by_group, by_station, stretch_at, stretch_size, in_stretch, entry_at};

use crate::front::Front;
use crate::offset::{ENTRIES_AT, ENTRY_SIZE, GROUP_ENTRIES_SIZE, STATION_ENTRIES_SIZE};
use protocol::MOST_STATIONS;

// The saved form has the entries by group, then station; the working form by station, then group.
#[derive(Clone, Copy, PartialEq, Eq)]
pub enum Mark {
    Saved = 0,
    Working = 1,
}

// Byte 7 of a net in this form: the number of the discriminant, tied to the definition `mark_byte` here and nowhere else.
pub fn mark_byte(m: Mark) -> u8
    ensures { result ≡ mark_byte m }
{
    m as u8
}

// The form that byte 7 says.
pub fn mark_of(front: &Front) -> Mark
    ensures { result ≡ mark_of front.now.bytes.now }
{
    if front.bytes[7] == 1 {
        Mark::Working
    } else {
        Mark::Saved
    }
}

// How far it is from a group's entry to the next group's.
pub fn by_group(m: Mark) -> usize
    ensures { result ≡ by_group m }
{
    match m {
        Mark::Saved => GROUP_ENTRIES_SIZE,
        Mark::Working => ENTRY_SIZE,
    }
}

// How far it is from a station's entry to the next station's.
pub fn by_station(m: Mark) -> usize
    ensures { result ≡ by_station m }
{
    match m {
        Mark::Saved => ENTRY_SIZE,
        Mark::Working => STATION_ENTRIES_SIZE,
    }
}

// Where the stretch of group g's entries begins, from its first to its last.
pub fn stretch_at(m: Mark, g: usize) -> usize
    requires { g < most_groups }
    ensures { (result ≡ stretch_at m g) × (result + stretch_size m ≤ channels_at) }
{
    ENTRIES_AT + by_group(m) * g
}

pub fn stretch_size(m: Mark) -> usize
    ensures { result ≡ stretch_size m }
{
    by_station(m) * (MOST_STATIONS - 1) + ENTRY_SIZE
}

// How far into it the entry of station p stands.
pub fn in_stretch(m: Mark, p: usize) -> usize
    requires { p < most_stations }
    ensures { (result ≡ in_stretch m p) × (result + entry_size ≤ stretch_size m) }
{
    by_station(m) * p
}

// Where the entry of group g and station p stands.
pub fn entry_at(m: Mark, g: usize, p: usize) -> usize
    requires { (g < most_groups) × (p < most_stations) }
    ensures { (result ≡ entry_at m g p) × (result + entry_size ≤ channels_at) }
{
    stretch_at(m, g) + in_stretch(m, p)
}
