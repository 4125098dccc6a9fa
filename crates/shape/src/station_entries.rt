// The station entries.
ghost use Rattle.std.specs.Prelude.{◌≡◌, ◌+◌, ◌≤◌, ◌<◌, length};
ghost use Rattle.bits.specs.Below.{all_below};
ghost use Rattle.protocol.specs.Net.{most_groups, most_stations};
ghost use Rattle.layout.specs.Layout.{entry_size, net_length};
ghost use Rattle.shape.specs.Shape.{parents_shaped, member_and_masks_shaped, entry_shaped, entry_cell_shaped, entries_shaped};

use crate::routes::nil_or;
use bits::number::get;
use layout::form::{Mark, entry_at};
use layout::front::Front;
use layout::offset::ENTRY_SIZE;
use layout::stretch::zeros;
use protocol::{MOST_GROUPS, MOST_STATIONS, NIL};

// The parents in the entry at `at`, of station p with the neighbours m, where r is the root.
fn parents_shaped(s: &[u8], at: usize, m: u16, r: usize, p: usize) -> bool
    requires { at + entry_size ≤ length s.now }
    ensures { result ≡ parents_shaped m r p s.now at }
{
    nil_or(m, s[at]) & nil_or(m, s[at + 1]) & (!(r == p) | ((s[at] == NIL) & (s[at + 1] == NIL)))
}

// Its flag and masks.
fn member_and_masks_shaped(s: &[u8], at: usize, m: u16) -> bool
    requires { at + entry_size ≤ length s.now }
    ensures { result ≡ member_and_masks_shaped m s.now at }
{
    (s[at + 2] <= 1)
        & (s[at + 3] == 0)
        & bits::mask::within(get(s, at + 8), m)
        & bits::mask::within(get(s, at + 10), m)
}

fn entry_shaped(s: &[u8], at: usize, m: u16, r: usize, p: usize) -> bool
    requires { at + entry_size ≤ length s.now }
    ensures { result ≡ entry_shaped m r p s.now at }
{
    parents_shaped(s, at, m, r, p) & member_and_masks_shaped(s, at, m)
}

// The cell of group k and station p, where n stations and g groups are used.
fn entry_cell_shaped(s: &[u8], m: Mark, n: usize, g: usize, k: usize, p: usize) -> bool
    requires { (net_length ≤ length s.now) × (k < most_groups) × (p < most_stations) }
    ensures { result ≡ entry_cell_shaped s.now n m g k p }
{
    let front = Front { bytes: s };
    let at = entry_at(m, k, p);
    if (k < g) & (p < n) {
        entry_shaped(s, at, front.neighbours(p), usize::from(front.root(k)), p)
    } else {
        zeros(s, at, at + ENTRY_SIZE)
    }
}

fn group_entries_shaped(s: &[u8], m: Mark, n: usize, g: usize, k: usize) -> bool
    requires { (net_length ≤ length s.now) × (k < most_groups) }
    ensures { result ≡ all_below most_stations (entry_cell_shaped s.now n m g k) }
{
    (0..MOST_STATIONS).fold(true, |ok, p| ok & entry_cell_shaped(s, m, n, g, k, p))
}

pub fn entries_shaped(s: &[u8], m: Mark, n: usize, g: usize) -> bool
    requires { net_length ≤ length s.now }
    ensures { result ≡ entries_shaped s.now n m g }
{
    (0..MOST_GROUPS).all(|k| group_entries_shaped(s, m, n, g, k))
}
