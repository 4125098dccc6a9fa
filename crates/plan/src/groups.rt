// The header and the groups.
ghost use Rattle.std.specs.Prelude.{◌≡◌, ◌≤◌, ◌<◌, length};
ghost use Rattle.protocol.specs.Net.{most_groups};
ghost use Rattle.layout.specs.Bounded.{table};
ghost use Rattle.layout.specs.Layout.{plan_length, groups_at, group_size};
ghost use Rattle.plan.specs.Planned as planned;

use layout::front::Front;
use layout::offset::{GROUP_SIZE, GROUPS_AT, MASKS_AT, NAME_SIZE, group_at};
use layout::stretch::zeros;
use protocol::{LONGEST_NAME, MOST_GROUPS, MOST_STATIONS};

// The first eight bytes of a plan or a net of this size, with this byte 7.
pub fn header_shaped(front: &Front, size: u32, byte7: u8) -> bool
    ensures { result ≡ planned.header_shaped front.now.bytes.now (planned.of_version1 size byte7) }
{
    let n = usize::from(front.stations());
    let g = usize::from(front.groups());
    (bits::number::get::<u32>(front.bytes, 0) == size)
        & (front.bytes[4] == 1)
        & ((1 <= n) & (n <= MOST_STATIONS))
        & ((1 <= g) & (g <= MOST_GROUPS))
        & (front.bytes[7] == byte7)
}

// Group g: its name's length and padding, and its root.
fn group_shaped(front: &Front, n: usize, g: usize) -> bool
    requires { g < most_groups }
    ensures { result ≡ planned.group_shaped front.now.bytes.now n g }
{
    let m = usize::from(front.name_length(g));
    if LONGEST_NAME < m {
        return false;
    }
    let at = group_at(g);
    (1 <= m) & zeros(front.bytes, at + 1 + m, at + NAME_SIZE) & (usize::from(front.root(g)) < n)
}

pub fn groups_shaped(front: &Front, n: usize, g: usize) -> bool
    requires { g ≤ most_groups }
    ensures { result ≡ table front.now.bytes.now groups_at group_size most_groups g (planned.group_shaped front.now.bytes.now n) }
{
    (0..g).all(|k| group_shaped(front, n, k))
        & zeros(front.bytes, GROUPS_AT + GROUP_SIZE * g, MASKS_AT)
}

// Whether groups a and b have the same name.
fn same_names(front: &Front, a: usize, b: usize) -> bool
    requires { (a < most_groups) × (b < most_groups) }
    ensures { result ≡ planned.same_names front.now.bytes.now a b }
{
    layout::stretch::same(front.bytes, group_at(a), group_at(b), NAME_SIZE)
}

// Whether no group before a has its name.
fn new_name(front: &Front, a: usize) -> bool
    requires { a < most_groups }
    ensures { result ≡ planned.new_name front.now.bytes.now a }
{
    (0..a).all(|b| !same_names(front, a, b))
}

pub fn names_distinct(front: &Front, g: usize) -> bool
    requires { g ≤ most_groups }
    ensures { result ≡ planned.names_distinct front.now.bytes.now g }
{
    (0..g).all(|a| new_name(front, a))
}
