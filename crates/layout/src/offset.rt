// The lengths and offsets of specs/Layout.antt, as the code has them.
ghost use Rattle.std.specs.Prelude.{◌≡◌, ◌+◌, ◌≤◌, ◌<◌};
ghost use Rattle.protocol.specs.Net.{most_groups, most_stations};
ghost use Rattle.layout.specs.Layout.{group_at, mask_at, route_at, channel_at, channel_size, entries_at, group_size, mask_size, masks_at, net_length, routes_at};

pub const NET_LENGTH: usize = 15728;

pub const PLAN_LENGTH: usize = 112;

pub const GROUPS_AT: usize = 8;

pub const NAME_SIZE: usize = 17;

pub const GROUP_SIZE: usize = 18;

pub const MASKS_AT: usize = 80;

pub const MASK_SIZE: usize = 2;

pub const ROUTES_AT: usize = 112;

pub const ROUTE_ROW_SIZE: usize = 16;

pub const ENTRIES_AT: usize = 368;

pub const ENTRY_SIZE: usize = 12;

// The entries of one group, and those of one station.
pub const GROUP_ENTRIES_SIZE: usize = 192;

pub const STATION_ENTRIES_SIZE: usize = 48;

pub const CHANNELS_AT: usize = 1136;

pub const CHANNEL_SIZE: usize = 57;

pub const CHANNEL_ROW_SIZE: usize = 912;

pub const MESSAGE_SIZE: usize = 7;

pub fn group_at(g: usize) -> usize
    requires { g < most_groups }
    ensures { (result ≡ group_at g) × (result + group_size ≤ masks_at) }
{
    GROUPS_AT + GROUP_SIZE * g
}

pub fn mask_at(p: usize) -> usize
    requires { p < most_stations }
    ensures { (result ≡ mask_at p) × (result + mask_size ≤ routes_at) }
{
    MASKS_AT + MASK_SIZE * p
}

pub fn route_at(p: usize, d: usize) -> usize
    requires { (p < most_stations) × (d < most_stations) }
    ensures { (result ≡ route_at p d) × (result < entries_at) }
{
    ROUTES_AT + ROUTE_ROW_SIZE * p + d
}

pub fn channel_at(s: usize, d: usize) -> usize
    requires { (s < most_stations) × (d < most_stations) }
    ensures { (result ≡ channel_at s d) × (result + channel_size ≤ net_length) }
{
    CHANNELS_AT + CHANNEL_ROW_SIZE * s + CHANNEL_SIZE * d
}
