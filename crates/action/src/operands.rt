// The operands of each kind of action: whether they are in range, and what is known of them then.
ghost use Rattle.std.specs.Prelude.{◌≡◌, true, ◌&&◌, ◌||◌, not, ◌<◌, eqb, ltb};
ghost use Rattle.protocol.specs.Net.{capacity, nil, group?, station?, near?};
ghost use Rattle.access.specs.Inner.Seen.{net_of};

use access::read::NetBytes;
use protocol::{CAPACITY, NIL};

// A group alone.
pub fn of_group(net: &NetBytes, g: u8, b: u8, c: u8) -> bool
    ensures value { result ≡ (group? (net_of net.now) g && eqb b 0 && eqb c 0) }
    ensures g_bound { result ≡ true → g < (net_of net.now).groups }
{
    net.is_group(g) & (b == 0) & (c == 0)
}

// A group and a station.
pub fn of_station(net: &NetBytes, g: u8, p: u8, c: u8) -> bool
    ensures value { result ≡ (group? (net_of net.now) g && station? (net_of net.now) p && eqb c 0) }
    ensures g_bound { result ≡ true → (g < (net_of net.now).groups) × (p < (net_of net.now).stations) }
{
    net.is_group(g) & net.is_station(p) & (c == 0)
}

// A group, a station and a flag.
pub fn of_flag(net: &NetBytes, g: u8, p: u8, v: u8) -> bool
    ensures value { result ≡ (group? (net_of net.now) g && station? (net_of net.now) p && ltb v 2) }
    ensures g_bound { result ≡ true → (g < (net_of net.now).groups) × (p < (net_of net.now).stations) }
{
    net.is_group(g) & net.is_station(p) & (v < 2)
}

// Two neighbours.
pub fn of_cable(net: &NetBytes, s: u8, d: u8, c: u8) -> bool
    ensures value { result ≡ (near? (net_of net.now) s d && eqb c 0) }
    ensures s_bound { result ≡ true → (s < (net_of net.now).stations) × (d < (net_of net.now).stations) }
{
    net.near(s, d) & (c == 0)
}

// Two neighbours, and a position in a channel.
pub fn of_position(net: &NetBytes, s: u8, d: u8, i: u8) -> bool
    ensures value { result ≡ (near? (net_of net.now) s d && ltb i capacity) }
    ensures s_bound { result ≡ true → (s < (net_of net.now).stations) × (d < (net_of net.now).stations) }
{
    net.near(s, d) & (i < CAPACITY)
}

// A group and two neighbours.
pub fn of_pair(net: &NetBytes, g: u8, p: u8, q: u8) -> bool
    ensures value { result ≡ (group? (net_of net.now) g && near? (net_of net.now) p q) }
    ensures g_bound { result ≡ true → (g < (net_of net.now).groups) × (p < (net_of net.now).stations) × (q < (net_of net.now).stations) }
{
    net.is_group(g) & net.near(p, q)
}

// A station, another, and a neighbour of the first or nil.
pub fn of_route(net: &NetBytes, p: u8, d: u8, q: u8) -> bool
    ensures value { result ≡ (station? (net_of net.now) p && station? (net_of net.now) d && not (eqb p d) && (eqb q nil || near? (net_of net.now) p q)) }
    ensures p_bound { result ≡ true → (p < (net_of net.now).stations) × (d < (net_of net.now).stations) }
{
    (net.is_station(p) & net.is_station(d) & (p != d)) && (q == NIL || net.near(p, q))
}
