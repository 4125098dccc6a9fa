// The channels.
ghost use Rattle.std.specs.Prelude.{◌≡◌, ◌+◌, ◌≤◌, ◌<◌, length};
ghost use Rattle.protocol.specs.Net.{capacity, most_stations};
ghost use Rattle.layout.specs.Layout.{message_at, channel_size, message_size, net_length};
ghost use Rattle.layout.specs.Bounded.{table};
ghost use Rattle.shape.specs.Shape.{message_shaped, channel_shaped, channel_row_shaped, channels_shaped};

use layout::front::Front;
use layout::offset::{
    CHANNEL_ROW_SIZE, CHANNEL_SIZE, CHANNELS_AT, MESSAGE_SIZE, NET_LENGTH, channel_at,
};
use layout::stretch::zeros;
use protocol::{CAPACITY, REPLY, REQUEST};

fn message_shaped(s: &[u8], at: usize, g: usize) -> bool
    requires { at + message_size ≤ length s.now }
    ensures { result ≡ message_shaped g s.now at }
{
    ((REQUEST <= s[at]) & (s[at] <= REPLY))
        & (usize::from(s[at + 1]) < g)
        & (s[at + 2] <= 1)
        & (!(s[at] == REQUEST) | zeros(s, at + 2, at + MESSAGE_SIZE))
}

// The messages of the channel at `at`: the first m, and the others.
fn messages_shaped(s: &[u8], at: usize, g: usize, m: usize) -> bool
    requires { (at + channel_size ≤ length s.now) × (m ≤ capacity) }
    ensures { result ≡ table s.now (at + 1) message_size capacity m (λ i. message_shaped g s.now (message_at at i)) }
{
    (0..m).all(|i| message_shaped(s, at + 1 + MESSAGE_SIZE * i, g))
        & zeros(s, at + 1 + MESSAGE_SIZE * m, at + CHANNEL_SIZE)
}

// The channel at `at`, to station d from one whose neighbours are m.
fn channel_shaped(s: &[u8], at: usize, m: u16, g: usize, d: usize) -> bool
    requires { (at + channel_size ≤ length s.now) × (d < most_stations) }
    ensures { result ≡ channel_shaped m g d s.now at }
{
    let count = s[at];
    if CAPACITY < count {
        return false;
    }
    // nearly every channel is empty: then the length that is tested is known beforehand
    if count == 0 {
        return zeros(s, at + 1, at + CHANNEL_SIZE);
    }
    bits::mask::has_at(m, d) & messages_shaped(s, at, g, usize::from(count))
}

fn channel_row_shaped(s: &[u8], n: usize, g: usize, p: usize) -> bool
    requires { (net_length ≤ length s.now) × (n ≤ most_stations) × (p < most_stations) }
    ensures { result ≡ channel_row_shaped s.now n g p }
{
    let front = Front { bytes: s };
    let m = front.neighbours(p);
    let row = CHANNELS_AT + CHANNEL_ROW_SIZE * p;
    (0..n).fold(
        true,
        |ok, d| ok & channel_shaped(s, channel_at(p, d), m, g, d),
    ) & zeros(s, row + CHANNEL_SIZE * n, row + CHANNEL_ROW_SIZE)
}

pub fn channels_shaped(s: &[u8], n: usize, g: usize) -> bool
    requires { (net_length ≤ length s.now) × (n ≤ most_stations) }
    ensures { result ≡ channels_shaped s.now n g }
{
    (0..n).all(|p| channel_row_shaped(s, n, g, p))
        & zeros(s, CHANNELS_AT + CHANNEL_ROW_SIZE * n, NET_LENGTH)
}
