// A channel's bytes: a count, and then the messages, oldest first.
#![tactic(auto)]

ghost use Rattle.std.specs.Prelude.{◌≡◌, [], ◌∷◌, ◌++◌, ◌+◌, ◌*◌, ◌≤◌, ◌<◌, eqb, length, get_or};
ghost use Rattle.bits.specs.Parts.{part, splice};
ghost use Rattle.protocol.specs.Net.{capacity, remove_at};
ghost use Rattle.protocol.specs.Entries.{is_of, count_of};
ghost use Rattle.protocol.specs.Rules.{no_message};
ghost use Rattle.layout.specs.Layout.{message_size};
ghost use Rattle.channel.specs.Inner.Channels.{moved_up};
ghost use Rattle.channel.specs.Messages.{message_of, message_bytes, messages_of, channel_bytes};
ghost use Rattle.channel.specs.Inner.Channels.{IsChannel};

use bits::number::join8;
use layout::offset::MESSAGE_SIZE;
use protocol::Message;

// How many messages the channel holds.
pub fn count(ch: &[u8]) -> u8
    requires { IsChannel ch.now }
    ensures { result ≡ length (messages_of ch.now) }
{
    ch[0]
}

fn put_message(s: &mut [u8], m: Message)
    requires { length s.old ≡ message_size }
    ensures { s.new ≡ message_bytes m }
{
    s[0] = m.kind;
    s[1] = m.group;
    s[2] = m.connected;
    bits::number::put(s, 3, m.clock);
}

fn get_message(s: &[u8]) -> Message
    requires { length s.now ≡ message_size }
    ensures { result ≡ message_of s.now }
{
    Message {
        kind: s[0],
        group: s[1],
        connected: s[2],
        clock: bits::number::get(s, 3),
    }
}

// The message that comes after the slot at `at` moves up into it.
fn move_one(s: &mut [u8], at: usize)
    requires { at + message_size + message_size ≤ length s.old }
    ensures { s.new ≡ splice s.old at (part message_size s.old (at + message_size)) }
{
    let next = at + MESSAGE_SIZE;
    let m = get_message(&s[next..next + MESSAGE_SIZE]);
    put_message(&mut s[at..next], m);
}

// Of n slots, every message but the first moves up by one, and the last slot is cleared: it alone is lent on for that.
fn move_up(s: &mut [u8], n: usize)
    requires { (0 < n) × (length s.old ≡ n * message_size) }
    ensures { s.new ≡ moved_up message_size s.old }
{
    let last = n - 1;
    for j in 0..last {
        move_one(s, j * MESSAGE_SIZE);
    }
    let at = last * MESSAGE_SIZE;
    s[at..at + MESSAGE_SIZE].fill(0);
}

// Removes the i-th message: the later ones present move up, and the freed slot is cleared. Only the slots from i to the last in use are
// lent on for that.
pub fn remove_at(ch: &mut [u8], i: usize)
    requires channel { IsChannel ch.old }
    requires i_in_bounds { i < length (messages_of ch.old) }
    ensures { ch.new ≡ channel_bytes (remove_at i (messages_of ch.old)) }
{
    let n = ch[0];
    let k = usize::from(n);
    let at = 1 + i * MESSAGE_SIZE;
    let end = 1 + k * MESSAGE_SIZE;
    move_up(&mut ch[at..end], k - i);
    ch[0] = n - 1;
}

// A message goes out: it comes last.
pub fn push(ch: &mut [u8], m: Message)
    requires channel { IsChannel ch.old }
    requires ch_len_bound { length (messages_of ch.old) < capacity }
    ensures { ch.new ≡ channel_bytes (messages_of ch.old ++ (m ∷ [])) }
{
    let n = ch[0];
    let at = 1 + usize::from(n) * MESSAGE_SIZE;
    put_message(&mut ch[at..at + MESSAGE_SIZE], m);
    ch[0] = n + 1;
}

// The i-th message, from the oldest.
pub fn message_at(ch: &[u8], i: usize) -> Message
    requires channel { IsChannel ch.now }
    requires i_in_bounds { i < length (messages_of ch.now) }
    ensures { result ≡ get_or (messages_of ch.now) i no_message }
{
    let at = 1 + i * MESSAGE_SIZE;
    get_message(&ch[at..at + MESSAGE_SIZE])
}

// Whether the message is of this kind and group. The two are held against it as one number, and so in one test.
fn is_of(m: Message, kind: u8, group: u8) -> bool
    ensures { result ≡ is_of kind group m }
{
    join8(m.kind, m.group) == join8(kind, group)
}

// Whether the channel holds no message of this kind and group.
pub fn none_of(ch: &[u8], kind: u8, group: u8) -> bool
    requires { IsChannel ch.now }
    ensures { result ≡ eqb (count_of kind group (messages_of ch.now)) 0 }
{
    (0..usize::from(ch[0])).all(|i| !is_of(message_at(ch, i), kind, group))
}
