// What the bytes of a net say.
ghost use Rattle.std.specs.Prelude.{◌≡◌, ◌+◌, ◌≤◌, ◌<◌, true, false, eqb, length, get_or, IfOk, IfErr};
ghost use Rattle.bits.specs.Parts.{part};
ghost use Rattle.protocol.specs.Net.{Net, longest_name, most_groups, most_stations, group?, station?, near?};
ghost use Rattle.protocol.specs.Entries.{count_of, under_way};
ghost use Rattle.protocol.specs.Rules.{room?, no_message};
ghost use Rattle.layout.specs.Layout.{entry_size, channels_at};
ghost use Rattle.layout.specs.Marks.{mark_of, entry_at};
ghost use Rattle.channel.specs.Messages.{messages_of};
ghost use Rattle.channel.specs.Inner.Channels.{IsChannel};
ghost use Rattle.protocol.specs.declared.Refusal.TheVariants.{NotANet};
ghost use Rattle.shape.specs.Shape.{shaped_as};
ghost use Rattle.net.specs.View.{view, entry_of};
ghost use Rattle.access.specs.Inner.Nets.{IsNet};

use bits::number::get;
use layout::form::Mark;
use layout::front::Front;
use layout::offset::CHANNEL_SIZE;
use protocol::{CAPACITY, Entry, Message, REPLY, REQUEST, Refusal};

// Bytes that are a net's, in the form of this mark, to be read: whoever has them need not look again.
#[derive(Clone, Copy)]
pub struct NetBytes<'a> {
    pub bytes: &'a [u8],
    pub mark: Mark,
    ghost is_net: { IsNet bytes.now },
    ghost is_marked: { mark ≡ mark_of bytes.now },
}

// Whether bytes are a net in the form of this mark.
fn passes(bytes: &[u8], mark: Mark) -> bool
    ensures { result ≡ shaped_as mark bytes.now }
{
    match mark {
        Mark::Saved => shape::whole::shaped(bytes),
        Mark::Working => shape::whole::shaped_as(bytes, mark),
    }
}

fn read_entry(s: &[u8], at: usize) -> Entry
    requires { at + entry_size ≤ length s.now }
    ensures { result ≡ entry_of (part entry_size s.now at) }
{
    Entry {
        parent: s[at],
        tentative: s[at + 1],
        member: s[at + 2],
        clock: get(s, at + 4),
        children: get(s, at + 8),
        waiting: get(s, at + 10),
    }
}

// Where the entry of station p in group g stands, in the form of this mark.
pub fn entry_place(m: Mark, g: u8, p: u8) -> usize
    requires { (g < most_groups) × (p < most_stations) }
    ensures { (result ≡ entry_at m g p) × (result + entry_size ≤ channels_at) }
{
    layout::form::entry_at(m, usize::from(g), usize::from(p))
}

impl<'a> NetBytes<'a> {
    ghost use Rattle.access.specs.Inner.Seen.{net_of};

    // A net in whatever form its byte 7 says.
    pub fn of(bytes: &'a [u8]) -> Self
        requires { IsNet bytes.now }
        ensures { result.bytes.now ≡ bytes.now }
    {
        NetBytes {
            bytes,
            mark: layout::form::mark_of(&Front { bytes }),
        }
    }

    // Any bytes, if they are a net in the form of this mark.
    pub fn shaped(bytes: &'a [u8], mark: Mark) -> Result<Self, Refusal>
        ensures ok { IfOk result (λ net. (net.bytes.now ≡ bytes.now) × (net.mark ≡ mark) × (shaped_as mark bytes.now ≡ true)) }
        ensures err { IfErr result (λ k. (k ≡ NotANet) × (shaped_as mark bytes.now ≡ false)) }
    {
        if !passes(bytes, mark) {
            return Err(Refusal::NotANet);
        }
        Ok(NetBytes { bytes, mark })
    }

    // How many stations there are.
    pub fn stations(&self) -> u8
        ensures { result ≡ (net_of self.now).stations }
    {
        Front { bytes: self.bytes }.stations()
    }

    // How many groups.
    pub fn groups(&self) -> u8
        ensures { result ≡ (net_of self.now).groups }
    {
        Front { bytes: self.bytes }.groups()
    }

    // Whether g is one of the groups.
    pub fn is_group(&self, g: u8) -> bool
        ensures { result ≡ group? (net_of self.now) g }
    {
        g < self.groups()
    }

    // Whether p is one of the stations.
    pub fn is_station(&self, p: u8) -> bool
        ensures { result ≡ station? (net_of self.now) p }
    {
        p < self.stations()
    }

    // Whether p and q are stations, and neighbours: only stations are neighbours.
    pub fn near(&self, p: u8, q: u8) -> bool
        ensures { result ≡ near? (net_of self.now) p q }
    {
        let front = Front { bytes: self.bytes };
        self.is_station(p) && bits::mask::has(front.neighbours(usize::from(p)), q)
    }

    // The name of group g.
    pub fn name_of(&self, g: u8) -> &'a [u8]
        requires { g < (net_of self.now).groups }
        ensures { (result.now ≡ (net_of self.now).name g) × (length result.now ≤ longest_name) }
    {
        let g = usize::from(g);
        let at = layout::offset::group_at(g) + 1;
        let n = Front { bytes: self.bytes }.name_length(g);
        &self.bytes[at..at + usize::from(n)]
    }

    // The root of group g.
    pub fn root_of(&self, g: u8) -> u8
        requires { g < (net_of self.now).groups }
        ensures { (result ≡ (net_of self.now).root g) × (result < (net_of self.now).stations) }
    {
        Front { bytes: self.bytes }.root(usize::from(g))
    }

    // The route from p towards d.
    pub fn route_of(&self, p: u8, d: u8) -> u8
        requires { (p < (net_of self.now).stations) × (d < (net_of self.now).stations) }
        ensures { result ≡ (net_of self.now).route p d }
    {
        self.bytes[layout::offset::route_at(usize::from(p), usize::from(d))]
    }

    // The entry of station p in group g.
    pub fn entry(&self, g: u8, p: u8) -> Entry
        requires { (g < (net_of self.now).groups) × (p < (net_of self.now).stations) }
        ensures { result ≡ (net_of self.now).entry g p }
    {
        read_entry(self.bytes, entry_place(self.mark, g, p))
    }

    // The bytes of the channel from s to d.
    fn channel_of(&self, s: u8, d: u8) -> &'a [u8]
        requires { (s < (net_of self.now).stations) × (d < (net_of self.now).stations) }
        ensures { IsChannel result.now × (messages_of result.now ≡ (net_of self.now).channel s d) }
    {
        let at = layout::offset::channel_at(usize::from(s), usize::from(d));
        &self.bytes[at..at + CHANNEL_SIZE]
    }

    // How many messages are on their way from s to d.
    pub fn in_channel(&self, s: u8, d: u8) -> u8
        requires { (s < (net_of self.now).stations) × (d < (net_of self.now).stations) }
        ensures { result ≡ length ((net_of self.now).channel s d) }
    {
        channel::count(self.channel_of(s, d))
    }

    // Whether another message may go from s to d.
    pub fn has_room(&self, s: u8, d: u8) -> bool
        requires { (s < (net_of self.now).stations) × (d < (net_of self.now).stations) }
        ensures { result ≡ room? (net_of self.now) s d }
    {
        self.in_channel(s, d) < CAPACITY
    }

    // The oldest message from s to d.
    pub fn oldest(&self, s: u8, d: u8) -> Message
        requires { (s < (net_of self.now).stations) × (d < (net_of self.now).stations) × (0 < length ((net_of self.now).channel s d)) }
        ensures { result ≡ get_or ((net_of self.now).channel s d) 0 no_message }
    {
        channel::message_at(self.channel_of(s, d), 0)
    }

    // Whether no message of a kind and a group is on its way from s to d.
    fn none_of(&self, s: u8, d: u8, kind: u8, g: u8) -> bool
        requires { (s < (net_of self.now).stations) × (d < (net_of self.now).stations) }
        ensures { result ≡ eqb (count_of kind g ((net_of self.now).channel s d)) 0 }
    {
        channel::none_of(self.channel_of(s, d), kind, g)
    }

    // Whether no request of p to q and no reply of q to p is on its way.
    pub fn quiet(&self, g: u8, p: u8, q: u8) -> bool
        requires { (p < (net_of self.now).stations) × (q < (net_of self.now).stations) }
        ensures { result ≡ eqb (under_way (net_of self.now).channel g p q) 0 }
    {
        self.none_of(p, q, REQUEST, g) && self.none_of(q, p, REPLY, g)
    }
}
