// One thing of a net changed in its bytes. They are lent as an array, with their mark beside them, and in no struct as `read::NetBytes` is:
// that was tried, and the proof of a caller did not close, who does not know what a struct with a lent part has left in the part.
ghost use Rattle.std.specs.Prelude.{◌≡◌, [], ◌∷◌, ◌+◌, ◌≤◌, ◌<◌, length};
ghost use Rattle.bits.specs.Numbers.{bytes};
ghost use Rattle.bits.specs.Parts.{splice};
ghost use Rattle.protocol.specs.Net.{Net, most_groups, most_stations, capacity, set_route, send, take_at};
ghost use Rattle.protocol.specs.Entries.{with_parents, with_member, with_clock, with_children, with_waiting};
ghost use Rattle.layout.specs.Layout.{entry_size};
ghost use Rattle.layout.specs.Marks.{entry_at};
ghost use Rattle.net.specs.View.{view};
ghost use Rattle.net.specs.Encode.{entry_bytes, bytes_like};
ghost use Rattle.access.specs.Inner.Nets.{IsNet, EntryMade};
ghost use Rattle.access.specs.Inner.Fields.{FieldIn};

use bits::number::{Number, put};
use layout::form::{Mark, in_stretch, stretch_at, stretch_size};
use layout::offset::{CHANNEL_SIZE, NET_LENGTH, channel_at, route_at};
use protocol::{Entry, Message};

// As many bytes as a net has.
pub type Whole = [u8; NET_LENGTH];

// An entry, written to the stretch of entries of one group.
pub fn write_entry(stretch: &mut [u8], at: usize, e: Entry)
    requires { at + entry_size ≤ length stretch.old }
    ensures { stretch.new ≡ splice stretch.old at (entry_bytes e) }
{
    stretch[at] = e.parent;
    stretch[at + 1] = e.tentative;
    stretch[at + 2] = e.member;
    stretch[at + 3] = 0;
    put(stretch, at + 4, e.clock);
    put(stretch, at + 8, e.children);
    put(stretch, at + 10, e.waiting);
}

// Where a field of an entry is written: only the part of the net that starts at the group's entries, and ends with them, is lent on, and the
// field stands so far into it.
#[derive(Clone, Copy)]
struct Field {
    start: usize,
    end: usize,
    at: usize,
}

// The field o bytes into the entry of station p in group g.
fn field_at(m: Mark, g: u8, p: u8, o: usize) -> Field
    requires { (g < most_groups) × (p < most_stations) × (o ≤ entry_size) }
    ensures { FieldIn m g p o result }
{
    let start = stretch_at(m, usize::from(g));
    let end = start + stretch_size(m);
    let at = in_stretch(m, usize::from(p)) + o;
    Field { start, end, at }
}

// That field becomes v: the stretch alone is lent on.
fn set_field<N: Number>(net: &mut Whole, m: Mark, g: u8, p: u8, o: usize, v: N)
    requires { (g < most_groups) × (p < most_stations) × (o + N.width ≤ entry_size) }
    ensures { net.new ≡ splice net.old (entry_at m g p + o) (bytes N.width (N.value v)) }
{
    let Field { start, end, at } = field_at(m, g, p, o);
    put(&mut net[start..end], at, v);
}

// Another parent of station p in group g.
pub fn set_parent(net: &mut Whole, m: Mark, g: u8, p: u8, q: u8)
    requires { (g < most_groups) × (p < most_stations) }
    ensures { EntryMade m net.old net.new g p (λ e. with_parents e q e.tentative) }
{
    set_field(net, m, g, p, 0, q);
}

// Another tentative parent.
pub fn set_tentative(net: &mut Whole, m: Mark, g: u8, p: u8, q: u8)
    requires { (g < most_groups) × (p < most_stations) }
    ensures { EntryMade m net.old net.new g p (λ e. with_parents e e.parent q) }
{
    set_field(net, m, g, p, 1, q);
}

// The member flag.
pub fn set_member(net: &mut Whole, m: Mark, g: u8, p: u8, v: u8)
    requires { (g < most_groups) × (p < most_stations) }
    ensures { EntryMade m net.old net.new g p (λ e. with_member e v) }
{
    set_field(net, m, g, p, 2, v);
}

// Another clock.
pub fn set_clock(net: &mut Whole, m: Mark, g: u8, p: u8, clock: u32)
    requires { (g < most_groups) × (p < most_stations) }
    ensures { EntryMade m net.old net.new g p (λ e. with_clock e clock) }
{
    set_field(net, m, g, p, 4, clock);
}

// Other children.
pub fn set_children(net: &mut Whole, m: Mark, g: u8, p: u8, children: u16)
    requires { (g < most_groups) × (p < most_stations) }
    ensures { EntryMade m net.old net.new g p (λ e. with_children e children) }
{
    set_field(net, m, g, p, 8, children);
}

// The station waits on these from now on.
pub fn set_waiting(net: &mut Whole, m: Mark, g: u8, p: u8, waiting: u16)
    requires { (g < most_groups) × (p < most_stations) }
    ensures { EntryMade m net.old net.new g p (λ e. with_waiting e waiting) }
{
    set_field(net, m, g, p, 10, waiting);
}

// Another route from p towards d.
pub fn set_route(net: &mut Whole, p: u8, d: u8, q: u8)
    requires net { IsNet net.old }
    requires p_bound { (p < (view net.old).stations) × (d < (view net.old).stations) }
    ensures { net.new ≡ bytes_like net.old (set_route (view net.old) p d q) }
{
    let at = route_at(usize::from(p), usize::from(d));
    net[at] = q;
}

// The message at position i from s to d is taken out.
pub fn take_at(net: &mut Whole, s: u8, d: u8, i: u8)
    requires net { IsNet net.old }
    requires s_bound { (s < (view net.old).stations) × (d < (view net.old).stations) × (i < length ((view net.old).channel s d)) }
    ensures { net.new ≡ bytes_like net.old (take_at (view net.old) s d i) }
{
    let at = channel_at(usize::from(s), usize::from(d));
    channel::remove_at(&mut net[at..at + CHANNEL_SIZE], usize::from(i));
}

// A message goes out from s to d.
pub fn send(net: &mut Whole, s: u8, d: u8, m: Message)
    requires net { IsNet net.old }
    requires s_bound { (s < (view net.old).stations) × (d < (view net.old).stations) × (length ((view net.old).channel s d) < capacity) }
    ensures { net.new ≡ bytes_like net.old (send (view net.old) s d m) }
{
    let at = channel_at(usize::from(s), usize::from(d));
    channel::push(&mut net[at..at + CHANNEL_SIZE], m);
}
