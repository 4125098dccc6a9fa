// The lines of the listing. The functions that take a text add to its end; a line is made as a text of its own, and put at its place.
ghost use Rattle.std.specs.Prelude.{◌≡◌, ◌+◌, ◌≤◌, ◌<◌, ◌++◌, length};
ghost use Rattle.bits.specs.Parts.{Wrote};
ghost use Rattle.protocol.specs.Net.{Net, in_channels};
ghost use Rattle.net.specs.View.{view};
ghost use Rattle.access.specs.Inner.Nets.{IsNet};
ghost use Rattle.access.specs.Inner.Seen.{net_of};
ghost use Rattle.text.specs.Inner.Within.{WroteWithin};
ghost use Rattle.text.specs.Inner.Added.{Added};
ghost use Rattle.listing.specs.Lines.{run_line, replies_line, station_line, station_lines, group_line, group_texts, listing, refused_text};

use access::read::NetBytes;
use protocol::{Replies, Tally};
use text::Text;

// The tally, and how many messages are left in channels.
fn run_line<const ROOM: usize>(text: &mut Text<ROOM>, t: Tally, left: u32)
    requires { length text.old + 115 ≤ ROOM }
    ensures { Added 115 text.old text.new (run_line t left) }
{
    text.put_filled(
        b"run accepted # refused # sent # delivered # lost # waiting #\n",
        &[t.accepted, t.refused, t.sent, t.delivered, t.lost, left],
    );
}

// The counts of the replies, by case.
fn replies_line<const ROOM: usize>(text: &mut Text<ROOM>, r: Replies)
    requires { length text.old + 98 ≤ ROOM }
    ensures { Added 98 text.old text.new (replies_line r) }
{
    text.put_filled(
        b"replies adopted # not-tentative # unconnected # not-greater #\n",
        &[r.adopted, r.not_tentative, r.unconnected, r.not_greater],
    );
}

// The line of station p in group g.
fn station_line<const ROOM: usize>(net: &NetBytes, g: u8, p: u8, text: &mut Text<ROOM>)
    requires { (g < (net_of net.now).groups) × (p < (net_of net.now).stations) × (length text.old + 251 ≤ ROOM) }
    ensures { Added 251 text.old text.new (station_line (net_of net.now) g p) }
{
    let e = net.entry(g, p);
    text.put_filled(
        b"# parent @ clock # member # children ",
        &[
            u32::from(p),
            u32::from(e.parent),
            e.clock,
            u32::from(e.member),
        ],
    );
    text.put_mask_or_dash(e.children);
    text.push(b'\n');
}

// The line of group g.
fn group_line<const ROOM: usize>(net: &NetBytes, g: u8, text: &mut Text<ROOM>)
    requires { (g < (net_of net.now).groups) × (length text.old + 71 ≤ ROOM) }
    ensures { Added 71 text.old text.new (group_line (net_of net.now) g) }
{
    text.put_filled_one(b"group # name ", u32::from(g));
    text.put_hex(net.name_of(g));
    let root = net.root_of(g);
    text.put_filled_one(b" root #\n", u32::from(root));
}

// A text at its place in a lent buffer, and the place after it.
fn put_text<const ROOM: usize>(out: &mut [u8], at: usize, text: &Text<ROOM>) -> usize
    requires { at + length text.now ≤ length out.old }
    ensures { Wrote out.old out.new at result text.now }
{
    let next = at + text.len();
    out[at..next].copy_from_slice(text.as_slice());
    next
}

// The first two lines, at the front.
fn put_counts(out: &mut [u8], t: Tally, left: u32) -> usize
    requires { 213 ≤ length out.old }
    ensures { WroteWithin 213 out.old out.new 0 result (run_line t left ++ replies_line t.replies) }
{
    let mut text = Text::<213>::new();
    run_line(&mut text, t, left);
    replies_line(&mut text, t.replies);
    put_text(out, 0, &text)
}

// The line of station p in group g, at its place.
fn put_station(net: &NetBytes, g: u8, p: u8, out: &mut [u8], at: usize) -> usize
    requires { (g < (net_of net.now).groups) × (p < (net_of net.now).stations) × (at + 251 ≤ length out.old) }
    ensures { WroteWithin 251 out.old out.new at result (station_line (net_of net.now) g p) }
{
    let mut text = Text::<251>::new();
    station_line(net, g, p, &mut text);
    put_text(out, at, &text)
}

// The line of group g, at its place.
fn put_group(net: &NetBytes, g: u8, out: &mut [u8], at: usize) -> usize
    requires { (g < (net_of net.now).groups) × (at + 71 ≤ length out.old) }
    ensures { WroteWithin 71 out.old out.new at result (group_line (net_of net.now) g) }
{
    let mut text = Text::<71>::new();
    group_line(net, g, &mut text);
    put_text(out, at, &text)
}

// The lines of the stations in group g.
fn station_lines(net: &NetBytes, g: u8, out: &mut [u8], at: usize) -> usize
    requires { (g < (net_of net.now).groups) × (at + 4016 ≤ length out.old) }
    ensures { WroteWithin 4016 out.old out.new at result (station_lines (net_of net.now) g) }
{
    let mut next = at;
    for p in 0..net.stations() {
        next = put_station(net, g, p, out, next);
    }
    next
}

// The line of each group, and those of its stations.
fn group_texts(net: &NetBytes, out: &mut [u8], at: usize) -> usize
    requires { at + 16348 ≤ length out.old }
    ensures { WroteWithin 16348 out.old out.new at result (group_texts (net_of net.now)) }
{
    let mut next = at;
    for g in 0..net.groups() {
        next = put_group(net, g, out, next);
        next = station_lines(net, g, out, next);
    }
    next
}

// The listing of a net after a run that began with no message: those sent, and not delivered or lost, are left in channels. It stands at the
// front of a lent buffer, and the answer is the place after it.
pub fn listing(net: &[u8], t: Tally, out: &mut [u8]) -> usize
    requires net { IsNet net.now }
    requires sent_value { (t.sent ≡ t.delivered + t.lost + in_channels (view net.now)) × (16561 ≤ length out.old) }
    ensures { WroteWithin 16561 out.old out.new 0 result (listing (view net.now) t) }
{
    let next = put_counts(out, t, t.sent - t.delivered - t.lost);
    group_texts(&NetBytes::of(net), out, next)
}

// A refusal with any number at the front of a lent buffer, and the place after it.
pub fn refused_text(out: &mut [u8], k: u8) -> usize
    requires { 19 ≤ length out.old }
    ensures { WroteWithin 19 out.old out.new 0 result (refused_text k) }
{
    text::put_filled_one(out, 0, b"refused #\n", u32::from(k))
}
