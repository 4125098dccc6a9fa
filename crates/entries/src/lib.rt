// What the actions ask of one entry or message, and what they make of it, by value.
#![tactic(auto)]

ghost use Rattle.std.specs.Prelude.{◌≡◌, ◌≢◌, not, ◌&&◌, ◌||◌, ◌<◌, eqb};
ghost use Rattle.bits.specs.Masks as mask;
ghost use Rattle.protocol.specs.Net.{nil, most_stations};
ghost use Rattle.protocol.specs.Cases as reply;
ghost use Rattle.protocol.specs.Entries as rule;

use protocol::{Case, Entry, Message, NIL, REPLY, REQUEST};

#[tactic(auto, unfolding(protocol::specs::Entries::joins))]
fn joins(e: Entry) -> bool
    ensures { result ≡ rule.joins e }
{
    (e.member == 1) | !(e.children == 0)
}

#[tactic(auto, unfolding(protocol::specs::Entries::connected))]
fn connected(root: u8, p: u8, e: Entry) -> bool
    ensures { result ≡ rule.connected root p e }
{
    (p == root) | !(e.parent == NIL)
}

// Whether a station that waits on these may ask q: nil, or one of the sixteen.
fn may_ask_at(waiting: u16, q: u8) -> bool
    requires { q ≢ nil → q < most_stations }
    ensures { result ≡ (not (eqb q nil) && not (mask.has waiting q)) }
{
    if q == NIL {
        return false;
    }
    !bits::mask::has_at(waiting, usize::from(q))
}

// Whether station p may ask q, its route's neighbour or nil.
pub fn may_ask(root: u8, p: u8, q: u8, e: Entry) -> bool
    requires { q ≢ nil → q < most_stations }
    ensures { result ≡ (not (eqb p root) && rule.joins e && not (eqb q nil) && not (mask.has e.waiting q)) }
{
    !(p == root) & joins(e) & may_ask_at(e.waiting, q)
}

// Whether the station may ask its parent, a neighbour or nil.
pub fn may_refresh(e: Entry) -> bool
    requires { e.parent ≢ nil → e.parent < most_stations }
    ensures { result ≡ (not (eqb e.parent nil) && not (mask.has e.waiting e.parent)) }
{
    may_ask_at(e.waiting, e.parent)
}

pub fn with_child(mut e: Entry, s: u8) -> Entry
    requires { s < most_stations }
    ensures { result ≡ rule.with_child e s }
{
    e.children = bits::mask::with(e.children, s);
    e
}

pub fn without_child(mut e: Entry, x: u8) -> Entry
    requires { x < most_stations }
    ensures { result ≡ rule.without_child e x }
{
    e.children = bits::mask::without(e.children, x);
    e
}

pub fn with_member(mut e: Entry, v: u8) -> Entry
    ensures { result ≡ rule.with_member e v }
{
    e.member = v;
    e
}

// A station that is not the root stays while it joins.
pub fn stays(root: u8, p: u8, e: Entry) -> bool
    ensures { result ≡ (eqb p root || rule.joins e) }
{
    (p == root) | joins(e)
}

pub fn request_of(g: u8) -> Message
    ensures { result ≡ rule.request_of g }
{
    Message {
        kind: REQUEST,
        group: g,
        connected: 0,
        clock: 0,
    }
}

pub fn reply_of(g: u8, root: u8, p: u8, e: Entry) -> Message
    ensures { result ≡ rule.reply_of g root p e }
{
    Message {
        kind: REPLY,
        group: g,
        connected: u8::from(connected(root, p, e)),
        clock: e.clock,
    }
}

// The test of a reply from s: which case holds.
#[tactic(auto, unfolding(protocol::specs::Cases::case_of, protocol::specs::Cases::case_says))]
pub fn case_of(e: Entry, s: u8, m: Message) -> Case
    ensures { result ≡ reply.case_of e s m }
{
    if e.tentative != s {
        return Case::NotTentative;
    }
    if m.connected != 1 {
        return Case::Unconnected;
    }
    if e.clock >= m.clock {
        return Case::NotGreater;
    }
    Case::Adopted
}

// The number of a case.
#[tactic(auto, unfolding(protocol::specs::Cases::case_number))]
pub fn case_number(c: Case) -> u8
    ensures { result ≡ reply.case_number c }
{
    c as u8
}
