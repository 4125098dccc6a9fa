// 4. Deliver: the oldest message from s to d. Why the net is lent in no struct: access/src/change.rt.
#![tactic(auto)]

ghost use Rattle.std.specs.Prelude.{◌≡◌, true, ◌<◌};
ghost use Rattle.protocol.specs.Net.{Net, take_at};
ghost use Rattle.protocol.specs.Entries.{adopting};
ghost use Rattle.protocol.specs.Rules.{oldest, room?, answered, heard, case_at};
ghost use Rattle.protocol.specs.Rules as rule;
ghost use Rattle.layout.specs.Marks.{mark_of};
ghost use Rattle.net.specs.View.{view};
ghost use Rattle.net.specs.Encode.{bytes_like};
ghost use Rattle.access.specs.Inner.Nets.{IsNet, EntryMade};
ghost use Rattle.action.specs.Inner.Ends.{ActionEnd};
ghost use Rattle.deliver.specs.Inner.MayDeliver.{MayDeliver};

use access::change::Whole;
use access::read::NetBytes;
use action::Answer;
use action::operands::of_cable;
use layout::form::Mark;
use protocol::{Case, Message, REQUEST};

// A request is answered: the receiver lists the sender, and replies.
fn answer(net: &mut Whole, m: Mark, s: u8, d: u8, g: u8)
    requires net { IsNet net.old }
    requires m_value { m ≡ mark_of net.old }
    requires may_deliver { MayDeliver (view net.old) s d }
    requires g_value { (g ≡ (oldest (view net.old).channel s d).group) × (room? (view net.old) d s ≡ true) }
    ensures { net.new ≡ bytes_like net.old (answered (take_at (view net.old) s d 0) g s d) }
{
    access::change::take_at(net, s, d, 0);
    let seen = NetBytes {
        bytes: net,
        mark: m,
    };
    let root = seen.root_of(g);
    let e = entries::with_child(seen.entry(g, d), s);
    access::change::set_children(net, m, g, d, e.children);
    access::change::send(net, d, s, entries::reply_of(g, root, d, e));
}

// The sender of a reply is adopted: the clock of its reply is the receiver's from now on, and it is the parent. The reply is read again
// where it stands, so that the compiler moves its clock as one number.
fn adopt(net: &mut Whole, m: Mark, s: u8, d: u8, g: u8)
    requires net { IsNet net.old }
    requires may_deliver { MayDeliver (view net.old) s d }
    requires g_bound { g < (view net.old).groups }
    ensures { EntryMade m net.old net.new g d (λ e. adopting e s (oldest (view net.old).channel s d)) }
{
    let reply = NetBytes::of(net).oldest(s, d);
    access::change::set_clock(net, m, g, d, reply.clock);
    access::change::set_parent(net, m, g, d, s);
}

// What a reply makes of the receiver's entry: it waits no longer, and may adopt the sender. Which case holds is the answer.
fn listen(net: &mut Whole, m: Mark, s: u8, d: u8, reply: Message) -> Case
    requires net { IsNet net.old }
    requires m_value { m ≡ mark_of net.old }
    requires may_deliver { MayDeliver (view net.old) s d }
    requires reply_value { reply ≡ oldest (view net.old).channel s d }
    ensures { (result ≡ case_at (view net.old) s d reply)
        × (net.new ≡ bytes_like net.old (heard (view net.old) s d reply)) }
{
    let g = reply.group;
    let seen = NetBytes {
        bytes: net,
        mark: m,
    };
    let e = seen.entry(g, d);
    access::change::set_waiting(net, m, g, d, bits::mask::without(e.waiting, s));
    let case = entries::case_of(e, s, reply);
    if case == Case::Adopted {
        adopt(net, m, s, d, g);
    }
    case
}

// A reply is heard, and is gone then.
fn hear(net: &mut Whole, m: Mark, s: u8, d: u8, reply: Message) -> Case
    requires net { IsNet net.old }
    requires m_value { m ≡ mark_of net.old }
    requires may_deliver { MayDeliver (view net.old) s d }
    requires reply_value { reply ≡ oldest (view net.old).channel s d }
    ensures { (result ≡ case_at (view net.old) s d reply)
        × (net.new ≡ bytes_like net.old (heard (take_at (view net.old) s d 0) s d reply)) }
{
    let case = listen(net, m, s, d, reply);
    access::change::take_at(net, s, d, 0);
    case
}

pub fn deliver(net: &mut Whole, m: Mark, s: u8, d: u8, c: u8) -> Answer
    requires net { IsNet net.old }
    requires m_value { m ≡ mark_of net.old }
    ensures { ActionEnd (rule.deliver (view net.old) s d c) net.old result net.new }
{
    let seen = NetBytes {
        bytes: net,
        mark: m,
    };
    if !of_cable(&seen, s, d, c) {
        return Answer::Refused;
    }
    if seen.in_channel(s, d) == 0 {
        return Answer::Refused;
    }
    let oldest = seen.oldest(s, d);
    if oldest.kind == REQUEST {
        if !seen.has_room(d, s) {
            return Answer::Refused;
        }
        answer(net, m, s, d, oldest.group);
        return Answer::Answered;
    }
    Answer::Heard(hear(net, m, s, d, oldest))
}
