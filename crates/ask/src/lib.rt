// 2. Ask: a request goes to the route's neighbour, the tentative parent from now on. Why the net is lent in no struct: access/src/change.rt.
#![tactic(auto)]

ghost use Rattle.std.specs.Prelude.{◌≡◌};
ghost use Rattle.protocol.specs.Rules as rule;
ghost use Rattle.layout.specs.Marks.{mark_of};
ghost use Rattle.net.specs.View.{view};
ghost use Rattle.access.specs.Inner.Nets.{IsNet};
ghost use Rattle.action.specs.Inner.Ends.{ActionEnd};

use access::change::Whole;
use access::read::NetBytes;
use action::Answer;
use action::operands::of_station;
use layout::form::Mark;

pub fn ask(net: &mut Whole, m: Mark, g: u8, p: u8, c: u8) -> Answer
    requires net { IsNet net.old }
    requires m_value { m ≡ mark_of net.old }
    ensures { ActionEnd (rule.ask (view net.old) g p c) net.old result net.new }
{
    let seen = NetBytes {
        bytes: net,
        mark: m,
    };
    if !of_station(&seen, g, p, c) {
        return Answer::Refused;
    }
    let root = seen.root_of(g);
    let q = seen.route_of(p, root);
    let e = seen.entry(g, p);
    if !entries::may_ask(root, p, q, e) {
        return Answer::Refused;
    }
    if !seen.has_room(p, q) {
        return Answer::Refused;
    }
    access::change::set_tentative(net, m, g, p, q);
    access::change::set_waiting(net, m, g, p, bits::mask::with(e.waiting, q));
    access::change::send(net, p, q, entries::request_of(g));
    Answer::Sent
}
