// 8. Member: the flag is set, and the station leaves if it no longer joins. Why the net is lent in no struct: access/src/change.rt.
#![tactic(auto)]

ghost use Rattle.std.specs.Prelude.{◌≡◌};
ghost use Rattle.protocol.specs.Rules as rule;
ghost use Rattle.layout.specs.Marks.{mark_of};
ghost use Rattle.net.specs.View.{view};
ghost use Rattle.access.specs.Inner.Nets.{IsNet};
ghost use Rattle.action.specs.Inner.Ends.{ActionEnd};

use access::change::Whole;
use access::read::NetBytes;
use action::Answer;
use action::operands::of_flag;
use layout::form::Mark;

pub fn member(net: &mut Whole, m: Mark, g: u8, p: u8, v: u8) -> Answer
    requires net { IsNet net.old }
    requires m_value { m ≡ mark_of net.old }
    ensures { ActionEnd (rule.member (view net.old) g p v) net.old result net.new }
{
    let seen = NetBytes {
        bytes: net,
        mark: m,
    };
    if !of_flag(&seen, g, p, v) {
        return Answer::Refused;
    }
    let root = seen.root_of(g);
    let e = entries::with_member(seen.entry(g, p), v);
    access::change::set_member(net, m, g, p, v);
    action::leave::stay_or_leave(net, m, g, p, root, e);
    Answer::Changed
}
