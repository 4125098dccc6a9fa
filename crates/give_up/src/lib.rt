// 6. Give up: the station stops waiting on the neighbour. Why the net is lent in no struct: access/src/change.rt.
#![tactic(auto)]

ghost use Rattle.std.specs.Prelude.{◌≡◌, ◌<◌};
ghost use Rattle.protocol.specs.Net.{Net};
ghost use Rattle.protocol.specs.Rules as rule;
ghost use Rattle.layout.specs.Marks.{mark_of};
ghost use Rattle.net.specs.View.{view};
ghost use Rattle.access.specs.Inner.Nets.{IsNet};
ghost use Rattle.access.specs.Inner.Seen.{net_of};
ghost use Rattle.action.specs.Inner.Ends.{ActionEnd};

use access::change::Whole;
use access::read::NetBytes;
use action::Answer;
use action::operands::of_pair;
use layout::form::Mark;

// Whether p waits on q in vain.
fn may_give_up(net: &NetBytes, g: u8, p: u8, q: u8) -> bool
    requires { (g < (net_of net.now).groups) × (p < (net_of net.now).stations) × (q < (net_of net.now).stations) }
    ensures { result ≡ (rule.give_up (net_of net.now) g p q).enabled }
{
    bits::mask::has_at(net.entry(g, p).waiting, usize::from(q)) && net.quiet(g, p, q)
}

pub fn give_up(net: &mut Whole, m: Mark, g: u8, p: u8, q: u8) -> Answer
    requires net { IsNet net.old }
    requires m_value { m ≡ mark_of net.old }
    ensures { ActionEnd (rule.give_up (view net.old) g p q) net.old result net.new }
{
    let seen = NetBytes {
        bytes: net,
        mark: m,
    };
    if !of_pair(&seen, g, p, q) {
        return Answer::Refused;
    }
    if !may_give_up(&seen, g, p, q) {
        return Answer::Refused;
    }
    let e = seen.entry(g, p);
    access::change::set_waiting(net, m, g, p, bits::mask::without(e.waiting, q));
    Answer::Changed
}
