// 5. Lose: the message at a position is removed. Why the net is lent in no struct: access/src/change.rt.
#![tactic(auto)]

ghost use Rattle.protocol.specs.Rules as rule;
ghost use Rattle.net.specs.View.{view};
ghost use Rattle.access.specs.Inner.Nets.{IsNet};
ghost use Rattle.action.specs.Inner.Ends.{ActionEnd};

use access::change::Whole;
use access::read::NetBytes;
use action::Answer;
use action::operands::of_position;

pub fn lose(net: &mut Whole, s: u8, d: u8, i: u8) -> Answer
    requires { IsNet net.old }
    ensures { ActionEnd (rule.lose (view net.old) s d i) net.old result net.new }
{
    let seen = NetBytes::of(net);
    if !of_position(&seen, s, d, i) {
        return Answer::Refused;
    }
    if i >= seen.in_channel(s, d) {
        return Answer::Refused;
    }
    access::change::take_at(net, s, d, i);
    Answer::Lost
}
