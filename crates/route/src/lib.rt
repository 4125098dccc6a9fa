// 9. Route: the next station from p towards d is q. Why the net is lent in no struct: access/src/change.rt.
#![tactic(auto)]

ghost use Rattle.protocol.specs.Rules as rule;
ghost use Rattle.net.specs.View.{view};
ghost use Rattle.access.specs.Inner.Nets.{IsNet};
ghost use Rattle.action.specs.Inner.Ends.{ActionEnd};

use access::change::Whole;
use access::read::NetBytes;
use action::Answer;
use action::operands::of_route;

pub fn route(net: &mut Whole, p: u8, d: u8, q: u8) -> Answer
    requires { IsNet net.old }
    ensures { ActionEnd (rule.route (view net.old) p d q) net.old result net.new }
{
    let seen = NetBytes::of(net);
    if !of_route(&seen, p, d, q) {
        return Answer::Refused;
    }
    access::change::set_route(net, p, d, q);
    Answer::Changed
}
