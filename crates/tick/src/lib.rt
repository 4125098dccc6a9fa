// 1. Tick: the root's clock grows by one. Why the net is lent in no struct: access/src/change.rt.
#![tactic(auto)]

ghost use Rattle.std.specs.Prelude.{◌≡◌};
ghost use Rattle.protocol.specs.Rules as rule;
ghost use Rattle.layout.specs.Marks.{mark_of};
ghost use Rattle.net.specs.View.{view};
ghost use Rattle.access.specs.Inner.Nets.{IsNet};
ghost use Rattle.action.specs.Inner.Ends.{ActionEnd};

use access::change::Whole;
use access::read::NetBytes;
use action::Answer;
use action::operands::of_group;
use layout::form::Mark;
use protocol::LARGEST_CLOCK;

pub fn tick(net: &mut Whole, m: Mark, g: u8, b: u8, c: u8) -> Answer
    requires net { IsNet net.old }
    requires m_value { m ≡ mark_of net.old }
    ensures { ActionEnd (rule.tick (view net.old) g b c) net.old result net.new }
{
    let seen = NetBytes {
        bytes: net,
        mark: m,
    };
    if !of_group(&seen, g, b, c) {
        return Answer::Refused;
    }
    let root = seen.root_of(g);
    let clock = seen.entry(g, root).clock;
    if clock >= LARGEST_CLOCK {
        return Answer::Refused;
    }
    access::change::set_clock(net, m, g, root, clock + 1);
    Answer::Changed
}
