// 7. Drop child: it is removed, and the station leaves if it no longer joins. Why the net is lent in no struct: access/src/change.rt.
#![tactic(auto)]

ghost use Rattle.std.specs.Prelude.{◌≡◌, ◌<◌};
ghost use Rattle.protocol.specs.Net.{Net};
ghost use Rattle.protocol.specs.Rules as rule;
ghost use Rattle.layout.specs.Marks.{mark_of};
ghost use Rattle.net.specs.View.{view};
ghost use Rattle.access.specs.Inner.Nets.{IsNet};
ghost use Rattle.access.specs.Inner.Seen.{net_of};
ghost use Rattle.action.specs.Inner.Ends.{ActionEnd};

use access::change::Whole;
use access::read::NetBytes;
use action::Answer;
use action::operands::of_pair;
use layout::form::Mark;

// Whether x is a child of p that has its parent elsewhere, with nothing between the two under way.
fn may_drop(net: &NetBytes, g: u8, p: u8, x: u8) -> bool
    requires { (g < (net_of net.now).groups) × (p < (net_of net.now).stations) × (x < (net_of net.now).stations) }
    ensures { result ≡ (rule.drop_child (net_of net.now) g p x).enabled }
{
    let e = net.entry(g, p);
    let child = net.entry(g, x);
    (bits::mask::has_at(e.children, usize::from(x)) & (child.parent != p)) && net.quiet(g, x, p)
}

pub fn drop_child(net: &mut Whole, m: Mark, g: u8, p: u8, x: u8) -> Answer
    requires net { IsNet net.old }
    requires m_value { m ≡ mark_of net.old }
    ensures { ActionEnd (rule.drop_child (view net.old) g p x) net.old result net.new }
{
    let seen = NetBytes {
        bytes: net,
        mark: m,
    };
    if !of_pair(&seen, g, p, x) {
        return Answer::Refused;
    }
    if !may_drop(&seen, g, p, x) {
        return Answer::Refused;
    }
    let root = seen.root_of(g);
    let e = entries::without_child(seen.entry(g, p), x);
    access::change::set_children(net, m, g, p, e.children);
    action::leave::stay_or_leave(net, m, g, p, root, e);
    Answer::Changed
}
