// Why a step was refused: the rows 2 to 6 of the table. A run only counts its refusals, so that the number is told here, of a step that is
// known to have been refused. (Told by the actions themselves it would be carried through every turn of a run, and cost a run of refusals
// a tenth of its time.)
ghost use Rattle.std.specs.Prelude.{◌≡◌, ◌≢◌, cond};
ghost use Rattle.protocol.specs.Refusals.{number};
ghost use Rattle.protocol.specs.Rules as rule;
ghost use Rattle.protocol.specs.Steps.{verdict, outcome};
ghost use Rattle.access.specs.Inner.Seen.{net_of};

use access::read::NetBytes;
use action::operands::{of_cable, of_flag, of_group, of_pair, of_position, of_route, of_station};
use protocol::Refusal;

// 3 where the operands do not fit, and else the only refusal that is left.
fn or_operands(fit: bool, left: Refusal) -> Refusal
    ensures { number result ≡ cond fit (number left) 3 }
{
    if fit { left } else { Refusal::BadOperand }
}

// An ask: 3, 4, or 6, since it needs no room for a clock.
#[tactic(auto, unfolding(protocol::specs::Rules::ask, protocol::specs::Steps::verdict))]
fn of_ask(net: &NetBytes, g: u8, p: u8, c: u8) -> Refusal
    requires { verdict (rule.ask (net_of net.now) g p c) ≢ 0 }
    ensures { number result ≡ verdict (rule.ask (net_of net.now) g p c) }
{
    if !of_station(net, g, p, c) {
        return Refusal::BadOperand;
    }
    let root = net.root_of(g);
    let q = net.route_of(p, root);
    if entries::may_ask(root, p, q, net.entry(g, p)) {
        return Refusal::FullChannel;
    }
    Refusal::NotEnabled
}

// A refresh: the same.
#[tactic(auto, unfolding(protocol::specs::Rules::refresh, protocol::specs::Steps::verdict))]
fn of_refresh(net: &NetBytes, g: u8, p: u8, c: u8) -> Refusal
    requires { verdict (rule.refresh (net_of net.now) g p c) ≢ 0 }
    ensures { number result ≡ verdict (rule.refresh (net_of net.now) g p c) }
{
    if !of_station(net, g, p, c) {
        return Refusal::BadOperand;
    }
    if entries::may_refresh(net.entry(g, p)) {
        return Refusal::FullChannel;
    }
    Refusal::NotEnabled
}

// A delivery: the same.
#[tactic(auto, unfolding(protocol::specs::Rules::deliver, protocol::specs::Steps::verdict))]
fn of_deliver(net: &NetBytes, s: u8, d: u8, c: u8) -> Refusal
    requires { verdict (rule.deliver (net_of net.now) s d c) ≢ 0 }
    ensures { number result ≡ verdict (rule.deliver (net_of net.now) s d c) }
{
    if !of_cable(net, s, d, c) {
        return Refusal::BadOperand;
    }
    if net.in_channel(s, d) == 0 {
        return Refusal::NotEnabled;
    }
    Refusal::FullChannel
}

// Any step. Of a tick only the clock is left, and of the actions that send nothing, only that they are not enabled. It matches
// the numbers a second time, for speed: see the head.
pub fn refusal(net: &NetBytes, action: u8, a: u8, b: u8, c: u8) -> Refusal
    requires { outcome (net_of net.now) action a b c ≢ 0 }
    ensures { number result ≡ outcome (net_of net.now) action a b c }
{
    match action {
        1 => or_operands(of_group(net, a, b, c), Refusal::LastClock),
        2 => of_ask(net, a, b, c),
        3 => of_refresh(net, a, b, c),
        4 => of_deliver(net, a, b, c),
        5 => or_operands(of_position(net, a, b, c), Refusal::NotEnabled),
        6 => or_operands(of_pair(net, a, b, c), Refusal::NotEnabled),
        7 => or_operands(of_pair(net, a, b, c), Refusal::NotEnabled),
        8 => or_operands(of_flag(net, a, b, c), Refusal::NotEnabled),
        9 => or_operands(of_route(net, a, b, c), Refusal::NotEnabled),
        0 | 10..=255 => Refusal::NotAnAction,
    }
}
