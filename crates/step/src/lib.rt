// One step of a net in bytes.
#![tactic(auto)]

mod refusal;

ghost use Rattle.std.specs.Prelude.{◌≡◌};
ghost use Rattle.step.specs.Inner.Counted.{case_counted};
ghost use Rattle.step.specs.Steps.{case_told, told, step_answer_as, net_after_step_as, step_answer, net_after_step};

use access::read::NetBytes;
use layout::form::Mark;
use protocol::{Case, Refusal, Replies};

// The case of which one reply was heard, if one was.
#[tactic(auto, unfolding(crate::specs::Inner::Counted::case_counted, protocol::specs::Cases::case_number))]
fn case_counted(r: Replies) -> Option<Case>
    ensures { case_told result ≡ case_counted r }
{
    if r.adopted != 0 {
        return Some(Case::Adopted);
    }
    if r.not_tentative != 0 {
        return Some(Case::NotTentative);
    }
    if r.unconnected != 0 {
        return Some(Case::Unconnected);
    }
    if r.not_greater != 0 {
        return Some(Case::NotGreater);
    }
    None
}

// A step of any bytes, which are to be a net in the form of this mark: the case of the reply that it heard, if it heard one. An action and
// its operands are four numbers, as C has them and as the rules take them (`rule`, `outcome`). Compiled into its callers it need not hand its
// answer on through memory, by which a net that is refused at its first bytes took a quarter longer.
#[inline(always)]
pub fn step_as(
    net: &mut [u8],
    m: Mark,
    action: u8,
    a: u8,
    b: u8,
    c: u8,
) -> Result<Option<Case>, Refusal>
    ensures { (told result ≡ step_answer_as m net.old action a b c)
        × (net.new ≡ net_after_step_as m net.old action a b c) }
{
    if !shape::whole::shaped_as(net, m) {
        return Err(Refusal::NotANet);
    }
    let tally = script::run_in(net, m, &[action, a, b, c]);
    if tally.refused != 0 {
        let seen = NetBytes {
            bytes: net,
            mark: m,
        };
        return Err(refusal::refusal(&seen, action, a, b, c));
    }
    Ok(case_counted(tally.replies))
}

// In the saved form: the function that document 01 names, and that C calls.
pub fn step(net: &mut [u8], action: u8, a: u8, b: u8, c: u8) -> Result<Option<Case>, Refusal>
    ensures { (told result ≡ step_answer net.old action a b c) × (net.new ≡ net_after_step net.old action a b c) }
{
    step_as(net, Mark::Saved, action, a, b, c)
}
