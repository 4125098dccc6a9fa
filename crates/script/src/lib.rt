// The steps of a script in turn, on bytes that are a net's, and their tally. A single step is a script of one: so that there is one place
// that steps are taken from, and the compiler puts the actions there whole. Why the net is lent in no struct: access/src/change.rt.
#![tactic(auto)]

ghost use Rattle.std.specs.Prelude.{◌≡◌, ◌/◌, ◌≤◌, length};
ghost use Rattle.protocol.specs.Net.{longest_script};
ghost use Rattle.protocol.specs.Cases.{case_number};
ghost use Rattle.protocol.specs.Runs.{count_case, after};
ghost use Rattle.layout.specs.Marks.{mark_of};
ghost use Rattle.net.specs.View.{view};
ghost use Rattle.net.specs.Encode.{bytes_like};
ghost use Rattle.access.specs.Inner.Nets.{IsNet};
ghost use Rattle.script.specs.Inner.Ends.{StepEnd};
ghost use Rattle.script.specs.Inner.Counts.{counted, RepliesUpTo, CountsUpTo};

use access::change::Whole;
use action::Answer;
use layout::form::Mark;
use protocol::{Case, Replies, Tally};

// One reply more of this case.
#[tactic(auto, using(crate::proofs::CountsUpTo::each_few), unfolding(protocol::specs::Runs::count_case, protocol::specs::Runs::case_count, protocol::specs::Cases::case_number))]
fn counted_case(mut r: Replies, case: Case) -> Replies
    requires { RepliesUpTo 4095 r }
    ensures { result ≡ count_case r (case_number case) }
{
    match case {
        Case::Adopted => r.adopted += 1,
        Case::NotTentative => r.not_tentative += 1,
        Case::Unconnected => r.unconnected += 1,
        Case::NotGreater => r.not_greater += 1,
    }
    r
}

// One step more.
#[tactic(auto, unfolding(crate::specs::Inner::Counts::counted, protocol::specs::Runs::count_case, protocol::specs::Runs::case_count, protocol::specs::Cases::case_number))]
fn counted(mut t: Tally, d: Answer) -> Tally
    requires { CountsUpTo 4095 t }
    ensures { result ≡ counted t d }
{
    match d {
        Answer::Refused => t.refused += 1,
        Answer::Changed => t.accepted += 1,
        Answer::Sent => {
            t.accepted += 1;
            t.sent += 1;
        }
        Answer::Answered => {
            t.accepted += 1;
            t.sent += 1;
            t.delivered += 1;
        }
        Answer::Heard(case) => {
            t.accepted += 1;
            t.delivered += 1;
            t.replies = counted_case(t.replies, case);
        }
        Answer::Lost => {
            t.accepted += 1;
            t.lost += 1;
        }
    }
    t
}

// One step of the net, in the form of this mark. The numbers are matched as they are, since the customer fixed the form: "One decision by
// match over action numbers one to nine, with a range arm for unknown ones".
fn step_in(net: &mut Whole, m: Mark, action: u8, a: u8, b: u8, c: u8) -> Answer
    requires net { IsNet net.old }
    requires m_value { m ≡ mark_of net.old }
    ensures { StepEnd net.old action a b c result net.new }
{
    match action {
        1 => tick::tick(net, m, a, b, c),
        2 => ask::ask(net, m, a, b, c),
        3 => refresh::refresh(net, m, a, b, c),
        4 => deliver::deliver(net, m, a, b, c),
        5 => lose::lose(net, a, b, c),
        6 => give_up::give_up(net, m, a, b, c),
        7 => drop_child::drop_child(net, m, a, b, c),
        8 => member::member(net, m, a, b, c),
        9 => route::route(net, a, b, c),
        0 | 10..=255 => Answer::Refused,
    }
}

// Every step of the script.
fn run_whole(net: &mut Whole, m: Mark, script: &[u8]) -> Tally
    requires net { IsNet net.old }
    requires m_value { m ≡ mark_of net.old }
    requires script_len_bound { length script.now ≤ longest_script }
    ensures { (result ≡ (after (view net.old) script.now (length script.now / 4)).tally)
        × (net.new ≡ bytes_like net.old (after (view net.old) script.now (length script.now / 4)).net) }
{
    let mut tally = Tally::default();
    for step in script.chunks_exact(4) {
        let d = step_in(net, m, step[0], step[1], step[2], step[3]);
        tally = counted(tally, d);
    }
    tally
}

// Every step of the script: the shape is tested by the caller, once.
pub fn run_in(net: &mut [u8], m: Mark, script: &[u8]) -> Tally
    requires net { IsNet net.old }
    requires m_value { m ≡ mark_of net.old }
    requires script_len_bound { length script.now ≤ longest_script }
    ensures { (result ≡ (after (view net.old) script.now (length script.now / 4)).tally)
        × (net.new ≡ bytes_like net.old (after (view net.old) script.now (length script.now / 4)).net) }
{
    run_whole(net.as_mut_array().unwrap(), m, script)
}
