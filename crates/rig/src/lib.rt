// The C face: every function of the model but the bench program, through numbers and byte buffers (rig/kepalumbi.h): so it is here that a
// refusal, an option and a mark become numbers, and each form has its own functions. The crate `rig_c` exports them to C.
#![tactic(auto)]

ghost use Rattle.std.specs.Prelude.{◌≡◌};
ghost use Rattle.protocol.specs.Refusals.{outcome_of};
ghost use Rattle.visit.specs.Lists.{list_fits};
ghost use Rattle.fresh.specs.Fresh.{fresh_outcome, net_after_fresh};
ghost use Rattle.layout.specs.declared.form.Mark.TheVariants.{Saved, Working};
ghost use Rattle.step.specs.Steps.{told, step_answer, net_after_step, step_answer_as, net_after_step_as};
ghost use Rattle.run.specs.Tallies.{tally_fits};
ghost use Rattle.run.specs.Runs.{run_outcome, net_after_run, tally_after_run, run_outcome_as, net_after_run_as, tally_after_run_as};
ghost use Rattle.convert.specs.Converts.{convert_outcome, after_convert};
ghost use Rattle.find.specs.Answers.{found_in};
ghost use Rattle.call.specs.Answers.{called_in, list_after_call};
ghost use Rattle.rig.specs.Face.{step_word, found_word, called_word};

use layout::form::Mark;
use protocol::{Case, Refusal};

// An answer without a value as one number.
fn outcome(answer: Result<(), Refusal>) -> u32
    ensures { result ≡ outcome_of answer }
{
    match answer {
        Ok(()) => 0,
        Err(k) => k as u32,
    }
}

pub fn kep_fresh(plan: &[u8], net: &mut [u8]) -> u32
    ensures { (result ≡ fresh_outcome plan.now net.old)
        × (net.new ≡ net_after_fresh plan.now net.old) }
{
    outcome(fresh::fresh(plan, net))
}

// A step's answer as one number.
#[tactic(auto, unfolding(crate::specs::Face::step_word))]
fn step_word(answer: Result<Option<Case>, Refusal>) -> u32
    ensures { result ≡ step_word (told answer) }
{
    match answer {
        Ok(None) => 0,
        Ok(Some(case)) => 256 * u32::from(entries::case_number(case)),
        Err(refusal) => refusal as u32,
    }
}

pub fn kep_step(net: &mut [u8], action: u8, a: u8, b: u8, c: u8) -> u32
    ensures { (result ≡ step_word (step_answer net.old action a b c))
        × (net.new ≡ net_after_step net.old action a b c) }
{
    step_word(step::step(net, action, a, b, c))
}

pub fn kep_run(net: &mut [u8], script: &[u8], tally: &mut [u8]) -> u32
    ensures { (result ≡ run_outcome net.old script.now (tally_fits tally.old))
        × (net.new ≡ net_after_run net.old script.now (tally_fits tally.old))
        × (tally.new ≡ tally_after_run net.old script.now tally.old) }
{
    outcome(run::run_into(net, script, tally))
}

#[tactic(auto, unfolding(crate::specs::Face::found_word))]
pub fn kep_find(net: &[u8], name: &[u8]) -> u32
    ensures { result ≡ found_word (found_in net.now name.now) }
{
    match find::find(net, name) {
        Ok(g) => 256 * u32::from(g),
        Err(k) => k as u32,
    }
}

#[tactic(auto, unfolding(crate::specs::Face::called_word))]
pub fn kep_call(net: &[u8], group: u8, station: u8, list: &mut [u8]) -> u32
    ensures { (result ≡ called_word (called_in net.now group station (list_fits list.old)))
        × (list.new ≡ list_after_call net.now group station list.old) }
{
    match call::call(net, group, station, list) {
        Ok(called) => 256 * u32::from(called.reached) + 65536 * u32::from(called.copies),
        Err(k) => k as u32,
    }
}

// ---- the working form

pub fn kep_to_working(net: &[u8], work: &mut [u8]) -> u32
    ensures { (result ≡ convert_outcome Saved net.now work.old)
        × (work.new ≡ after_convert Saved Working net.now work.old) }
{
    outcome(convert::to_working(net, work))
}

pub fn kep_to_saved(work: &[u8], net: &mut [u8]) -> u32
    ensures { (result ≡ convert_outcome Working work.now net.old)
        × (net.new ≡ after_convert Working Saved work.now net.old) }
{
    outcome(convert::to_saved(work, net))
}

pub fn kep_working_step(work: &mut [u8], action: u8, a: u8, b: u8, c: u8) -> u32
    ensures { (result ≡ step_word (step_answer_as Working work.old action a b c))
        × (work.new ≡ net_after_step_as Working work.old action a b c) }
{
    step_word(step::step_as(work, Mark::Working, action, a, b, c))
}

pub fn kep_working_run(work: &mut [u8], script: &[u8], tally: &mut [u8]) -> u32
    ensures { (result ≡ run_outcome_as Working work.old script.now (tally_fits tally.old))
        × (work.new ≡ net_after_run_as Working work.old script.now (tally_fits tally.old))
        × (tally.new ≡ tally_after_run_as Working work.old script.now tally.old) }
{
    outcome(run::run_into_as(work, Mark::Working, script, tally))
}
