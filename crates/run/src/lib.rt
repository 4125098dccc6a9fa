// A run: the steps of a script in turn, and their tally.
#![tactic(auto)]

pub mod tally;

ghost use Rattle.std.specs.Prelude.{◌≡◌, true};
ghost use Rattle.protocol.specs.Refusals.{outcome_of};
ghost use Rattle.protocol.specs.Runs.{length_outcome};
ghost use Rattle.run.specs.Tallies.{tally_fits};
ghost use Rattle.run.specs.Runs.{told, run_outcome_as, net_after_run_as, run_answer_as, tally_after_run_as, run_outcome, net_after_run, run_answer, tally_after_run};

use layout::form::Mark;
use protocol::{LONGEST_SCRIPT, Refusal, Tally};

// What a script of n bytes is refused with.
#[tactic(auto, unfolding(protocol::specs::Runs::length_outcome))]
pub fn check_length(n: usize) -> Result<(), Refusal>
    ensures { outcome_of result ≡ length_outcome n }
{
    if n % 4 != 0 {
        return Err(Refusal::CutScript);
    }
    if n > LONGEST_SCRIPT {
        return Err(Refusal::LongScript);
    }
    Ok(())
}

// What a run of bytes that are to be a net in the form of this mark is refused with; `fits` is whether the lent tally is of its size.
#[tactic(auto, unfolding(crate::specs::Runs::run_outcome_as, protocol::specs::Runs::script_outcome))]
fn check(net: &[u8], m: Mark, script: &[u8], fits: bool) -> Result<(), Refusal>
    ensures { outcome_of result ≡ run_outcome_as m net.now script.now fits }
{
    if !shape::whole::shaped_as(net, m) {
        return Err(Refusal::NotANet);
    }
    if !fits {
        return Err(Refusal::WrongSize);
    }
    check_length(script.len())
}

// What a run by value and one into a lent tally have in common.
fn run_fitting(net: &mut [u8], m: Mark, script: &[u8], fits: bool) -> Result<Tally, Refusal>
    ensures { (told result ≡ run_answer_as m net.old script.now fits)
        × (net.new ≡ net_after_run_as m net.old script.now fits) }
{
    check(net, m, script, fits)?;
    Ok(script::run_in(net, m, script))
}

// A run of any script on any bytes, which are to be a net in the saved form: its counts.
pub fn run(net: &mut [u8], script: &[u8]) -> Result<Tally, Refusal>
    ensures { (told result ≡ run_answer net.old script.now true)
        × (net.new ≡ net_after_run net.old script.now true) }
{
    run_fitting(net, Mark::Saved, script, true)
}

// A run of any script on any bytes, which are to be a net in the form of this mark, into any tally of bytes.
pub fn run_into_as(net: &mut [u8], m: Mark, script: &[u8], tally: &mut [u8]) -> Result<(), Refusal>
    ensures { (outcome_of result ≡ run_outcome_as m net.old script.now (tally_fits tally.old))
        × (net.new ≡ net_after_run_as m net.old script.now (tally_fits tally.old))
        × (tally.new ≡ tally_after_run_as m net.old script.now tally.old) }
{
    let counts = run_fitting(net, m, script, tally.len() == tally::TALLY_LENGTH)?;
    tally::put(tally, counts);
    Ok(())
}

// In the saved form: what C calls.
pub fn run_into(net: &mut [u8], script: &[u8], tally: &mut [u8]) -> Result<(), Refusal>
    ensures { (outcome_of result ≡ run_outcome net.old script.now (tally_fits tally.old))
        × (net.new ≡ net_after_run net.old script.now (tally_fits tally.old))
        × (tally.new ≡ tally_after_run net.old script.now tally.old) }
{
    run_into_as(net, Mark::Saved, script, tally)
}
