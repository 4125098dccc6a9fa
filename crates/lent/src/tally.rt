// The tally is "one small record, lent to the run and changed there".
ghost use Rattle.std.specs.Prelude.{◌≡◌, true};
ghost use Rattle.protocol.specs.Refusals.{outcome_of};
ghost use Rattle.run.specs.Runs.{run_outcome, run_tally, net_after_run};

use protocol::{Refusal, Tally};

// A run of any script on any bytes. The tally is set anew, and stays as it was on a refusal.
pub fn run(net: &mut [u8], script: &[u8], tally: &mut Tally) -> Result<(), Refusal>
    ensures { (outcome_of result ≡ run_outcome net.old script.now true)
        × (net.new ≡ net_after_run net.old script.now true)
        × (tally.new ≡ run_tally net.old script.now true tally.old) }
{
    *tally = run::run(net, script)?;
    Ok(())
}
