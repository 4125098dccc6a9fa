// The C face, exported: each function is that of the same name of `rig`, under its contract (rig/kepalumbi.h).
#![tactic(auto)]

ghost use Rattle.std.specs.Prelude.{◌≡◌};
ghost use Rattle.visit.specs.Lists.{list_fits};
ghost use Rattle.fresh.specs.Fresh.{fresh_outcome, net_after_fresh};
ghost use Rattle.layout.specs.declared.form.Mark.TheVariants.{Saved, Working};
ghost use Rattle.step.specs.Steps.{step_answer, net_after_step, step_answer_as, net_after_step_as};
ghost use Rattle.run.specs.Tallies.{tally_fits};
ghost use Rattle.run.specs.Runs.{run_outcome, net_after_run, tally_after_run, run_outcome_as, net_after_run_as, tally_after_run_as};
ghost use Rattle.convert.specs.Converts.{convert_outcome, after_convert};
ghost use Rattle.find.specs.Answers.{found_in};
ghost use Rattle.call.specs.Answers.{called_in, list_after_call};
ghost use Rattle.rig.specs.Face.{step_word, found_word, called_word};

#[unsafe(no_mangle)]
pub extern "C" fn kep_fresh(plan: &[u8], net: &mut [u8]) -> u32
    ensures { (result ≡ fresh_outcome plan.now net.old)
        × (net.new ≡ net_after_fresh plan.now net.old) }
{
    rig::kep_fresh(plan, net)
}

#[unsafe(no_mangle)]
pub extern "C" fn kep_step(net: &mut [u8], action: u8, a: u8, b: u8, c: u8) -> u32
    ensures { (result ≡ step_word (step_answer net.old action a b c))
        × (net.new ≡ net_after_step net.old action a b c) }
{
    rig::kep_step(net, action, a, b, c)
}

#[unsafe(no_mangle)]
pub extern "C" fn kep_run(net: &mut [u8], script: &[u8], tally: &mut [u8]) -> u32
    ensures { (result ≡ run_outcome net.old script.now (tally_fits tally.old))
        × (net.new ≡ net_after_run net.old script.now (tally_fits tally.old))
        × (tally.new ≡ tally_after_run net.old script.now tally.old) }
{
    rig::kep_run(net, script, tally)
}

#[unsafe(no_mangle)]
pub extern "C" fn kep_find(net: &[u8], name: &[u8]) -> u32
    ensures { result ≡ found_word (found_in net.now name.now) }
{
    rig::kep_find(net, name)
}

#[unsafe(no_mangle)]
pub extern "C" fn kep_call(net: &[u8], group: u8, station: u8, list: &mut [u8]) -> u32
    ensures { (result ≡ called_word (called_in net.now group station (list_fits list.old)))
        × (list.new ≡ list_after_call net.now group station list.old) }
{
    rig::kep_call(net, group, station, list)
}

// ---- the working form

#[unsafe(no_mangle)]
pub extern "C" fn kep_to_working(net: &[u8], work: &mut [u8]) -> u32
    ensures { (result ≡ convert_outcome Saved net.now work.old)
        × (work.new ≡ after_convert Saved Working net.now work.old) }
{
    rig::kep_to_working(net, work)
}

#[unsafe(no_mangle)]
pub extern "C" fn kep_to_saved(work: &[u8], net: &mut [u8]) -> u32
    ensures { (result ≡ convert_outcome Working work.now net.old)
        × (net.new ≡ after_convert Working Saved work.now net.old) }
{
    rig::kep_to_saved(work, net)
}

#[unsafe(no_mangle)]
pub extern "C" fn kep_working_step(work: &mut [u8], action: u8, a: u8, b: u8, c: u8) -> u32
    ensures { (result ≡ step_word (step_answer_as Working work.old action a b c))
        × (work.new ≡ net_after_step_as Working work.old action a b c) }
{
    rig::kep_working_step(work, action, a, b, c)
}

#[unsafe(no_mangle)]
pub extern "C" fn kep_working_run(work: &mut [u8], script: &[u8], tally: &mut [u8]) -> u32
    ensures { (result ≡ run_outcome_as Working work.old script.now (tally_fits tally.old))
        × (work.new ≡ net_after_run_as Working work.old script.now (tally_fits tally.old))
        × (tally.new ≡ tally_after_run_as Working work.old script.now tally.old) }
{
    rig::kep_working_run(work, script, tally)
}
