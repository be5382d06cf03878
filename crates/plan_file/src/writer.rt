//! From a plan to its text.

ghost use Rattle.std.specs.Prelude.{◌≡◌, ◌<◌, ◌++◌, All, flat_map, length, map, string_bytes, IfOk, OnOk};
ghost use Rattle.ct_base.specs.Access.{signal_of};
ghost use Rattle.traffic_model.specs.Runs.{IsAdmissible, IsAdmissiblePlan};
ghost use Rattle.phase_rules.specs.Expansion.{run_by};
ghost use Rattle.named_net.specs.Naming.{signal_names_at};
ghost use Rattle.plan_file.specs.PlanText.{Spells, block_text, run_text};
ghost use Rattle.plan_file.specs.inner.Writing.{runs_of, text_below};

use ct_base::{Letter, Memory, Plan};
use named_net::NamedNet;
use phase_rules::runs;
use std::alloc::Global;

/// The one text that spells the plan for the network, as the bytes of a file.
pub fn write(alloc: Global, named: &NamedNet, plan: &Plan) -> Result<Vec<u8>, Memory>
    requires { IsAdmissiblePlan named.now.net plan.now }
    ensures { IfOk result (λ text. Spells named.now text.items plan.now) }
{
    let text = write_text(alloc, named, plan)?;
    Ok(text.into_bytes())
}

/// The same text as a string, which lines that are printed can hold.
pub fn write_text(alloc: Global, named: &NamedNet, plan: &Plan) -> Result<String, Memory>
    requires { IsAdmissiblePlan named.now.net plan.now }
    ensures { IfOk result (λ text. Spells named.now (string_bytes text) plan.now) }
{
    // What a named network keeps of its names: they fit it.
    let _names = named.names();
    let mut text = String::from_str(alloc, "ctm-plan 1\n")?;
    for signal in 0..named.net().signals.len() {
        push_block(
            alloc,
            &mut text,
            named,
            signal,
            plan.words.as_slice()[signal].as_slice(),
        )?;
    }
    text.push_str("end\n")?;
    Ok(text)
}

/// Adds the lines of a signal's block, whose word this is.
fn push_block(
    alloc: Global,
    text: &mut String,
    named: &NamedNet,
    signal: usize,
    word: &[Letter],
) -> Result<(), Memory>
    requires signal { signal < length named.now.net.signals }
    requires length { length word.now ≡ named.now.net.steps }
    requires admissible { IsAdmissible (signal_of named.now.net.signals signal) word.now }
    ensures { OnOk result (string_bytes text.new ≡ string_bytes text.old ++ block_text (signal_names_at named.now.names signal) (runs_of word.now)) }
{
    let runs = runs(alloc, named.net().signal(signal), word)?;
    let name = named.names().signal(signal as u32);
    write!(text, "signal {name}\n")?;
    push_runs(text, named, signal, runs.as_slice())?;
    Ok(())
}

/// Adds the lines of a signal's runs.
fn push_runs(
    text: &mut String,
    named: &NamedNet,
    signal: usize,
    runs: &[(u8, u32)],
) -> Result<(), Memory>
    requires signal { signal < length named.now.net.signals }
    requires phases { All (λ run. run.0 < length (signal_names_at named.now.names signal).phases) runs.now }
    ensures { OnOk result (string_bytes text.new ≡ string_bytes text.old ++ flat_map (run_text (signal_names_at named.now.names signal)) (map run_by runs.now)) }
{
    let names = named.names();
    for run in runs {
        let phase = names.phase(signal as u32, run.0);
        write!(text, "{phase} {}\n", run.1)?;
    }
    Ok(())
}
