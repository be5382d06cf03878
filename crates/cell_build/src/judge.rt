//! The first fault of a network, by one rule after another. A rule bears the word that is printed for it.

ghost use Rattle.std.specs.Prelude.{◌≡◌, ◌≤◌, length, All};
ghost use Rattle.cell_build.specs.inner.Queues.{demands_of};
ghost use Rattle.cell_build.specs.Refusals.{faults_of};
ghost use Rattle.network_file.specs.Range.{IsInRange, IsLinkInRange, IsSignalInRange};
ghost use Rattle.refusals.specs.Faults.{unless};
ghost use Rattle.refusals.specs.Memory.{OrMemory};

mod demands;
mod initial_and_cells;
mod merges;
mod outs;
mod phase;
mod refusal;
mod unknown;
mod unknown_phase;

use crate::by_name::{Links, Numbered, Signals};
use crate::fault::BuildFault;
use ct_base::{Listed, Units};
use std::alloc::Global;

/// The demand of the queue of each link, where the network has no fault. An error is its first one, with the place in
/// the file, or want of memory.
pub(crate) fn judge(alloc: Global, raw: &Numbered<'_>) -> Result<Listed<Option<Units>>, BuildFault>
    requires { IsInRange raw.now }
    ensures { OrMemory BuildFault.Memory (unless (faults_of raw.now) (demands_of raw.now.steps raw.now.links)) result }
{
    judge_parts(alloc, &raw.links, &raw.signals, raw.steps)
}

/// The rules, in their order.
#[tactic(auto, using(crate::proofs::FaultLaws::signals_are_there))]
fn judge_parts(
    alloc: Global,
    links: &Links<'_>,
    signals: &Signals<'_>,
    steps: u32,
) -> Result<Listed<Option<Units>>, BuildFault>
    requires few { length links.now ≤ 64 }
    requires in_range { All IsLinkInRange links.now }
    requires few_signals { length signals.now ≤ 16 }
    requires signals_in_range { All IsSignalInRange signals.now }
    requires horizon { steps ≤ 240 }
    ensures { OrMemory BuildFault.Memory (unless (faults_of (record { steps = steps; links = links.now; signals = signals.now })) (demands_of steps links.now)) result }
{
    let (all_links, all_signals) = (links.as_slice(), signals.as_slice());
    unknown::unknown_link(links)?;
    unknown::unknown_signal(signals, all_links)?;
    unknown_phase::unknown_phase(signals, all_links)?;
    outs::out_both(all_links)?;
    outs::itself(all_links)?;
    outs::twice_turn(all_links)?;
    merges::fed(all_links)?;
    merges::open_merge(signals, all_links)?;
    initial_and_cells::initial_units(all_links)?;
    initial_and_cells::many_cells(all_links)?;
    let demands = demands::demand(alloc, all_links, steps)?;
    phase::phase(all_signals)?;
    Ok(demands)
}
