//! The rule `phase`: the least number of green steps is not above the greatest, and some phase other than itself may
//! follow.

ghost use Rattle.std.specs.Prelude.{◌≡◌, ◌≤◌, length, All};
ghost use Rattle.std.specs.List.{list_any};
ghost use Rattle.std.specs.Str.{bytes_eq};
ghost use Rattle.refusals.specs.Faults.{per_item, unless};
ghost use Rattle.cell_build.specs.Refusals.{phase, phase_at, phase_in};
ghost use Rattle.network_file.specs.Range.{IsPhaseInRange, IsSignalInRange};

use crate::fault::BuildFault;
use crate::judge::refusal::refuse_where;
use network_file::{Name, RawPhase, RawSignal};

/// Each phase of each signal keeps the rule.
#[tactic(auto, unfolding(crate::specs::Refusals::phase))]
pub(super) fn phase(signals: &[RawSignal]) -> Result<(), BuildFault>
    requires few { length signals.now ≤ 16 }
    requires in_range { All IsSignalInRange signals.now }
    ensures { result ≡ unless (phase signals.now) tt }
{
    for (s, signal) in signals.iter().enumerate() {
        phase_at(s as u32, signal)?;
    }
    Ok(())
}

/// Each phase of the signal keeps the rule.
fn phase_at(s: u32, signal: &RawSignal) -> Result<(), BuildFault>
    requires in_range { IsSignalInRange signal.now }
    ensures { result ≡ unless (phase_at s signal.now) tt }
{
    phase_of_each(s, signal.phases.as_slice())
}

/// Each of the phases keeps the rule.
fn phase_of_each(s: u32, phases: &[RawPhase]) -> Result<(), BuildFault>
    requires few { length phases.now ≤ 8 }
    ensures { result ≡ unless (per_item phases.now (phase_in s)) tt }
{
    for (p, phase) in phases.iter().enumerate() {
        phase_in(s, p as u32, phase)?;
    }
    Ok(())
}

/// The minimum is not above the maximum, some phase may follow, and the phase itself may not.
fn phase_in(s: u32, p: u32, phase: &RawPhase) -> Result<(), BuildFault>
    ensures { result ≡ unless (phase_in s p phase.now) tt }
{
    let next = phase.next.as_slice();
    refuse_where(
        phase.max < phase.min || next.is_empty() || is_named(next, phase.name.as_str()),
        BuildFault::Phase {
            signal: s,
            phase: p,
        },
    )
}

/// Whether the name is among the names.
fn is_named(names: &[Name], name: &str) -> bool
    ensures { result ≡ list_any (bytes_eq name.now) names.now }
{
    names.iter().any(|other| name == other.as_str())
}
