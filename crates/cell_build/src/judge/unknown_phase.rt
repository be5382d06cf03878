//! The rule `unknownphase`: a signal has each phase that is named of it, among the greens of links, as its start, and
//! among the phases that may follow.

ghost use Rattle.std.specs.Prelude.{◌≡◌, ◌≤◌, length, map, All};
ghost use Rattle.cell_build.specs.Link.{signal_named};
ghost use Rattle.cell_build.specs.Names.{phase_names};
ghost use Rattle.refusals.specs.Faults.{per_item, unless};
ghost use Rattle.cell_build.specs.Refusals.{unknown_green_at, unknown_greens_at, unknown_next_at, unknown_nexts_at, unknown_nexts_of, unknown_phase, unknown_start_at};
ghost use Rattle.network_file.specs.Range.{IsLinkInRange, IsPhaseInRange, IsSignalInRange};

use crate::by_name::{Signals, phase_place};
use crate::fault::{BuildFault, PhaseAt};
use crate::judge::refusal::refuse_where;
use network_file::{Name, RawLink, RawPhase, RawSignal};

/// Each phase that is named is there: first all greens, then all starts, then all that may follow.
#[tactic(auto, unfolding(crate::specs::Refusals::unknown_phase))]
pub(super) fn unknown_phase(signals: &Signals<'_>, links: &[RawLink]) -> Result<(), BuildFault>
    requires few { length links.now ≤ 64 }
    requires in_range { All IsLinkInRange links.now }
    requires few_signals { length signals.now ≤ 16 }
    requires signals_in_range { All IsSignalInRange signals.now }
    ensures { result ≡ unless (unknown_phase signals.now links.now) tt }
{
    greens_of_links(signals, links)?;
    unknown_starts(signals.as_slice())?;
    nexts_of_signals(signals.as_slice())
}

/// The greens of each link are phases of its signal.
fn greens_of_links(signals: &Signals<'_>, links: &[RawLink]) -> Result<(), BuildFault>
    requires few { length links.now ≤ 64 }
    requires in_range { All IsLinkInRange links.now }
    ensures { result ≡ unless (per_item links.now (unknown_greens_at signals.now)) tt }
{
    for (k, link) in links.iter().enumerate() {
        unknown_greens_at(signals, k as u32, link)?;
    }
    Ok(())
}

/// The greens of the link are phases of its signal.
fn unknown_greens_at(signals: &Signals<'_>, k: u32, link: &RawLink) -> Result<(), BuildFault>
    requires in_range { IsLinkInRange link.now }
    ensures { result ≡ unless (unknown_greens_at signals.now k link.now) tt }
{
    match &link.signal {
        Some(name) => greens_of_signal(signals, name, k, link.greens.as_slice()),
        None => Ok(()),
    }
}

/// Each green is a phase of the signal of this name.
fn greens_of_signal(
    signals: &Signals<'_>,
    name: &Name,
    k: u32,
    greens: &[Name],
) -> Result<(), BuildFault>
    requires few { length greens.now ≤ 16 }
    ensures { result ≡ unless (per_item greens.now (unknown_green_at (phase_names (signal_named signals.now name.now)) k)) tt }
{
    unknown_greens(signals.phases_of(name.as_str()), k, greens)
}

/// Each green is one of the phases.
fn unknown_greens(phases: &[RawPhase], k: u32, greens: &[Name]) -> Result<(), BuildFault>
    requires few { length greens.now ≤ 16 }
    ensures { result ≡ unless (per_item greens.now (unknown_green_at (map (λ phase. phase.name) phases.now) k)) tt }
{
    for (j, green) in greens.iter().enumerate() {
        unknown_green_at(phases, k, j as u32, green)?;
    }
    Ok(())
}

/// The green is one of the phases.
fn unknown_green_at(phases: &[RawPhase], k: u32, j: u32, green: &Name) -> Result<(), BuildFault>
    ensures { result ≡ unless (unknown_green_at (map (λ phase. phase.name) phases.now) k j green.now) tt }
{
    refuse_where(
        phase_place(phases, green.as_str()).is_none(),
        BuildFault::UnknownPhase {
            at: PhaseAt::Green(k, j),
        },
    )
}

/// Each signal starts with a phase of its own.
fn unknown_starts(signals: &[RawSignal]) -> Result<(), BuildFault>
    requires few { length signals.now ≤ 16 }
    ensures { result ≡ unless (per_item signals.now unknown_start_at) tt }
{
    for (s, signal) in signals.iter().enumerate() {
        unknown_start_at(s as u32, signal)?;
    }
    Ok(())
}

/// The signal starts with a phase of its own.
fn unknown_start_at(s: u32, signal: &RawSignal) -> Result<(), BuildFault>
    ensures { result ≡ unless (unknown_start_at s signal.now) tt }
{
    match &signal.start {
        Some(name) => refuse_where(
            phase_place(signal.phases.as_slice(), name.as_str()).is_none(),
            BuildFault::UnknownPhase {
                at: PhaseAt::Start(s),
            },
        ),
        None => Ok(()),
    }
}

/// What may follow in each signal is a phase of it.
fn nexts_of_signals(signals: &[RawSignal]) -> Result<(), BuildFault>
    requires few { length signals.now ≤ 16 }
    requires in_range { All IsSignalInRange signals.now }
    ensures { result ≡ unless (per_item signals.now unknown_nexts_of) tt }
{
    for (s, signal) in signals.iter().enumerate() {
        unknown_nexts_of(s as u32, signal)?;
    }
    Ok(())
}

/// What may follow a phase of the signal is a phase of it.
fn unknown_nexts_of(s: u32, signal: &RawSignal) -> Result<(), BuildFault>
    requires in_range { IsSignalInRange signal.now }
    ensures { result ≡ unless (unknown_nexts_of s signal.now) tt }
{
    nexts_of_phases(s, signal.phases.as_slice())
}

/// What may follow each of the phases is one of them.
fn nexts_of_phases(s: u32, phases: &[RawPhase]) -> Result<(), BuildFault>
    requires few { length phases.now ≤ 8 }
    requires in_range { All IsPhaseInRange phases.now }
    ensures { result ≡ unless (per_item phases.now (unknown_nexts_at (map (λ phase. phase.name) phases.now) s)) tt }
{
    for (p, phase) in phases.iter().enumerate() {
        unknown_nexts_at(phases, s, p as u32, phase)?;
    }
    Ok(())
}

/// What may follow the phase is one of the phases.
fn unknown_nexts_at(phases: &[RawPhase], s: u32, p: u32, phase: &RawPhase) -> Result<(), BuildFault>
    requires in_range { IsPhaseInRange phase.now }
    ensures { result ≡ unless (unknown_nexts_at (map (λ phase. phase.name) phases.now) s p phase.now) tt }
{
    unknown_nexts(phases, s, p, phase.next.as_slice())
}

/// Each name is that of one of the phases.
fn unknown_nexts(phases: &[RawPhase], s: u32, p: u32, next: &[Name]) -> Result<(), BuildFault>
    requires few { length next.now ≤ 16 }
    ensures { result ≡ unless (per_item next.now (unknown_next_at (map (λ phase. phase.name) phases.now) s p)) tt }
{
    for (j, name) in next.iter().enumerate() {
        unknown_next_at(phases, s, p, j as u32, name)?;
    }
    Ok(())
}

/// The name is that of one of the phases.
fn unknown_next_at(
    phases: &[RawPhase],
    s: u32,
    p: u32,
    j: u32,
    name: &Name,
) -> Result<(), BuildFault>
    ensures { result ≡ unless (unknown_next_at (map (λ phase. phase.name) phases.now) s p j name.now) tt }
{
    refuse_where(
        phase_place(phases, name.as_str()).is_none(),
        BuildFault::UnknownPhase {
            at: PhaseAt::Next(s, p, j),
        },
    )
}
