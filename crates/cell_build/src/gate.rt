//! Signals and their phases by number, and the gates of links.

ghost use Rattle.std.specs.Prelude.{◌≡◌, ◌≢◌, ◌<◌, ◌≤◌, length, map, None, All, IfOk};
ghost use Rattle.cell_build.specs.Built.{phase_built, signal_built, start_among};
ghost use Rattle.cell_build.specs.Link.{gate_of};
ghost use Rattle.cell_build.specs.Names.{number_of, phase_names, set_of};
ghost use Rattle.network_file.specs.Range.{IsSignalInRange};

use crate::by_name::{Signals, phase_place};
use ct_base::{Gate, Listed, Memory, Phase, Signal};
use network_file::{Name, RawLink, RawPhase, RawSignal};
use std::alloc::Global;

/// The number of the phase of this name.
fn phase_number(signal: &RawSignal, name: &str) -> u8
    requires { length signal.now.phases ≤ 8 }
    ensures value { result ≡ number_of (phase_names signal.now) name.now }
    ensures below { result < 8 }
{
    phase_place(signal.phases.as_slice(), name).unwrap_or(0) as u8
}

/// The phases of these names as a set.
fn set_of(signal: &RawSignal, names: &[Name]) -> u8
    requires { length signal.now.phases ≤ 8 }
    ensures { result ≡ set_of (phase_names signal.now) names.now }
{
    match names {
        [] => 0,
        [name, more @ ..] => 1 << phase_number(signal, name.as_str()) | set_of(signal, more),
    }
}

/// The gate of a link: none where it names no signal.
pub(crate) fn gate_of(signals: &Signals<'_>, link: &RawLink) -> Option<Gate>
    requires some { link.now.signal ≢ None → 0 < length signals.now }
    requires few { length signals.now ≤ 16 }
    requires in_range { All IsSignalInRange signals.now }
    ensures { result ≡ gate_of signals.now link.now }
{
    match &link.signal {
        Some(name) => {
            let place = signals.place_of(name.as_str()).unwrap_or(0);
            Some(Gate {
                signal: place as u32,
                greens: set_of(&signals.as_slice()[place], link.greens.as_slice()),
            })
        }
        None => None,
    }
}

/// The phase that a signal starts with, the first one where its file names none.
fn start_of(signal: &RawSignal) -> u8
    requires { length signal.now.phases ≤ 8 }
    ensures { result ≡ start_among (phase_names signal.now) signal.now.start }
{
    match &signal.start {
        Some(name) => phase_number(signal, name.as_str()),
        None => 0,
    }
}

/// A phase of a signal, with the names of those that may follow as a set.
fn phase_built(signal: &RawSignal, phase: &RawPhase) -> Phase
    requires { length signal.now.phases ≤ 8 }
    ensures { result ≡ phase_built (phase_names signal.now) phase.now }
{
    Phase {
        min: phase.min,
        max: phase.max,
        clear: phase.clear,
        next: set_of(signal, phase.next.as_slice()),
    }
}

/// The phases of a signal.
fn phases_of(alloc: Global, signal: &RawSignal) -> Result<Listed<Phase>, Memory>
    requires { length signal.now.phases ≤ 8 }
    ensures { IfOk result (λ phases. phases
        ≡ map (phase_built (phase_names signal.now)) signal.now.phases) }
{
    let mut phases = Listed::new(alloc);
    for phase in signal.phases.as_slice() {
        phases.push(phase_built(signal, phase))?;
    }
    Ok(phases)
}

/// A signal with its names as numbers.
fn signal_built(alloc: Global, signal: &RawSignal) -> Result<Signal, Memory>
    requires { length signal.now.phases ≤ 8 }
    ensures { IfOk result (λ built. built ≡ signal_built signal.now) }
{
    let phases = phases_of(alloc, signal)?;
    Ok(Signal {
        start: start_of(signal),
        phases,
    })
}

/// The signals of a network.
pub(crate) fn signals_of(alloc: Global, signals: &[RawSignal]) -> Result<Listed<Signal>, Memory>
    requires { All IsSignalInRange signals.now }
    ensures { IfOk result (λ built. built ≡ map signal_built signals.now) }
{
    let mut built = Listed::new(alloc);
    for signal in signals {
        built.push(signal_built(alloc, signal)?)?;
    }
    Ok(built)
}
