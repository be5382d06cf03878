//! A signal, as its table spells it.

ghost use Rattle.std.specs.Prelude.{◌≡◌, map, IfOk};
ghost use Rattle.network_file.specs.Documents.{tables_among};
ghost use Rattle.network_file.specs.Spelled.{phase_of, signal_of};
ghost use Rattle.toml.specs.View.{items_view, table_view};

use crate::document::{copy_text_at, items_at, number_at, some_text_at, texts_at};
use crate::raw::{RawPhase, RawSignal};
use ct_base::{Listed, Memory};
use std::alloc::Global;
use toml::{Table, Value};

/// A phase, as its table spells it.
fn phase_of(alloc: Global, phase: &Table) -> Result<RawPhase, Memory>
    ensures { IfOk result (λ made. made ≡ phase_of (table_view phase.now)) }
{
    let name = copy_text_at(alloc, phase, "name")?;
    let next = texts_at(alloc, phase, "next")?;
    Ok(RawPhase {
        name,
        min: number_at(phase, "min", 0),
        max: number_at(phase, "max", 0),
        clear: number_at(phase, "clear", 0),
        next,
    })
}

/// The phases of a signal.
fn phases_of(alloc: Global, values: &[Value]) -> Result<Listed<RawPhase>, Memory>
    ensures { IfOk result (λ made. made ≡ map phase_of (tables_among (items_view values.now))) }
{
    let mut phases = Listed::new(alloc);
    for value in values {
        if let Some(phase) = value.as_table() {
            phases.push(phase_of(alloc, phase)?)?;
        }
    }
    Ok(phases)
}

/// A signal, as its table spells it.
#[tactic(auto, using(crate::proofs::TableWalks::walks), unfolding(crate::specs::Spelled::signal_of))]
fn signal_of(alloc: Global, signal: &Table) -> Result<RawSignal, Memory>
    ensures { IfOk result (λ made. made ≡ signal_of (table_view signal.now)) }
{
    let name = copy_text_at(alloc, signal, "name")?;
    let start = some_text_at(alloc, signal, "start")?;
    let phases = phases_of(alloc, items_at(signal, "phase"))?;
    Ok(RawSignal {
        name,
        start,
        phases,
    })
}

/// The signals.
pub fn signals_of(alloc: Global, values: &[Value]) -> Result<Listed<RawSignal>, Memory>
    ensures { IfOk result (λ made. made ≡ map signal_of (tables_among (items_view values.now))) }
{
    let mut signals = Listed::new(alloc);
    for value in values {
        if let Some(signal) = value.as_table() {
            signals.push(signal_of(alloc, signal)?)?;
        }
    }
    Ok(signals)
}
