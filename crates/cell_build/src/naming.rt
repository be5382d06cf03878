//! The names that a file gives, and the places of its cells.

ghost use Rattle.std.specs.Prelude.{◌≡◌, ◌≤◌, ◌++◌, length, map, None, Some, All, IfOk, OnOk};
ghost use Rattle.listed.specs.Below.{table_of};
ghost use Rattle.cell_build.specs.Link.{where_demand};
ghost use Rattle.cell_build.specs.Names.{link_names};
ghost use Rattle.cell_build.specs.Naming.{names_of, names_of_signal, places_of, places_of_link};
ghost use Rattle.network_file.specs.Range.{IsLinkInRange};

use crate::cell_numbers::count_of_cells;
use ct_base::{Listed, Memory};
use named_net::{Names, Place, SignalNames};
use network_file::{Name, Piece, RawLink, RawNet, RawPhase, RawSignal};
use std::alloc::{AllocError, Global};

/// The names that a file gives. Those of links, signals and phases are moved and not copied.
pub(crate) fn names_of(alloc: Global, raw: RawNet) -> Result<Names, Memory>
    requires few { length raw.links ≤ 64 }
    requires in_range { All IsLinkInRange raw.links }
    ensures { IfOk result (λ names. names ≡ names_of raw) }
{
    let places = places_of(alloc, raw.links.as_slice())?;
    let links = names_of_links(alloc, raw.links)?;
    let signals = names_of_signals(alloc, raw.signals)?;
    Ok(Names::new(links, signals, places))
}

/// The names of links.
fn names_of_links(alloc: Global, links: Listed<RawLink>) -> Result<Listed<Name>, AllocError>
    ensures { IfOk result (λ names. names ≡ link_names links) }
{
    let names = links
        .into_vec()
        .into_iter()
        .map(|link| link.name)
        .collect(alloc)?;
    Ok(Listed::of(names))
}

/// The names of signals and of their phases.
fn names_of_signals(
    alloc: Global,
    signals: Listed<RawSignal>,
) -> Result<Listed<SignalNames>, Memory>
    ensures { IfOk result (λ names. names ≡ map names_of_signal signals) }
{
    let mut names = Listed::new(alloc);
    for signal in signals.into_vec() {
        names.push(names_of_signal(alloc, signal)?)?;
    }
    Ok(names)
}

/// The name of a signal and those of its phases.
fn names_of_signal(alloc: Global, signal: RawSignal) -> Result<SignalNames, AllocError>
    ensures { IfOk result (λ names. names ≡ names_of_signal signal) }
{
    let RawSignal { name, phases, .. } = signal;
    let phases = names_of_phases(alloc, phases)?;
    Ok(SignalNames { name, phases })
}

/// The names of phases.
fn names_of_phases(alloc: Global, phases: Listed<RawPhase>) -> Result<Listed<Name>, AllocError>
    ensures { IfOk result (λ names. names ≡ map (λ phase. phase.name) phases) }
{
    let names = phases
        .into_vec()
        .into_iter()
        .map(|phase| phase.name)
        .collect(alloc)?;
    Ok(Listed::of(names))
}

/// The place of each cell, link by link.
#[tactic(auto, using(crate::proofs::TableSteps::join_steps), unfolding(crate::specs::Naming::places_of))]
fn places_of(alloc: Global, links: &[RawLink]) -> Result<Listed<Place>, Memory>
    requires few { length links.now ≤ 64 }
    requires in_range { All IsLinkInRange links.now }
    ensures { IfOk result (λ places. places ≡ places_of links.now) }
{
    let mut places = Listed::of(Vec::with_capacity(alloc, count_of_cells(links) as usize)?);
    for (k, link) in links.iter().enumerate() {
        add_places(&mut places, k as u32, link)?;
    }
    Ok(places)
}

/// Adds the places of the cells of link k: its queue, where it has demand, and then its road cells.
fn add_places(places: &mut Listed<Place>, k: u32, link: &RawLink) -> Result<(), Memory>
    ensures { OnOk result (places.new ≡ places.old ++ places_of_link k link.now) }
{
    add_queue_place(places, k, link.pieces.as_slice())?;
    add_road_places(places, k, link.cells)?;
    Ok(())
}

/// Adds the place of the queue of link k, where it has demand.
fn add_queue_place(places: &mut Listed<Place>, k: u32, pieces: &[Piece]) -> Result<(), Memory>
    ensures { OnOk result (places.new
        ≡ places.old ++ where_demand pieces.now (record { link = k; road = None })) }
{
    if let [_, ..] = pieces {
        places.push(Place {
            link: k,
            road: None,
        })?;
    }
    Ok(())
}

/// Adds the places of the road cells of link k.
#[tactic(auto, using(crate::proofs::TableSteps::table_steps))]
fn add_road_places(places: &mut Listed<Place>, k: u32, cells: u32) -> Result<(), Memory>
    ensures { OnOk result (places.new ≡ places.old ++ table_of cells (λ i. record { link = k; road = Some i })) }
{
    for road in 0..cells {
        places.push(Place {
            link: k,
            road: Some(road),
        })?;
    }
    Ok(())
}
