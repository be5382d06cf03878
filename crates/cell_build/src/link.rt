//! The cells of a link: a queue where there is demand, and then the road cells from upstream to downstream.

ghost use Rattle.std.specs.Prelude.{◌≡◌, ◌+◌, ◌≤◌, ◌++◌, length, OnOk};
ghost use Rattle.listed.specs.Below.{table_of};
ghost use Rattle.cell_build.specs.Link.{initial_at, queue_to, road_of, road_to};
ghost use Rattle.cell_build.specs.inner.Queues.{queue_with};

use ct_base::{Cell, Gate, Kind, Listed, Memory, Out, Units};
use network_file::RawLink;
use std::alloc::Global;

/// Adds the queue of a link, where demand arrives, to the cells before it. It leads to the road cell after it.
pub(crate) fn add_queue(
    cells: &mut Vec<Cell>,
    demand: Option<Units>,
    link: &RawLink,
) -> Result<(), Memory>
    requires { length cells.old.items ≤ 256 }
    ensures { OnOk result (cells.new.items ≡ cells.old.items
        ++ queue_with (length cells.old.items + 1) demand link.now) }
{
    if let Some(demand) = demand {
        let first_road = cells.len() as u32 + 1;
        cells.push(queue_cell(link, Out::To(first_road), demand))?;
    }
    Ok(())
}

/// The queue of a link, which leads to `out`.
fn queue_cell(link: &RawLink, out: Out, demand: Units) -> Cell
    ensures { result ≡ queue_to out demand link.now }
{
    Cell {
        kind: Kind::Queue,
        cap: link.cap,
        store: 0,
        wave_p: 1,
        wave_q: 1,
        gate: None,
        out,
        initial: 0,
        demand,
    }
}

/// Adds the road cells of a link to the cells before them. Each leads to the next, and the last one to `last`, behind
/// `gate`.
#[tactic(auto, using(crate::proofs::LinkCells::road_steps))]
pub(crate) fn add_road(
    alloc: Global,
    cells: &mut Vec<Cell>,
    last: Out,
    gate: Option<Gate>,
    link: &RawLink,
) -> Result<(), Memory>
    requires some { 1 ≤ link.now.cells }
    requires few { length cells.old.items + link.now.cells ≤ 256 }
    ensures { OnOk result (cells.new.items ≡ cells.old.items
        ++ table_of link.now.cells (road_of (length cells.old.items) last gate link.now)) }
{
    let first_road = cells.len() as u32;
    for k in 0..link.cells - 1 {
        let out = Out::To(first_road + (k + 1));
        cells.push(road_cell(alloc, link, None, out, initial_at(link, k)))?;
    }
    let initial = initial_at(link, link.cells - 1);
    cells.push(road_cell(alloc, link, gate, last, initial))?;
    Ok(())
}

/// The units of a road cell at step 0, none where the file names none.
fn initial_at(link: &RawLink, cell: u32) -> u32
    ensures { result ≡ initial_at link.now.initial cell }
{
    match &link.initial {
        Some(units) => units.as_slice().get(cell as usize).copied().unwrap_or(0),
        None => 0,
    }
}

/// A road cell of a link, which leads to `out`, behind `gate`.
fn road_cell(alloc: Global, link: &RawLink, gate: Option<Gate>, out: Out, initial: u32) -> Cell
    ensures { result ≡ road_to gate out initial link.now }
{
    Cell {
        kind: Kind::Road,
        cap: link.cap,
        store: link.store,
        wave_p: link.wave_p,
        wave_q: link.wave_q,
        gate,
        out,
        initial,
        demand: Listed::new(alloc),
    }
}
