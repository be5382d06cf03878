//! The network of the links and signals of a file that has no fault.

ghost use Rattle.std.specs.Prelude.{◌≡◌, ◌+◌, ◌<◌, [], length, IfOk, OnOk};
ghost use Rattle.cell_build.specs.Built.{named_of};
ghost use Rattle.cell_build.specs.inner.Firsts.{AreFirsts};
ghost use Rattle.cell_build.specs.Link.{cells_of_links};
ghost use Rattle.cell_build.specs.Names.{raw_link};
ghost use Rattle.cell_build.specs.inner.Queues.{demands_of, queue_demand};
ghost use Rattle.cell_build.specs.Refusals.{faults_of};
ghost use Rattle.network_file.specs.Range.{IsInRange};

use crate::by_name::Numbered;
use crate::cell_numbers::{count_of_cells, first_roads};
use crate::gate::{gate_of, signals_of};
use crate::link::{add_queue, add_road};
use crate::out::out_of;
use ct_base::{Cell, Listed, Memory, Net, Units};
use std::alloc::Global;

/// The cells and signals of a file as a network. The demands are moved into the queues.
#[tactic(auto, using(crate::proofs::FaultLaws::few_steps), unfolding(crate::specs::Built::named_of))]
pub(crate) fn net_of(
    alloc: Global,
    raw: &Numbered<'_>,
    demands: &mut [Option<Units>],
) -> Result<Net, Memory>
    requires in_range { IsInRange raw.now }
    requires no_fault { faults_of raw.now ≡ [] }
    requires demands { demands.old ≡ demands_of raw.now.steps raw.now.links }
    ensures { IfOk result (λ net. net ≡ (named_of raw.now).net) }
{
    let firsts = first_roads(alloc, raw.links.as_slice())?;
    let cells = cells_of(alloc, raw, firsts.as_slice(), demands)?;
    let signals = signals_of(alloc, raw.signals.as_slice())?;
    Ok(Net {
        steps: raw.steps,
        cells,
        signals,
    })
}

/// The cells of all links, in the order of the file. The demands are moved into the queues.
#[tactic(auto, using(crate::proofs::PlaceLaws::demand_steps))]
fn cells_of(
    alloc: Global,
    raw: &Numbered<'_>,
    firsts: &[u32],
    demands: &mut [Option<Units>],
) -> Result<Listed<Cell>, Memory>
    requires in_range { IsInRange raw.now }
    requires no_fault { faults_of raw.now ≡ [] }
    requires firsts { AreFirsts raw.now.links firsts.now }
    requires demands { demands.old ≡ demands_of raw.now.steps raw.now.links }
    ensures { IfOk result (λ cells. cells
        ≡ cells_of_links raw.now.steps raw.now.signals raw.now.links (length raw.now.links)) }
{
    let count = count_of_cells(raw.links.as_slice());
    let mut cells = Vec::with_capacity(alloc, count as usize)?;
    for number in 0..demands.len() {
        let demand = demands[number].take();
        add_link_at(alloc, &mut cells, raw, firsts, number, demand)?;
    }
    Ok(Listed::of(cells))
}

/// Adds the cells of the link with a number to those of the links before it.
#[tactic(auto, using(crate::proofs::PlaceLaws::link_steps))]
fn add_link_at(
    alloc: Global,
    cells: &mut Vec<Cell>,
    raw: &Numbered<'_>,
    firsts: &[u32],
    number: usize,
    demand: Option<Units>,
) -> Result<(), Memory>
    requires in_range { IsInRange raw.now }
    requires no_fault { faults_of raw.now ≡ [] }
    requires firsts { AreFirsts raw.now.links firsts.now }
    requires within { number < length raw.now.links }
    requires demand { demand ≡ queue_demand raw.now.steps (raw_link raw.now.links number).pieces }
    requires before { cells.old.items
        ≡ cells_of_links raw.now.steps raw.now.signals raw.now.links number }
    ensures { OnOk result (cells.new.items
        ≡ cells_of_links raw.now.steps raw.now.signals raw.now.links (number + 1)) }
{
    let link = raw.links.get(number);
    let out = out_of(alloc, &raw.links, firsts, link)?;
    let gate = gate_of(&raw.signals, link);
    add_queue(cells, demand, link)?;
    add_road(alloc, cells, out, gate, link)?;
    Ok(())
}
