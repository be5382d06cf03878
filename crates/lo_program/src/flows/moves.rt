//! The rows of the move out of a cell at a step: its flow is the least of its terms, the first of which is its cap.

ghost use Rattle.std.specs.Int.{bit_at};
ghost use Rattle.std.specs.Prelude.{◌≡◌, ◌+◌, ◌<◌, ◌≤◌, ◌==◌, ◌++◌, length, map, IfOk, OnOk};
ghost use Rattle.listed.specs.Below.{sum_below};
ghost use Rattle.ct_base.specs.Access.{cell_of};
ghost use Rattle.ct_base.specs.Validity.{IsGate, IsValid};
ghost use Rattle.traffic_model.specs.Flow.{is_green_among};
ghost use Rattle.traffic_model.specs.Occupancy.{demand_at};
ghost use Rattle.sparse_program.specs.declared.limits.TheConstants.{MAX_ROWS};
ghost use Rattle.program_model.specs.Columns.{Flow, Switch, columns};
ghost use Rattle.program_model.specs.FlowRows.{move_terms};
ghost use Rattle.program_model.specs.Numbers.{number_of};
ghost use Rattle.program_model.specs.Sparse.{sparse};
ghost use Rattle.program_model.specs.SwitchRows.{least_rows};
ghost use Rattle.lo_program.specs.inner.Bits.{AreBits};
ghost use Rattle.lo_program.specs.inner.Flows.{IsMoves};
ghost use Rattle.program_layout.specs.Layout.{IsLayout};
ghost use Rattle.lo_program.specs.inner.Moves.{green_bits};

use crate::flows::conservation::flow_of;
use crate::flows::feeders::Moves;
use crate::flows::terms::further_terms;
use crate::rules::bits::{Bits, bit, bits_of};
use ct_base::{Gate, Letter, Listed, Memory, Net};
use flow_switches::least_rows;
use program_columns::cap_of;
use program_layout::{Layout, first_column};
use sparse_program::Builder;
use std::alloc::Global;

/// Adds the rows of the move out of cell i at step t, where so many units have arrived at it before.
pub(crate) fn add_move_rows(
    builder: &mut Builder,
    net: &Net,
    layout: &Layout,
    moves: &Moves,
    t: u32,
    i: u32,
    arrived: u32,
) -> Result<(), Memory>
    requires valid { IsValid net.now }
    requires layout { IsLayout net.now layout.now }
    requires moves { IsMoves net.now moves.now }
    requires before { t < net.now.steps }
    requires inside { i < length net.now.cells }
    requires arrived { arrived ≡ sum_below t (demand_at (cell_of net.now.cells i)) }
    requires all_columns { length builder.old.columns ≡ length (columns net.now) }
    requires room { length builder.old.rows + length (least_rows (Flow t i) (move_terms net.now t i) (Switch t i)) ≤ MAX_ROWS }
    ensures { OnOk result (builder.new ≡ record builder.old { rows = builder.old.rows ++ map (sparse (number_of net.now)) (least_rows (Flow t i) (move_terms net.now t i) (Switch t i)) }) }
{
    let alloc = builder.alloc();
    let cell = net.cell(i as usize);
    let flow = first_column(net, layout, t, 0) + flow_of(net, moves, i);
    let cap = i64::from(cap_of(net.cells.as_slice(), cell));
    let terms = further_terms(alloc, net, layout, t, i, arrived)?;
    let terms = terms.as_slice();
    match &cell.gate {
        None => least_rows(builder, flow, cap, None, terms, flow + 1)?,
        Some(gate) => {
            let bits = bits_of_gate(alloc, net, layout, t, gate)?;
            least_rows(builder, flow, cap, Some(bits.as_slice()), terms, flow + 1)?;
        }
    }
    Ok(())
}

/// The bits at step t of the greens that open a gate.
fn bits_of_gate(
    alloc: Global,
    net: &Net,
    layout: &Layout,
    t: u32,
    gate: &Gate,
) -> Result<Listed<u32>, Memory>
    requires valid { IsValid net.now }
    requires layout { IsLayout net.now layout.now }
    requires before { t < net.now.steps }
    requires gate { IsGate net.now.signals gate.now }
    ensures { IfOk result (λ found. found ≡ green_bits net.now t gate.now.signal gate.now.greens) }
{
    let bits = bits_of(alloc, net, layout, gate.signal)?;
    bits_of_greens(alloc, net, &bits, t, gate.greens)
}

/// The bits at step t of those letters of a signal that are greens of a set.
fn bits_of_greens(
    alloc: Global,
    net: &Net,
    bits: &Bits,
    t: u32,
    greens: u8,
) -> Result<Listed<u32>, Memory>
    requires valid { IsValid net.now }
    requires bits { AreBits net.now bits.now }
    requires before { t < net.now.steps }
    ensures { IfOk result (λ found. found ≡ green_bits net.now t bits.now.signal greens) }
{
    let mut found = Listed::new(alloc);
    for letter in bits.letters.as_slice() {
        if is_green_among(greens, *letter) {
            found.push(bit(net, bits, t, *letter))?;
        }
    }
    Ok(found)
}

/// Whether a letter is a green of a set of phases.
fn is_green_among(greens: u8, letter: Letter) -> bool
    ensures { result ≡ is_green_among greens letter }
{
    match letter {
        Letter::Green(p) => has_phase(greens, p),
        Letter::Clear(_) => false,
    }
}

/// Whether a phase is in a set of phases.
fn has_phase(phases: u8, p: u8) -> bool
    ensures { result ≡ (bit_at phases p == 1) }
{
    p < 8 && (phases >> p) & 1 == 1
}
