//! The terms of a move: what may leave a cell in a step, the least of which does.

ghost use Rattle.std.specs.Prelude.{◌≡◌, ℕ, if◌then◌else◌, ◌++◌, ◌<◌, ◌==◌, ◌/◌, All, IfSome, OnOk, fold, length, map, min, position, slice_index, unwrap_or};
ghost use Rattle.cell_replay.specs.Asked.{AreBranches, Fit, LeadToRoads, LeadsOn};
ghost use Rattle.ct_base.specs.Access.{cell_of, targets};
ghost use Rattle.ct_base.specs.Validity.{IsSplit};
ghost use Rattle.ct_base.specs.declared.cell.Kind.TheVariants.{Road};
ghost use Rattle.traffic_model.specs.Flow.{cap_of, further_terms, is_open, least, receiving, terms};

use cell_replay::{is_open, parcel, receiving};
use ct_base::{Cell, Letter, Memory, Out};

/// Fills in the terms of the move out of the cell with a number.
pub(super) fn move_terms(
    found: &mut Vec<u32>,
    cells: &[Cell],
    letters: &[Letter],
    units: &[u32],
    number: usize,
    cell: &Cell,
) -> Result<(), Memory>
    requires fit { Fit cells.now units.now }
    requires there { number < length cells.now }
    requires cell { cell.now ≡ cell_of cells.now number }
    requires gate { IfSome cell.now.gate (λ gate. gate.signal < length letters.now) }
    requires leads { LeadsOn cells.now cell.now }
    ensures { OnOk result (found.new.items ≡ terms cells.now letters.now units.now number) }
{
    found.clear();
    found.push(gated_cap(cells, letters, cell))?;
    push_further_terms(found, cells, units, number, &cell.out)
}

/// The cap of a move, or 0 where its cell is not open.
fn gated_cap(cells: &[Cell], letters: &[Letter], cell: &Cell) -> u32
    requires gate { IfSome cell.now.gate (λ gate. gate.signal < length letters.now) }
    requires leads { LeadsOn cells.now cell.now }
    ensures { result ≡ (if is_open letters.now cell.now.gate then cap_of cells.now cell.now cell.now.out else 0) }
{
    if is_open(letters, &cell.gate) {
        cap_of(cells, cell)
    } else {
        0
    }
}

/// The most that may leave an open cell in a step: units, or at a diverge parcels.
fn cap_of(cells: &[Cell], cell: &Cell) -> u32
    requires leads { LeadsOn cells.now cell.now }
    ensures { result ≡ cap_of cells.now cell.now cell.now.out }
{
    match &cell.out {
        Out::Exit => cell.cap,
        Out::To(target) => cell.cap.min(cells[*target as usize].cap),
        Out::Turns(turns) => {
            let turns = turns.as_slice();
            parcels_cap(cells, turns, cell.cap / parcel(turns))
        }
    }
}

/// The most parcels that may leave a diverge whose own cap lets through `most`.
fn parcels_cap(cells: &[Cell], turns: &[(u32, u32)], most: u32) -> u32
    requires branches { AreBranches turns.now }
    requires roads { LeadToRoads cells.now turns.now }
    ensures { result ≡ fold min most (map (λ (branch : ℕ × ℕ). (cell_of cells.now branch.0).cap / branch.1) turns.now) }
{
    let mut cap = most;
    for (target, share) in turns {
        cap = cap.min(cells[*target as usize].cap / *share);
    }
    cap
}

/// Adds the sending and the receiving terms of a move.
fn push_further_terms(
    terms: &mut Vec<u32>,
    cells: &[Cell],
    units: &[u32],
    number: usize,
    out: &Out,
) -> Result<(), Memory>
    requires fit { Fit cells.now units.now }
    requires there { number < length cells.now }
    requires targets { All (λ k. (k < length cells.now) × ((cell_of cells.now k).kind ≡ Road)) (targets out.now) }
    requires split { IsSplit out.now }
    ensures { OnOk result (terms.new.items ≡ terms.old.items ++ further_terms cells.now units.now number out.now) }
{
    let held = units[number];
    match out {
        Out::Exit => terms.push(held)?,
        Out::To(target) => {
            terms.push(held)?;
            terms.push(receiving(cells, units, *target as usize))?;
        }
        Out::Turns(turns) => {
            let turns = turns.as_slice();
            terms.push(held / parcel(turns))?;
            push_branch_terms(terms, cells, units, turns)?;
        }
    }
    Ok(())
}

/// Adds the term of each branch of a diverge: the parcels that its cell has room for.
fn push_branch_terms(
    terms: &mut Vec<u32>,
    cells: &[Cell],
    units: &[u32],
    turns: &[(u32, u32)],
) -> Result<(), Memory>
    requires fit { Fit cells.now units.now }
    requires branches { AreBranches turns.now }
    requires roads { LeadToRoads cells.now turns.now }
    ensures { OnOk result (terms.new.items ≡ terms.old.items
        ++ map (λ (branch : ℕ × ℕ). receiving (cell_of cells.now branch.0) (slice_index units.now branch.0) / branch.1) turns.now) }
{
    for (target, share) in turns {
        terms.push(receiving(cells, units, *target as usize) / *share)?;
    }
    Ok(())
}

/// The least of some terms.
pub(super) fn least(terms: &[u32]) -> u32
    requires { 0 < length terms.now }
    ensures { result ≡ least terms.now }
{
    let mut least = terms[0];
    for term in terms {
        least = least.min(*term);
    }
    least
}

/// The place of the first of some terms that is `least`, and 0 where none is.
pub(super) fn first_place(terms: &[u32], least: u32) -> usize
    ensures { result ≡ unwrap_or (position (λ term. term == least) terms.now) 0 }
{
    for (place, term) in terms.iter().enumerate() {
        if *term == least {
            return place;
        }
    }
    0
}
