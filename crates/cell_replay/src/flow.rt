//! What leaves one cell in a step: the least of what may pass, what is held, and what there is room for.

ghost use Rattle.std.specs.Int.{bit_at};
ghost use Rattle.std.specs.Prelude.{◌≡◌, ◌≢◌, ℕ, ◌==◌, ◌<◌, ◌≤◌, All, IfSome, length, slice_index};
ghost use Rattle.cell_replay.specs.Asked.{AreBranches, Fit, LeadToRoads, LeadsOn};
ghost use Rattle.cell_replay.specs.inner.Moves.{may_enter, parcels_up_to, sent_by};
ghost use Rattle.ct_base.specs.Access.{cell_of, parcel, targets};
ghost use Rattle.ct_base.specs.Validity.{IsSplit};
ghost use Rattle.ct_base.specs.declared.cell.Kind.TheVariants.{Road};
ghost use Rattle.traffic_model.specs.Flow.{is_open, outflow, receiving};

use ct_base::{Cell, Gate, Letter, Out};

/// The units that leave the cell with a number in a step.
pub(crate) fn units_leaving(
    cells: &[Cell],
    letters: &[Letter],
    units: &[u32],
    number: usize,
    cell: &Cell,
) -> u32
    requires fit { Fit cells.now units.now }
    requires there { number < length cells.now }
    requires cell { cell.now ≡ cell_of cells.now number }
    requires gate { IfSome cell.now.gate (λ gate. gate.signal < length letters.now) }
    requires leads { LeadsOn cells.now cell.now }
    ensures value { result ≡ outflow cells.now letters.now units.now number }
    ensures held { result ≤ slice_index units.now number }
{
    if !is_open(letters, &cell.gate) {
        return 0;
    }
    let most = cell.cap.min(units[number]);
    if let Out::To(target) = &cell.out {
        let target = *target as usize;
        most.min(entering(cells, units, target))
    } else {
        units_leaving_apart(cells, units, &cell.out, most)
    }
}

/// The units that leave an open cell by an exit or a diverge, where at most `most` may leave and are held.
/// A function of its own keeps the loop over the cells short for the move into one cell.
#[inline(never)]
fn units_leaving_apart(cells: &[Cell], units: &[u32], out: &Out, most: u32) -> u32
    requires fit { Fit cells.now units.now }
    requires targets { All (λ k. (k < length cells.now) × ((cell_of cells.now k).kind ≡ Road)) (targets out.now) }
    requires split { IsSplit out.now }
    requires apart { (b : ℕ) → out.now ≢ Out.To b }
    ensures value { result ≡ sent_by cells.now units.now most out.now }
    ensures most { result ≤ most }
{
    if let Out::Turns(turns) = out {
        let turns = turns.as_slice();
        let parcel = parcel(turns);
        parcel * parcels(cells, units, turns, most / parcel)
    } else {
        most
    }
}

/// Whether the signals let units leave a cell with this gate.
pub fn is_open(letters: &[Letter], gate: &Option<Gate>) -> bool
    requires { IfSome gate.now (λ g. g.signal < length letters.now) }
    ensures { result ≡ is_open letters.now gate.now }
{
    match gate {
        None => true,
        Some(gate) => match letters[gate.signal as usize] {
            Letter::Green(phase) => is_member(gate.greens, phase),
            Letter::Clear(_) => false,
        },
    }
}

/// Whether a phase is in a set of phases.
fn is_member(phases: u8, phase: u8) -> bool
    ensures { result ≡ (bit_at phases phase == 1) }
{
    phase < 8 && (phases >> phase) & 1 == 1
}

/// The units that may enter a road cell in a step: its cap, or what it has room for.
fn entering(cells: &[Cell], units: &[u32], number: usize) -> u32
    requires fit { Fit cells.now units.now }
    requires there { number < length cells.now }
    requires road { (cell_of cells.now number).kind ≡ Road }
    ensures { result ≡ may_enter cells.now units.now number }
{
    cell_at(cells, number)
        .cap
        .min(receiving(cells, units, number))
}

/// The units that a road cell has room for in a step: a part of its free storage in whole units.
pub fn receiving(cells: &[Cell], units: &[u32], number: usize) -> u32
    requires fit { Fit cells.now units.now }
    requires there { number < length cells.now }
    requires road { (cell_of cells.now number).kind ≡ Road }
    ensures { result ≡ receiving (cell_of cells.now number) (slice_index units.now number) }
{
    let cell = cell_at(cells, number);
    cell.wave_p * (cell.store - units[number]) / cell.wave_q
}

/// The cell with a number.
fn cell_at(cells: &[Cell], number: usize) -> &Cell
    requires { number < length cells.now }
    ensures { result.now ≡ cell_of cells.now number }
{
    &cells[number]
}

/// The units of one parcel of a diverge.
pub fn parcel(turns: &[(u32, u32)]) -> u32
    requires { AreBranches turns.now }
    ensures value { result ≡ parcel turns.now }
    ensures some { 1 ≤ result }
{
    let mut units = 0;
    for turn in turns {
        units += turn.1;
    }
    units
}

/// The parcels that leave a diverge: at most `most`, and for each branch at most what may enter its cell
/// and what there is room for.
fn parcels(cells: &[Cell], units: &[u32], turns: &[(u32, u32)], most: u32) -> u32
    requires fit { Fit cells.now units.now }
    requires branches { AreBranches turns.now }
    requires roads { LeadToRoads cells.now turns.now }
    ensures value { result ≡ parcels_up_to cells.now units.now turns.now most }
    ensures small { result ≤ most }
{
    let mut parcels = most;
    for (target, share) in turns {
        parcels = parcels.min(entering(cells, units, *target as usize) / *share);
    }
    parcels
}
