//! What moves in a step, and what the cells hold: laws of every valid network and all letters.

ghost use Rattle.std.specs.Prelude.{◌≡◌, ℕ, ◌+◌, ◌<◌, ◌≤◌, List, false, length, slice_index};
ghost use Rattle.ct_base.specs.Access.{cell_of};
ghost use Rattle.ct_base.specs.Validity.{IsValid};
ghost use Rattle.ct_base.specs.declared.cell.Cell.{Cell};
ghost use Rattle.ct_base.specs.declared.cell.Kind.TheVariants.{Road};
ghost use Rattle.ct_base.specs.declared.net.Net.{Net};
ghost use Rattle.ct_base.specs.declared.plan.Letter.{Letter};
ghost use Rattle.traffic_model.specs.Flow.{is_open, inflow, outflow};
ghost use Rattle.traffic_model.specs.Occupancy.{AreHeld, next_units, occupancies};

/// Nothing leaves a cell that is not open.
pub fn closed_cells_let_nothing_leave()
    ensures { (cells : List Cell) (letters : List Letter) (units : List ℕ) (i : ℕ) →
        is_open letters (cell_of cells i).gate ≡ false → outflow cells letters units i ≡ 0 }
{}

/// No cell sends more than it holds, so that what stays is never cut off at 0.
pub fn no_cell_sends_more_than_it_holds()
    ensures { (cells : List Cell) (letters : List Letter) (units : List ℕ) (i : ℕ) →
        outflow cells letters units i ≤ slice_index units i }
{}

/// What enters a road cell in a step never exceeds the room that is left in it.
pub fn inflow_fits_into_the_room()
    ensures { (net : Net) (letters : List Letter) (t : ℕ) (units : List ℕ) (j : ℕ) →
        IsValid net → AreHeld net.cells t units →
        j < length net.cells → (cell_of net.cells j).kind ≡ Road →
        inflow net.cells letters units j + slice_index units j ≤ (cell_of net.cells j).store }
{}

/// What the cells can hold at a step, they can hold after it: a road cell at most its storage, a queue at
/// most the demand so far.
pub fn cells_hold_what_they_can_over_a_step()
    ensures { (net : Net) (letters : List Letter) (t : ℕ) (units : List ℕ) →
        IsValid net → AreHeld net.cells t units →
        AreHeld net.cells (t + 1) (next_units net.cells letters t units) }
{}

/// At every step of a run a road cell holds at most its storage, and a queue at most the demand so far.
pub fn cells_hold_what_they_can()
    ensures { (net : Net) (letters : ℕ → List Letter) (t : ℕ) →
        IsValid net → AreHeld net.cells t (occupancies net.cells letters t) }
{}
