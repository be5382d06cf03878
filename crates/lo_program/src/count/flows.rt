//! How many flow rows there are: those of a cell are the same at every step, but that the last step has no next one.

ghost use Rattle.std.specs.Prelude.{◌≡◌, ◌<◌, ◌≤◌, ◌*◌, [], if◌then◌else◌, length};
ghost use Rattle.ct_base.specs.Validity.{IsSplit, IsValid};
ghost use Rattle.listed.specs.Below.{sum_below};
ghost use Rattle.lo_program.specs.inner.Counts.{moving_rows};
ghost use Rattle.program_model.specs.Columns.{has_room};
ghost use Rattle.program_model.specs.FlowRows.{flow_rows, split_rows};

use ct_base::{Net, Out};
use program_layout::{columns_of_split, is_room_column, term_count};

/// How many flow rows there are.
pub(super) fn flow_row_count(net: &Net) -> u64
    requires { IsValid net.now }
    ensures value { result ≡ length (flow_rows net.now) }
    ensures few { result ≤ 240 * 5120 }
{
    let steps = u64::from(net.steps);
    let cells = net.cells.len() as u64;
    steps * rows_of_cells(net) + (steps - 1) * cells
}

/// How many of them the cells have at a step, without what they hold in the next.
fn rows_of_cells(net: &Net) -> u64
    requires { IsValid net.now }
    ensures value { result ≡ sum_below (length net.now.cells) (moving_rows net.now.cells) }
    ensures few { result ≤ 19 * length net.now.cells }
{
    let mut rows = 0;
    for i in 0..net.cells.len() {
        rows += u64::from(rows_of_cell(net, i));
    }
    rows
}

/// How many of them cell i has: of its room, its floors and its move, which has a row for its switches and two a term.
fn rows_of_cell(net: &Net, i: usize) -> u32
    requires valid { IsValid net.now }
    requires inside { i < length net.now.cells }
    ensures value { result ≡ moving_rows net.now.cells i }
    ensures few { result ≤ 19 }
{
    let out = &net.cell(i).out;
    rows_of_room(net, i) + rows_of_split(out) + 1 + 2 * term_count(out)
}

/// How many rows cell i has for its room.
fn rows_of_room(net: &Net, i: usize) -> u32
    requires inside { i < length net.now.cells }
    ensures value { result ≡ (if has_room net.now.cells i then 1 else 0) }
    ensures few { result ≤ 1 }
{
    if is_room_column(net.cells.as_slice(), i) {
        1
    } else {
        0
    }
}

/// How many rows a diverge has for its parcels and branches: each is a floor, which has two columns.
fn rows_of_split(out: &Out) -> u32
    requires { IsSplit out.now }
    ensures value { result ≡ length (split_rows [] 0 0 out.now) }
    ensures few { result ≤ 5 }
{
    columns_of_split(out) / 2
}
