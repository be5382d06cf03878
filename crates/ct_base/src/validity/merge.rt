//! The rule of merges: where two cells lead into one, a signal lets one of them at a time.

ghost use Rattle.std.specs.Prelude.{◌≡◌, ◌≢◌, ◌<◌, ◌↔◌, ℕ, length, Any, Contains, EachIndex, IsTrue};
ghost use Rattle.ct_base.specs.Access.{cell_of, targets};
ghost use Rattle.ct_base.specs.Validity.{AreApart, AreSeparated};

use super::moves::leads_to;
use crate::cell::{Cell, Gate, Out};

/// Whether all cells that lead into one cell are separated by a signal.
pub fn are_merges_separated(cells: &[Cell]) -> bool
    ensures { IsTrue result ↔ EachIndex cells.now (λ i. EachIndex cells.now (λ k. i ≢ k → AreSeparated cells.now i k)) }
{
    for number in 0..cells.len() {
        if !is_separated(cells, number) {
            return false;
        }
    }
    true
}

/// Whether a cell is separated from each other cell.
fn is_separated(cells: &[Cell], number: usize) -> bool
    requires { number < length cells.now }
    ensures { IsTrue result ↔ EachIndex cells.now (λ k. number ≢ k → AreSeparated cells.now number k) }
{
    for other in 0..cells.len() {
        if !is_separated_from(cells, number, other) {
            return false;
        }
    }
    true
}

/// Whether a cell is another one itself, or separated from it.
fn is_separated_from(cells: &[Cell], number: usize, other: usize) -> bool
    requires number { number < length cells.now }
    requires other { other < length cells.now }
    ensures { IsTrue result ↔ (number ≢ other → AreSeparated cells.now number other) }
{
    if number == other {
        true
    } else {
        are_separated(cells, number, other)
    }
}

/// Whether the moves out of the cells with two numbers are separated by a signal, where they lead into one cell.
pub fn are_separated(cells: &[Cell], one: usize, other: usize) -> bool
    requires one { one < length cells.now }
    requires other { other < length cells.now }
    ensures { IsTrue result ↔ AreSeparated cells.now one other }
{
    let one = cell_at(cells, one);
    let other = cell_at(cells, other);
    !share_a_target(&one.out, &other.out) || are_apart(&one.gate, &other.gate)
}

/// The cell with a number.
fn cell_at(cells: &[Cell], number: usize) -> &Cell
    requires { number < length cells.now }
    ensures { result.now ≡ cell_of cells.now number }
{
    &cells[number]
}

/// Whether two moves lead into one cell.
fn share_a_target(one: &Out, other: &Out) -> bool
    ensures { IsTrue result ↔ ((j : ℕ) × (Contains (targets one.now) j) × (Contains (targets other.now) j)) }
{
    match one {
        Out::Exit => false,
        Out::To(target) => leads_to(other, *target),
        Out::Turns(turns) => leads_to_one_of(other, turns.as_slice()),
    }
}

/// Whether a move leads into a cell of one of some branches.
fn leads_to_one_of(out: &Out, turns: &[(u32, u32)]) -> bool
    ensures { IsTrue result ↔ Any (λ (turn : ℕ × ℕ). Contains (targets out.now) turn.0) turns.now }
{
    turns.iter().any(|turn| leads_to(out, turn.0))
}

/// Whether no letter of a signal opens both gates.
pub fn are_apart(one: &Option<Gate>, other: &Option<Gate>) -> bool
    ensures { IsTrue result ↔ AreApart one.now other.now }
{
    match (one, other) {
        (Some(one), Some(other)) => one.signal == other.signal && one.greens & other.greens == 0,
        _ => false,
    }
}
