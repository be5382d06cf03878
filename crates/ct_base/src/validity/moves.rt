//! The rules of a move: where it may lead, and how it may be split.

ghost use Rattle.std.specs.Prelude.{◌≡◌, ◌≢◌, ◌≤◌, ◌↔◌, ℕ, length, All, AllPairs, Any, Contains, IsTrue};
ghost use Rattle.ct_base.specs.Access.{targets};
ghost use Rattle.ct_base.specs.Validity.{IsBetween, IsTarget, IsSplit};

use crate::cell::{Cell, Kind, Out};
use limits::{MAX_BRANCHES, MAX_PARCEL};

/// Whether a move out of a cell leads into road cells other than that one, or out of the network.
pub fn are_targets(cells: &[Cell], from: usize, out: &Out) -> bool
    ensures { IsTrue result ↔ All (IsTarget cells.now from) (targets out.now) }
{
    match out {
        Out::Exit => true,
        Out::To(target) => is_target(cells, from, *target),
        Out::Turns(turns) => are_branch_targets(cells, from, turns.as_slice()),
    }
}

/// Whether each branch of a diverge leads into a road cell other than its own.
fn are_branch_targets(cells: &[Cell], from: usize, turns: &[(u32, u32)]) -> bool
    ensures { IsTrue result ↔ All (λ (turn : ℕ × ℕ). IsTarget cells.now from turn.0) turns.now }
{
    turns.iter().all(|turn| is_target(cells, from, turn.0))
}

/// Whether a move may lead from one cell into another: a road cell, and not itself.
pub fn is_target(cells: &[Cell], from: usize, target: u32) -> bool
    ensures { IsTrue result ↔ IsTarget cells.now from target }
{
    match cells.get(target as usize) {
        Some(cell) => cell.kind == Kind::Road && target as usize != from,
        None => false,
    }
}

/// Whether a diverge has 2 to 4 branches, into different cells and with 1 to 100 units of a parcel each.
pub fn is_split(out: &Out) -> bool
    ensures { IsTrue result ↔ IsSplit out.now }
{
    match out {
        Out::Exit => true,
        Out::To(_) => true,
        Out::Turns(turns) => are_branches(turns.as_slice()),
    }
}

/// Whether there are 2 to 4 branches, into different cells and with 1 to 100 units of a parcel each.
fn are_branches(turns: &[(u32, u32)]) -> bool
    ensures { IsTrue result ↔ (IsBetween 2 4 (length turns.now) × AllPairs (λ (a : ℕ × ℕ) (b : ℕ × ℕ). a.0 ≢ b.0) turns.now × All (λ (turn : ℕ × ℕ). IsBetween 1 100 turn.1) turns.now) }
{
    is_count_of_branches(turns.len()) && are_different(turns) && are_parcels(turns)
}

/// Whether a diverge may have so many branches.
fn is_count_of_branches(count: usize) -> bool
    ensures { IsTrue result ↔ IsBetween 2 4 count }
{
    2 <= count && count <= MAX_BRANCHES
}

/// Whether no two branches lead into one cell.
fn are_different(turns: &[(u32, u32)]) -> bool
    ensures { IsTrue result ↔ AllPairs (λ (a : ℕ × ℕ) (b : ℕ × ℕ). a.0 ≢ b.0) turns.now }
{
    for (later, turn) in turns.iter().enumerate() {
        if has_branch_to(&turns[..later], turn.0) {
            return false;
        }
    }
    true
}

/// Whether each branch gets 1 to 100 units of a parcel.
fn are_parcels(turns: &[(u32, u32)]) -> bool
    ensures { IsTrue result ↔ All (λ (turn : ℕ × ℕ). IsBetween 1 100 turn.1) turns.now }
{
    turns.iter().all(|turn| 1 <= turn.1 && turn.1 <= MAX_PARCEL)
}

/// Whether a move leads into a cell.
pub fn leads_to(out: &Out, target: u32) -> bool
    ensures { IsTrue result ↔ Contains (targets out.now) target }
{
    match out {
        Out::Exit => false,
        Out::To(only) => *only == target,
        Out::Turns(turns) => has_branch_to(turns.as_slice(), target),
    }
}

/// Whether one of some branches leads into a cell.
fn has_branch_to(turns: &[(u32, u32)], target: u32) -> bool
    ensures { IsTrue result ↔ Any (λ (turn : ℕ × ℕ). turn.0 ≡ target) turns.now }
{
    turns.iter().any(|turn| turn.0 == target)
}
