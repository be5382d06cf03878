//! What the letters of signals earn by the tolls of the rows that their bits stand in.

ghost use Rattle.std.specs.Prelude.{◌≡◌, ◌<◌, pos, length, IfSome};
ghost use Rattle.sparse_program.specs.Box.{Ranges};
ghost use Rattle.sparse_program.specs.Program.{Parts};
ghost use Rattle.queue_prices.specs.Tolls.{IsFree};
ghost use Rattle.queue_prices.specs.Zero.{AreZero};

use crate::places::{add_at, clear, value_at};
use crate::rows::{GateRow, Rows};
use crate::tolls::Tolls;
use sparse_program::{Bounds, Program};

/// A letter of a signal at a step, by its plan column.
#[derive(Clone, Copy, Debug)]
pub(crate) struct Earner {
    pub(crate) column: u32,
    pub(crate) earns: i64,
}

/// Fills a table of what the bit of each plan column earns, in 1024ths of a unit of delay: for each row the toll times the coefficient of
/// the bit, that is its cap where it opens a gate.
pub(crate) fn fill_earnings(program: &Program, rows: &Rows, tolls: &Tolls, earnings: &mut [i64])
    ensures zero { IsFree tolls.now → AreZero earnings.new }
{
    clear(earnings);
    add_gates(
        program,
        rows.gates.as_slice(),
        tolls.gates.as_slice(),
        earnings,
    );
    add_rules(program, rows.rules, tolls.rules.as_slice(), earnings);
}

/// Adds what bits earn by gates.
fn add_gates(program: &Program, gates: &[GateRow], tolls: &[i64], earnings: &mut [i64])
    ensures zero { AreZero tolls.now → AreZero earnings.old → AreZero earnings.new }
{
    for gate in gates {
        add_row(program, gate.row, value_at(tolls, gate.place), earnings);
    }
}

/// Adds what bits earn by rule rows.
fn add_rules(program: &Program, rules: u32, tolls: &[i64], earnings: &mut [i64])
    ensures zero { AreZero tolls.now → AreZero earnings.old → AreZero earnings.new }
{
    for row in 0..rules {
        add_row(program, row, value_at(tolls, row as usize), earnings);
    }
}

/// Adds what bits earn by a row that asks for a toll.
fn add_row(program: &Program, row: u32, toll: i64, earnings: &mut [i64])
    ensures zero { toll ≡ pos 0 → AreZero earnings.old → AreZero earnings.new }
{
    if toll == 0 {
        return;
    }
    for (column, coefficient) in terms_of(program, row) {
        add_at(
            earnings,
            *column as usize,
            toll.saturating_mul(*coefficient),
        );
    }
}

/// The terms of a row; none where there is no such row.
pub(crate) fn terms_of(program: &Program, row: u32) -> &[(u32, i64)] {
    if row < program.rows() {
        program.row(row).terms.as_slice()
    } else {
        &[]
    }
}

/// Whether a row is one that says that a signal shows one letter at a step: of the rule rows, these are the equations.
pub(crate) fn is_sum(program: &Program, row: u32) -> bool {
    row < program.rows() && program.row(row).equal
}

/// The right side of a row; 0 where there is no such row.
pub(crate) fn side_of(program: &Program, row: u32) -> i64 {
    if row < program.rows() {
        program.row(row).rhs
    } else {
        0
    }
}

/// The sum of a row over the plan columns, where these have some bits.
pub(crate) fn row_sum(program: &Program, row: u32, bits: &[i64]) -> i64 {
    let mut sum = 0i64;
    for (column, coefficient) in terms_of(program, row) {
        sum = sum.saturating_add(coefficient.saturating_mul(value_at(bits, *column as usize)));
    }
    sum
}

/// The letter of a row of one letter that the box fixes; else the best one.
pub(crate) fn chosen_letter(
    program: &Program,
    bounds: &Bounds,
    row: u32,
    earnings: &[i64],
) -> Option<Earner> {
    for (column, _) in terms_of(program, row) {
        if is_one(bounds, *column) {
            let earns = value_at(earnings, *column as usize);
            return Some(Earner {
                column: *column,
                earns,
            });
        }
    }
    best_letter(program, bounds, row, earnings)
}

/// Of the letters of a row of one letter, the one that earns most and is not ruled out by the box; the first of several.
pub(crate) fn best_letter(
    program: &Program,
    bounds: &Bounds,
    row: u32,
    earnings: &[i64],
) -> Option<Earner>
    ensures zero { AreZero earnings.now → IfSome result (λ best. best.earns ≡ pos 0) }
{
    let mut best: Option<Earner> = None;
    for (column, _) in terms_of(program, row) {
        best = better(bounds, best, *column, value_at(earnings, *column as usize));
    }
    best
}

/// The better of two letters, where the box leaves the second one open.
fn better(bounds: &Bounds, best: Option<Earner>, column: u32, earns: i64) -> Option<Earner>
    ensures zero { IfSome best (λ best. best.earns ≡ pos 0) → earns ≡ pos 0 → IfSome result (λ best. best.earns ≡ pos 0) }
{
    if !may_be_one(bounds, column) {
        return best;
    }
    match best {
        Some(other) if earns <= other.earns => best,
        _ => Some(Earner { column, earns }),
    }
}

/// Whether the box leaves a bit open, or fixes it to 1.
fn may_be_one(bounds: &Bounds, column: u32) -> bool {
    column < bounds.cols() && 0 < bounds.high(column)
}

/// Whether the box fixes a bit to 1.
fn is_one(bounds: &Bounds, column: u32) -> bool {
    column < bounds.cols() && 0 < bounds.low(column)
}
