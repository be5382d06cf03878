//! What keeps a list of values from being an integer point of a program: its length, then column by column, then row by row.
//!
//! Once all values are within the bounds of their columns they are at most 2^20 in absolute value, as coefficients are. A row
//! has at most 64 terms, so that its sum is at most 2^46.

ghost use Rattle.std.specs.Prelude.{◌≡◌, ◌<◌, ◌≤◌, ◌^◌, ◌*◌, ◌*ℤ◌, [], length, unsigned_abs};
ghost use Rattle.refusals.specs.Faults.{per_item, unless};
ghost use Rattle.sparse_program.specs.Program.{IsRow, col_of, row_of};
ghost use Rattle.sparse_program.specs.Terms.{AreTerms, IsSmall, terms_sum};
ghost use Rattle.sparse_program.specs.declared.limits.TheConstants.{MAX_TERMS};
ghost use Rattle.program_model.specs.Points.{value_at};
ghost use Rattle.point_decode.specs.Breaks.{column_breaks, is_met, length_breaks, point_breaks, row_breaks};
ghost use Rattle.point_decode.specs.inner.Small.{AreSmall};

use crate::broken::Broken;
use sparse_program::{Program, Row};

/// Nothing keeps the values from being an integer point of the program.
#[tactic(auto, unfolding(crate::specs::Breaks::point_breaks))]
pub(crate) fn is_integer_point(program: &Program, point: &[i64]) -> Result<(), Broken>
    ensures { result ≡ unless (point_breaks program.now point.now) tt }
{
    has_length(program, point)?;
    columns_are_within(program, point)?;
    rows_are_met(program, point)
}

/// There is one value for each column.
fn has_length(program: &Program, point: &[i64]) -> Result<(), Broken>
    ensures { result ≡ unless (length_breaks program.now point.now) tt }
{
    if point.len() == program.cols() as usize {
        Ok(())
    } else {
        Err(Broken::Length(point.len() as u64))
    }
}

/// Each value is within the bounds of its column.
fn columns_are_within(program: &Program, point: &[i64]) -> Result<(), Broken>
    requires { length point.now ≡ length program.now.columns }
    ensures { result ≡ unless (per_item program.now.columns (column_breaks point.now)) tt }
{
    for j in 0..program.cols() {
        column_is_within(program, point, j)?;
    }
    Ok(())
}

/// The value of a column is within its bounds.
fn column_is_within(program: &Program, point: &[i64], j: u32) -> Result<(), Broken>
    requires long { length point.now ≡ length program.now.columns }
    requires there { j < length program.now.columns }
    ensures { result ≡ unless (column_breaks point.now j (col_of program.now.columns j)) tt }
{
    let col = program.col(j);
    let value = point[j as usize];
    if col.low <= value && value <= col.high {
        Ok(())
    } else {
        Err(Broken::Column(j))
    }
}

/// Does nothing. A caller whose values are within the bounds of their columns knows that they are small.
fn are_small(program: &Program, point: &[i64])
    requires long { length point.now ≡ length program.now.columns }
    requires within { per_item program.now.columns (column_breaks point.now) ≡ [] }
    ensures { AreSmall point.now }
{
    program.is_program();
    let _values = point.len();
}

/// Each row is met.
fn rows_are_met(program: &Program, point: &[i64]) -> Result<(), Broken>
    requires long { length point.now ≡ length program.now.columns }
    requires within { per_item program.now.columns (column_breaks point.now) ≡ [] }
    ensures { result ≡ unless (per_item program.now.rows (row_breaks point.now)) tt }
{
    are_small(program, point);
    for i in 0..program.rows() {
        row_is_met(program, point, i)?;
    }
    Ok(())
}

/// The values meet a row.
fn row_is_met(program: &Program, point: &[i64], i: u32) -> Result<(), Broken>
    requires long { length point.now ≡ length program.now.columns }
    requires small { AreSmall point.now }
    requires there { i < length program.now.rows }
    ensures { result ≡ unless (row_breaks point.now i (row_of program.now.rows i)) tt }
{
    if is_met(program.row(i), point) {
        Ok(())
    } else {
        Err(Broken::Row(i))
    }
}

/// Whether the values meet a row.
fn is_met(row: &Row, point: &[i64]) -> bool
    requires lawful { IsRow (length point.now) row.now }
    requires small { AreSmall point.now }
    ensures { result ≡ is_met row.now (value_at point.now) }
{
    let sum = terms_sum(row.terms.as_slice(), point);
    if row.equal {
        sum == row.rhs
    } else {
        sum >= row.rhs
    }
}

/// What the terms of a row come to.
fn terms_sum(terms: &[(u32, i64)], point: &[i64]) -> i64
    requires lawful { AreTerms (length point.now) terms.now }
    requires few { length terms.now ≤ MAX_TERMS }
    requires small { AreSmall point.now }
    ensures { result ≡ terms_sum terms.now (value_at point.now) }
{
    let mut sum = 0;
    for term in terms {
        sum += product(term.1, point[term.0 as usize]);
    }
    sum
}

/// A coefficient times a value.
fn product(coefficient: i64, value: i64) -> i64
    requires coefficient { IsSmall coefficient }
    requires value { IsSmall value }
    ensures value { result ≡ coefficient *ℤ value }
    ensures small { unsigned_abs result ≤ 2 ^ 40 }
{
    coefficient * value
}
