//! Tables of numbers, read and changed where a place is there: what is outside a table is 0.

ghost use Rattle.std.specs.Prelude.{◌≡◌, pos, IfOk};
ghost use Rattle.queue_prices.specs.Zero.{AreZero};

use ct_base::Memory;
use std::alloc::Global;

/// A table of so many zeros.
pub(crate) fn zeros(alloc: Global, count: usize) -> Result<Vec<i64>, Memory>
    ensures { IfOk result (λ values. AreZero values.items) }
{
    Ok(vec![in alloc; 0; count]?)
}

/// The place of a column of a table in one of its rows, which all have as many columns.
pub(crate) fn place(columns: usize, row: u32, column: u32) -> usize {
    columns
        .saturating_mul(row as usize)
        .saturating_add(column as usize)
}

/// The number at a place; 0 where there is none.
pub(crate) fn value_at(values: &[i64], place: usize) -> i64
    ensures zero { AreZero values.now → result ≡ pos 0 }
{
    match values.get(place) {
        Some(value) => *value,
        None => 0,
    }
}

/// Adds to the number at a place, where there is one.
#[tactic(auto, using(crate::proofs::ZeroLaws::zero_set))]
pub(crate) fn add_at(values: &mut [i64], place: usize, by: i64)
    ensures zero { AreZero values.old → by ≡ pos 0 → AreZero values.new }
{
    if place < values.len() {
        values[place] = values[place].saturating_add(by);
    }
}

/// Makes every number 0.
pub(crate) fn clear(values: &mut [i64])
    ensures zero { AreZero values.new }
{
    values.fill(0);
}
