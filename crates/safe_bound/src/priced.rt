//! The value of prices, one of each row.
//!
//! A price times a number of the program is at most 2^60 in absolute value. A column has at most 400,000 rows, so its reduced cost is at
//! most 2^79, what it comes to at a bound at most 2^99, and what all columns come to at most 2^119.

ghost use Rattle.std.specs.Prelude.{◌≡◌, ◌<◌, ◌≤◌, ◌^◌, ◌*◌, ◌≤ℤ◌, ℕ, ℤ, pos, ◌*ℤ◌, Bool, true, false, if◌then◌else◌, All, length, unsigned_abs};
ghost use Rattle.std.specs.Int.{int_min};
ghost use Rattle.sparse_program.specs.Box.{high_of, low_of};
ghost use Rattle.sparse_program.specs.Program.{Holds, IsCol, col_of, row_of};
ghost use Rattle.sparse_program.specs.Terms.{AreTerms, IsSmall, terms_sum};
ghost use Rattle.sparse_program.specs.declared.limits.TheConstants.{MAX_ROWS};
ghost use Rattle.certificate_model.specs.Value.{IsInside, most_price, objective_at, reduced_cost, scale, value};
ghost use Rattle.safe_bound.specs.Prices.{ArePrices, price_at};
ghost use Rattle.safe_bound.specs.inner.Sums.{least_below, paid_below};

use certificate_model::SCALE;
use sparse_program::{Bounds, Col, Program};

/// The value of prices over a box, in 1024ths of a unit of delay: with costs, or with all costs left out. It takes no memory, and every
/// sum on the way stays below 2^120 in absolute value.
pub fn value(program: &Program, bounds: &Bounds, prices: &[i64], with_cost: bool) -> i128
    requires columns { length bounds.now.lows ≡ length program.now.columns }
    requires lawful { ArePrices program.now.rows prices.now }
    ensures value { result ≡ value program.now with_cost bounds.now (price_at prices.now) }
    ensures small { unsigned_abs result < 2 ^ 120 }
    ensures below { (x : ℕ → ℤ) → with_cost ≡ true → IsInside (length program.now.columns) bounds.now x →
        ((i : ℕ) → i < length program.now.rows → Holds (row_of program.now.rows i) x) → result ≤ℤ (pos scale *ℤ objective_at program.now x) }
    ensures empty { (x : ℕ → ℤ) → with_cost ≡ false → IsInside (length program.now.columns) bounds.now x →
        ((i : ℕ) → i < length program.now.rows → Holds (row_of program.now.rows i) x) → result ≤ℤ pos 0 }
{
    program.is_program();
    let rows = rows_value(program, prices);
    let columns = columns_value(program, bounds, prices, with_cost);
    rows + columns
}

/// What all rows pay for their right sides.
fn rows_value(program: &Program, prices: &[i64]) -> i128
    requires lawful { ArePrices program.now.rows prices.now }
    ensures value { result ≡ paid_below program.now.rows prices.now (length program.now.rows) }
    ensures small { unsigned_abs result ≤ 2 ^ 60 * length program.now.rows }
    ensures few { length program.now.rows ≤ MAX_ROWS }
{
    let mut sum = 0i128;
    for i in 0..program.rows() {
        sum += product(prices[i as usize], program.row(i).rhs);
    }
    sum
}

/// The least that all columns come to.
fn columns_value(program: &Program, bounds: &Bounds, prices: &[i64], with_cost: bool) -> i128
    requires columns { length bounds.now.lows ≡ length program.now.columns }
    requires lawful { ArePrices program.now.rows prices.now }
    ensures value { result ≡ least_below program.now with_cost bounds.now prices.now (length program.now.columns) }
    ensures small { unsigned_abs result ≤ 2 ^ 99 * length program.now.columns }
{
    let mut sum = 0i128;
    for j in 0..program.cols() {
        let cost = reduced_cost(program, prices, with_cost, j);
        sum += least(cost, bounds.low(j), bounds.high(j));
    }
    sum
}

/// The reduced cost of a column: what one unit of it costs, less what its rows pay for it.
pub fn reduced_cost(program: &Program, prices: &[i64], with_cost: bool, j: u32) -> i128
    requires there { j < length program.now.columns }
    requires lawful { ArePrices program.now.rows prices.now }
    ensures value { result ≡ reduced_cost program.now with_cost (price_at prices.now) j }
    ensures small { unsigned_abs result ≤ 2 ^ 79 }
{
    // The number of rows is asked for since its contract bounds it, and so what they pay.
    let _few = program.rows();
    let paid = paid(program.column(j), prices);
    cost_of(program.col(j), with_cost) - paid
}

/// What one unit of a column costs, or nothing where costs are left out.
fn cost_of(col: Col, with_cost: bool) -> i128
    requires lawful { IsCol col }
    ensures value { result ≡ (if with_cost then pos scale *ℤ col.cost else pos 0) }
    ensures small { unsigned_abs result ≤ 2 ^ 60 }
{
    if with_cost {
        product(SCALE as i64, col.cost)
    } else {
        0
    }
}

/// What the rows of a column pay for one unit of it.
fn paid(column: &[(u32, i64)], prices: &[i64]) -> i128
    requires lawful { AreTerms (length prices.now) column.now }
    requires few { length prices.now ≤ MAX_ROWS }
    requires within { All (λ (price : ℤ). unsigned_abs price ≤ most_price) prices.now }
    ensures value { result ≡ terms_sum column.now (price_at prices.now) }
    ensures small { unsigned_abs result ≤ 2 ^ 60 * MAX_ROWS }
{
    let mut sum = 0i128;
    for entry in column {
        sum += product(prices[entry.0 as usize], entry.1);
    }
    sum
}

/// A price times a number of a program.
fn product(price: i64, number: i64) -> i128
    requires price { unsigned_abs price ≤ most_price }
    requires number { IsSmall number }
    ensures value { result ≡ price *ℤ number }
    ensures small { unsigned_abs result ≤ 2 ^ 60 }
{
    price as i128 * number as i128
}

/// The least that a reduced cost comes to between two bounds. It lies at one of them.
fn least(cost: i128, low: i64, high: i64) -> i128
    requires cost { unsigned_abs cost ≤ 2 ^ 79 }
    requires low { IsSmall low }
    requires high { IsSmall high }
    ensures value { result ≡ int_min (cost *ℤ low) (cost *ℤ high) }
    ensures small { unsigned_abs result ≤ 2 ^ 99 }
{
    at_bound(cost, low).min(at_bound(cost, high))
}

/// What a reduced cost comes to at a bound.
fn at_bound(cost: i128, bound: i64) -> i128
    requires cost { unsigned_abs cost ≤ 2 ^ 79 }
    requires bound { IsSmall bound }
    ensures value { result ≡ cost *ℤ bound }
    ensures small { unsigned_abs result ≤ 2 ^ 99 }
{
    cost * bound as i128
}
