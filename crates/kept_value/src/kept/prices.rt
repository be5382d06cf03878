//! Other prices over the box that is kept.

ghost use Rattle.std.specs.Prelude.{◌≡◌, ◌↔◌, ℕ, ℤ, ◌*◌, ◌<◌, ◌≤◌, IsTrue, true, length, unsigned_abs};
ghost use Rattle.certificate_model.specs.Value.{IsSigned, most_price, reduced_cost};
ghost use Rattle.safe_bound.specs.Prices.{ArePrices, price_at};
ghost use Rattle.kept_value.specs.Kept.{IsKeptOf, reduced_at, repriced};

use crate::kept::KeptValue;
use certificate_model::MAX_PRICE;
use safe_bound::{reduced_cost, value};
use sparse_program::{Program, Row};

impl KeptValue {
    /// Whether prices stay lawful where the price of a row changes by a number.
    pub fn can_change(&self, program: &Program, row: u32, by: i64) -> bool
        requires of { IsKeptOf program.now self.now }
        requires there { row < length program.now.rows }
        requires few { unsigned_abs by ≤ 2 * most_price }
        ensures { IsTrue result ↔ ArePrices program.now.rows (repriced self.now.prices row by) }
    {
        is_allowed(program.row(row), self.prices[row as usize] + by)
    }

    /// Takes other lawful prices over the same box. It costs as much as to keep them from the start, but takes no memory.
    pub fn set_prices(&mut self, program: &Program, prices: &[i64])
        requires of { IsKeptOf program.now self.old }
        requires lawful { ArePrices program.now.rows prices.now }
        ensures prices { self.new.prices ≡ prices.now }
        ensures ranges { self.new.box ≡ self.old.box }
        ensures of { IsKeptOf program.now self.new }
    {
        program.is_program();
        self.bounds.is_box();
        self.value = value(program, &self.bounds, prices, true);
        write_reduced_costs(program, prices, self.reduced.as_mut_slice());
        self.prices.as_mut_slice().copy_from_slice(prices);
    }
}

/// Writes the reduced cost of each column.
fn write_reduced_costs(program: &Program, prices: &[i64], reduced: &mut [i128])
    requires lawful { ArePrices program.now.rows prices.now }
    requires long { length reduced.old ≡ length program.now.columns }
    ensures long { length reduced.new ≡ length program.now.columns }
    ensures each { (j : ℕ) → j < length program.now.columns → reduced_at reduced.new j ≡ reduced_cost program.now true (price_at prices.now) j }
{
    for j in 0..program.cols() {
        reduced[j as usize] = reduced_cost(program, prices, true, j);
    }
}

/// Whether a price is not too great, and is allowed on a row.
fn is_allowed(row: &Row, price: i64) -> bool
    ensures { IsTrue result ↔ ((unsigned_abs price ≤ most_price) × IsSigned row.now price) }
{
    price.unsigned_abs() <= MAX_PRICE && (row.equal || 0 <= price)
}
