//! Which prices are lawful.

ghost use Rattle.std.specs.Prelude.{◌↔◌, ◌≤◌, ℕ, ℤ, IsTrue, unsigned_abs};
ghost use Rattle.sparse_program.specs.Program.{row_of};
ghost use Rattle.certificate_model.specs.Value.{AreLawful, IsSigned, most_price};
ghost use Rattle.safe_bound.specs.Prices.{ArePrices};
ghost use Rattle.safe_bound.specs.inner.Pairs.{IsLawfulPair};

use certificate_model::MAX_PRICE;
use sparse_program::{Program, Row};

/// Whether there is a price of each row, none is too great, and each is allowed on its row.
pub fn are_prices(program: &Program, prices: &[i64]) -> bool
    ensures { IsTrue result ↔ ArePrices program.now.rows prices.now }
{
    if prices.len() != program.rows() as usize {
        return false;
    }
    for (i, price) in prices.iter().enumerate() {
        if !is_allowed(program.row(i as u32), *price) {
            return false;
        }
    }
    true
}

/// Whether pairs of a row and its price are lawful: the rows exist and rise, no price is 0, none is too great, and each is allowed on its
/// row.
pub fn are_pairs(program: &Program, pairs: &[(u32, i64)]) -> bool
    ensures { IsTrue result ↔ AreLawful program.now.rows pairs.now }
{
    program.is_program();
    let mut next = 0;
    for pair in pairs {
        if pair.0 < next {
            return false;
        }
        if !is_lawful_pair(program, *pair) {
            return false;
        }
        next = pair.0 + 1;
    }
    true
}

/// Whether the row of a pair exists, and its price is lawful on it.
fn is_lawful_pair(program: &Program, pair: (u32, i64)) -> bool
    ensures { IsTrue result ↔ IsLawfulPair program.now.rows pair }
{
    if program.rows() <= pair.0 || pair.1 == 0 {
        return false;
    }
    is_allowed(program.row(pair.0), pair.1)
}

/// Whether a price is not too great, and is allowed on a row.
fn is_allowed(row: &Row, price: i64) -> bool
    ensures { IsTrue result ↔ ((unsigned_abs price ≤ most_price) × IsSigned row.now price) }
{
    price.unsigned_abs() <= MAX_PRICE && (row.equal || 0 <= price)
}
