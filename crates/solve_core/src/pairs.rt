//! The pairs by which a certificate names prices.

ghost use Rattle.std.specs.Prelude.{◌≡◌, ◌≤◌, ℕ, List, IfOk, length};
ghost use Rattle.sparse_program.specs.Terms.{coefficient};
ghost use Rattle.sparse_program.specs.declared.limits.TheConstants.{MAX_ROWS};
ghost use Rattle.sparse_program.specs.declared.row.Row.{Row};
ghost use Rattle.certificate_model.specs.Value.{AreLawful};
ghost use Rattle.safe_bound.specs.Prices.{ArePrices, price_at};

use cert_format::Pairs;
use listed::Memory;
use std::alloc::Global;

/// The rows whose price is not 0, each with it, in their order.
pub(crate) fn pairs_of(alloc: Global, prices: &[i64]) -> Result<Pairs, Memory>
    requires few { length prices.now ≤ MAX_ROWS }
    ensures lawful { (rows : List Row) → ArePrices rows prices.now → IfOk result (AreLawful rows) }
    ensures named { IfOk result (λ pairs. (row : ℕ) → coefficient pairs row ≡ price_at prices.now row) }
{
    let mut pairs = Pairs::new(alloc);
    for (row, price) in prices.iter().enumerate() {
        if *price != 0 {
            pairs.push((row as u32, *price))?;
        }
    }
    Ok(pairs)
}
