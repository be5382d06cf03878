//! The seed over the box of all points, kept under change.

ghost use Rattle.std.specs.Prelude.{◌≡◌, IfOk, true};
ghost use Rattle.ct_base.specs.Validity.{IsValid};
ghost use Rattle.sparse_program.specs.Box.{ranges_of};
ghost use Rattle.kept_value.specs.Kept.{IsKeptOf};

use crate::fault::Fault;
use ct_base::Net;
use kept_value::KeptValue;
use safe_bound::{are_prices, value};
use seed_prices::seed;
use sparse_program::{Bounds, Program};
use std::alloc::Global;

/// Keeps the seed of a network over the box of all points of its program.
pub fn kept_of(alloc: Global, net: &Net, program: &Program) -> Result<KeptValue, Fault>
    requires { IsValid net.now }
    ensures of { IfOk result (IsKeptOf program.now) }
    ensures ranges { IfOk result (λ kept. kept.box ≡ ranges_of program.now.columns) }
{
    let prices = seed(alloc, net)?;
    if !are_prices(program, prices.as_slice()) {
        return Err(Fault::Network);
    }
    let bounds = Bounds::new(alloc, program)?;
    Ok(KeptValue::new(alloc, program, bounds, prices)?)
}

/// Whether the kept value is what comes out anew for the prices and the box as they are now.
pub fn is_right(program: &Program, kept: &KeptValue) -> bool
    requires { IsKeptOf program.now kept.now }
    ensures { result ≡ true }
{
    kept.value() == value(program, kept.bounds(), kept.prices(), true)
}
