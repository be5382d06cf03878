//! The row of a quotient that is rounded down.

ghost use Rattle.std.specs.Prelude.{◌≡◌, [], ◌∷◌, unsigned_abs, OnOk, OnErr};
ghost use Rattle.program_model.specs.SwitchRows as model;
ghost use Rattle.flow_switches.specs.Added.{Adds};
ghost use Rattle.flow_switches.specs.Conditions.{FloorFits};
ghost use Rattle.flow_switches.specs.Sums.{held, sum_of};

use crate::sums::insert_times;
use listed::Memory;
use sparse_program::{Builder, Linear, Terms};

/// Adds the row that says that `divisor` times the whole, and the rest, are an expression. Where the bounds keep the rest
/// below the divisor, the whole is the expression's quotient, rounded down. Where memory is wanting the builder stays as
/// it was.
pub fn floor_row(
    builder: &mut Builder,
    whole: u32,
    rest: u32,
    divisor: i64,
    of: &Linear,
) -> Result<(), Memory>
    requires { FloorFits builder.old whole rest divisor of.now }
    ensures ok { OnOk result (Adds builder.old (held (model.floor_row whole rest (unsigned_abs divisor) (sum_of of.now)) ∷ []) builder.new) }
    ensures err { OnErr result (builder.new ≡ builder.old) }
{
    let mut terms = Terms::new(builder.alloc());
    insert_times(&mut terms, of.terms.as_slice(), -1)?;
    terms.insert((rest, 1))?;
    terms.insert((whole, divisor))?;
    let constant = -of.constant;
    builder.row(true, 0, &Linear { constant, terms })?;
    Ok(())
}
