//! Ascents from prices that were changed at random.

ghost use Rattle.kept_value.specs.Kept.{IsKeptOf};

use crate::changes::change_at_random;
use ct_base::Memory;
use dual_prices::{End, work};
use kept_value::KeptValue;
use sparse_program::Program;
use std::alloc::Global;

/// So many prices are changed at random.
const CHANGES: u32 = 20;

/// So many ascents, one after the other, from prices that were changed at random; answers how many ended with settled prices.
pub fn ascend(
    alloc: Global,
    program: &Program,
    kept: &mut KeptValue,
    count: u32,
) -> Result<u32, Memory>
    requires { IsKeptOf program.now kept.old }
    ensures { IsKeptOf program.now kept.new }
{
    change_at_random(program, kept, CHANGES);
    let mut settled = 0u32;
    for _ in 0..count {
        if work(alloc, program, kept, i128::MAX)? == End::Settled {
            settled = settled.saturating_add(1);
        }
    }
    Ok(settled)
}
