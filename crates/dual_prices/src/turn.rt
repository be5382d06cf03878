//! Where the gain of a price's changes by powers of two turns.
//!
//! The value is concave in each price: along the changes by 1, 2, 4 and so on its gain rises up to some power and falls from there on, and
//! the slope at a change says on which side of the turn it lies. So the turn is found by halving. From some power on a change may not be
//! lawful. Such powers count as falling: all greater ones are unlawful too.

ghost use Rattle.std.specs.Prelude.{◌≡◌, ℕ, ◌+◌, ◌*◌, ◌<◌, ◌≤◌, ◌^◌, false, IsTrue, length, unsigned_abs};
ghost use Rattle.certificate_model.specs.Value.{most_price};
ghost use Rattle.kept_value.specs.Kept.{IsKeptOf};
ghost use Rattle.dual_prices.specs.Settled.{change_of};
ghost use Rattle.dual_prices.specs.inner.Gains.{IsBestFrom, IsBestTo, IsGreatestFrom, IsGreatestTo};
ghost use Rattle.dual_prices.specs.declared.constants.TheConstants.{MOST_POWER};

use crate::constants::MOST_POWER;
use kept_value::KeptValue;
use sparse_program::Program;

/// A change of a price by a power of two, upward or downward.
pub(crate) fn change_of(falls: bool, power: u32) -> i64
    requires { power ≤ MOST_POWER }
    ensures value { result ≡ change_of falls power }
    ensures small { unsigned_abs result ≤ 2 ^ 16 }
{
    let size = 1i64 << power;
    if falls { -size } else { size }
}

/// The least power from which on the gain of changes of this sign falls, or the change is not lawful: 17 if there is none. The power before
/// it gains the most of all lesser ones, and this one the most of all greater ones.
pub(crate) fn turn_of(program: &Program, kept: &KeptValue, row: u32, falls: bool) -> u32
    requires of { IsKeptOf program.now kept.now }
    requires there { row < length program.now.rows }
    ensures few { result ≤ MOST_POWER + 1 }
    ensures before { (k : ℕ) → k + 1 ≡ result → IsBestTo program.now kept.now row falls k }
    ensures after { result ≤ MOST_POWER → IsBestFrom program.now kept.now row falls result }
{
    let mut low = 0;
    let mut high = MOST_POWER + 1;
    while low < high {
        let middle = (low + high) / 2;
        if rises_to(program, kept, row, falls, middle) {
            low = middle + 1;
        } else {
            high = middle;
        }
    }
    low
}

/// Whether a change by a power of two is lawful, and the gain rises up to it.
fn rises_to(program: &Program, kept: &KeptValue, row: u32, falls: bool, power: u32) -> bool
    requires of { IsKeptOf program.now kept.now }
    requires there { row < length program.now.rows }
    requires power { power ≤ MOST_POWER }
    ensures yes { IsTrue result → IsBestTo program.now kept.now row falls power }
    ensures no { result ≡ false → IsBestFrom program.now kept.now row falls power }
{
    let by = change_of(falls, power);
    if kept.can_change(program, row, by) {
        is_rising(program, kept, row, falls, by)
    } else {
        false
    }
}

/// Whether the gain of greater changes of the same sign may be greater.
fn is_rising(program: &Program, kept: &KeptValue, row: u32, falls: bool, by: i64) -> bool
    requires of { IsKeptOf program.now kept.now }
    requires there { row < length program.now.rows }
    requires few { unsigned_abs by ≤ 2 * most_price }
    ensures yes { IsTrue result → IsGreatestTo program.now kept.now row falls by }
    ensures no { result ≡ false → IsGreatestFrom program.now kept.now row falls by }
{
    let slopes = kept.slopes(program, row, by);
    if falls {
        slopes.up <= 0
    } else {
        0 <= slopes.down
    }
}
