//! The change of a row's price that raises the value most, of those by powers of two.

ghost use Rattle.std.specs.Prelude.{◌≡◌, ◌⊎◌, ℕ, ◌+◌, ◌<◌, ◌≤◌, IfNone, IfSome, IsNone, IsSomeAnd, length};
ghost use Rattle.kept_value.specs.Kept.{IsKeptOf};
ghost use Rattle.dual_prices.specs.Settled.{IsNoGain, IsSettledRow, change_of};
ghost use Rattle.dual_prices.specs.inner.Gains.{IsBestFrom, IsBestTo, IsGain};
ghost use Rattle.dual_prices.specs.declared.constants.TheConstants.{MOST_POWER};

use crate::constants::{LEAST_GAIN, MOST_POWER};
use crate::turn::{change_of, turn_of};
use kept_value::KeptValue;
use sparse_program::Program;

/// A change of a row's price, and by how much the value rises.
#[derive(Clone, Copy, Debug, PartialEq, Eq)]
struct Gain {
    by: i64,
    rise: i128,
}

/// A change of the price of a row that raises the value enough: of those by powers of two the one that raises it most. There is none only
/// where the row is settled.
pub(crate) fn best_change(program: &Program, kept: &KeptValue, row: u32) -> Option<i64>
    requires of { IsKeptOf program.now kept.now }
    requires there { row < length program.now.rows }
    ensures some { IfSome result (λ by. IsGain program.now kept.now row by) }
    ensures none { IfNone result (IsSettledRow program.now kept.now.box kept.now.prices row) }
{
    let slopes = kept.slopes(program, row, 0);
    if slopes.up > 0 {
        best_change_along(program, kept, row, false)
    } else if slopes.down < 0 {
        best_change_along(program, kept, row, true)
    } else {
        None
    }
}

/// The same for changes of one sign.
fn best_change_along(program: &Program, kept: &KeptValue, row: u32, falls: bool) -> Option<i64>
    requires of { IsKeptOf program.now kept.now }
    requires there { row < length program.now.rows }
    ensures some { IfSome result (λ by. IsGain program.now kept.now row by) }
    ensures none { IfNone result ((k : ℕ) → k ≤ MOST_POWER → IsNoGain program.now kept.now.box kept.now.prices row (change_of falls k)) }
{
    let turn = turn_of(program, kept, row, falls);
    let before = gain_before(program, kept, row, falls, turn);
    let from = gain_from(program, kept, row, falls, turn);
    greater(before, from)
}

/// The gain of the change before the turn, where it is enough.
fn gain_before(
    program: &Program,
    kept: &KeptValue,
    row: u32,
    falls: bool,
    turn: u32,
) -> Option<Gain>
    requires of { IsKeptOf program.now kept.now }
    requires there { row < length program.now.rows }
    requires few { turn ≤ MOST_POWER + 1 }
    requires best { (k : ℕ) → k + 1 ≡ turn → IsBestTo program.now kept.now row falls k }
    ensures some { IfSome result (λ gain. IsGain program.now kept.now row gain.by) }
    ensures none { IfNone result ((j : ℕ) → j < turn → IsNoGain program.now kept.now.box kept.now.prices row (change_of falls j)) }
{
    if turn == 0 {
        None
    } else {
        gain_at(program, kept, row, falls, turn - 1)
    }
}

/// The gain of the change at the turn, where it is enough.
fn gain_from(program: &Program, kept: &KeptValue, row: u32, falls: bool, turn: u32) -> Option<Gain>
    requires of { IsKeptOf program.now kept.now }
    requires there { row < length program.now.rows }
    requires best { turn ≤ MOST_POWER → IsBestFrom program.now kept.now row falls turn }
    ensures some { IfSome result (λ gain. IsGain program.now kept.now row gain.by) }
    ensures none { IfNone result ((j : ℕ) → turn ≤ j → j ≤ MOST_POWER → IsNoGain program.now kept.now.box kept.now.prices row (change_of falls j)) }
{
    if turn > MOST_POWER {
        None
    } else {
        gain_at(program, kept, row, falls, turn)
    }
}

/// The gain of a change by a power of two, where it is lawful and enough.
fn gain_at(program: &Program, kept: &KeptValue, row: u32, falls: bool, power: u32) -> Option<Gain>
    requires of { IsKeptOf program.now kept.now }
    requires there { row < length program.now.rows }
    requires power { power ≤ MOST_POWER }
    ensures some { IfSome result (λ gain. IsGain program.now kept.now row gain.by) }
    ensures none { IfNone result (IsNoGain program.now kept.now.box kept.now.prices row (change_of falls power)) }
{
    let by = change_of(falls, power);
    if !kept.can_change(program, row, by) {
        return None;
    }
    let rise = kept.gain(program, row, by);
    if rise < LEAST_GAIN as i128 {
        None
    } else {
        Some(Gain { by, rise })
    }
}

/// The change of the greater of two gains.
fn greater(one: Option<Gain>, other: Option<Gain>) -> Option<i64>
    ensures some { IfSome result (λ by. (IsSomeAnd one (λ gain. gain.by ≡ by)) ⊎ (IsSomeAnd other (λ gain. gain.by ≡ by))) }
    ensures none { IfNone result (IsNone one × IsNone other) }
{
    match (one, other) {
        (Some(one), Some(other)) => {
            if one.rise < other.rise {
                Some(other.by)
            } else {
                Some(one.by)
            }
        }
        (Some(one), None) => Some(one.by),
        (None, Some(other)) => Some(other.by),
        (None, None) => None,
    }
}
