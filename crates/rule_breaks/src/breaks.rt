//! A row that is broken, and how one row is passed.

ghost use Rattle.std.specs.Prelude.{◌≡◌, Ok, false, pos, true};
ghost use Rattle.rule_breaks.specs.inner.Walk.{judged, next_number};

/// The first rule row that bits break.
#[derive(Clone, Copy, Debug, PartialEq, Eq)]
pub struct RuleBreak {
    /// Its number among the rows of the program, from 0.
    pub row: u32,
    /// The price that shows it: 1 where the row's left side is below its right side, else -1.
    pub price: i64,
}

/// Passes a row that asks for two counts that are equal.
pub(crate) fn judge_equal(number: u32, left: u32, right: u32) -> Result<u32, RuleBreak>
    ensures { result ≡ judged number true (pos left) (pos right) }
{
    if left < right {
        Err(RuleBreak {
            row: number,
            price: 1,
        })
    } else if right < left {
        Err(RuleBreak {
            row: number,
            price: -1,
        })
    } else {
        pass(number)
    }
}

/// Passes a row that asks for a count that is at least another.
pub(crate) fn judge_at_least(number: u32, left: u32, right: u32) -> Result<u32, RuleBreak>
    ensures { result ≡ judged number false (pos left) (pos right) }
{
    if left < right {
        Err(RuleBreak {
            row: number,
            price: 1,
        })
    } else {
        pass(number)
    }
}

/// Passes a row that is not looked at, or is met. No network has as many rows as a number can count, so it is not kept from
/// growing.
pub(crate) fn pass(number: u32) -> Result<u32, RuleBreak>
    ensures { result ≡ Ok (next_number number) }
{
    Ok(number.saturating_add(1))
}
