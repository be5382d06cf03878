//! The ascent: one change after another, until there is none, or the value is enough.

ghost use Rattle.std.specs.Prelude.{◌≡◌, ◌↔◌, ℕ, ◌*◌, ◌<◌, ◌≤◌, ◌^◌, ℤ, pos, ◌+ℤ◌, ◌≤ℤ◌, false, IfErr, IfNone, IfOk, IfSome, OnErr, OnOk, length};
ghost use Rattle.certificate_model.specs.Value.{scale};
ghost use Rattle.kept_value.specs.Kept.{IsKeptOf};
ghost use Rattle.dual_prices.specs.Settled.{AreSettled};
ghost use Rattle.dual_prices.specs.Worked.{HasRisen};
ghost use Rattle.dual_prices.specs.inner.Ends.{IsEnd};
ghost use Rattle.dual_prices.specs.inner.Gains.{IsGain};
ghost use Rattle.dual_prices.specs.inner.Waiting.{AreWaiting, waits};
ghost use Rattle.dual_prices.specs.declared.constants.TheConstants.{LEAST_GAIN};
ghost use Rattle.dual_prices.specs.declared.ascent.End.TheVariants.{Enough, Settled, Spent};

use crate::constants::GAINS_A_UNIT;
use crate::neighbours::wake;
use crate::settled::best_change;
use certificate_model::SCALE;
use kept_value::KeptValue;
use listed::Memory;
use sparse_program::Program;
use std::alloc::Global;

/// Why an ascent ended.
#[derive(Clone, Copy, Debug, PartialEq, Eq)]
pub enum End {
    /// The value is enough.
    Enough,
    /// The prices are settled: no change of one price by a power of two raises the value by a sixteenth of a unit of delay.
    Settled,
    /// The value has risen by one unit of delay a row.
    Spent,
}

/// A row, and the change of its price.
#[derive(Clone, Copy, Debug, PartialEq, Eq)]
struct Step {
    row: u32,
    by: i64,
}

/// Raises the value of the kept prices over the kept box, by changes of one price by a power of two that stay lawful and raise the value by
/// a sixteenth of a unit of delay or more. It ends where the value is enough, where the prices are settled, or where the value has risen by
/// one unit of delay a row. What is kept stays right, so that the prices are lawful and the value is theirs. It takes memory before it
/// changes anything, one mark a row.
pub fn work(
    alloc: Global,
    program: &Program,
    kept: &mut KeptValue,
    enough: i128,
) -> Result<End, Memory>
    requires of { IsKeptOf program.now kept.old }
    ensures of { IsKeptOf program.now kept.new }
    ensures ranges { kept.new.box ≡ kept.old.box }
    ensures rises { kept.old.value ≤ℤ kept.new.value }
    ensures enough { IfOk result (λ end. (end ≡ Enough) ↔ (enough ≤ℤ kept.new.value)) }
    ensures settled { IfOk result (λ end. end ≡ Settled → AreSettled program.now kept.new.box kept.new.prices) }
    ensures spent { IfOk result (λ end. end ≡ Spent → HasRisen program.now kept.old.value kept.new.value) }
    ensures err { OnErr result (kept.new ≡ kept.old) }
{
    let mut waiting = vec![in alloc; true; program.rows() as usize]?;
    Ok(climb(program, kept, waiting.as_mut_slice(), enough))
}

/// The ascent, with a mark for each row that may still have a change that raises the value.
fn climb(program: &Program, kept: &mut KeptValue, waiting: &mut [bool], enough: i128) -> End
    requires of { IsKeptOf program.now kept.old }
    requires waiting { AreWaiting program.now kept.old waiting.old }
    ensures of { IsKeptOf program.now kept.new }
    ensures ranges { kept.new.box ≡ kept.old.box }
    ensures rises { kept.old.value ≤ℤ kept.new.value }
    ensures end { IsEnd program.now kept.new enough (kept.old.value +ℤ pos (scale * length program.now.rows)) result }
{
    let limit = kept.value() + SCALE as i128 * program.rows() as i128;
    let mut from = 0;
    for _t in 0..GAINS_A_UNIT * program.rows() {
        match advance(program, kept, waiting, from, enough, limit) {
            Ok(row) => from = row,
            Err(end) => return end,
        }
    }
    if kept.value() < enough {
        End::Spent
    } else {
        End::Enough
    }
}

/// Changes the price of one row, and answers the row; or the end, where nothing changes. Rows are tried from one on, and then those before
/// it.
fn advance(
    program: &Program,
    kept: &mut KeptValue,
    waiting: &mut [bool],
    from: u32,
    enough: i128,
    limit: i128,
) -> Result<u32, End>
    requires of { IsKeptOf program.now kept.old }
    requires waiting { AreWaiting program.now kept.old waiting.old }
    requires from { from ≤ length program.now.rows }
    ensures rises { OnOk result ((kept.old.value +ℤ pos LEAST_GAIN) ≤ℤ kept.new.value) }
    ensures row { IfOk result (λ row. row < length program.now.rows) }
    ensures end { IfErr result (IsEnd program.now kept.old enough limit) }
    ensures err { OnErr result (kept.new ≡ kept.old) }
    ensures of { IsKeptOf program.now kept.new }
    ensures ranges { kept.new.box ≡ kept.old.box }
    ensures waiting { AreWaiting program.now kept.new waiting.new }
{
    if enough <= kept.value() {
        return Err(End::Enough);
    }
    if limit <= kept.value() {
        return Err(End::Spent);
    }
    match next_step(program, kept, waiting, from) {
        Some(next) => {
            change_price(program, kept, waiting, next);
            Ok(next.row)
        }
        None => Err(End::Settled),
    }
}

/// Changes a price, and lets the rows wait that this may concern.
fn change_price(program: &Program, kept: &mut KeptValue, waiting: &mut [bool], next: Step)
    requires of { IsKeptOf program.now kept.old }
    requires waiting { AreWaiting program.now kept.old waiting.old }
    requires there { next.row < length program.now.rows }
    requires gain { IsGain program.now kept.old next.row next.by }
    ensures rises { (kept.old.value +ℤ pos LEAST_GAIN) ≤ℤ kept.new.value }
    ensures of { IsKeptOf program.now kept.new }
    ensures ranges { kept.new.box ≡ kept.old.box }
    ensures waiting { AreWaiting program.now kept.new waiting.new }
{
    kept.change(program, next.row, next.by);
    wake(program, waiting, next.row);
}

/// The next step that raises the value enough, from one row on and then from the first. There is none only where no row waits any more.
fn next_step(program: &Program, kept: &KeptValue, waiting: &mut [bool], from: u32) -> Option<Step>
    requires of { IsKeptOf program.now kept.now }
    requires waiting { AreWaiting program.now kept.now waiting.old }
    requires from { from ≤ length program.now.rows }
    ensures waiting { AreWaiting program.now kept.now waiting.new }
    ensures there { IfSome result (λ next. next.row < length program.now.rows) }
    ensures gain { IfSome result (λ next. IsGain program.now kept.now next.row next.by) }
    ensures none { IfNone result (AreSettled program.now kept.now.box kept.now.prices) }
{
    match step_within(program, kept, waiting, from, program.rows()) {
        Some(next) => Some(next),
        None => step_within(program, kept, waiting, 0, from),
    }
}

/// The first step of some rows. There is none only where none of them waits any more. A row that has none waits no more.
fn step_within(
    program: &Program,
    kept: &KeptValue,
    waiting: &mut [bool],
    from: u32,
    to: u32,
) -> Option<Step>
    requires of { IsKeptOf program.now kept.now }
    requires waiting { AreWaiting program.now kept.now waiting.old }
    requires to { to ≤ length program.now.rows }
    ensures waiting { AreWaiting program.now kept.now waiting.new }
    ensures calm { (i : ℕ) → waits waiting.old i ≡ false → waits waiting.new i ≡ false }
    ensures there { IfSome result (λ next. next.row < length program.now.rows) }
    ensures gain { IfSome result (λ next. IsGain program.now kept.now next.row next.by) }
    ensures none { IfNone result ((i : ℕ) → from ≤ i → i < to → waits waiting.new i ≡ false) }
{
    for row in from..to {
        if let Some(by) = step_of(program, kept, waiting, row) {
            return Some(Step { row, by });
        }
    }
    None
}

/// The change of a row that waits. A row that has none waits no more.
fn step_of(program: &Program, kept: &KeptValue, waiting: &mut [bool], row: u32) -> Option<i64>
    requires of { IsKeptOf program.now kept.now }
    requires waiting { AreWaiting program.now kept.now waiting.old }
    requires there { row < length program.now.rows }
    ensures waiting { AreWaiting program.now kept.now waiting.new }
    ensures calm { (i : ℕ) → waits waiting.old i ≡ false → waits waiting.new i ≡ false }
    ensures gain { IfSome result (λ by. IsGain program.now kept.now row by) }
    ensures none { IfNone result (waits waiting.new row ≡ false) }
{
    if !waiting[row as usize] {
        return None;
    }
    let best = best_change(program, kept, row);
    if best.is_none() {
        waiting[row as usize] = false;
    }
    best
}
