//! The rows of how long letters last: how long one that begins stays, and when it ends at the latest.

ghost use Rattle.std.specs.Prelude.{◌≡◌, ◌<◌, ◌≤◌, ◌+◌, ◌-◌, [], ◌∷◌, nat_lt, if◌then◌else◌};
ghost use Rattle.ct_base.specs.Access.{signal_of};
ghost use Rattle.listed.specs.Below.{sum_below};
ghost use Rattle.program_model.specs.Columns.{Bit};
ghost use Rattle.program_model.specs.Existence.{IsLetterOf};
ghost use Rattle.program_model.specs.RuleRows.{end_row, end_rows, stay_row, stay_rows};
ghost use Rattle.rule_breaks.specs.Breaks.{value_in};
ghost use Rattle.rule_breaks.specs.inner.Parts.{IsPart, on};
ghost use Rattle.rule_breaks.specs.inner.Walk.{walk};

use crate::breaks::{RuleBreak, judge_at_least, pass};
use crate::part::{Part, bit};
use ct_base::{Letter, Net};

/// Passes the rows that say that a letter that begins at step t stands for at least so many steps, as far as the horizon lets it.
/// Those that look past the steps are counted at once.
pub(crate) fn pass_stay_rows(
    net: &Net,
    bits: &[i64],
    part: &Part,
    t: u32,
    letter: Letter,
    least: u32,
    number: u32,
) -> Result<u32, RuleBreak>
    requires part { IsPart net.now bits.now part.now }
    requires before { t < net.now.steps }
    requires small { least ≤ 60 }
    requires letter { 1 < least → IsLetterOf (signal_of net.now.signals part.now.signal) letter }
    ensures { result ≡ walk (value_in net.now bits.now) part.now.steps number (stay_rows net.now.steps part.now.signal t letter least) }
{
    let rows = least.saturating_sub(1).min(net.steps - (t + 1));
    let within = rows.min(part.steps.saturating_sub(t + 1));
    let mut next = number;
    for j in 0..within {
        next = pass_stay_row(net, bits, part, t, letter, j + 1, next)?;
    }
    Ok(next.saturating_add(rows - within))
}

/// Passes the row that says that a letter that begins at step t still stands k steps on.
fn pass_stay_row(
    net: &Net,
    bits: &[i64],
    part: &Part,
    t: u32,
    letter: Letter,
    k: u32,
    number: u32,
) -> Result<u32, RuleBreak>
    requires part { IsPart net.now bits.now part.now }
    requires before { t + k < part.now.steps }
    requires some { 1 ≤ k }
    requires letter { IsLetterOf (signal_of net.now.signals part.now.signal) letter }
    ensures { result ≡ walk (value_in net.now bits.now) part.now.steps number (stay_row part.now.signal t letter k ∷ []) }
{
    let later = bit(net, bits, part, t + k, letter);
    let now = bit(net, bits, part, t, letter);
    let earlier = bit_before(net, bits, part, t, letter);
    judge_at_least(number, later + earlier, now)
}

/// The bit of a letter in the step before step t, and 0 where there is none.
fn bit_before(net: &Net, bits: &[i64], part: &Part, t: u32, letter: Letter) -> u32
    requires part { IsPart net.now bits.now part.now }
    requires before { t < net.now.steps }
    requires letter { IsLetterOf (signal_of net.now.signals part.now.signal) letter }
    ensures value { result ≡ (if nat_lt 0 t then on net.now bits.now (Bit (t - 1) part.now.signal letter) else 0) }
    ensures few { result ≤ 1 }
{
    if t > 0 {
        bit(net, bits, part, t - 1, letter)
    } else {
        0
    }
}

/// Passes the row that says that a letter ends after at most so many steps from step t on, where there are as many.
pub(crate) fn pass_end_rows(
    net: &Net,
    bits: &[i64],
    part: &Part,
    t: u32,
    letter: Letter,
    most: u32,
    number: u32,
) -> Result<u32, RuleBreak>
    requires part { IsPart net.now bits.now part.now }
    requires before { t < net.now.steps }
    requires small { most ≤ 60 }
    requires letter { IsLetterOf (signal_of net.now.signals part.now.signal) letter }
    ensures { result ≡ walk (value_in net.now bits.now) part.now.steps number (end_rows net.now.steps part.now.signal t letter most) }
{
    if t + most < net.steps {
        pass_end_row(net, bits, part, t, letter, most, number)
    } else {
        Ok(number)
    }
}

/// Passes the row that says that of the most steps of a letter and one step more, from step t on, one shows another letter.
fn pass_end_row(
    net: &Net,
    bits: &[i64],
    part: &Part,
    t: u32,
    letter: Letter,
    most: u32,
    number: u32,
) -> Result<u32, RuleBreak>
    requires part { IsPart net.now bits.now part.now }
    requires before { t + most < net.now.steps }
    requires small { most ≤ 60 }
    requires letter { IsLetterOf (signal_of net.now.signals part.now.signal) letter }
    ensures { result ≡ walk (value_in net.now bits.now) part.now.steps number (end_row part.now.signal t letter most ∷ []) }
{
    if t + most < part.steps {
        let steps = steps_on(net, bits, part, t, letter, most);
        judge_at_least(number, most, steps)
    } else {
        pass(number)
    }
}

/// How many of the most steps and one step more from step t on have the bit of a letter on.
fn steps_on(net: &Net, bits: &[i64], part: &Part, t: u32, letter: Letter, most: u32) -> u32
    requires part { IsPart net.now bits.now part.now }
    requires before { t + most < net.now.steps }
    requires small { most ≤ 60 }
    requires letter { IsLetterOf (signal_of net.now.signals part.now.signal) letter }
    ensures value { result ≡ sum_below (most + 1) (λ k. on net.now bits.now (Bit (t + k) part.now.signal letter)) }
    ensures few { result ≤ 61 }
{
    let mut steps = 0;
    for k in 0..most + 1 {
        steps += bit(net, bits, part, t + k, letter);
    }
    steps
}
