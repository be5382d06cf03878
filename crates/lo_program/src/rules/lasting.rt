//! Rows of how long letters last: how long one that begins stays, and when it ends at the latest.

ghost use Rattle.std.specs.Prelude.{◌≡◌, ◌<◌, ◌≤◌, ◌+◌, ◌++◌, [], ◌∷◌, nat_lt, if◌then◌else◌, pos, neg_ℤ, IfOk, OnOk};
ghost use Rattle.ct_base.specs.Access.{signal_of};
ghost use Rattle.ct_base.specs.Validity.{IsValid};
ghost use Rattle.ct_base.specs.declared.plan.Letter.TheVariants.{Clear};
ghost use Rattle.listed.specs.Below.{table_of};
ghost use Rattle.lo_program.specs.inner.Adding.{AddsAllOrFront, Fits};
ghost use Rattle.lo_program.specs.inner.Bits.{AreBits};
ghost use Rattle.program_model.specs.Columns.{Bit};
ghost use Rattle.program_model.specs.Existence.{IsLetterOf};
ghost use Rattle.program_model.specs.Numbers.{number_of};
ghost use Rattle.program_model.specs.RuleRows.{clear_end_rows, end_row, end_rows, letter_before, stay_row, stay_rows};
ghost use Rattle.program_model.specs.Sparse.{by_number};

use crate::row::add_row;
use crate::rules::bits::{Bits, bit};
use ct_base::{Letter, Net};
use sparse_program::{Builder, Memory, Terms};
use std::alloc::Global;

/// Adds the rows that say that a letter that begins at step t stands for at least so many steps, as far as the horizon
/// lets it.
pub(crate) fn add_stay_rows(
    builder: &mut Builder,
    net: &Net,
    bits: &Bits,
    t: u32,
    letter: Letter,
    least: u32,
) -> Result<(), Memory>
    requires valid { IsValid net.now }
    requires bits { AreBits net.now bits.now }
    requires before { t < net.now.steps }
    requires small { least ≤ 60 }
    requires letter { 1 < least → IsLetterOf (signal_of net.now.signals bits.now.signal) letter }
    requires fits { Fits net.now builder.old (stay_rows net.now.steps bits.now.signal t letter least) }
    ensures { AddsAllOrFront result net.now builder.old builder.new (stay_rows net.now.steps bits.now.signal t letter least) }
{
    for j in 0..least.saturating_sub(1) {
        add_stay_row_within(builder, net, bits, t, letter, j + 1)?;
    }
    Ok(())
}

/// Adds the row that says that a letter that begins at step t still stands k steps on, where there is such a step.
fn add_stay_row_within(
    builder: &mut Builder,
    net: &Net,
    bits: &Bits,
    t: u32,
    letter: Letter,
    k: u32,
) -> Result<(), Memory>
    requires valid { IsValid net.now }
    requires bits { AreBits net.now bits.now }
    requires before { t < net.now.steps }
    requires small { k ≤ 60 }
    requires letter { IsLetterOf (signal_of net.now.signals bits.now.signal) letter }
    requires fits { Fits net.now builder.old (if nat_lt (t + k) net.now.steps then stay_row bits.now.signal t letter k ∷ [] else []) }
    ensures { AddsAllOrFront result net.now builder.old builder.new (if nat_lt (t + k) net.now.steps then stay_row bits.now.signal t letter k ∷ [] else []) }
{
    if t + k < bits.steps {
        add_stay_row(builder, net, bits, t, letter, k)
    } else {
        Ok(())
    }
}

/// Adds the row that says that a letter that begins at step t still stands k steps on.
fn add_stay_row(
    builder: &mut Builder,
    net: &Net,
    bits: &Bits,
    t: u32,
    letter: Letter,
    k: u32,
) -> Result<(), Memory>
    requires valid { IsValid net.now }
    requires bits { AreBits net.now bits.now }
    requires before { t + k < net.now.steps }
    requires small { k ≤ 60 }
    requires letter { IsLetterOf (signal_of net.now.signals bits.now.signal) letter }
    requires fits { Fits net.now builder.old (stay_row bits.now.signal t letter k ∷ []) }
    ensures { AddsAllOrFront result net.now builder.old builder.new (stay_row bits.now.signal t letter k ∷ []) }
{
    let mut terms = Terms::new(builder.alloc());
    terms.push((bit(net, bits, t + k, letter), 1))?;
    terms.push((bit(net, bits, t, letter), -1))?;
    push_letter_before(&mut terms, net, bits, t, letter)?;
    add_row(builder, false, 0, &terms)?;
    Ok(())
}

/// Adds the bit of a letter in the step before step t, where there is one.
fn push_letter_before(
    terms: &mut Terms,
    net: &Net,
    bits: &Bits,
    t: u32,
    letter: Letter,
) -> Result<(), Memory>
    requires valid { IsValid net.now }
    requires bits { AreBits net.now bits.now }
    requires before { t < net.now.steps }
    requires letter { IsLetterOf (signal_of net.now.signals bits.now.signal) letter }
    ensures { OnOk result (terms.new ≡ terms.old ++ by_number (number_of net.now) (letter_before bits.now.signal t letter).terms) }
{
    if t > 0 {
        terms.push((bit(net, bits, t - 1, letter), 1))?;
    }
    Ok(())
}

/// Adds the row that says that a letter that stands from step t on has ended after its most steps, where the step behind
/// them is below the horizon.
pub(crate) fn add_end_rows(
    builder: &mut Builder,
    net: &Net,
    bits: &Bits,
    t: u32,
    letter: Letter,
    most: u32,
) -> Result<(), Memory>
    requires valid { IsValid net.now }
    requires bits { AreBits net.now bits.now }
    requires before { t < net.now.steps }
    requires small { most ≤ 60 }
    requires letter { IsLetterOf (signal_of net.now.signals bits.now.signal) letter }
    requires fits { Fits net.now builder.old (end_rows net.now.steps bits.now.signal t letter most) }
    ensures { AddsAllOrFront result net.now builder.old builder.new (end_rows net.now.steps bits.now.signal t letter most) }
{
    if t + most < bits.steps {
        add_end_row(builder, net, bits, t, letter, most)
    } else {
        Ok(())
    }
}

/// Adds the same of the clearing of a phase, where it has clearing.
pub(crate) fn add_clear_end_rows(
    builder: &mut Builder,
    net: &Net,
    bits: &Bits,
    t: u32,
    p: u8,
    clear: u32,
) -> Result<(), Memory>
    requires valid { IsValid net.now }
    requires bits { AreBits net.now bits.now }
    requires before { t < net.now.steps }
    requires small { clear ≤ 60 }
    requires letter { 0 < clear → IsLetterOf (signal_of net.now.signals bits.now.signal) (Clear p) }
    requires fits { Fits net.now builder.old (clear_end_rows net.now.steps bits.now.signal t p clear) }
    ensures { AddsAllOrFront result net.now builder.old builder.new (clear_end_rows net.now.steps bits.now.signal t p clear) }
{
    if clear > 0 {
        add_end_rows(builder, net, bits, t, Letter::Clear(p), clear)
    } else {
        Ok(())
    }
}

/// Adds the row that says that of the most steps of a letter and one step more, from step t on, one shows another letter.
fn add_end_row(
    builder: &mut Builder,
    net: &Net,
    bits: &Bits,
    t: u32,
    letter: Letter,
    most: u32,
) -> Result<(), Memory>
    requires valid { IsValid net.now }
    requires bits { AreBits net.now bits.now }
    requires before { t + most < net.now.steps }
    requires small { most ≤ 60 }
    requires letter { IsLetterOf (signal_of net.now.signals bits.now.signal) letter }
    requires fits { Fits net.now builder.old (end_row bits.now.signal t letter most ∷ []) }
    ensures { AddsAllOrFront result net.now builder.old builder.new (end_row bits.now.signal t letter most ∷ []) }
{
    let terms = terms_of_end(builder.alloc(), net, bits, t, letter, most)?;
    let rhs = minus(most);
    add_row(builder, false, rhs, &terms)?;
    Ok(())
}

/// A number below 0.
fn minus(number: u32) -> i64
    ensures { result ≡ neg_ℤ (pos number) }
{
    -i64::from(number)
}

/// The bits of a letter at step t and the most steps behind it, each with the coefficient -1.
fn terms_of_end(
    alloc: Global,
    net: &Net,
    bits: &Bits,
    t: u32,
    letter: Letter,
    most: u32,
) -> Result<Terms, Memory>
    requires valid { IsValid net.now }
    requires bits { AreBits net.now bits.now }
    requires before { t + most < net.now.steps }
    requires small { most ≤ 60 }
    requires letter { IsLetterOf (signal_of net.now.signals bits.now.signal) letter }
    ensures { IfOk result (λ terms. terms ≡ table_of (most + 1) (λ k. (number_of net.now (Bit (t + k) bits.now.signal letter), neg_ℤ (pos 1)))) }
{
    let mut terms = Terms::new(alloc);
    for k in 0..most + 1 {
        terms.push((bit(net, bits, t + k, letter), -1))?;
    }
    Ok(terms)
}
