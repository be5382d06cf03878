//! Rows of the letters of one step, and of those that may stand in the step after it.

ghost use Rattle.std.specs.Int.{bit_at};
ghost use Rattle.std.specs.Prelude.{◌≡◌, ◌<◌, ◌+◌, ◌==◌, [], ◌∷◌, pos, IfOk, filter, length, map};
ghost use Rattle.ct_base.specs.Access.{phase_of, signal_of};
ghost use Rattle.ct_base.specs.Validity.{IsSignal, IsValid};
ghost use Rattle.lo_program.specs.inner.Adding.{AddsAllOrFront, Fits};
ghost use Rattle.lo_program.specs.inner.Bits.{AreBits, bit_terms};
ghost use Rattle.program_model.specs.Columns.{letters_of};
ghost use Rattle.program_model.specs.Existence.{IsLetterOf};
ghost use Rattle.program_model.specs.RuleRows.{follow_row, follow_rows, may_follow, one_letter_row};

use crate::row::add_row;
use crate::rules::bits::{Bits, bit};
use ct_base::{Letter, Net, Phase, Signal};
use sparse_program::{Builder, Memory, Terms};
use std::alloc::Global;

/// Adds the row that says that the signal shows one letter at step t.
pub(crate) fn add_one_letter_row(
    builder: &mut Builder,
    net: &Net,
    bits: &Bits,
    t: u32,
) -> Result<(), Memory>
    requires valid { IsValid net.now }
    requires bits { AreBits net.now bits.now }
    requires before { t < net.now.steps }
    requires fits { Fits net.now builder.old (one_letter_row (signal_of net.now.signals bits.now.signal) bits.now.signal t ∷ []) }
    ensures { AddsAllOrFront result net.now builder.old builder.new (one_letter_row (signal_of net.now.signals bits.now.signal) bits.now.signal t ∷ []) }
{
    let terms = terms_of_letters(builder.alloc(), net, bits, t)?;
    add_row(builder, true, 1, &terms)?;
    Ok(())
}

/// The bits of all letters of the signal at step t.
fn terms_of_letters(alloc: Global, net: &Net, bits: &Bits, t: u32) -> Result<Terms, Memory>
    requires valid { IsValid net.now }
    requires bits { AreBits net.now bits.now }
    requires before { t < net.now.steps }
    ensures { IfOk result (λ terms. terms ≡ bit_terms net.now t bits.now.signal (pos 1) (letters_of (signal_of net.now.signals bits.now.signal))) }
{
    let mut terms = Terms::new(alloc);
    for letter in bits.letters.as_slice() {
        terms.push((bit(net, bits, t, *letter), 1))?;
    }
    Ok(terms)
}

/// Adds the rows that say which letters may stand in the step after step t, where there is one.
pub(crate) fn add_follow_rows(
    builder: &mut Builder,
    net: &Net,
    bits: &Bits,
    t: u32,
) -> Result<(), Memory>
    requires valid { IsValid net.now }
    requires bits { AreBits net.now bits.now }
    requires before { t < net.now.steps }
    requires fits { Fits net.now builder.old (follow_rows (signal_of net.now.signals bits.now.signal) net.now.steps bits.now.signal t) }
    ensures { AddsAllOrFront result net.now builder.old builder.new (follow_rows (signal_of net.now.signals bits.now.signal) net.now.steps bits.now.signal t) }
{
    if t + 1 < bits.steps {
        add_follow_row_of_each(builder, net, bits, t)
    } else {
        Ok(())
    }
}

/// Adds for each letter the row that says what may follow it.
fn add_follow_row_of_each(
    builder: &mut Builder,
    net: &Net,
    bits: &Bits,
    t: u32,
) -> Result<(), Memory>
    requires valid { IsValid net.now }
    requires bits { AreBits net.now bits.now }
    requires before { t + 1 < net.now.steps }
    requires fits { Fits net.now builder.old (map (follow_row (signal_of net.now.signals bits.now.signal) bits.now.signal t) (letters_of (signal_of net.now.signals bits.now.signal))) }
    ensures { AddsAllOrFront result net.now builder.old builder.new (map (follow_row (signal_of net.now.signals bits.now.signal) bits.now.signal t) (letters_of (signal_of net.now.signals bits.now.signal))) }
{
    for letter in bits.letters.as_slice() {
        add_follow_row(builder, net, bits, t, *letter)?;
    }
    Ok(())
}

/// Adds the row that says that what may follow a letter of step t stands in the step after it.
fn add_follow_row(
    builder: &mut Builder,
    net: &Net,
    bits: &Bits,
    t: u32,
    letter: Letter,
) -> Result<(), Memory>
    requires valid { IsValid net.now }
    requires bits { AreBits net.now bits.now }
    requires before { t + 1 < net.now.steps }
    requires letter { IsLetterOf (signal_of net.now.signals bits.now.signal) letter }
    requires fits { Fits net.now builder.old (follow_row (signal_of net.now.signals bits.now.signal) bits.now.signal t letter ∷ []) }
    ensures { AddsAllOrFront result net.now builder.old builder.new (follow_row (signal_of net.now.signals bits.now.signal) bits.now.signal t letter ∷ []) }
{
    let mut terms = terms_of_followers(builder.alloc(), net, bits, t + 1, letter)?;
    terms.push((bit(net, bits, t, letter), -1))?;
    add_row(builder, false, 0, &terms)?;
    Ok(())
}

/// The bits at step t of the letters that may follow a letter.
fn terms_of_followers(
    alloc: Global,
    net: &Net,
    bits: &Bits,
    t: u32,
    letter: Letter,
) -> Result<Terms, Memory>
    requires valid { IsValid net.now }
    requires bits { AreBits net.now bits.now }
    requires before { t < net.now.steps }
    requires letter { IsLetterOf (signal_of net.now.signals bits.now.signal) letter }
    ensures { IfOk result (λ terms. terms ≡ bit_terms net.now t bits.now.signal (pos 1) (filter (may_follow (signal_of net.now.signals bits.now.signal) letter) (letters_of (signal_of net.now.signals bits.now.signal)))) }
{
    let signal = net.signal(bits.signal as usize);
    let mut terms = Terms::new(alloc);
    for next in bits.letters.as_slice() {
        if may_follow(signal, letter, *next) {
            terms.push((bit(net, bits, t, *next), 1))?;
        }
    }
    Ok(terms)
}

/// Whether a letter may stand in the step after another.
fn may_follow(signal: &Signal, letter: Letter, next: Letter) -> bool
    requires valid { IsSignal signal.now }
    requires letter { IsLetterOf signal.now letter }
    requires next { IsLetterOf signal.now next }
    ensures { result ≡ may_follow signal.now letter next }
{
    match (letter, next) {
        (Letter::Green(p), Letter::Green(q)) => {
            q == p || (phase(signal, p).clear == 0 && may_come_next(phase(signal, p), q))
        }
        (Letter::Clear(p), Letter::Green(q)) => may_come_next(phase(signal, p), q),
        (Letter::Green(p), Letter::Clear(q)) => q == p,
        (Letter::Clear(p), Letter::Clear(q)) => q == p,
    }
}

/// Whether a phase is among those that may follow another.
fn may_come_next(phase: Phase, next: u8) -> bool
    requires { next < 8 }
    ensures { result ≡ (bit_at phase.next next == 1) }
{
    (phase.next >> next) & 1 == 1
}

/// The phase of a signal with a number.
fn phase(signal: &Signal, p: u8) -> Phase
    requires { p < length signal.now.phases }
    ensures { result ≡ phase_of signal.now p }
{
    signal.phases.as_slice()[p as usize]
}
