//! The rows of the letters of one step, and of those that may stand in the step after it.

ghost use Rattle.std.specs.Int.{bit_at};
ghost use Rattle.std.specs.Prelude.{◌≡◌, ◌<◌, ◌≤◌, ◌+◌, ◌*◌, ◌==◌, [], ◌∷◌, IfSome, filter, length, map, sum_by};
ghost use Rattle.ct_base.specs.Access.{phase_of, signal_of};
ghost use Rattle.ct_base.specs.Validity.{IsSignal};
ghost use Rattle.program_model.specs.Columns.{Bit, letters_by, letters_of};
ghost use Rattle.program_model.specs.Existence.{IsLetterOf};
ghost use Rattle.program_model.specs.RuleRows.{follow_row, may_follow, one_letter_row};
ghost use Rattle.rule_breaks.specs.Breaks.{value_in};
ghost use Rattle.rule_breaks.specs.inner.Kinds.{may_come};
ghost use Rattle.rule_breaks.specs.inner.Parts.{IsPart, on};
ghost use Rattle.rule_breaks.specs.inner.Walk.{walk};

use crate::breaks::{RuleBreak, judge_at_least, judge_equal, pass};
use crate::part::{Part, bit};
use ct_base::{Letter, Net, Phase, Signal};

/// Passes the row that says that the signal shows one letter at step t.
pub(crate) fn pass_one_letter_row(
    net: &Net,
    bits: &[i64],
    part: &Part,
    t: u32,
    number: u32,
) -> Result<u32, RuleBreak>
    requires part { IsPart net.now bits.now part.now }
    requires before { t < net.now.steps }
    ensures { result ≡ walk (value_in net.now bits.now) part.now.steps number (one_letter_row (signal_of net.now.signals part.now.signal) part.now.signal t ∷ []) }
{
    if t < part.steps {
        let shown = letters_on(net, bits, part, t, None);
        judge_equal(number, shown, 1)
    } else {
        pass(number)
    }
}

/// Passes the rows that say what may follow the letters of phase p in the step after step t, which is below the horizon.
pub(crate) fn pass_follow_rows(
    net: &Net,
    bits: &[i64],
    part: &Part,
    t: u32,
    p: u8,
    number: u32,
) -> Result<u32, RuleBreak>
    requires part { IsPart net.now bits.now part.now }
    requires before { t + 1 < net.now.steps }
    requires inside { p < length (signal_of net.now.signals part.now.signal).phases }
    ensures { result ≡ walk (value_in net.now bits.now) part.now.steps number (map (follow_row (signal_of net.now.signals part.now.signal) part.now.signal t) (letters_by p (phase_of (signal_of net.now.signals part.now.signal) p).clear)) }
{
    let next = pass_follow_row(net, bits, part, t, Letter::Green(p), number)?;
    if phase(net.signal(part.signal), p).clear > 0 {
        pass_follow_row(net, bits, part, t, Letter::Clear(p), next)
    } else {
        Ok(next)
    }
}

/// Passes the row that says that what may follow a letter of step t stands in the step after it.
fn pass_follow_row(
    net: &Net,
    bits: &[i64],
    part: &Part,
    t: u32,
    letter: Letter,
    number: u32,
) -> Result<u32, RuleBreak>
    requires part { IsPart net.now bits.now part.now }
    requires before { t + 1 < net.now.steps }
    requires letter { IsLetterOf (signal_of net.now.signals part.now.signal) letter }
    ensures { result ≡ walk (value_in net.now bits.now) part.now.steps number (follow_row (signal_of net.now.signals part.now.signal) part.now.signal t letter ∷ []) }
{
    if t + 1 < part.steps {
        let followers = letters_on(net, bits, part, t + 1, Some(letter));
        let own = bit(net, bits, part, t, letter);
        judge_at_least(number, followers, own)
    } else {
        pass(number)
    }
}

/// How many letters are on at step t, of all or of those that may stand in the step after a letter.
fn letters_on(net: &Net, bits: &[i64], part: &Part, t: u32, before: Option<Letter>) -> u32
    requires part { IsPart net.now bits.now part.now }
    requires step { t < net.now.steps }
    requires letter { IfSome before (IsLetterOf (signal_of net.now.signals part.now.signal)) }
    ensures value { result ≡ sum_by (λ letter. on net.now bits.now (Bit t part.now.signal letter)) (filter (may_come (signal_of net.now.signals part.now.signal) before) (letters_of (signal_of net.now.signals part.now.signal))) }
    ensures few { result ≤ 16 }
{
    let mut letters = 0;
    for p in 0..net.signal(part.signal).phases.len() as u8 {
        letters += letters_on_of_phase(net, bits, part, t, before, p);
    }
    letters
}

/// The same of the letters that phase p brings.
fn letters_on_of_phase(
    net: &Net,
    bits: &[i64],
    part: &Part,
    t: u32,
    before: Option<Letter>,
    p: u8,
) -> u32
    requires part { IsPart net.now bits.now part.now }
    requires step { t < net.now.steps }
    requires letter { IfSome before (IsLetterOf (signal_of net.now.signals part.now.signal)) }
    requires inside { p < length (signal_of net.now.signals part.now.signal).phases }
    ensures value { result ≡ sum_by (λ letter. on net.now bits.now (Bit t part.now.signal letter)) (filter (may_come (signal_of net.now.signals part.now.signal) before) (letters_by p (phase_of (signal_of net.now.signals part.now.signal) p).clear)) }
    ensures few { result ≤ 2 }
{
    let green = bit_where_it_may(net, bits, part, t, before, Letter::Green(p));
    if phase(net.signal(part.signal), p).clear > 0 {
        green + bit_where_it_may(net, bits, part, t, before, Letter::Clear(p))
    } else {
        green
    }
}

/// The bit of a letter, and 0 where it may not stand behind the one before.
fn bit_where_it_may(
    net: &Net,
    bits: &[i64],
    part: &Part,
    t: u32,
    before: Option<Letter>,
    letter: Letter,
) -> u32
    requires part { IsPart net.now bits.now part.now }
    requires step { t < net.now.steps }
    requires before { IfSome before (IsLetterOf (signal_of net.now.signals part.now.signal)) }
    requires letter { IsLetterOf (signal_of net.now.signals part.now.signal) letter }
    ensures value { result ≡ sum_by (λ letter. on net.now bits.now (Bit t part.now.signal letter)) (filter (may_come (signal_of net.now.signals part.now.signal) before) (letter ∷ [])) }
    ensures few { result ≤ 1 }
{
    if may_come(net.signal(part.signal), before, letter) {
        bit(net, bits, part, t, letter)
    } else {
        0
    }
}

/// Whether a letter may stand in the step after another, where one is asked for.
fn may_come(signal: &Signal, before: Option<Letter>, letter: Letter) -> bool
    requires signal { IsSignal signal.now }
    requires before { IfSome before (IsLetterOf signal.now) }
    requires letter { IsLetterOf signal.now letter }
    ensures { result ≡ may_come signal.now before letter }
{
    match before {
        Some(before) => may_follow(signal, before, letter),
        None => true,
    }
}

/// Whether a letter may stand in the step after another.
fn may_follow(signal: &Signal, letter: Letter, next: Letter) -> bool
    requires signal { IsSignal signal.now }
    requires letter { IsLetterOf signal.now letter }
    requires next { IsLetterOf signal.now next }
    ensures { result ≡ may_follow signal.now letter next }
{
    match (letter, next) {
        (Letter::Green(p), Letter::Green(q)) => {
            q == p || (phase(signal, p).clear == 0 && may_come_next(phase(signal, p), q))
        }
        (Letter::Clear(p), Letter::Green(q)) => may_come_next(phase(signal, p), q),
        (Letter::Green(p), Letter::Clear(q)) => q == p,
        (Letter::Clear(p), Letter::Clear(q)) => q == p,
    }
}

/// Whether a phase is among those that may follow another.
fn may_come_next(phase: Phase, next: u8) -> bool
    requires { next < 8 }
    ensures { result ≡ (bit_at phase.next next == 1) }
{
    (phase.next >> next) & 1 == 1
}

/// The phase of a signal with a number.
pub(crate) fn phase(signal: &Signal, p: u8) -> Phase
    requires { p < length signal.now.phases }
    ensures { result ≡ phase_of signal.now p }
{
    signal.phases.as_slice()[p as usize]
}
