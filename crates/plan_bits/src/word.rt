//! The word of one signal.

ghost use Rattle.std.specs.Prelude.{◌≡◌, ◌+◌, ◌<◌, ◌≤◌, IfOk, IfSome, List, None, Ok, drop, length, take};
ghost use Rattle.ct_base.specs.Access.{signal_of};
ghost use Rattle.ct_base.specs.Validity.{IsValid};
ghost use Rattle.ct_base.specs.declared.plan.Letter as declared;
ghost use Rattle.plan_bits.specs.inner.Parts.{IsWordOfBits, Shows, part_of_signal};
ghost use Rattle.program_model.specs.Columns.{letters_of};
ghost use Rattle.program_model.specs.Numbers.{bits_before, plan_count};

use crate::letter::letter_of_bits;
use ct_base::{Letter, Listed, Memory, Net, Word};
use phase_rules::admissible;
use std::alloc::Global;

/// The admissible word that a signal shows where the plan columns have these values, or none where there is none. The letters are
/// those of the signal, whose bits come behind the `first` ones of each step.
pub(crate) fn word_of_bits(
    alloc: Global,
    net: &Net,
    number: usize,
    letters: &[Letter],
    first: usize,
    bits: &[i64],
) -> Result<Option<Word>, Memory>
    requires valid { IsValid net.now }
    requires inside { number < length net.now.signals }
    requires letters { letters.now ≡ letters_of (signal_of net.now.signals number) }
    requires first { first ≡ bits_before net.now.signals number }
    requires columns { length bits.now ≡ plan_count net.now }
    ensures word { IfOk result (λ found. IfSome found (IsWordOfBits net.now bits.now number)) }
    ensures none { result ≡ Ok None → (word : List declared.Letter) → IsWordOfBits net.now bits.now number word → ⊥ }
{
    match shown_word(alloc, net, number, letters, first, bits)? {
        Some(word) => {
            if admissible(net.signal(number), word.as_slice()) {
                Ok(Some(word))
            } else {
                Ok(None)
            }
        }
        None => Ok(None),
    }
}

/// The word that a signal shows, be it admissible or not, or none where some bits are those of no letter.
fn shown_word(
    alloc: Global,
    net: &Net,
    number: usize,
    letters: &[Letter],
    first: usize,
    bits: &[i64],
) -> Result<Option<Word>, Memory>
    requires valid { IsValid net.now }
    requires inside { number < length net.now.signals }
    requires letters { letters.now ≡ letters_of (signal_of net.now.signals number) }
    requires first { first ≡ bits_before net.now.signals number }
    requires columns { length bits.now ≡ plan_count net.now }
    ensures shows { IfOk result (λ found. IfSome found (Shows net.now bits.now number)) }
    ensures none { result ≡ Ok None → (word : List declared.Letter) → IsWordOfBits net.now bits.now number word → ⊥ }
{
    let mut word = Listed::new(alloc);
    for step in 0..net.steps as usize {
        let part = bits_of_signal(net, number, letters.len(), first, step, bits);
        match letter_of_bits(letters, part) {
            Some(letter) => word.push(letter)?,
            None => return Ok(None),
        }
    }
    Ok(Some(word))
}

/// The bits of a signal in a step, of which there are so many behind the `first` ones of the step.
fn bits_of_signal<'a>(
    net: &Net,
    number: usize,
    count: usize,
    first: usize,
    step: usize,
    bits: &'a [i64],
) -> &'a [i64]
    requires valid { IsValid net.now }
    requires inside { number < length net.now.signals }
    requires count { count ≡ length (letters_of (signal_of net.now.signals number)) }
    requires first { first ≡ bits_before net.now.signals number }
    requires step { step < net.now.steps }
    requires columns { length bits.now ≡ plan_count net.now }
    ensures { result.now ≡ part_of_signal net.now bits.now number step }
{
    let _ = number;
    let width = bits.len() / net.steps as usize;
    let of_step = part(bits, step * width, width);
    part(of_step, first, count)
}

/// So many values from a place on.
fn part(values: &[i64], start: usize, count: usize) -> &[i64]
    requires { start + count ≤ length values.now }
    ensures { result.now ≡ take count (drop start values.now) }
{
    &values[start..start + count]
}
