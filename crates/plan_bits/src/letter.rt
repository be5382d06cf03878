//! The letters of a signal, and the letter whose bits some values are.

ghost use Rattle.std.specs.Prelude.{◌≡◌, ◌↔◌, ◌++◌, ◌<◌, IfOk, IfSome, IsTrue, None, OnOk, length};
ghost use Rattle.ct_base.specs.Validity.{IsSignal};
ghost use Rattle.ct_base.specs.declared.plan.Letter as declared;
ghost use Rattle.plan_bits.specs.inner.Parts.{IsAmong, bit_where, bits_where};
ghost use Rattle.program_model.specs.Columns.{letters_by, letters_of};

use ct_base::{Letter, Listed, Memory, Signal};
use std::alloc::Global;

/// The letters of a signal, phase by phase.
pub(crate) fn letters_of(alloc: Global, signal: &Signal) -> Result<Listed<Letter>, Memory>
    requires { IsSignal signal.now }
    ensures { IfOk result (λ letters. letters ≡ letters_of signal.now) }
{
    let mut letters = Listed::new(alloc);
    for (p, phase) in signal.phases.as_slice().iter().enumerate() {
        push_letters(&mut letters, p as u8, phase.clear)?;
    }
    Ok(letters)
}

/// Adds the letters that a phase brings.
fn push_letters(letters: &mut Listed<Letter>, p: u8, clear: u32) -> Result<(), Memory>
    ensures { OnOk result (letters.new ≡ letters.old ++ letters_by p clear) }
{
    letters.push(Letter::Green(p))?;
    if clear > 0 {
        letters.push(Letter::Clear(p))?;
    }
    Ok(())
}

/// The letter whose bits these are: its own is 1, and those of all others are 0. Only the first letter whose bit is 1 can be it.
pub(crate) fn letter_of_bits(letters: &[Letter], bits: &[i64]) -> Option<Letter>
    requires { length bits.now ≡ length letters.now }
    ensures letter { IfSome result (λ letter. bits.now ≡ bits_where letters.now letter) }
    ensures none { result ≡ None → (letter : declared.Letter) → IsAmong letters.now letter → bits.now ≡ bits_where letters.now letter → ⊥ }
{
    for (place, letter) in letters.iter().enumerate() {
        if bits[place] == 1 {
            return if are_bits_of(*letter, letters, bits) {
                Some(*letter)
            } else {
                None
            };
        }
    }
    None
}

/// Whether these are the bits of letters of which one is shown.
fn are_bits_of(shown: Letter, letters: &[Letter], bits: &[i64]) -> bool
    requires { length bits.now ≡ length letters.now }
    ensures { IsTrue result ↔ (bits.now ≡ bits_where letters.now shown) }
{
    for (place, letter) in letters.iter().enumerate() {
        if bits[place] != bit(*letter, shown) {
            return false;
        }
    }
    true
}

/// The bit of a letter: 1 where it is the one that is shown, and else 0.
fn bit(letter: Letter, shown: Letter) -> i64
    ensures { result ≡ bit_where shown letter }
{
    if letter == shown { 1 } else { 0 }
}
