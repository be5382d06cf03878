//! The bits of a signal in the first steps.

ghost use Rattle.std.specs.Prelude.{◌≡◌, ◌↔◌, ◌≤◌, ◌<◌, ◌*◌, All, IsTrue, pos, length, slice_index_or, unsigned_abs};
ghost use Rattle.ct_base.specs.Validity.{IsSignal};
ghost use Rattle.program_model.specs.Columns.{Bit};
ghost use Rattle.program_model.specs.Existence.{IsColumn, IsLetterOf};
ghost use Rattle.program_model.specs.Numbers.{letters_before, place_of_letter};
ghost use Rattle.rule_breaks.specs.Breaks.{IsOffOrOn};
ghost use Rattle.rule_breaks.specs.inner.Parts.{IsPart, on};

use ct_base::{Letter, Net, Signal};
use program_layout::letters_by;

/// Where the bits of a signal stand, and how many steps are looked at.
#[derive(Clone, Copy)]
pub(crate) struct Part {
    /// The number of the signal.
    pub(crate) signal: usize,
    /// The steps that are looked at.
    pub(crate) steps: u32,
    /// The plan columns of a step.
    pub(crate) width: usize,
    /// Those of them that stand before the signal's.
    pub(crate) first: usize,
}

/// Whether values are those of bits: 0 or 1.
pub fn are_bits(values: &[i64]) -> bool
    ensures { IsTrue result ↔ All IsOffOrOn values.now }
{
    values.iter().all(|value| is_bit(*value))
}

/// Whether a value is that of a bit.
fn is_bit(value: i64) -> bool
    ensures { IsTrue result ↔ IsOffOrOn value }
{
    value == 0 || value == 1
}

/// The bit of a letter at step t: 1 where it is on, and else 0.
pub(crate) fn bit(net: &Net, bits: &[i64], part: &Part, t: u32, letter: Letter) -> u32
    requires part { IsPart net.now bits.now part.now }
    requires column { IsColumn net.now (Bit t part.now.signal letter) }
    ensures value { result ≡ on net.now bits.now (Bit t part.now.signal letter) }
    ensures few { result ≤ 1 }
{
    let first = t as usize * part.width + part.first;
    bit_at(
        bits,
        first + place_of_letter(net.signal(part.signal), letter),
    )
}

/// The bit at a place, as a count.
fn bit_at(bits: &[i64], place: usize) -> u32
    requires inside { place < length bits.now }
    requires bit { IsOffOrOn (slice_index_or bits.now place (pos 0)) }
    ensures value { result ≡ unsigned_abs (slice_index_or bits.now place (pos 0)) }
    ensures few { result ≤ 1 }
{
    if bits[place] == 0 { 0 } else { 1 }
}

/// The place of a letter among those of its signal.
fn place_of_letter(signal: &Signal, letter: Letter) -> usize
    requires signal { IsSignal signal.now }
    requires letter { IsLetterOf signal.now letter }
    ensures value { result ≡ place_of_letter signal.now letter }
    ensures few { result ≤ 17 }
{
    match letter {
        Letter::Green(p) => letters_before(signal, p as usize),
        Letter::Clear(p) => letters_before(signal, p as usize) + 1,
    }
}

/// How many letters stand before those of phase p.
pub(crate) fn letters_before(signal: &Signal, p: usize) -> usize
    requires signal { IsSignal signal.now }
    requires inside { p ≤ length signal.now.phases }
    ensures value { result ≡ letters_before signal.now p }
    ensures few { result ≤ 2 * p }
{
    let mut before = 0;
    for q in 0..p {
        before += letters_by(signal, q) as usize;
    }
    before
}
