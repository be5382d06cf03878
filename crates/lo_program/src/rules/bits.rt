//! The bits of a signal by their numbers.

ghost use Rattle.std.specs.Prelude.{◌≡◌, ◌<◌, ◌++◌, ◌≤◌, IfOk, OnOk, length};
ghost use Rattle.ct_base.specs.Access.{signal_of};
ghost use Rattle.ct_base.specs.Validity.{IsSignal, IsValid};
ghost use Rattle.listed.specs.Below.{table_of};
ghost use Rattle.lo_program.specs.inner.Bits.{AreBits};
ghost use Rattle.program_layout.specs.Layout.{IsLayout};
ghost use Rattle.program_model.specs.Columns.{Bit, letters_by, letters_of};
ghost use Rattle.program_model.specs.Existence.{IsLetterOf};
ghost use Rattle.program_model.specs.Numbers.{letters_before, number_of};

use ct_base::{Letter, Listed, Memory, Net, Phase, Signal};
use program_layout::{Layout, first_bit};
use std::alloc::Global;

/// The bits of a signal, which is worked out once.
#[derive(Drop)]
pub(crate) struct Bits {
    /// The number of the signal.
    pub(crate) signal: u32,
    /// The steps of the horizon.
    pub(crate) steps: u32,
    /// The plan columns of a step.
    pub(crate) of_step: u32,
    /// The first bit of the signal at the first step.
    pub(crate) first: u32,
    /// The letters of the signal, phase by phase.
    pub(crate) letters: Listed<Letter>,
    /// For each phase how many letters stand before its green.
    pub(crate) greens: Listed<u32>,
}

/// The bits of a signal of the network.
pub(crate) fn bits_of(
    alloc: Global,
    net: &Net,
    layout: &Layout,
    signal: u32,
) -> Result<Bits, Memory>
    requires valid { IsValid net.now }
    requires layout { IsLayout net.now layout.now }
    requires inside { signal < length net.now.signals }
    ensures { IfOk result (λ bits. (bits.signal ≡ signal) × AreBits net.now bits) }
{
    let phases = net.signal(signal as usize);
    let letters = letters_of(alloc, phases)?;
    let greens = places_of_greens(alloc, phases)?;
    Ok(Bits {
        signal,
        steps: net.steps,
        of_step: layout.bits_of_step,
        first: first_bit(net, layout, 0, signal),
        letters,
        greens,
    })
}

/// The letters of a signal, phase by phase.
fn letters_of(alloc: Global, signal: &Signal) -> Result<Listed<Letter>, Memory>
    requires { IsSignal signal.now }
    ensures { IfOk result (λ letters. letters ≡ letters_of signal.now) }
{
    let mut letters = Listed::new(alloc);
    for (p, phase) in signal.phases.as_slice().iter().enumerate() {
        push_letters(&mut letters, p as u8, phase.clear)?;
    }
    Ok(letters)
}

/// Adds the letters that a phase brings. Where memory is wanting a front of them was added.
fn push_letters(letters: &mut Listed<Letter>, p: u8, clear: u32) -> Result<(), Memory>
    ensures { OnOk result (letters.new ≡ letters.old ++ letters_by p clear) }
{
    letters.push(Letter::Green(p))?;
    if clear > 0 {
        letters.push(Letter::Clear(p))?;
    }
    Ok(())
}

/// How many letters a phase brings.
pub(crate) fn letters_brought(p: u8, clear: u32) -> u32
    ensures number { result ≡ length (letters_by p clear) }
    ensures few { result ≤ 2 }
{
    let _ = p;
    if clear == 0 { 1 } else { 2 }
}

/// For each phase how many letters stand before its green.
fn places_of_greens(alloc: Global, signal: &Signal) -> Result<Listed<u32>, Memory>
    requires { IsSignal signal.now }
    ensures { IfOk result (λ places. places ≡ table_of (length signal.now.phases) (letters_before signal.now)) }
{
    let mut places = Listed::new(alloc);
    let mut before = 0;
    for (p, phase) in signal.phases.as_slice().iter().enumerate() {
        places.push(before)?;
        before += letters_brought(p as u8, phase.clear);
    }
    Ok(places)
}

/// The number of a bit of the signal at step t.
pub(crate) fn bit(net: &Net, bits: &Bits, t: u32, letter: Letter) -> u32
    requires valid { IsValid net.now }
    requires bits { AreBits net.now bits.now }
    requires before { t < net.now.steps }
    requires letter { IsLetterOf (signal_of net.now.signals bits.now.signal) letter }
    ensures { result ≡ number_of net.now (Bit t bits.now.signal letter) }
{
    let _ = net;
    let first = t * bits.of_step + bits.first;
    match letter {
        Letter::Green(p) => first + bits.greens.as_slice()[p as usize],
        Letter::Clear(p) => first + bits.greens.as_slice()[p as usize] + 1,
    }
}
