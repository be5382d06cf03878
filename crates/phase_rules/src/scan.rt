//! Whether a signal may show a word: one pass over its letters.

ghost use Rattle.std.specs.Prelude.{◌≡◌, IsTrue, ◌↔◌, length};
ghost use Rattle.ct_base.specs.Validity.{IsBetween, IsSignal};
ghost use Rattle.traffic_model.specs.Runs.{IsAdmissible};
ghost use Rattle.phase_rules.specs.inner.Scan.{after_clearing, after_letter, opened};

use crate::phase::{is_member, phase_at};
use ct_base::{Letter, Signal};

/// How far a word has come: what its next letter may be depends on nothing else.
#[derive(Clone, Copy, Debug, PartialEq, Eq)]
pub enum Scan {
    /// No letter was read.
    Start,
    /// The word ends in so many letters of the green of a phase.
    Green { phase: u8, letters: u32 },
    /// The word ends in so many clearing letters after a green of a phase that may end.
    Clear { phase: u8, letters: u32 },
}

/// Whether the word is what some runs begin with: the first of the starting phase, each of an allowed length of green
/// and followed by its whole clearing, each next one of a phase that may follow. The last run may be cut anywhere.
pub fn admissible(signal: &Signal, word: &[Letter]) -> bool
    requires signal { IsSignal signal.now }
    requires length { IsBetween 1 240 (length word.now) }
    ensures { IsTrue result ↔ IsAdmissible signal.now word.now }
{
    let mut scan = Scan::Start;
    for letter in word {
        match step(signal, scan, *letter) {
            Some(next) => scan = next,
            None => return false,
        }
    }
    true
}

/// How far a word has come with one letter more, or none where that letter may not come.
fn step(signal: &Signal, scan: Scan, letter: Letter) -> Option<Scan>
    requires signal { IsSignal signal.now }
    ensures { result ≡ after_letter signal.now scan letter }
{
    match scan {
        Scan::Start => open(1 << signal.start, letter),
        Scan::Green { phase, letters } => {
            let limits = phase_at(signal, phase);
            if letter == Letter::Green(phase) && letters < limits.max {
                Some(Scan::Green {
                    phase,
                    letters: letters + 1,
                })
            } else if limits.min <= letters {
                clear(signal, phase, 0, letter)
            } else {
                None
            }
        }
        Scan::Clear { phase, letters } => clear(signal, phase, letters, letter),
    }
}

/// How far a word has come with one letter more, after so many clearing letters of a phase.
fn clear(signal: &Signal, phase: u8, letters: u32, letter: Letter) -> Option<Scan>
    requires signal { IsSignal signal.now }
    ensures { result ≡ after_clearing signal.now phase letters letter }
{
    let limits = phase_at(signal, phase);
    if letters < limits.clear {
        if letter == Letter::Clear(phase) {
            Some(Scan::Clear {
                phase,
                letters: letters + 1,
            })
        } else {
            None
        }
    } else {
        open(limits.next, letter)
    }
}

/// The first letter of a run, of one of the phases.
fn open(allowed: u8, letter: Letter) -> Option<Scan>
    ensures { result ≡ opened allowed letter }
{
    match letter {
        Letter::Green(phase) if is_member(allowed, phase) => Some(Scan::Green {
            phase,
            letters: 1,
        }),
        _ => None,
    }
}
