//! Runs and words that were worked by hand, on a signal of two phases that follow each other.

ghost use Rattle.std.specs.Prelude.{◌≤◌, IfOk};
ghost use Rattle.ct_base.specs.Validity.{IsSignal};

use ct_base::Letter::{Clear, Green};
use ct_base::{Duplicate, Letter, Listed, Memory, Phase, Signal};
use phase_rules::{RunFault, admissible, expand, runs};
use std::alloc::{AllocGlobal, Global};
use std::process::Abort;
use std::test::Fail;

/// Phase 0 is green for 1 to 4 steps, with so many clearing letters, and phase 1 for 3 to 4 steps.
fn two_phases(alloc: Global, clear: u32) -> Result<Signal, Memory>
    requires { clear ≤ 20 }
    ensures { IfOk result IsSignal }
{
    let first = Phase {
        min: 1,
        max: 4,
        clear,
        next: 2,
    };
    let second = Phase {
        min: 3,
        max: 4,
        clear: 0,
        next: 1,
    };
    let phases = Listed::of(vec![in alloc; first, second]?);
    Ok(Signal { start: 0, phases })
}

/// What it tries, the clearing letters of phase 0, runs, and their word of four letters.
const WORDS: &[(&str, u32, &[(u8, u32)], &[Letter])] = &[
    (
        "the horizon cuts a run",
        0,
        &[(0, 3), (1, 1)],
        &[Green(0), Green(0), Green(0), Green(1)],
    ),
    (
        "the horizon cuts a clearing",
        2,
        &[(0, 3)],
        &[Green(0), Green(0), Green(0), Clear(0)],
    ),
    (
        "a whole clearing",
        2,
        &[(0, 1), (1, 1)],
        &[Green(0), Clear(0), Clear(0), Green(1)],
    ),
];

/// Runs of a signal without clearing letters, and their first fault within four steps.
const FAULTS: &[(&[(u8, u32)], RunFault)] = &[
    (&[(0, 4), (1, 1)], RunFault::Surplus { run: 1 }),
    (&[(1, 3), (0, 1)], RunFault::Start),
    (&[(255, 4)], RunFault::Start),
    (&[(0, 1), (0, 3)], RunFault::Order { run: 1 }),
    (&[(0, 1), (200, 3)], RunFault::Order { run: 1 }),
    (&[(0, 1), (1, 2), (0, 1)], RunFault::Green { run: 1 }),
    (&[(0, 4_294_967_295)], RunFault::Green { run: 0 }),
    (&[(0, 3)], RunFault::Short { letters: 3 }),
];

/// The clearing letters of phase 0, and words that no runs begin with.
const INADMISSIBLE: &[(u32, &[Letter])] = &[
    (0, &[Green(0), Green(1), Green(1), Green(0)]),
    (2, &[Green(0), Green(0), Clear(0), Green(1)]),
    (0, &[Green(1), Green(1), Green(1), Green(0)]),
];

/// Asserts that the runs give the word, that it is admissible, and that it has these runs.
fn assert_word<R: Abort + AllocGlobal>(
    rt: &R,
    name: &str,
    clear: u32,
    given: &[(u8, u32)],
    word: &[Letter],
) -> Result<(), Fail> {
    assert!(rt; clear <= 20 && word.len() == 4, "{name}");
    let signal = two_phases(rt.alloc(), clear)?;
    let made = expand(rt.alloc(), &signal, given, 4);
    assert!(rt; made.is_ok_and(|made| made.as_slice() == word), "{name}");
    assert!(rt; admissible(&signal, word), "{name}");
    assert_eq!(rt;
        runs(rt.alloc(), &signal, word)?.copy()?.as_slice(),
        given,
        "{name}"
    );
    Ok(())
}

#[test]
fn words_and_their_runs(rt: HostRuntime) -> Result<(), Fail> {
    for (name, clear, given, word) in WORDS {
        assert_word(&rt, name, *clear, given, word)?;
    }
    Ok(())
}

#[test]
fn faults_of_runs(rt: HostRuntime) -> Result<(), Fail> {
    let signal = two_phases(rt.alloc(), 0)?;
    for (given, fault) in FAULTS {
        let made = expand(rt.alloc(), &signal, given, 4);
        assert!(rt; made.is_err_and(|found| found == *fault));
    }
    Ok(())
}

#[test]
fn words_without_runs(rt: HostRuntime) -> Result<(), Fail> {
    for (clear, word) in INADMISSIBLE {
        assert!(rt; *clear <= 20 && word.len() == 4);
        let signal = two_phases(rt.alloc(), *clear)?;
        assert!(rt; !admissible(&signal, word));
    }
    Ok(())
}
