//! The runs of a word.

ghost use Rattle.std.specs.Prelude.{◌≡◌, ℕ, ◌≤◌, ◌++◌, List, Ok, length, map, option_to_list, IfOk, IfSome, OnOk};
ghost use Rattle.ct_base.specs.Validity.{IsBetween, IsSignal};
ghost use Rattle.traffic_model.specs.Runs.{IsAdmissible};
ghost use Rattle.phase_rules.specs.Expansion.{expanded, run_by};
ghost use Rattle.phase_rules.specs.inner.Greens.{ended, greens_of, under_way};

use ct_base::{Letter, Listed, Memory, Signal};
use std::alloc::Global;

/// Runs in their order: each a phase, and how many steps of the horizon show its green.
pub type RunList = Listed<(u8, u32)>;

/// The runs of an admissible word: the one list that `expand` makes this word of.
pub fn runs(alloc: Global, signal: &Signal, word: &[Letter]) -> Result<RunList, Memory>
    requires signal { IsSignal signal.now }
    requires length { IsBetween 1 240 (length word.now) }
    requires admissible { IsAdmissible signal.now word.now }
    ensures expands { IfOk result (λ runs. expanded signal.now (map run_by runs) (length word.now) ≡ Ok word.now) }
    ensures only { IfOk result (λ runs. (others : List (ℕ × ℕ)) → expanded signal.now (map run_by others) (length word.now) ≡ Ok word.now → others ≡ runs) }
{
    let greens = greens_of(alloc, word)?;
    Ok(greens)
}

/// The greens of a word, each as long as it can be: a phase and the number of letters.
///
/// One green is under way at a time. A letter of the same phase makes it longer, and any other ends it.
fn greens_of(alloc: Global, word: &[Letter]) -> Result<RunList, Memory>
    requires { length word.now ≤ 240 }
    ensures { IfOk result (λ greens. greens ≡ greens_of word.now) }
{
    let mut greens = RunList::new(alloc);
    let mut current: Option<(u8, u32)> = None;
    for letter in word {
        let (ended, next) = follow(current, *letter);
        push_green(&mut greens, ended)?;
        current = next;
    }
    push_green(&mut greens, current)?;
    Ok(greens)
}

/// The green that a letter ends, where it ends one, and the green that is under way after it.
fn follow(current: Option<(u8, u32)>, letter: Letter) -> (Option<(u8, u32)>, Option<(u8, u32)>)
    requires { IfSome current (λ green. green.1 ≤ 240) }
    ensures ended { result.0 ≡ ended current letter }
    ensures next { result.1 ≡ under_way current letter }
{
    let Letter::Green(phase) = letter else {
        return (current, None);
    };
    match current {
        Some((same, letters)) => {
            if same == phase {
                (None, Some((phase, letters + 1)))
            } else {
                (Some((same, letters)), Some((phase, 1)))
            }
        }
        None => (None, Some((phase, 1))),
    }
}

/// Adds a green at the end, where there is one.
fn push_green(greens: &mut RunList, green: Option<(u8, u32)>) -> Result<(), Memory>
    ensures { OnOk result (greens.new ≡ greens.old ++ option_to_list green) }
{
    if let Some(green) = green {
        greens.push(green)?;
    }
    Ok(())
}
