//! A plan with another word for one signal.

ghost use Rattle.std.specs.Prelude.{◌≡◌, ◌==◌, ◌<◌, IfOk, if◌then◌else◌, length};
ghost use Rattle.ct_base.specs.Access.{signal_of};
ghost use Rattle.ct_base.specs.Validity.{IsValid};
ghost use Rattle.listed.specs.Below.{table_of};
ghost use Rattle.traffic_model.specs.Runs.{IsAdmissible, IsAdmissiblePlan, word_of};

use ct_base::{Duplicate, Listed, Memory, Net, Plan, Word};
use std::alloc::Global;

/// A plan with another word for one signal, which the signal may show.
pub(crate) fn with_word(
    alloc: Global,
    net: &Net,
    plan: &Plan,
    signal: usize,
    word: &Word,
) -> Result<Plan, Memory>
    requires admissible { IsAdmissiblePlan net.now plan.now }
    requires inside { signal < length net.now.signals }
    requires length { length word.now ≡ net.now.steps }
    requires word { IsAdmissible (signal_of net.now.signals signal) word.now }
    ensures { IfOk result (IsAdmissiblePlan net.now) }
{
    let _ = net;
    let words = words_with(alloc, plan, signal, word)?;
    Ok(Plan { words })
}

/// The words of a plan, but for one signal another.
fn words_with(
    alloc: Global,
    plan: &Plan,
    signal: usize,
    word: &Word,
) -> Result<Listed<Word>, Memory>
    ensures { IfOk result (λ words. words
        ≡ table_of (length plan.now.words) (λ s. if s == signal then word.now else word_of plan.now s)) }
{
    let mut words = Listed::new(alloc);
    for (number, old) in plan.words.as_slice().iter().enumerate() {
        words.push(chosen(number, signal, word, old).copy()?)?;
    }
    Ok(words)
}

/// The other word where a signal is the one that gets it, and else its old one.
fn chosen<'a>(number: usize, signal: usize, word: &'a Word, old: &'a Word) -> &'a Word
    ensures { result.now ≡ if number == signal then word.now else old.now }
{
    if number == signal { word } else { old }
}
