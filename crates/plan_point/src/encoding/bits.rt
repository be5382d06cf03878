//! What the plan columns count: a bit for each letter of each signal at each step.

ghost use Rattle.std.specs.Prelude.{◌≡◌, ◌++◌, ◌<◌, ◌≤◌, All, OnOk, [], length, map, pos, slice_index_or};
ghost use Rattle.ct_base.specs.Access.{signal_of};
ghost use Rattle.ct_base.specs.Validity.{IsSignal, IsValid};
ghost use Rattle.ct_base.specs.declared.plan.Letter.TheVariants.{Clear};
ghost use Rattle.listed.specs.Below.{join_below};
ghost use Rattle.plan_point.specs.inner.Points.{bit_count, counts};
ghost use Rattle.program_model.specs.Columns.{letters_by, letters_of, plan_columns};
ghost use Rattle.program_model.specs.Values.{is_letter, one_where};
ghost use Rattle.traffic_model.specs.Runs.{HasWords};

use ct_base::{Letter, Memory, Net, Plan, Signal, Word};

/// Adds the bits of all steps.
pub(super) fn push_bits(values: &mut Vec<i64>, net: &Net, plan: &Plan) -> Result<(), Memory>
    requires valid { IsValid net.now }
    requires words { HasWords net.now plan.now }
    ensures { OnOk result (values.new.items ≡ values.old.items ++ counts net.now plan.now.words (plan_columns net.now)) }
{
    for step in 0..net.steps {
        push_bits_at(values, net, plan.words.as_slice(), step)?;
    }
    Ok(())
}

/// Adds the bits of a step.
fn push_bits_at(values: &mut Vec<i64>, net: &Net, words: &[Word], step: u32) -> Result<(), Memory>
    requires valid { IsValid net.now }
    requires one_per_signal { length words.now ≡ length net.now.signals }
    requires shown { All (λ word. step < length word) words.now }
    ensures { OnOk result (values.new.items ≡ values.old.items
        ++ join_below (length words.now) (λ s. map (bit_count (slice_index_or (slice_index_or words.now s []) step (Clear 0))) (letters_of (signal_of net.now.signals s)))) }
{
    for (number, word) in words.iter().enumerate() {
        let shown = word.as_slice()[step as usize];
        push_bits_of(values, net.signal(number), shown)?;
    }
    Ok(())
}

/// Adds the bits of a signal that shows a letter.
fn push_bits_of(values: &mut Vec<i64>, signal: &Signal, shown: Letter) -> Result<(), Memory>
    requires valid { IsSignal signal.now }
    ensures { OnOk result (values.new.items ≡ values.old.items ++ map (bit_count shown) (letters_of signal.now)) }
{
    for (number, phase) in signal.phases.as_slice().iter().enumerate() {
        push_bits_by(values, number as u8, phase.clear, shown)?;
    }
    Ok(())
}

/// Adds the bits of the letters that a phase brings.
fn push_bits_by(values: &mut Vec<i64>, phase: u8, clear: u32, shown: Letter) -> Result<(), Memory>
    ensures { OnOk result (values.new.items ≡ values.old.items ++ map (bit_count shown) (letters_by phase clear)) }
{
    values.push(bit(Letter::Green(phase), shown))?;
    if clear > 0 {
        values.push(bit(Letter::Clear(phase), shown))?;
    }
    Ok(())
}

/// 1 where the letters are the same, and 0 where they are not.
fn bit(letter: Letter, shown: Letter) -> i64
    ensures { result ≡ bit_count shown letter }
{
    one_where(is_letter(letter, shown))
}

/// Whether the letters are the same.
fn is_letter(letter: Letter, shown: Letter) -> bool
    ensures { result ≡ is_letter letter shown }
{
    match (letter, shown) {
        (Letter::Green(one), Letter::Green(other)) => one == other,
        (Letter::Clear(one), Letter::Clear(other)) => one == other,
        _ => false,
    }
}

/// 1 where a test holds, and 0 where it does not.
pub(super) fn one_where(holds: bool) -> i64
    ensures { result ≡ pos (one_where holds) }
{
    if holds { 1 } else { 0 }
}
