//! The walk over the rule rows of a network's program, as far as they look at the first steps: signal by signal, of each step by
//! step, and in a step kind by kind. Each row is counted where it stands, and none is made.

ghost use Rattle.std.specs.Prelude.{◌≡◌, ◌↔◌, ◌<◌, ◌≤◌, None, All, IfSome, length};
ghost use Rattle.ct_base.specs.Access.{signal_of};
ghost use Rattle.ct_base.specs.Validity.{IsValid};
ghost use Rattle.ct_base.specs.declared.plan.Plan as declared;
ghost use Rattle.listed.specs.Below.{join_below};
ghost use Rattle.program_model.specs.Numbers.{plan_count};
ghost use Rattle.program_model.specs.RuleRows.{rule_rows, rule_rows_at};
ghost use Rattle.rule_breaks.specs.Bits.{AreBitsOfPlan, BeginAsFixed};
ghost use Rattle.rule_breaks.specs.Breaks.{IsFirstBreak, IsOffOrOn, first_break, value_in};
ghost use Rattle.rule_breaks.specs.inner.Kinds.{rows_at, rows_of_kind, rows_of_phase};
ghost use Rattle.rule_breaks.specs.inner.Parts.{AreBits, IsPart};
ghost use Rattle.rule_breaks.specs.inner.Walk.{walk};

use crate::breaks::RuleBreak;
use crate::lasting::{pass_end_rows, pass_stay_rows};
use crate::letters::{pass_follow_rows, pass_one_letter_row, phase};
use crate::part::{Part, letters_before};
use ct_base::{Letter, Net};

/// The kinds of rule rows that come phase by phase.
#[derive(Clone, Copy)]
pub(crate) enum Kind {
    Follow,
    GreenStays,
    GreenEnds,
    ClearingStays,
    ClearingEnds,
}

/// The kinds in the order in which the rule rows of a step stand, behind the one row of its letters.
const KINDS: [Kind; 5] = [
    Kind::Follow,
    Kind::GreenStays,
    Kind::GreenEnds,
    Kind::ClearingStays,
    Kind::ClearingEnds,
];

/// The first rule row that bits break, of those that name only steps below `steps`. It takes no memory. Bits that begin with the
/// fixed ones break none exactly where they are those of an admissible plan of so many steps. `are_bits` tells whether values
/// are bits.
pub fn broken_row(net: &Net, bits: &[i64], steps: u32) -> Option<RuleBreak>
    requires valid { IsValid net.now }
    requires some { 1 ≤ steps }
    requires within { steps ≤ net.now.steps }
    requires columns { length bits.now ≡ plan_count net.now }
    requires bits { All IsOffOrOn bits.now }
    ensures value { result ≡ first_break (value_in net.now bits.now) steps 0 (rule_rows net.now) }
    ensures some { IfSome result (IsFirstBreak (value_in net.now bits.now) steps (rule_rows net.now)) }
    ensures none { BeginAsFixed net.now (value_in net.now bits.now) → (result ≡ None) ↔ ((plan : declared.Plan) × AreBitsOfPlan net.now steps (value_in net.now bits.now) plan) }
{
    match pass_signals(net, bits, steps) {
        Ok(_) => None,
        Err(found) => Some(found),
    }
}

/// Passes all rule rows.
fn pass_signals(net: &Net, bits: &[i64], steps: u32) -> Result<u32, RuleBreak>
    requires bits { AreBits net.now bits.now }
    requires within { steps ≤ net.now.steps }
    ensures { result ≡ walk (value_in net.now bits.now) steps 0 (rule_rows net.now) }
{
    let width = bits.len() / net.steps as usize;
    let mut first = 0;
    let mut number = 0;
    for signal in 0..net.signals.len() {
        let part = Part {
            signal,
            steps,
            width,
            first,
        };
        number = pass_signal(net, bits, &part, number)?;
        let phases = net.signal(signal);
        first += letters_before(phases, phases.phases.len());
    }
    Ok(number)
}

/// Passes the rule rows of a signal, step by step.
fn pass_signal(net: &Net, bits: &[i64], part: &Part, number: u32) -> Result<u32, RuleBreak>
    requires part { IsPart net.now bits.now part.now }
    ensures { result ≡ walk (value_in net.now bits.now) part.now.steps number (join_below net.now.steps (rule_rows_at (signal_of net.now.signals part.now.signal) net.now.steps part.now.signal)) }
{
    let mut next = number;
    for t in 0..net.steps {
        next = pass_step(net, bits, part, t, next)?;
    }
    Ok(next)
}

/// Passes the rule rows of a signal at step t.
fn pass_step(net: &Net, bits: &[i64], part: &Part, t: u32, number: u32) -> Result<u32, RuleBreak>
    requires part { IsPart net.now bits.now part.now }
    requires before { t < net.now.steps }
    ensures { result ≡ walk (value_in net.now bits.now) part.now.steps number (rule_rows_at (signal_of net.now.signals part.now.signal) net.now.steps part.now.signal t) }
{
    let next = pass_one_letter_row(net, bits, part, t, number)?;
    pass_kinds(net, bits, part, t, next)
}

/// Passes the rule rows of all kinds of a signal at step t.
fn pass_kinds(net: &Net, bits: &[i64], part: &Part, t: u32, number: u32) -> Result<u32, RuleBreak>
    requires part { IsPart net.now bits.now part.now }
    requires before { t < net.now.steps }
    ensures { result ≡ walk (value_in net.now bits.now) part.now.steps number (join_below 5 (rows_at (signal_of net.now.signals part.now.signal) net.now.steps part.now.signal t)) }
{
    let mut next = number;
    for kind in KINDS {
        next = pass_kind(net, bits, part, t, kind, next)?;
    }
    Ok(next)
}

/// Passes the rule rows of a kind, phase by phase.
fn pass_kind(
    net: &Net,
    bits: &[i64],
    part: &Part,
    t: u32,
    kind: Kind,
    number: u32,
) -> Result<u32, RuleBreak>
    requires part { IsPart net.now bits.now part.now }
    requires before { t < net.now.steps }
    ensures { result ≡ walk (value_in net.now bits.now) part.now.steps number (rows_of_kind (signal_of net.now.signals part.now.signal) net.now.steps part.now.signal t kind) }
{
    let mut next = number;
    for p in 0..net.signal(part.signal).phases.len() as u8 {
        next = pass_phase(net, bits, part, t, kind, p, next)?;
    }
    Ok(next)
}

/// Passes the rule rows of a kind that phase p brings.
fn pass_phase(
    net: &Net,
    bits: &[i64],
    part: &Part,
    t: u32,
    kind: Kind,
    p: u8,
    number: u32,
) -> Result<u32, RuleBreak>
    requires part { IsPart net.now bits.now part.now }
    requires before { t < net.now.steps }
    requires inside { p < length (signal_of net.now.signals part.now.signal).phases }
    ensures { result ≡ walk (value_in net.now bits.now) part.now.steps number (rows_of_phase (signal_of net.now.signals part.now.signal) net.now.steps part.now.signal t kind p) }
{
    let phase = phase(net.signal(part.signal), p);
    match kind {
        Kind::Follow if t + 1 < net.steps => pass_follow_rows(net, bits, part, t, p, number),
        Kind::Follow => Ok(number),
        Kind::GreenStays => pass_stay_rows(net, bits, part, t, Letter::Green(p), phase.min, number),
        Kind::GreenEnds => pass_end_rows(net, bits, part, t, Letter::Green(p), phase.max, number),
        Kind::ClearingStays => {
            pass_stay_rows(net, bits, part, t, Letter::Clear(p), phase.clear, number)
        }
        Kind::ClearingEnds if phase.clear > 0 => {
            pass_end_rows(net, bits, part, t, Letter::Clear(p), phase.clear, number)
        }
        Kind::ClearingEnds => Ok(number),
    }
}
