//! The rows that the bits of a plan meet: of each signal, step by step.

ghost use Rattle.std.specs.Prelude.{◌≡◌, ◌<◌, ◌≤◌, ◌+◌, ◌++◌, length, map, OnErr, OnOk};
ghost use Rattle.ct_base.specs.Access.{phase_of, signal_of};
ghost use Rattle.ct_base.specs.Validity.{IsPhase, IsValid};
ghost use Rattle.ct_base.specs.declared.plan.Letter.TheVariants.{Clear, Green};
ghost use Rattle.flow_switches.specs.Added.{AddsFront};
ghost use Rattle.listed.specs.Below.{join_below};
ghost use Rattle.lo_program.specs.inner.Adding.{AddsAllOrFront, Fits};
ghost use Rattle.lo_program.specs.inner.Bits.{AreBits};
ghost use Rattle.lo_program.specs.inner.Kinds.{rows_of_kind};
ghost use Rattle.program_layout.specs.Layout.{IsLayout};
ghost use Rattle.program_model.specs.Numbers.{number_of, plan_count};
ghost use Rattle.program_model.specs.RuleRows.{clear_end_rows, end_rows, rule_rows, rule_rows_at, stay_rows};
ghost use Rattle.program_model.specs.Sparse.{sparse};
ghost use Rattle.sparse_program.specs.declared.limits.TheConstants.{MAX_ROWS};

pub(crate) mod bits;
mod lasting;
mod letters;

use bits::{Bits, bits_of};
use ct_base::{Letter, Net, Phase};
use lasting::{add_clear_end_rows, add_end_rows, add_stay_rows};
use letters::{add_follow_rows, add_one_letter_row};
use program_layout::{Layout, layout_of};
use sparse_program::{Builder, Memory};

/// The kinds of rule rows.
#[derive(Clone, Copy)]
pub(crate) enum Kind {
    OneLetter,
    Follow,
    GreenStays,
    GreenEnds,
    ClearingStays,
    ClearingEnds,
}

/// The kinds in the order in which the rule rows of a step stand.
const KINDS: [Kind; 6] = [
    Kind::OneLetter,
    Kind::Follow,
    Kind::GreenStays,
    Kind::GreenEnds,
    Kind::ClearingStays,
    Kind::ClearingEnds,
];

/// Adds the rule rows to a builder that holds the columns of the plan as its first. They name no other columns. Where memory
/// is wanting a front of them was added.
pub fn rule_rows(net: &Net, into: &mut Builder) -> Result<(), Memory>
    requires valid { IsValid net.now }
    requires plan { plan_count net.now ≤ length into.old.columns }
    requires few { length into.old.rows + length (rule_rows net.now) ≤ MAX_ROWS }
    ensures ok { OnOk result (into.new ≡ record into.old { rows = into.old.rows ++ map (sparse (number_of net.now)) (rule_rows net.now) }) }
    ensures err { OnErr result (AddsFront into.old (map (sparse (number_of net.now)) (rule_rows net.now)) into.new) }
{
    let layout = layout_of(into.alloc(), net)?;
    add_rule_rows(into, net, &layout)
}

/// Adds the rule rows of a network: signal by signal, and of each step by step.
pub(crate) fn add_rule_rows(builder: &mut Builder, net: &Net, layout: &Layout) -> Result<(), Memory>
    requires valid { IsValid net.now }
    requires layout { IsLayout net.now layout.now }
    requires plan { plan_count net.now ≤ length builder.old.columns }
    requires few { length builder.old.rows + length (rule_rows net.now) ≤ MAX_ROWS }
    ensures { AddsAllOrFront result net.now builder.old builder.new (rule_rows net.now) }
{
    for signal in 0..net.signals.len() as u32 {
        add_rows_of_signal(builder, net, layout, signal)?;
    }
    Ok(())
}

/// Adds the rule rows of a signal, step by step.
fn add_rows_of_signal(
    builder: &mut Builder,
    net: &Net,
    layout: &Layout,
    signal: u32,
) -> Result<(), Memory>
    requires valid { IsValid net.now }
    requires layout { IsLayout net.now layout.now }
    requires inside { signal < length net.now.signals }
    requires fits { Fits net.now builder.old (join_below net.now.steps (rule_rows_at (signal_of net.now.signals signal) net.now.steps signal)) }
    ensures { AddsAllOrFront result net.now builder.old builder.new (join_below net.now.steps (rule_rows_at (signal_of net.now.signals signal) net.now.steps signal)) }
{
    let bits = bits_of(builder.alloc(), net, layout, signal)?;
    add_rows_of_steps(builder, net, &bits)
}

/// Adds the rule rows of the steps of a signal.
fn add_rows_of_steps(builder: &mut Builder, net: &Net, bits: &Bits) -> Result<(), Memory>
    requires valid { IsValid net.now }
    requires bits { AreBits net.now bits.now }
    requires fits { Fits net.now builder.old (join_below net.now.steps (rule_rows_at (signal_of net.now.signals bits.now.signal) net.now.steps bits.now.signal)) }
    ensures { AddsAllOrFront result net.now builder.old builder.new (join_below net.now.steps (rule_rows_at (signal_of net.now.signals bits.now.signal) net.now.steps bits.now.signal)) }
{
    for t in 0..net.steps {
        add_rows_of_step(builder, net, bits, t)?;
    }
    Ok(())
}

/// Adds the rule rows of a signal at step t.
fn add_rows_of_step(builder: &mut Builder, net: &Net, bits: &Bits, t: u32) -> Result<(), Memory>
    requires valid { IsValid net.now }
    requires bits { AreBits net.now bits.now }
    requires before { t < net.now.steps }
    requires fits { Fits net.now builder.old (rule_rows_at (signal_of net.now.signals bits.now.signal) net.now.steps bits.now.signal t) }
    ensures { AddsAllOrFront result net.now builder.old builder.new (rule_rows_at (signal_of net.now.signals bits.now.signal) net.now.steps bits.now.signal t) }
{
    for kind in KINDS {
        add_rows_of_kind(builder, net, bits, t, kind)?;
    }
    Ok(())
}

/// Adds the rule rows of a kind of a signal at step t.
fn add_rows_of_kind(
    builder: &mut Builder,
    net: &Net,
    bits: &Bits,
    t: u32,
    kind: Kind,
) -> Result<(), Memory>
    requires valid { IsValid net.now }
    requires bits { AreBits net.now bits.now }
    requires before { t < net.now.steps }
    requires fits { Fits net.now builder.old (rows_of_kind (signal_of net.now.signals bits.now.signal) net.now.steps bits.now.signal t kind) }
    ensures { AddsAllOrFront result net.now builder.old builder.new (rows_of_kind (signal_of net.now.signals bits.now.signal) net.now.steps bits.now.signal t kind) }
{
    match kind {
        Kind::OneLetter => add_one_letter_row(builder, net, bits, t),
        Kind::Follow => add_follow_rows(builder, net, bits, t),
        Kind::GreenStays => add_green_stay_rows(builder, net, bits, t),
        Kind::GreenEnds => add_green_end_rows(builder, net, bits, t),
        Kind::ClearingStays => add_clearing_stay_rows(builder, net, bits, t),
        Kind::ClearingEnds => add_clearing_end_rows(builder, net, bits, t),
    }
}

/// Adds the rows of how long the green of each phase stays, from step t on.
fn add_green_stay_rows(builder: &mut Builder, net: &Net, bits: &Bits, t: u32) -> Result<(), Memory>
    requires valid { IsValid net.now }
    requires bits { AreBits net.now bits.now }
    requires before { t < net.now.steps }
    requires fits { Fits net.now builder.old (join_below (length (signal_of net.now.signals bits.now.signal).phases) (λ p. stay_rows net.now.steps bits.now.signal t (Green p) (phase_of (signal_of net.now.signals bits.now.signal) p).min)) }
    ensures { AddsAllOrFront result net.now builder.old builder.new (join_below (length (signal_of net.now.signals bits.now.signal).phases) (λ p. stay_rows net.now.steps bits.now.signal t (Green p) (phase_of (signal_of net.now.signals bits.now.signal) p).min)) }
{
    for p in 0..phases(net, bits) {
        let phase = phase(net, bits, p);
        add_stay_rows(builder, net, bits, t, Letter::Green(p), phase.min)?;
    }
    Ok(())
}

/// Adds the rows of when the green of each phase ends, from step t on.
fn add_green_end_rows(builder: &mut Builder, net: &Net, bits: &Bits, t: u32) -> Result<(), Memory>
    requires valid { IsValid net.now }
    requires bits { AreBits net.now bits.now }
    requires before { t < net.now.steps }
    requires fits { Fits net.now builder.old (join_below (length (signal_of net.now.signals bits.now.signal).phases) (λ p. end_rows net.now.steps bits.now.signal t (Green p) (phase_of (signal_of net.now.signals bits.now.signal) p).max)) }
    ensures { AddsAllOrFront result net.now builder.old builder.new (join_below (length (signal_of net.now.signals bits.now.signal).phases) (λ p. end_rows net.now.steps bits.now.signal t (Green p) (phase_of (signal_of net.now.signals bits.now.signal) p).max)) }
{
    for p in 0..phases(net, bits) {
        let phase = phase(net, bits, p);
        add_end_rows(builder, net, bits, t, Letter::Green(p), phase.max)?;
    }
    Ok(())
}

/// Adds the rows of how long the clearing of each phase stays, from step t on.
fn add_clearing_stay_rows(
    builder: &mut Builder,
    net: &Net,
    bits: &Bits,
    t: u32,
) -> Result<(), Memory>
    requires valid { IsValid net.now }
    requires bits { AreBits net.now bits.now }
    requires before { t < net.now.steps }
    requires fits { Fits net.now builder.old (join_below (length (signal_of net.now.signals bits.now.signal).phases) (λ p. stay_rows net.now.steps bits.now.signal t (Clear p) (phase_of (signal_of net.now.signals bits.now.signal) p).clear)) }
    ensures { AddsAllOrFront result net.now builder.old builder.new (join_below (length (signal_of net.now.signals bits.now.signal).phases) (λ p. stay_rows net.now.steps bits.now.signal t (Clear p) (phase_of (signal_of net.now.signals bits.now.signal) p).clear)) }
{
    for p in 0..phases(net, bits) {
        let phase = phase(net, bits, p);
        add_stay_rows(builder, net, bits, t, Letter::Clear(p), phase.clear)?;
    }
    Ok(())
}

/// Adds the rows of when the clearing of each phase ends, from step t on.
fn add_clearing_end_rows(
    builder: &mut Builder,
    net: &Net,
    bits: &Bits,
    t: u32,
) -> Result<(), Memory>
    requires valid { IsValid net.now }
    requires bits { AreBits net.now bits.now }
    requires before { t < net.now.steps }
    requires fits { Fits net.now builder.old (join_below (length (signal_of net.now.signals bits.now.signal).phases) (λ p. clear_end_rows net.now.steps bits.now.signal t p (phase_of (signal_of net.now.signals bits.now.signal) p).clear)) }
    ensures { AddsAllOrFront result net.now builder.old builder.new (join_below (length (signal_of net.now.signals bits.now.signal).phases) (λ p. clear_end_rows net.now.steps bits.now.signal t p (phase_of (signal_of net.now.signals bits.now.signal) p).clear)) }
{
    for p in 0..phases(net, bits) {
        let phase = phase(net, bits, p);
        add_clear_end_rows(builder, net, bits, t, p, phase.clear)?;
    }
    Ok(())
}

/// How many phases the signal has.
fn phases(net: &Net, bits: &Bits) -> u8
    requires valid { IsValid net.now }
    requires bits { AreBits net.now bits.now }
    ensures { result ≡ length (signal_of net.now.signals bits.now.signal).phases }
{
    net.signal(bits.signal as usize).phases.len() as u8
}

/// The phase of the signal with a number.
fn phase(net: &Net, bits: &Bits, p: u8) -> Phase
    requires valid { IsValid net.now }
    requires bits { AreBits net.now bits.now }
    requires inside { p < length (signal_of net.now.signals bits.now.signal).phases }
    ensures value { result ≡ phase_of (signal_of net.now.signals bits.now.signal) p }
    ensures valid { IsPhase (length (signal_of net.now.signals bits.now.signal).phases) p result }
{
    net.signal(bits.signal as usize).phases.as_slice()[p as usize]
}
