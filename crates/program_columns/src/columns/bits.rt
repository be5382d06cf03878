//! The plan columns: a bit for each letter of each signal, step by step.

ghost use Rattle.std.specs.Prelude.{◌≡◌, ◌+◌, ◌≤◌, ◌<◌, [], ◌∷◌, ◌++◌, ℕ, length, map, IfOk, OnErr, OnOk};
ghost use Rattle.ct_base.specs.Access.{phase_of, signal_of};
ghost use Rattle.ct_base.specs.Validity.{IsValid};
ghost use Rattle.program_columns.specs.Columns.{IsWithFront};
ghost use Rattle.program_columns.specs.inner.Bounds.{clear_col, green_col};
ghost use Rattle.program_columns.specs.inner.Fronts.{AddsAllOrFront};
ghost use Rattle.program_model.specs.Columns.{Column, Bit, bits_at, letters_by, letters_of, plan_columns};
ghost use Rattle.program_model.specs.Numbers.{plan_count};
ghost use Rattle.program_model.specs.Points.{col};
ghost use Rattle.sparse_program.specs.declared.limits.TheConstants.{MAX_COLUMNS};

use super::add;
use ct_base::{Memory, Net};
use program_layout::layout_of;
use sparse_program::Builder;

/// Adds the columns of the plan and answers how many they are. Where memory is wanting a front of them was added.
pub fn plan_cols(net: &Net, into: &mut Builder) -> Result<u32, Memory>
    requires valid { IsValid net.now }
    requires none { into.old.columns ≡ [] }
    ensures count { IfOk result (λ count. count ≡ plan_count net.now) }
    ensures columns { OnOk result (into.new ≡ record into.old { columns = map (col net.now) (plan_columns net.now) }) }
    ensures front { OnErr result (IsWithFront net.now into.old (plan_columns net.now) into.new) }
{
    let layout = layout_of(into.alloc(), net)?;
    add_bits(into, net)?;
    Ok(layout.plan)
}

/// Adds the plan columns.
pub fn add_bits(builder: &mut Builder, net: &Net) -> Result<(), Memory>
    requires valid { IsValid net.now }
    requires room { length builder.old.columns + length (plan_columns net.now) ≤ MAX_COLUMNS }
    ensures { AddsAllOrFront result net.now builder.old builder.new (plan_columns net.now) }
{
    for t in 0..net.steps {
        add_bits_at(builder, net, t)?;
    }
    Ok(())
}

/// Adds the plan columns of a step.
fn add_bits_at(builder: &mut Builder, net: &Net, t: u32) -> Result<(), Memory>
    requires valid { IsValid net.now }
    requires room { length builder.old.columns + length (bits_at net.now.signals t) ≤ MAX_COLUMNS }
    ensures { AddsAllOrFront result net.now builder.old builder.new (bits_at net.now.signals t) }
{
    for s in 0..net.signals.len() {
        add_bits_of(builder, net, t, s)?;
    }
    Ok(())
}

/// Adds the plan columns of signal s at a step.
fn add_bits_of(builder: &mut Builder, net: &Net, t: u32, s: usize) -> Result<(), Memory>
    requires valid { IsValid net.now }
    requires inside { s < length net.now.signals }
    requires room { length builder.old.columns + length (map (Bit t s) (letters_of (signal_of net.now.signals s))) ≤ MAX_COLUMNS }
    ensures { AddsAllOrFront result net.now builder.old builder.new (map (Bit t s) (letters_of (signal_of net.now.signals s))) }
{
    for p in 0..net.signal(s).phases.len() {
        add_bits_by(builder, net, t, s, p)?;
    }
    Ok(())
}

/// Adds the bits of the letters that phase p of signal s brings.
fn add_bits_by(builder: &mut Builder, net: &Net, t: u32, s: usize, p: usize) -> Result<(), Memory>
    requires valid { IsValid net.now }
    requires inside { s < length net.now.signals }
    requires phase { p < length (signal_of net.now.signals s).phases }
    requires room { length builder.old.columns + length (map (Bit t s) (letters_by p (phase_of (signal_of net.now.signals s) p).clear)) ≤ MAX_COLUMNS }
    ensures { AddsAllOrFront result net.now builder.old builder.new (map (Bit t s) (letters_by p (phase_of (signal_of net.now.signals s) p).clear)) }
{
    let signal = net.signal(s);
    let begins = p == usize::from(signal.start);
    add_green(builder, t, begins)?;
    if signal.phases.as_slice()[p].clear != 0 {
        add_clear(builder, t)?;
    }
    Ok(())
}

/// Adds the bit of a green at a step: at step 0 that of the phase which a signal begins with is 1, and the others 0.
fn add_green(builder: &mut Builder, t: u32, begins: bool) -> Result<(), Memory>
    requires room { length builder.old.columns < MAX_COLUMNS }
    ensures ok { OnOk result (builder.new ≡ record builder.old { columns = builder.old.columns ++ green_col t begins ∷ [] }) }
    ensures err { OnErr result (builder.new ≡ builder.old) }
{
    if t == 0 {
        let at_start = u32::from(begins);
        add(builder, at_start, at_start, 0)
    } else {
        add(builder, 0, 1, 0)
    }
}

/// Adds the bit of a clearing letter at a step: 0 at step 0.
fn add_clear(builder: &mut Builder, t: u32) -> Result<(), Memory>
    requires room { length builder.old.columns < MAX_COLUMNS }
    ensures ok { OnOk result (builder.new ≡ record builder.old { columns = builder.old.columns ++ clear_col t ∷ [] }) }
    ensures err { OnErr result (builder.new ≡ builder.old) }
{
    let most = if t == 0 { 0 } else { 1 };
    add(builder, 0, most, 0)
}
