//! The signals of a generated network.

ghost use Rattle.std.specs.Prelude.{◌≡◌, ◌++◌, OnOk, string_bytes};
ghost use Rattle.texts.specs.Lines.{text_of_lines};
ghost use Rattle.generated_nets.specs.Generated.{phase_lines, signal_text};

use listed::Memory;

/// Adds the signal of a junction, which serves the street and the side street in turn.
pub(crate) fn push_signal(text: &mut String, junction: u16) -> Result<(), Memory>
    ensures { OnOk result (string_bytes text.new ≡ string_bytes text.old ++ signal_text junction) }
{
    write!(text, "[[signal]]\nname = \"k{junction}\"\n")?;
    push_phase(text, "main", 4, 12, "side")?;
    push_phase(text, "side", 3, 8, "main")?;
    Ok(())
}

/// Adds a phase: its name, its least and its greatest green, and the phase that follows.
fn push_phase(
    text: &mut String,
    name: &str,
    least: u16,
    greatest: u16,
    following: &str,
) -> Result<(), Memory>
    ensures { OnOk result (string_bytes text.new ≡ string_bytes text.old ++ text_of_lines (phase_lines name.now least greatest following.now)) }
{
    write!(text, "[[signal.phase]]\nname = \"{name}\"\nmin = {least}\n")?;
    write!(
        text,
        "max = {greatest}\nclear = 2\nnext = [\"{following}\"]\n"
    )?;
    Ok(())
}
