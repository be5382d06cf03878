//! What a line of a plan text says.

ghost use Rattle.std.specs.Prelude.{◌≡◌};
ghost use Rattle.plan_file.specs.Lines.{line_of, two_words};
ghost use Rattle.plan_file.specs.inner.State.{said};

use limits::GREEN_DIGITS;
use texts::{is_name, natural, take_word};

/// The first line.
pub(crate) const HEAD: &[u8] = b"ctm-plan 1";
/// The word before a signal's name.
const SIGNAL: &[u8] = b"signal";
/// The last line.
const END: &[u8] = b"end";

/// What a line says. Names are bytes of the text.
#[derive(Clone, Copy)]
pub(crate) enum Line<'a> {
    /// `ctm-plan 1`
    Head,
    /// `signal NAME`
    OfSignal(&'a [u8]),
    /// `PHASE GREEN`
    OfRun(&'a [u8], u32),
    /// `end`
    End,
    /// A line of none of these forms.
    Other,
}

/// What the bytes of a line say.
pub(crate) fn line_of(bytes: &[u8]) -> Line<'_>
    ensures { said result ≡ line_of bytes.now }
{
    if bytes == HEAD {
        return Line::Head;
    }
    match take_word(bytes) {
        Some((first, second)) => two_words(first, second),
        None if bytes == END => Line::End,
        None => Line::Other,
    }
}

/// What a line says whose first word has this and more behind it.
fn two_words<'a>(first: &'a [u8], second: &'a [u8]) -> Line<'a>
    ensures { said result ≡ two_words first.now second.now }
{
    if first == SIGNAL && is_name(second) {
        return Line::OfSignal(second);
    }
    match natural(second, GREEN_DIGITS) {
        Some(green) if is_name(first) => Line::OfRun(first, green as u32),
        _ => Line::Other,
    }
}
