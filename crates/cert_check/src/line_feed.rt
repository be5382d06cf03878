//! The lines of a text, one after another.

ghost use Rattle.std.specs.Prelude.{MatchOption};
ghost use Rattle.texts.specs.Lines.{IsCut, IsFirstLine, IsNoLine, Lacks};

use memchr::memchr;

/// What stands before the first line feed, and what behind it. Lines of certificates are many and short, so this is looked for in
/// steps of many bytes.
fn cut(text: &[u8]) -> Option<(&[u8], &[u8])>
    ensures { MatchOption result (Lacks 10 text.now) (λ parts. IsCut 10 text.now parts.0.now parts.1.now) }
{
    let place = memchr(b'\n', text)?;
    Some((&text[..place], &text[place + 1..]))
}

/// The first line of a text without its line feed, and what stands behind it. Bytes that no line feed follows are no line.
#[tactic(auto, using(texts::proofs::LineLaws::first_line, texts::proofs::LineLaws::no_line))]
pub(crate) fn take_line(text: &[u8]) -> Option<(&[u8], &[u8])>
    ensures { MatchOption result (IsNoLine text.now) (λ parts. IsFirstLine text.now parts.0.now parts.1.now) }
{
    cut(text)
}
