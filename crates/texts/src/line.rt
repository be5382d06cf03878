//! One line or one word off the front of a text. Nothing here takes memory.

ghost use Rattle.std.specs.Prelude.{MatchOption};
ghost use Rattle.texts.specs.Lines.{IsCut, IsFirstLine, IsFirstWord, IsNoLine, IsOneWord, Lacks};

/// What stands before the first byte of this kind, and what behind it.
pub fn cut(text: &[u8], byte: u8) -> Option<(&[u8], &[u8])>
    ensures { MatchOption result (Lacks byte text.now) (λ parts. IsCut byte text.now parts.0.now parts.1.now) }
{
    let place = text.iter().position(|other| *other == byte)?;
    Some((&text[..place], &text[place + 1..]))
}

/// The first line of a text without its line feed, and what stands behind it. Bytes that no line feed follows are no line.
#[tactic(auto, using(crate::proofs::LineLaws::first_line, crate::proofs::LineLaws::no_line))]
pub fn take_line(text: &[u8]) -> Option<(&[u8], &[u8])>
    ensures { MatchOption result (IsNoLine text.now) (λ parts. IsFirstLine text.now parts.0.now parts.1.now) }
{
    cut(text, b'\n')
}

/// The first word of a line and what stands behind the space that ends it; nothing where the line is one word.
#[tactic(auto, using(crate::proofs::LineLaws::first_word, crate::proofs::LineLaws::one_word))]
pub fn take_word(line: &[u8]) -> Option<(&[u8], &[u8])>
    ensures { MatchOption result (IsOneWord line.now) (λ parts. IsFirstWord line.now parts.0.now parts.1.now) }
{
    cut(line, b' ')
}
