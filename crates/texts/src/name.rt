//! Names of links, signals and phases.

ghost use Rattle.std.specs.Prelude.{◌≡◌};
ghost use Rattle.std.specs.List.{list_all};
ghost use Rattle.texts.specs.Names.{is_name, is_name_character};

use limits::MAX_NAME_BYTES;
use listed::Text;

/// The name of a link, a signal or a phase.
pub type Name = Text;

/// Whether a byte may stand in a name: a to z, 0 to 9 or an underscore.
fn is_name_byte(byte: u8) -> bool
    ensures { result ≡ is_name_character byte }
{
    byte.is_ascii_lowercase() || byte.is_ascii_digit() || byte == b'_'
}

/// Whether each byte may stand in a name.
fn are_name_bytes(bytes: &[u8]) -> bool
    ensures { result ≡ list_all is_name_character bytes.now }
{
    bytes.iter().all(|byte| is_name_byte(*byte))
}

/// Whether a text is a name: 1 to 24 such bytes, of which the first is a letter.
pub fn is_name(text: &[u8]) -> bool
    ensures { result ≡ is_name text.now }
{
    match text {
        [first, rest @ ..] => {
            first.is_ascii_lowercase() && text.len() <= MAX_NAME_BYTES && are_name_bytes(rest)
        }
        [] => false,
    }
}
