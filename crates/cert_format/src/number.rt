//! Numbers at the end of a text.

ghost use Rattle.std.specs.Prelude.{◌≡◌, ◌++◌, OnOk};

use itoa::{Buffer, Integer};
use listed::Memory;

/// Adds the decimal of a number to a text. It is made on the stack, so that memory is taken where the text grows alone.
pub(crate) fn push_number<I: Integer>(text: &mut Vec<u8>, number: I) -> Result<(), Memory>
    ensures { OnOk result (text.new.items ≡ text.old.items ++ I.text number) }
{
    let mut buffer = Buffer::new();
    text.extend_from_slice(buffer.format(number).as_bytes())?;
    Ok(())
}
