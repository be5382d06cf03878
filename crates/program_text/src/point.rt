//! From a point to its text, and back.

ghost use Rattle.std.specs.Prelude.{◌≡◌, ◌++◌, All, IfOk, codes};
ghost use Rattle.refusals.specs.Memory.{OrMemory};
ghost use Rattle.program_text.specs.PointText.{IsWhole, point_text, spelled_point};

use crate::fault::PointFault;
use crate::number::push_number;
use listed::Memory;
use sparse_program::Point;
use std::alloc::Global;
use texts::{take_line, whole};

/// The first line.
const HEAD: &[u8] = b"ctm-point 1";
/// The last line.
const END: &[u8] = b"end";

/// The bytes that a value takes in most points, where it is 0 or 1, with its line feed.
const VALUE_BYTES: usize = 2;

/// The text of the values of a point.
pub fn write_point(alloc: Global, point: &[i64]) -> Result<Vec<u8>, Memory>
    ensures { IfOk result (λ text. text.items ≡ point_text point.now) }
{
    let mut text = Vec::with_capacity(alloc, point.len().saturating_mul(VALUE_BYTES))?;
    text.extend_from_slice(b"ctm-point 1\n")?;
    for value in point {
        push_number(&mut text, *value)?;
        text.push(b'\n')?;
    }
    text.extend_from_slice(b"end\n")?;
    Ok(text)
}

/// The values that a text spells, or the first line that is not of the form.
pub fn read_point(alloc: Global, bytes: &[u8]) -> Result<Point, PointFault>
    ensures value { OrMemory PointFault.Memory (spelled_point bytes.now) result }
    ensures text { IfOk result (λ values. bytes.now ≡ point_text values) }
    ensures wholes { IfOk result (All IsWhole) }
{
    match take_line(bytes) {
        Some((line, behind)) if line == HEAD => read_values(alloc, behind),
        _ => Err(PointFault::Form(1)),
    }
}

/// The values that the lines behind the first spell.
fn read_values(alloc: Global, bytes: &[u8]) -> Result<Point, PointFault>
    ensures value { OrMemory PointFault.Memory (spelled_point (codes "ctm-point 1\n" ++ bytes.now)) result }
    ensures wholes { IfOk result (All IsWhole) }
{
    let mut values = Point::new(alloc);
    let mut rest = bytes;
    let mut number = 2;
    while let Some((line, behind)) = take_line(rest) {
        if line == END {
            return if behind.is_empty() {
                Ok(values)
            } else {
                Err(PointFault::Form(number + 1))
            };
        }
        match whole(line) {
            Some(value) => values.push(value)?,
            None => return Err(PointFault::Form(number)),
        }
        rest = behind;
        number += 1;
    }
    Err(PointFault::Form(number))
}
