//! How the reading of a whole file ends, over any shelf.

ghost use Rattle.std.specs.Prelude.{◌≤◌};

use shelf_io::{ReadAll, Shelf, read_all};
use std::alloc::Global;

/// Whether it ends as it should: with the bytes of this text, or with a fault.
pub fn is_read_as<F: Shelf>(
    alloc: Global,
    shelf: &mut F,
    name: &str,
    limit: u64,
    wanted: Result<&str, ReadAll>,
) -> bool
    requires { limit ≤ 134217728 }
{
    match read_all(alloc, shelf, name, limit) {
        Ok(bytes) => wanted.map(|text| text.as_bytes()) == Ok(bytes.as_slice()),
        Err(end) => wanted == Err(end),
    }
}
