//! A whole file written from one piece of memory.

ghost use Rattle.std.specs.Prelude.{◌≡◌, OnOk, OnErr};
ghost use Rattle.shelf_io.specs.Told.{StopsInFile, with_file};

use crate::shelf::{Failed, Shelf};

/// Makes a file hold exactly these bytes, whether it was there or not. After a failure it is as before or holds a
/// front of them. All other files stay as they were. It takes no memory.
pub fn write_all<F: Shelf>(shelf: &mut F, name: &str, bytes: &[u8]) -> Result<(), Failed>
    ensures ok { OnOk result (F.state shelf.new ≡ with_file (F.state shelf.old) name.now bytes.now) }
    ensures err { OnErr result (StopsInFile (F.state shelf.old) name.now bytes.now (F.state shelf.new)) }
{
    shelf.create(name)?;
    let mut written = 0;
    while written < bytes.len() {
        written += shelf.append(name, &bytes[written..])?;
    }
    Ok(())
}
