//! A whole text put into a sink.

ghost use Rattle.std.specs.Prelude.{◌≡◌, OnOk, OnErr};
ghost use Rattle.shelf_io.specs.Told.{StopsInText, with_taken};

use crate::shelf::Failed;
use crate::sink::Sink;

/// Puts all bytes. After a failure a front of them was put. It takes no memory.
pub fn put_all<K: Sink>(sink: &mut K, bytes: &[u8]) -> Result<(), Failed>
    ensures ok { OnOk result (K.state sink.new ≡ with_taken (K.state sink.old) bytes.now) }
    ensures err { OnErr result (StopsInText (K.state sink.old) bytes.now (K.state sink.new)) }
{
    let mut put = 0;
    while put < bytes.len() {
        put += sink.take(&bytes[put..])?;
    }
    Ok(())
}
