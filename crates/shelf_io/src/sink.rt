//! Where output goes.

ghost use Rattle.std.specs.Prelude.{◌≡◌, take, IfOk, OnErr};
ghost use Rattle.shelf_io.specs.Told.{SinkState, IsSomeOf, take_failed, with_taken};

use crate::shelf::Failed;

/// A taker of bytes, with a count of faults that rises by one exactly where a call fails. A sink may tell what it has
/// taken or not.
pub trait Sink {
    /// The bytes that were taken so far, where they are told, and the count.
    ghost state: { Self → SinkState };

    /// Takes bytes from the front, and answers how many: at least one, unless there is none.
    fn take(&mut self, bytes: &[u8]) -> Result<usize, Failed>
        ensures count { IfOk result (IsSomeOf bytes.now) }
        ensures ok { IfOk result (λ k. state self.new ≡ with_taken (state self.old) (take k bytes.now)) }
        ensures err { OnErr result (state self.new ≡ take_failed (state self.old)) };
}
