//! Where files stand.

ghost use Rattle.std.specs.Prelude.{◌≡◌, ◌≤◌, [], take, length, IfOk, OnOk, OnErr, Some, codes};
ghost use Rattle.shelf_io.specs.Told.{ShelfState, FailsToRead, IfTold, IsSomeOf, ReadsFrom, with_file, with_more, write_failed};

use std::error::Error;
use std::fmt;

/// A call on a shelf or a sink did nothing, and a fault was counted, unless a file to be read is not there.
#[derive(Clone, Copy, Debug, PartialEq, Eq)]
pub struct Failed;

impl fmt::Display for Failed {
    ghost output = { λ _. Some (codes "a read or a write failed") };

    fn fmt<W: fmt::Write>(&self, f: &mut fmt::Formatter<W>) -> fmt::Result {
        write!(f, "a read or a write failed")
    }
}

impl Error for Failed {}

/// Files by their names. How many reads failed is counted, and apart from it how many calls of `create` and `append`.
/// A count rises by one exactly where a call fails, a read of a told file that is not there aside. A shelf may tell
/// what its files are or not.
pub trait Shelf {
    /// The files, where they are told, and the two counts.
    ghost state: { Self → ShelfState };

    /// Reads bytes of a file from a place on, and answers how many: 0 only at the file's end, or where `into`
    /// is empty. What `into` holds past them is open. A told file that is not there is no fault.
    fn read(&mut self, name: &str, at: u64, into: &mut [u8]) -> Result<usize, Failed>
        ensures count { IfOk result (λ k. k ≤ length into.new) }
        ensures bytes { IfOk result (λ k. IfTold (state self.old).files name.now (λ bytes. ReadsFrom bytes at k into.new)) }
        ensures ok { OnOk result (state self.new ≡ state self.old) }
        ensures err { OnErr result (FailsToRead (state self.old) name.now (state self.new)) };

    /// Makes a file empty, whether it was there or not.
    fn create(&mut self, name: &str) -> Result<(), Failed>
        ensures ok { OnOk result (state self.new ≡ with_file (state self.old) name.now []) }
        ensures err { OnErr result (state self.new ≡ write_failed (state self.old)) };

    /// Adds bytes at the end of a file, and answers how many of them: at least one, unless there is none.
    fn append(&mut self, name: &str, bytes: &[u8]) -> Result<usize, Failed>
        requires { IfTold (state self.old).files name.now (λ _. Unit {0}) }
        ensures count { IfOk result (IsSomeOf bytes.now) }
        ensures ok { IfOk result (λ k. state self.new ≡ with_more (state self.old) name.now (take k bytes.now)) }
        ensures err { OnErr result (state self.new ≡ write_failed (state self.old)) };
}
