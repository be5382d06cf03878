//! The ways in which the host opens a file.

ghost use Rattle.std.specs.Prelude.{ℕ, Bool, List, Option, None, Some, MatchResult, is_ok, ⊤};

use std::fs::{File, OpenOptions};
use std::io;
use std::io::{Read, Seek, Write};
use std::rt::Files;

/// What opens files by their names. A file that was opened to be read can't be written, and one that was opened to
/// be added to has to be closed.
///
/// The library's contracts do not say which file an opening gives. So each call here has a relation of which nothing
/// is known but that the call meets it: what is proved over any `Opens` and shows the relation has made just that call.
pub trait Opens {
    type Reader: Read + Seek + Drop;

    type Writer: Write;

    /// One opening under the name, to read: it gave this file, or none, and left the files so.
    ghost reads: { Self → List ℕ → Option Self.Reader → Self → Type 0 };

    /// A file was made empty once under the name, or could not be.
    ghost makes: { Self → List ℕ → Bool → Self → Type 0 };

    /// One opening under the name, to add at the end: it gave this file, or none.
    ghost adds: { Self → List ℕ → Option Self.Writer → Self → Type 0 };

    /// A file that was added to was closed as it was left.
    ghost closes: { Self → Self.Writer → Self → Type 0 };

    /// Opens a file that is there, at its start.
    fn open_to_read(&mut self, name: &str) -> io::Result<Self::Reader>
        ensures { MatchResult result (λ file. reads self.old name.now (Some file) self.new) (λ _. reads self.old name.now None self.new) };

    /// Makes a file empty, whether it was there or not.
    fn make_empty(&mut self, name: &str) -> io::Result<()>
        ensures { makes self.old name.now (is_ok result) self.new };

    /// Opens a file that is there, at its end.
    fn open_to_add(&mut self, name: &str) -> io::Result<Self::Writer>
        ensures { MatchResult result (λ file. adds self.old name.now (Some file) self.new) (λ _. adds self.old name.now None self.new) };

    /// Closes a file that was added to.
    fn close(&mut self, file: Self::Writer)
        ensures { closes self.old file self.new };
}

impl<R: Files> Opens for R {
    type Reader = R::File;

    type Writer = R::File;

    ghost reads = { λ _ _ _ _. ⊤ };

    ghost makes = { λ _ _ _ _. ⊤ };

    ghost adds = { λ _ _ _ _. ⊤ };

    ghost closes = { λ _ _ _. ⊤ };

    fn open_to_read(&mut self, name: &str) -> io::Result<R::File> {
        File::open(self, name)
    }

    fn make_empty(&mut self, name: &str) -> io::Result<()> {
        File::create(self, name)?;
        Ok(())
    }

    fn open_to_add(&mut self, name: &str) -> io::Result<R::File> {
        OpenOptions::new().append(true).open(self, name)
    }

    fn close(&mut self, _file: R::File) {}
}
