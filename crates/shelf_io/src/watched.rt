//! A shelf that notes the calls that are made on it.

ghost use Rattle.std.specs.Prelude.{◌≡◌, ◌⊎◌, ◌≤◌, [], ◌∷◌, ◌++◌, take, length, IfOk, OnOk, OnErr};
ghost use Rattle.shelf_io.specs.Told.{FailsToRead, IfTold, IsSomeOf, ReadsFrom, with_file, with_more, write_failed};
ghost use Rattle.shelf_io.specs.Watching.{Notes};
ghost use Rattle.shelf_io.specs.declared.watched.Call.TheVariants.{Append, Create, Read};

use crate::shelf::{Failed, Shelf};
use std::alloc::Global;

/// A call on a shelf, whatever came of it.
#[derive(Debug, Drop, PartialEq, Eq)]
pub enum Call {
    /// Bytes of a file were asked for: its name, the place of the first, and how many there was room for.
    Read(String, u64, usize),
    /// A file was to be made empty.
    Create(String),
    /// Bytes were to be added to a file: its name, and how many.
    Append(String, usize),
}

/// Another shelf, each call on which is passed on and noted, for tests that compare what was asked for. A note takes
/// memory: where that is wanting, the call is passed on all the same and its note is missing.
#[derive(Drop)]
pub struct Watched<S> {
    shelf: S,
    calls: Vec<Call>,
}

impl<S> Watched<S> {
    /// This shelf, with no call noted. It takes no memory.
    pub fn new(alloc: Global, shelf: S) -> Watched<S>
        ensures shelf { result.shelf ≡ shelf }
        ensures calls { result.calls.items ≡ [] }
    {
        Watched {
            shelf,
            calls: Vec::new(alloc),
        }
    }

    /// The calls that were noted, in their order.
    pub fn calls(&self) -> &[Call]
        ensures { result.now ≡ self.now.calls.items }
    {
        self.calls.as_slice()
    }

    /// The shelf that the calls were passed on to.
    pub fn shelf(&self) -> &S
        ensures { result.now ≡ self.now.shelf }
    {
        &self.shelf
    }
}

impl<S: Shelf> Shelf for Watched<S> {
    ghost state = { λ watched. S.state watched.shelf };

    fn read(&mut self, name: &str, at: u64, into: &mut [u8]) -> Result<usize, Failed>
        ensures count { IfOk result (λ k. k ≤ length into.new) }
        ensures bytes { IfOk result (λ k. IfTold (S.state self.old.shelf).files name.now (λ bytes. ReadsFrom bytes at k into.new)) }
        ensures ok { OnOk result (S.state self.new.shelf ≡ S.state self.old.shelf) }
        ensures err { OnErr result (FailsToRead (S.state self.old.shelf) name.now (S.state self.new.shelf)) }
        ensures noted { Notes self.old.calls.items name.now (λ text. Read text at (length into.old)) self.new.calls.items }
    {
        if let Ok(text) = String::from_str(*self.calls.allocator(), name) {
            note(&mut self.calls, Call::Read(text, at, into.len()));
        }
        self.shelf.read(name, at, into)
    }

    fn create(&mut self, name: &str) -> Result<(), Failed>
        ensures ok { OnOk result (S.state self.new.shelf ≡ with_file (S.state self.old.shelf) name.now []) }
        ensures err { OnErr result (S.state self.new.shelf ≡ write_failed (S.state self.old.shelf)) }
        ensures noted { Notes self.old.calls.items name.now (λ text. Create text) self.new.calls.items }
    {
        if let Ok(text) = String::from_str(*self.calls.allocator(), name) {
            note(&mut self.calls, Call::Create(text));
        }
        self.shelf.create(name)
    }

    fn append(&mut self, name: &str, bytes: &[u8]) -> Result<usize, Failed>
        requires { IfTold (S.state self.old.shelf).files name.now (λ _. Unit {0}) }
        ensures count { IfOk result (IsSomeOf bytes.now) }
        ensures ok { IfOk result (λ k. S.state self.new.shelf ≡ with_more (S.state self.old.shelf) name.now (take k bytes.now)) }
        ensures err { OnErr result (S.state self.new.shelf ≡ write_failed (S.state self.old.shelf)) }
        ensures noted { Notes self.old.calls.items name.now (λ text. Append text (length bytes.now)) self.new.calls.items }
    {
        if let Ok(text) = String::from_str(*self.calls.allocator(), name) {
            note(&mut self.calls, Call::Append(text, bytes.len()));
        }
        self.shelf.append(name, bytes)
    }
}

/// Adds a note at the end. Where memory is wanting the notes stay as they were.
fn note(calls: &mut Vec<Call>, call: Call)
    ensures { (calls.new.items ≡ calls.old.items ++ call ∷ []) ⊎ (calls.new.items ≡ calls.old.items) }
{
    let _ = calls.push(call);
}
