//! A shelf in memory, of which some calls are to fail.

ghost use Rattle.std.specs.Prelude.{◌≡◌, ◌-◌, ◌≤◌, ◌⊎◌, ◌↔◌, ◌++◌, [], None, Some, IsErr, IsTrue, if◌then◌else◌, IfOk, IfSome, OnOk, OnErr, MatchOption, length, min, take, unwrap_or};
ghost use Rattle.std.specs.FinMap as map;
ghost use Rattle.shelf_io.specs.Told.{IfTold, IsSomeOf, ReadsFrom, bytes_of};
ghost use Rattle.shelf_io.specs.FileList.{files_of};
ghost use Rattle.shelf_io.specs.InMemory.{is_to_fail, after_call, after_failed_read, after_failed_write, after_write, state_of};

use crate::calls::{CallList, Calls};
use crate::counts::counted;
use crate::file_map::{FileList, FileMap};
use crate::shelf::{Failed, Shelf};
use std::marker::Model;

/// Files in memory. A call whose number is listed fails, and no call gives or takes more than `most` bytes.
/// Calls are numbered from 1, reads and writes alike.
#[derive(Debug, Drop)]
pub struct MemoryShelf {
    files: FileMap,
    calls: Calls,
    most: usize,
    read_faults: u64,
    write_faults: u64,
}

impl Model for MemoryShelf {
    ghost use Rattle.std.specs.Prelude.{◌≤◌};
    ghost use Rattle.shelf_io.specs.InMemory.{ShelfInMemory, shelf_code};

    ghost Value = { ShelfInMemory };

    ghost coded = { shelf_code };

    ghost view = { λ shelf. record {
      files = shelf.files;
      calls = shelf.calls.made;
      failing = shelf.calls.failing;
      most = shelf.most;
      read_faults = shelf.read_faults;
      write_faults = shelf.write_faults;
    } };

    ghost invariant = { λ shelf. 1 ≤ shelf.most };
}

impl MemoryShelf {
    /// A shelf with these files, of which no call was made. It takes no memory.
    pub fn new(files: FileList, failing: CallList, most: usize) -> MemoryShelf
        requires { 1 ≤ most }
        ensures { result ≡ record { files = files_of files; calls = 0; failing = failing; most = most; read_faults = 0; write_faults = 0 } }
    {
        MemoryShelf {
            files: FileMap::new(files),
            calls: Calls::new(failing),
            most,
            read_faults: 0,
            write_faults: 0,
        }
    }

    /// The bytes of a file, None exactly where it is not there.
    pub fn file(&self, name: &str) -> Option<&[u8]>
        ensures { MatchOption result (bytes_of self.now.files name.now ≡ None) (λ bytes. bytes_of self.now.files name.now ≡ Some bytes.now) }
    {
        self.files.get(name)
    }

    /// How many reads that were to fail have failed.
    pub fn read_faults(&self) -> u64
        ensures { result ≡ self.now.read_faults }
    {
        self.read_faults
    }

    /// How many calls of `create` and `append` have failed.
    pub fn write_faults(&self) -> u64
        ensures { result ≡ self.now.write_faults }
    {
        self.write_faults
    }
}

impl Shelf for MemoryShelf {
    ghost state = { λ shelf. state_of shelf };

    /// Gives as many bytes as there are and as fit, but at most `most`. Fails exactly where the call is listed
    /// or the file is not there. It takes no memory.
    fn read(&mut self, name: &str, at: u64, into: &mut [u8]) -> Result<usize, Failed>
        ensures exact { IsErr result ↔ (IsTrue (is_to_fail self.old.calls self.old.failing) ⊎ (bytes_of self.old.files name.now ≡ None)) }
        ensures count { IfOk result (λ k. k ≤ length into.new) }
        ensures most { IfOk result (λ k. IfSome (bytes_of self.old.files name.now) (λ bytes. k ≡ min self.old.most (min (length into.new) (length bytes - at)))) }
        ensures bytes { IfOk result (λ k. IfTold (Some self.old.files) name.now (λ bytes. ReadsFrom bytes at k into.new)) }
        ensures after { self.new ≡ (if is_to_fail self.old.calls self.old.failing then after_failed_read self.old else after_call self.old) }
    {
        self.calls.begin(&mut self.read_faults)?;
        let bytes = self.files.get(name).ok_or(Failed)?;
        Ok(copy_piece(bytes, at, self.most, into))
    }

    /// Fails where the call is listed. It may take memory, and where that is wanting it fails too.
    fn create(&mut self, name: &str) -> Result<(), Failed>
        ensures listed { IsTrue (is_to_fail self.old.calls self.old.failing) → IsErr result }
        ensures ok { OnOk result (self.new ≡ after_write self.old (map.insert self.old.files name.now [])) }
        ensures err { OnErr result (self.new ≡ after_failed_write self.old) }
    {
        self.calls.begin(&mut self.write_faults)?; // a call counts whatever comes of it
        counted(self.files.make_empty(name), &mut self.write_faults)
    }

    /// Takes all bytes, but at most `most`. Fails where the call is listed. It may take memory, and where that is
    /// wanting it fails too.
    fn append(&mut self, name: &str, bytes: &[u8]) -> Result<usize, Failed>
        requires { IfTold (Some self.old.files) name.now (λ _. Unit {0}) }
        ensures listed { IsTrue (is_to_fail self.old.calls self.old.failing) → IsErr result }
        ensures most { IfOk result (λ k. k ≡ min self.old.most (length bytes.now)) }
        ensures some { IfOk result (IsSomeOf bytes.now) }
        ensures ok { IfOk result (λ k. self.new ≡ after_write self.old (map.insert self.old.files name.now (unwrap_or (bytes_of self.old.files name.now) [] ++ take k bytes.now))) }
        ensures err { OnErr result (self.new ≡ after_failed_write self.old) }
    {
        self.calls.begin(&mut self.write_faults)?;
        let count = bytes.len().min(self.most);
        let outcome = self.files.append(name, &bytes[..count]);
        counted(outcome, &mut self.write_faults)?;
        Ok(count)
    }
}

/// Copies bytes from a place on, as many as there are and as fit, but at most `most`. Answers how many.
fn copy_piece(bytes: &[u8], at: u64, most: usize, into: &mut [u8]) -> usize
    requires { 1 ≤ most }
    ensures count { result ≡ min most (min (length into.old) (length bytes.now - at)) }
    ensures bytes { ReadsFrom bytes.now at result into.new }
{
    if at >= bytes.len() as u64 {
        return 0;
    }
    let rest = &bytes[at as usize..];
    let count = most.min(into.len().min(rest.len()));
    into[..count].copy_from_slice(&rest[..count]);
    count
}
