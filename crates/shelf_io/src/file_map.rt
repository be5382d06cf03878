//! Files in memory by their names.

ghost use Rattle.std.specs.Prelude.{◌≡◌, ◌++◌, [], None, IsSome, MatchOption, OnOk, OnErr, position, unwrap_or};
ghost use Rattle.std.specs.FinMap as map;
ghost use Rattle.shelf_io.specs.FileList.{files_of};
ghost use Rattle.shelf_io.specs.inner.NamedFile.{is_named};

use listed::{Duplicate, Listed, Memory, Text};
use std::alloc::Global;
use std::marker::Model;
use std::mem;

/// A file: its name and its bytes.
#[derive(Debug, Drop)]
pub struct File {
    pub name: Text,
    pub bytes: Listed<u8>,
}

impl Duplicate for File {
    fn copy(&self) -> Result<File, Memory> {
        let name = self.name.copy()?;
        let bytes = self.bytes.copy()?;
        Ok(File { name, bytes })
    }
}

/// Files with their names. Of two files of one name the first stands.
pub type FileList = Listed<File>;

/// Files in memory, which contracts see as the finite map from their names to their bytes.
#[derive(Debug, Drop)]
pub struct FileMap {
    files: Vec<File>,
}

impl Model for FileMap {
    ghost use Rattle.shelf_io.specs.Told.{Files};
    ghost use Rattle.std.specs.FinMap as map;
    ghost use Rattle.std.specs.Coded.{coded_ℕ, coded_list};

    ghost Value = { Files };

    ghost coded = { map.code (coded_list coded_ℕ) (coded_list coded_ℕ) };

    ghost use Rattle.shelf_io.specs.FileList.{files_of};

    ghost view = { λ kept. files_of kept.files.items };
}

impl FileMap {
    /// These files, which are moved and not copied.
    pub fn new(files: FileList) -> FileMap
        ensures { result ≡ files_of files }
    {
        FileMap {
            files: files.into_vec(),
        }
    }

    /// The bytes of a file, None exactly where it is not there.
    pub fn get(&self, name: &str) -> Option<&[u8]>
        ensures { MatchOption result (map.get self.now name.now ≡ None) (λ bytes. map.get self.now name.now ≡ Some bytes.now) }
    {
        let place = place_of(self.files.as_slice(), name)?;
        Some(self.files[place].bytes.as_slice())
    }

    /// Makes a file empty, whether it was there or not. Where memory is wanting, all stays as it was.
    pub fn make_empty(&mut self, name: &str) -> Result<(), Memory>
        ensures ok { OnOk result (self.new ≡ map.insert self.old name.now []) }
        ensures err { OnErr result (self.new ≡ self.old) }
    {
        let alloc = *self.files.allocator();
        match place_of(self.files.as_slice(), name) {
            Some(place) => self.files[place].bytes = Listed::new(alloc),
            None => self.files.push(File {
                name: Text::from_str(alloc, name)?,
                bytes: Listed::new(alloc),
            })?,
        }
        Ok(())
    }

    /// Adds bytes at the end of a file that is there. Where memory is wanting, all stays as it was.
    pub fn append(&mut self, name: &str, bytes: &[u8]) -> Result<(), Memory>
        requires { IsSome (map.get self.old name.now) }
        ensures ok { OnOk result (self.new ≡ map.insert self.old name.now (unwrap_or (map.get self.old name.now) [] ++ bytes.now)) }
        ensures err { OnErr result (self.new ≡ self.old) }
    {
        let alloc = *self.files.allocator();
        let place = place_of(self.files.as_slice(), name).unwrap();
        extend(alloc, &mut self.files[place].bytes, bytes)
    }
}

/// Adds bytes at the end of a list. Where memory is wanting it stays as it was.
fn extend(alloc: Global, list: &mut Listed<u8>, bytes: &[u8]) -> Result<(), Memory>
    ensures ok { OnOk result (list.new ≡ list.old ++ bytes.now) }
    ensures err { OnErr result (list.new ≡ list.old) }
{
    let mut items = mem::replace(list, Listed::new(alloc)).into_vec();
    let outcome = items.extend_from_slice(bytes);
    *list = Listed::of(items);
    outcome?;
    Ok(())
}

/// The place of the first file of a name.
fn place_of(files: &[File], name: &str) -> Option<usize>
    ensures { result ≡ position (is_named name.now) files.now }
{
    files.iter().position(|file| name == file.name.as_str())
}
