//! A whole file as one piece of memory.

ghost use Rattle.std.specs.Prelude.{◌≡◌, ◌+◌, ◌<◌, ◌≤◌, length, take, IfOk, IfErr, OnOk, Some};
ghost use Rattle.shelf_io.specs.Told.{IfTold};
ghost use Rattle.shelf_io.specs.Front.{EndsReading};
ghost use Rattle.shelf_io.specs.inner.Pieces.{EndsPiece, IsFrontOf};
ghost use Rattle.shelf_io.specs.Messages.{message_of};
ghost use Rattle.shelf_io.specs.declared.whole_file.ReadAll.TheVariants.{Fault, Memory};

use crate::shelf::{Failed, Shelf};
use std::alloc::{AllocError, Global};
use std::error::Error;
use std::fmt;

/// How many bytes are asked for at a time.
const PIECE: usize = 65_536;

/// Why a file was not read whole.
#[derive(Clone, Copy, Debug, PartialEq, Eq)]
pub enum ReadAll {
    /// A read failed, or the file is not there.
    Fault,
    /// The file has more bytes than were allowed.
    TooLong,
    /// There was not enough memory.
    Memory,
}

impl fmt::Display for ReadAll {
    ghost output = { λ fault. Some (message_of fault) };

    fn fmt<W: fmt::Write>(&self, f: &mut fmt::Formatter<W>) -> fmt::Result {
        match self {
            ReadAll::Fault => write!(f, "a read failed"),
            ReadAll::TooLong => write!(f, "the file is too long"),
            ReadAll::Memory => write!(f, "want of memory"),
        }
    }
}

impl Error for ReadAll {}

impl From<Failed> for ReadAll {
    ghost from_gives = { λ _ gave. gave ≡ Fault };

    fn from(_failed: Failed) -> ReadAll {
        ReadAll::Fault
    }
}

impl From<AllocError> for ReadAll {
    ghost from_gives = { λ _ gave. gave ≡ Memory };

    fn from(_wanting: AllocError) -> ReadAll {
        ReadAll::Memory
    }
}

/// Reads a whole file of at most `limit` bytes, 65,536 bytes at a time. Whatever it answers, told files stay
/// as they were.
pub fn read_all<F: Shelf>(
    alloc: Global,
    shelf: &mut F,
    name: &str,
    limit: u64,
) -> Result<Vec<u8>, ReadAll>
    requires { limit ≤ 134217728 }
    ensures ok { IfOk result (λ read. IfTold (F.state shelf.old).files name.now (λ bytes. read.items ≡ bytes)) }
    ensures within { IfOk result (λ read. length read.items ≤ limit) }
    ensures same { OnOk result (F.state shelf.new ≡ F.state shelf.old) }
    ensures err { IfErr result (λ end. EndsReading end limit (F.state shelf.old) name.now (F.state shelf.new)) }
{
    let mut room = zeros(alloc, PIECE)?;
    let buffer = room.as_mut_slice();
    let mut read = Vec::new(alloc);
    'pieces: loop {
        let count = add_piece(shelf, name, buffer, &mut read)?;
        if count == 0 {
            return Ok(read);
        }
        if read.len() as u64 > limit {
            return Err(ReadAll::TooLong);
        }
    }
}

/// So many zeros.
fn zeros(alloc: Global, count: usize) -> Result<Vec<u8>, AllocError>
    ensures { IfOk result (λ made. length made.items ≡ count) }
{
    vec![in alloc; 0; count]
}

/// Reads a piece where what was read so far ends, adds it there, and answers how many bytes it has: 0 only at
/// the file's end.
fn add_piece<F: Shelf>(
    shelf: &mut F,
    name: &str,
    buffer: &mut [u8],
    read: &mut Vec<u8>,
) -> Result<usize, ReadAll>
    requires room { 0 < length buffer.old }
    requires front { IsFrontOf (F.state shelf.old).files name.now read.old.items }
    ensures count { IfOk result (λ k. length read.new.items ≡ length read.old.items + k) }
    ensures front { OnOk result (IfTold (F.state shelf.old).files name.now (λ bytes. read.new.items ≡ take (length read.new.items) bytes)) }
    ensures end { result ≡ Ok 0 → IfTold (F.state shelf.old).files name.now (λ bytes. read.new.items ≡ bytes) }
    ensures same { OnOk result (F.state shelf.new ≡ F.state shelf.old) }
    ensures err { IfErr result (λ end. EndsPiece end (F.state shelf.old) name.now (F.state shelf.new)) }
{
    let count = shelf.read(name, read.len() as u64, buffer)?;
    read.extend_from_slice(&buffer[..count])?;
    Ok(count)
}
