//! The files and the standard output of the host, as a shelf and as a sink. They tell nothing of their content:
//! this is the edge that is trusted.

ghost use Rattle.std.specs.Prelude.{◌≡◌, ◌≤◌, None, if◌then◌else◌, length, IfOk, is_ok};
ghost use Rattle.std.specs.Io.KnownBytes.{WriteAppends};
ghost use Rattle.shelf_io.specs.Counts.{risen};
ghost use Rattle.shelf_io.specs.Told.{IsSomeOf};
ghost use Rattle.shelf_io.specs.Host.{AddsOpened, ReadsAt, ReadsOpened};

use crate::counts::counted;
use crate::opens::Opens;
use crate::shelf::{Failed, Shelf};
use crate::sink::Sink;
use std::io;
use std::io::{Read, Seek, SeekFrom, Write};

/// The files of a runtime, by their paths. A file is opened anew at each call.
#[derive(Drop)]
pub struct HostShelf<R> {
    runtime: R,
    read_faults: u64,
    write_faults: u64,
}

/// A writer as a sink: each call is one write. At the host's standard output it is unbuffered.
#[derive(Drop)]
pub struct HostSink<W> {
    writer: W,
    faults: u64,
}

impl<R> HostShelf<R> {
    /// The files of this runtime, of which no call has failed.
    pub fn new(runtime: R) -> HostShelf<R>
        ensures runtime { result.runtime ≡ runtime }
        ensures read_faults { result.read_faults ≡ 0 }
        ensures write_faults { result.write_faults ≡ 0 }
    {
        HostShelf {
            runtime,
            read_faults: 0,
            write_faults: 0,
        }
    }

    /// How many reads have failed.
    pub fn read_faults(&self) -> u64
        ensures { result ≡ self.now.read_faults }
    {
        self.read_faults
    }

    /// How many calls of `create` and `append` have failed.
    pub fn write_faults(&self) -> u64
        ensures { result ≡ self.now.write_faults }
    {
        self.write_faults
    }
}

impl<W> HostSink<W> {
    /// This writer, of which no call has failed.
    pub fn new(writer: W) -> HostSink<W>
        ensures writer { result.writer ≡ writer }
        ensures faults { result.faults ≡ 0 }
    {
        HostSink { writer, faults: 0 }
    }

    /// How many calls have failed.
    pub fn faults(&self) -> u64
        ensures { result ≡ self.now.faults }
    {
        self.faults
    }
}

impl<R: Opens> Shelf for HostShelf<R> {
    ghost state = { λ shelf. record { files = None; read_faults = shelf.read_faults; write_faults = shelf.write_faults } };

    fn read(&mut self, name: &str, at: u64, into: &mut [u8]) -> Result<usize, Failed>
        ensures opened { ReadsOpened (λ opened. R.reads self.old.runtime name.now opened self.new.runtime) R.Reader.stream_position R.Reader.remaining at result into.new }
        ensures count { IfOk result (λ k. k ≤ length into.new) }
        ensures counted { self.new.read_faults ≡ (if is_ok result then self.old.read_faults else risen self.old.read_faults) }
        ensures kept { self.new.write_faults ≡ self.old.write_faults }
    {
        let read = read_once(&mut self.runtime, name, at, into);
        counted(read, &mut self.read_faults)
    }

    fn create(&mut self, name: &str) -> Result<(), Failed>
        ensures made { R.makes self.old.runtime name.now (is_ok result) self.new.runtime }
        ensures counted { self.new.write_faults ≡ (if is_ok result then self.old.write_faults else risen self.old.write_faults) }
        ensures kept { self.new.read_faults ≡ self.old.read_faults }
    {
        let created = self.runtime.make_empty(name);
        counted(created, &mut self.write_faults)
    }

    fn append(&mut self, name: &str, bytes: &[u8]) -> Result<usize, Failed>
        ensures opened { AddsOpened (R.adds self.old.runtime name.now) R.closes R.Writer.contents result bytes.now self.new.runtime }
        ensures count { IfOk result (IsSomeOf bytes.now) }
        ensures counted { self.new.write_faults ≡ (if is_ok result then self.old.write_faults else risen self.old.write_faults) }
        ensures kept { self.new.read_faults ≡ self.old.read_faults }
    {
        let added = append_once(&mut self.runtime, name, bytes);
        counted(added, &mut self.write_faults)
    }
}

impl<W: Write> Sink for HostSink<W> {
    ghost state = { λ sink. record { taken = None; faults = sink.faults } };

    fn take(&mut self, bytes: &[u8]) -> Result<usize, Failed>
        ensures written { WriteAppends (W.contents self.old.writer) (W.contents self.new.writer) result bytes.now }
        ensures count { IfOk result (IsSomeOf bytes.now) }
        ensures counted { self.new.faults ≡ (if is_ok result then self.old.faults else risen self.old.faults) }
    {
        let written = write_some(&mut self.writer, bytes);
        counted(written, &mut self.faults)
    }
}

/// Opens a file and reads of it once.
fn read_once<R: Opens>(runtime: &mut R, name: &str, at: u64, into: &mut [u8]) -> io::Result<usize>
    ensures count { IfOk result (λ k. k ≤ length into.new) }
    ensures opened { ReadsOpened (λ opened. R.reads runtime.old name.now opened runtime.new) R.Reader.stream_position R.Reader.remaining at result into.new }
{
    let mut file = runtime.open_to_read(name)?;
    read_at(&mut file, at, into)
}

/// Reads of a file from a place on, once.
fn read_at<F: Read + Seek>(file: &mut F, at: u64, into: &mut [u8]) -> io::Result<usize>
    ensures count { IfOk result (λ k. k ≤ length into.new) }
    ensures reads { IfOk result (λ k. ReadsAt F.stream_position F.remaining file.old at k into.new file.new) }
{
    file.seek(SeekFrom::Start(at))?;
    file.read(into)
}

/// Opens a file and adds to it once.
fn append_once<R: Opens>(runtime: &mut R, name: &str, bytes: &[u8]) -> io::Result<usize>
    ensures count { IfOk result (IsSomeOf bytes.now) }
    ensures opened { AddsOpened (R.adds runtime.old name.now) R.closes R.Writer.contents result bytes.now runtime.new }
{
    let mut file = runtime.open_to_add(name)?;
    let written = write_some(&mut file, bytes);
    runtime.close(file);
    written
}

/// Writes once. A write that takes nothing of bytes that are some is a failure.
fn write_some<W: Write>(writer: &mut W, bytes: &[u8]) -> io::Result<usize>
    ensures count { IfOk result (IsSomeOf bytes.now) }
    ensures written { WriteAppends (W.contents writer.old) (W.contents writer.new) result bytes.now }
{
    match writer.write(bytes) {
        Ok(0) if !bytes.is_empty() => Err(io::Error::from(io::ErrorKind::WriteZero)),
        written => written,
    }
}
