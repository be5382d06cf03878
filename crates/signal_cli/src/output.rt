//! What is written and put at the end of a run, and the status that comes of it.

ghost use Rattle.std.specs.Prelude.{◌≡◌, Ok, Err, OnOk, OnErr, codes};
ghost use Rattle.signal_cli.specs.inner.Causes.{CarriesOut};
ghost use Rattle.signal_cli.specs.Faults.{line};
ghost use Rattle.signal_cli.specs.Worlds.{PutsAsFar, StopsInFiles, with_files, world};

use crate::fault::Fault;
use crate::fault_line::line_of;
use crate::reply::Reply;
use shelf_io::{Failed, File, Shelf, Sink, put_all, write_all};
use std::alloc::Global;

/// The status of a command that was done.
const DONE: u8 = 0;

/// The status where a file that was judged is not accepted.
const REJECTED: u8 = 1;

/// The status of words of no form.
const NO_FORM: u8 = 2;

/// The status where an answer was not written whole.
const WRITE_FAULT: u8 = 7;

/// Writes what a command answers, all files before any line, and answers its status, or 7 where a write or a put failed. Where there is a
/// fault in its place, puts its line, and answers the fault's status whether the line was put whole or not.
pub fn carry_out<F: Shelf, K: Sink>(
    alloc: Global,
    shelf: &mut F,
    out: &mut K,
    found: Result<Reply, Fault>,
) -> u8
    ensures { CarriesOut found (world (F.state shelf.old) (K.state out.old)) (world (F.state shelf.new) (K.state out.new)) result }
{
    match found {
        Ok(reply) => write_reply(shelf, out, &reply),
        Err(fault) => put_fault(alloc, shelf, out, fault),
    }
}

/// Writes the files of a reply, and then puts its lines. It takes no memory.
fn write_reply<F: Shelf, K: Sink>(shelf: &mut F, out: &mut K, reply: &Reply) -> u8
    ensures { CarriesOut (Ok reply.now) (world (F.state shelf.old) (K.state out.old)) (world (F.state shelf.new) (K.state out.new)) result }
{
    if write_files(shelf, reply.outputs.as_slice()).is_err() {
        return WRITE_FAULT;
    }
    if put_all(out, reply.lines.as_str().as_bytes()).is_err() {
        return WRITE_FAULT;
    }
    if reply.rejected { REJECTED } else { DONE }
}

/// Writes files one after another, up to the first write that fails.
fn write_files<F: Shelf>(shelf: &mut F, files: &[File]) -> Result<(), Failed>
    ensures ok { OnOk result (F.state shelf.new ≡ with_files (F.state shelf.old) files.now) }
    ensures err { OnErr result (StopsInFiles (F.state shelf.old) files.now (F.state shelf.new)) }
{
    for file in files {
        write_all(shelf, file.name.as_str(), file.bytes.as_slice())?;
    }
    Ok(())
}

/// Puts the line of a fault, or that memory was wanting for it. The line of a read fault takes none.
#[tactic(auto, unfolding(crate::specs::Faults::line_of))]
fn put_fault<F: Shelf, K: Sink>(alloc: Global, shelf: &F, out: &mut K, fault: Fault) -> u8
    ensures { CarriesOut (Err fault) (world (F.state shelf.now) (K.state out.old)) (world (F.state shelf.now) (K.state out.new)) result }
{
    if let Fault::Read = fault {
        put_line(out, "read fault\n");
        return fault.status();
    }
    match line_of(alloc, fault) {
        Ok(line) => {
            put_line(out, line.as_str());
            fault.status()
        }
        Err(_) => {
            put_line(out, "want of memory\n");
            Fault::Memory.status()
        }
    }
}

/// Puts the line of words of no form.
pub fn put_words<K: Sink>(out: &mut K) -> u8
    ensures status { result ≡ 2 }
    ensures line { PutsAsFar (K.state out.old) (line (codes "words")) (K.state out.new) }
{
    put_line(out, "words\n");
    NO_FORM
}

/// Puts a line, as far as puts do not fail.
fn put_line<K: Sink>(out: &mut K, line: &str)
    ensures { PutsAsFar (K.state out.old) line.now (K.state out.new) }
{
    let _ = put_all(out, line.as_bytes());
}
