//! Files and an output in memory, and a run over them.

use crate::top_call::run;
use shelf_io::{
    CallList, File, FileList, Listed, Memory, MemoryShelf, MemorySink, Text, Watched, Words,
};
use std::alloc::Global;
use std::process::Abort;

/// The calls that fail, and the most bytes of a call: on the shelf, and on the sink.
#[derive(Clone, Copy)]
pub struct Calls<'a> {
    pub failing: &'a [u64],
    pub most: usize,
    pub failing_puts: &'a [u64],
    pub most_put: usize,
}

/// No call fails.
pub const ALL_CALLS: Calls<'static> = Calls {
    failing: &[],
    most: 65_536,
    failing_puts: &[],
    most_put: 65_536,
};

/// What a run came to: its status, the shelf with the calls that were made on it, and the sink.
#[derive(Drop)]
pub struct Ran {
    pub status: u8,
    pub shelf: Watched<MemoryShelf>,
    pub out: MemorySink,
}

/// The words of a command line.
fn words_of(alloc: Global, texts: &[&str]) -> Result<Words, Memory> {
    let mut words = Listed::new(alloc);
    for text in texts {
        words.push(Text::from_str(alloc, text)?)?;
    }
    Ok(words)
}

/// The numbers of the calls that fail.
fn calls_of(alloc: Global, numbers: &[u64]) -> Result<CallList, Memory> {
    Ok(Listed::of(Vec::from_slice(alloc, numbers)?))
}

/// The files with their names.
fn files_of(alloc: Global, files: &[(&str, &[u8])]) -> Result<FileList, Memory> {
    let mut list = Listed::new(alloc);
    for (name, bytes) in files {
        list.push(File {
            name: Text::from_str(alloc, name)?,
            bytes: Listed::of(Vec::from_slice(alloc, bytes)?),
        })?;
    }
    Ok(list)
}

/// Runs the words over the files.
pub fn run_over(
    rt: &(impl Abort + AllocGlobal),
    texts: &[&str],
    files: &[(&str, &[u8])],
    calls: &Calls<'_>,
) -> Result<Ran, Memory> {
    let alloc = rt.alloc();
    assert!(rt; calls.most >= 1 && calls.most_put >= 1);
    let words = words_of(alloc, texts)?;
    let failing = calls_of(alloc, calls.failing)?;
    let shelf = MemoryShelf::new(files_of(alloc, files)?, failing, calls.most);
    let mut shelf = Watched::new(alloc, shelf);
    let failing = calls_of(alloc, calls.failing_puts)?;
    let mut out = MemorySink::new(alloc, failing, calls.most_put);
    let status = run(alloc, &words, &mut shelf, &mut out);
    Ok(Ran { status, shelf, out })
}

/// Runs the words over the files, and compares the status and what was put. The files stay as they were.
pub fn try_run(
    rt: &(impl Abort + AllocGlobal),
    texts: &[&str],
    files: &[(&str, &[u8])],
    calls: &Calls<'_>,
    status: u8,
    put: &str,
) -> Result<(), Memory> {
    let ran = run_over(rt, texts, files, calls)?;
    assert_eq!(rt; ran.status, status, "{put}");
    assert_eq!(rt; ran.out.bytes(), put.as_bytes(), "{put}");
    for (name, bytes) in files {
        assert!(rt; ran.shelf.shelf().file(name) == Some(*bytes), "{put}");
    }
    Ok(())
}
