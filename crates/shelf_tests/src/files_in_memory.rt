//! Files in memory that are read, written and copied, with calls that fail.

ghost use Rattle.std.specs.Prelude.{◌≤◌};

use crate::whole_files::is_read_as;
use listed::{Duplicate, Listed, Memory, Text};
use shelf_io::{Failed, File, FileList, MemoryShelf, ReadAll, Shelf, write_all};
use std::alloc::Global;
use std::process::Abort;
use std::test::Fail;

const TEXT: &str = "delay 0\nleft 0\n";

/// The text in a file that is named `report`.
fn report(alloc: Global) -> Result<FileList, Memory> {
    let mut files = Listed::new(alloc);
    files.push(File {
        name: Text::from_str(alloc, "report")?,
        bytes: Listed::of(Vec::from_slice(alloc, TEXT.as_bytes())?),
    })?;
    Ok(files)
}

/// Reads files whole, so many bytes a call.
fn try_pieces(rt: &impl Abort, alloc: Global, most: usize) -> Result<(), Memory>
    requires { 1 ≤ most }
{
    let mut shelf = MemoryShelf::new(report(alloc)?, Listed::new(alloc), most);
    assert!(rt;
        is_read_as(alloc, &mut shelf, "report", 15, Ok(TEXT)),
        "{most} a call"
    );
    let long = is_read_as(alloc, &mut shelf, "report", 14, Err(ReadAll::TooLong));
    assert!(rt; long, "{most} a call: too long");
    let missing = is_read_as(alloc, &mut shelf, "repor", 15, Err(ReadAll::Fault));
    assert!(rt; missing, "{most} a call: not there");
    assert_eq!(rt; (shelf.read_faults(), shelf.write_faults()), (0, 0));
    Ok(())
}

#[test]
fn pieces_of_any_length_give_the_whole_file(rt: HostRuntime) -> Result<(), Fail> {
    let alloc = rt.alloc();
    try_pieces(&rt, alloc, 1)?;
    try_pieces(&rt, alloc, 2)?;
    try_pieces(&rt, alloc, 7)?;
    try_pieces(&rt, alloc, 65_536)?;
    Ok(())
}

#[test]
fn files_are_copied(rt: HostRuntime) -> Result<(), Fail> {
    let made = report(rt.alloc())?.copy()?;
    assert_eq!(rt; made.len(), 1);
    for file in made.as_slice() {
        assert_eq!(rt; file.name.as_str(), "report");
        assert_eq!(rt; file.bytes.as_slice(), TEXT.as_bytes());
    }
    Ok(())
}

/// The call that fails, the file and the text that is written, and what the file holds then.
type Case = (
    u64,
    &'static str,
    &'static str,
    Result<(), Failed>,
    Option<&'static str>,
);

/// Writes of a shelf that takes four bytes a call.
const WRITES: &[Case] = &[
    (9, "new", TEXT, Ok(()), Some(TEXT)),
    (9, "report", "left 0\n", Ok(()), Some("left 0\n")),
    (9, "report", "", Ok(()), Some("")),
    (1, "new", "left 0\n", Err(Failed), None),
    (1, "report", "left 0\n", Err(Failed), Some(TEXT)),
    (3, "report", "left 0\n", Err(Failed), Some("left")),
];

fn try_write(rt: &impl Abort, alloc: Global, case: &Case) -> Result<(), Memory> {
    let (failing, name, text, outcome, held) = case;
    let calls = Listed::of(vec![in alloc; *failing]?);
    let mut shelf = MemoryShelf::new(report(alloc)?, calls, 4);
    let written = write_all(&mut shelf, name, text.as_bytes());
    assert_eq!(rt; written, *outcome, "{name}: call {failing} fails");
    assert!(rt; holds(&shelf, name, *held), "{name}: call {failing} fails");
    let faults = u64::from(written.is_err());
    assert_eq!(rt; (shelf.read_faults(), shelf.write_faults()), (0, faults));
    Ok(())
}

#[test]
fn a_file_is_written_whole_or_up_to_the_call_that_fails(rt: HostRuntime) -> Result<(), Fail> {
    for case in WRITES {
        try_write(&rt, rt.alloc(), case)?;
    }
    Ok(())
}

/// Adds bytes to a file that is there.
fn append(
    rt: &impl Abort,
    shelf: &mut MemoryShelf,
    name: &str,
    bytes: &[u8],
) -> Result<usize, Failed> {
    assert!(rt; shelf.file(name).is_some());
    shelf.append(name, bytes)
}

/// The file, the bytes that are added or none where it is made empty, and how many are taken.
type Call = (&'static str, &'static str, Result<usize, Failed>);

/// Calls of which the second and the fourth fail.
const CALLS: &[Call] = &[
    ("new", "", Ok(0)),
    ("report", "", Err(Failed)),
    ("new", "left 0\n", Ok(6)),
    ("new", "0", Err(Failed)),
    ("new", "0", Ok(1)),
];

fn try_calls(rt: &impl Abort, shelf: &mut MemoryShelf) {
    for (name, text, taken) in CALLS {
        let outcome = if text.is_empty() {
            shelf.create(name).map(|()| 0)
        } else {
            append(rt, shelf, name, text.as_bytes())
        };
        assert_eq!(rt; outcome, *taken, "{name}: {text}");
    }
}

/// Whether a file is there and holds a text, or is not there.
fn holds(shelf: &MemoryShelf, name: &str, text: Option<&str>) -> bool {
    shelf.file(name) == text.map(|text| text.as_bytes())
}

#[test]
fn listed_calls_fail_and_no_others(rt: HostRuntime) -> Result<(), Fail> {
    let alloc = rt.alloc();
    let failing = Listed::of(vec![in alloc; 2, 4, 7]?);
    let mut shelf = MemoryShelf::new(report(alloc)?, failing, 6);
    try_calls(&rt, &mut shelf);
    let seventh = is_read_as(alloc, &mut shelf, "report", 15, Err(ReadAll::Fault));
    assert!(rt; seventh, "call 7");
    assert!(rt; holds(&shelf, "new", Some("left 00")));
    assert!(rt; holds(&shelf, "report", Some(TEXT)));
    assert_eq!(rt; shelf.create("report"), Ok(()), "call 8");
    assert!(rt; holds(&shelf, "report", Some("")));
    assert!(rt; holds(&shelf, "old", None));
    assert_eq!(rt; (shelf.read_faults(), shelf.write_faults()), (1, 2));
    Ok(())
}
