//! A real file, the real standard output, and an output that is full.

use crate::whole_files::is_read_as;
use shelf_io::{Failed, HostShelf, HostSink, ReadAll, Shelf, Sink, put_all, write_all};
use std::fs;
use std::process::Abort;
use std::rt::Files;
use std::test::Fail;

/// The file that is made, and removed at the end.
const FILE: &str = "shelf_tests_host.tmp";

/// What the file holds.
const TEXT: &str = "delay 0\nleft 0\n";

/// Makes a file of two pieces, of which the first is written twice.
fn try_writes<R: Files>(rt: &impl Abort, shelf: &mut HostShelf<R>) {
    assert_eq!(rt; shelf.append(FILE, b"delay 0\n"), Err(Failed));
    assert_eq!(rt;
        write_all(shelf, FILE, b"delay 0\nleft 0\nleft 0\n"),
        Ok(())
    );
    assert_eq!(rt; write_all(shelf, FILE, b"delay 0\n"), Ok(()));
    assert_eq!(rt; shelf.append(FILE, b"left 0\n"), Ok(7));
}

/// Reads parts of the file.
fn try_parts<F: Shelf>(rt: &impl Abort, shelf: &mut F) -> Result<(), Failed> {
    let mut into = [0; 4];
    for (at, piece) in [(0, "dela"), (13, "0\n"), (15, ""), (16, "")] {
        let count = shelf.read(FILE, at, &mut into)?;
        assert_eq!(rt; &into[..count], piece.as_bytes(), "at {at}");
    }
    Ok(())
}

#[test]
fn a_file_is_made_written_and_read_back(rt: HostRuntime) -> Result<(), Fail> {
    let alloc = rt.alloc();
    let mut shelf = HostShelf::new(&rt);
    let _ = fs::remove_file(&rt, FILE);
    assert!(rt; is_read_as(alloc, &mut shelf, FILE, 100, Err(ReadAll::Fault)));
    try_writes(&rt, &mut shelf);
    try_parts(&rt, &mut shelf)?;
    assert!(rt; is_read_as(alloc, &mut shelf, FILE, 15, Ok(TEXT)));
    assert!(rt; is_read_as(alloc, &mut shelf, FILE, 14, Err(ReadAll::TooLong)));
    assert_eq!(rt; (shelf.read_faults(), shelf.write_faults()), (1, 1));
    fs::remove_file(&rt, FILE)?;
    Ok(())
}

#[test]
fn a_folder_is_not_read_and_none_is_made(rt: HostRuntime) -> Result<(), Fail> {
    let mut shelf = HostShelf::new(&rt);
    assert!(rt; is_read_as(rt.alloc(), &mut shelf, ".", 100, Err(ReadAll::Fault)));
    let placeless = write_all(&mut shelf, "shelf_tests_no_folder/file", b"0");
    assert_eq!(rt; placeless, Err(Failed));
    assert_eq!(rt; (shelf.read_faults(), shelf.write_faults()), (1, 1));
    Ok(())
}

#[test]
fn bytes_go_out(rt: HostRuntime) -> Result<(), Fail> {
    let mut sink = HostSink::new(rt.stdout());
    assert_eq!(rt; sink.take(b"delay 0\n")?, 8);
    put_all(&mut sink, b"left 0\n")?;
    assert_eq!(rt; sink.faults(), 0);
    Ok(())
}

/// Puts fifteen bytes into so much room: what came of it, and how many calls failed.
fn put_into(room: &mut [u8]) -> (Result<(), Failed>, u64) {
    let mut sink = HostSink::new(room);
    let outcome = put_all(&mut sink, TEXT.as_bytes());
    (outcome, sink.faults())
}

#[test]
fn a_full_output_is_a_failure(rt: HostRuntime) -> Result<(), Fail> {
    let mut room = [0; 10];
    assert_eq!(rt; put_into(&mut room), (Err(Failed), 1));
    assert_eq!(rt; room.as_slice(), b"delay 0\nle".as_slice());
    Ok(())
}
