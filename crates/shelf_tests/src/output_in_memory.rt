//! An output in memory of which a call fails.

use listed::{Listed, Memory};
use shelf_io::{Failed, MemorySink, put_all};
use std::alloc::Global;
use std::process::Abort;
use std::test::Fail;

/// Puts a text into a sink that takes four bytes a call, of which one fails, and looks at what was taken.
fn try_put(
    rt: &impl Abort,
    alloc: Global,
    failing: u64,
    put: Result<(), Failed>,
    taken: &str,
) -> Result<(), Memory> {
    let calls = Listed::of(vec![in alloc; failing]?);
    let mut sink = MemorySink::new(alloc, calls, 4);
    let outcome = put_all(&mut sink, b"delay 0\nleft 0\n");
    assert_eq!(rt; outcome, put, "call {failing} fails");
    assert_eq!(rt; sink.bytes(), taken.as_bytes(), "call {failing} fails");
    assert_eq!(rt; sink.faults(), u64::from(put.is_err()));
    Ok(())
}

#[test]
fn a_front_is_taken_up_to_the_call_that_fails(rt: HostRuntime) -> Result<(), Fail> {
    let alloc = rt.alloc();
    try_put(&rt, alloc, 1, Err(Failed), "")?;
    try_put(&rt, alloc, 2, Err(Failed), "dela")?;
    try_put(&rt, alloc, 3, Err(Failed), "delay 0\n")?;
    try_put(&rt, alloc, 5, Ok(()), "delay 0\nleft 0\n")?;
    Ok(())
}
