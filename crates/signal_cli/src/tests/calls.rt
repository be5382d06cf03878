//! Calls that fail, words of no form, and files that are missing or too long.

use crate::tests::examples::{CROSSING, FIRST_PLAN, ONE_LINK};
use crate::tests::world::{ALL_CALLS, Calls, try_run};
use std::test::Fail;

/// The files of these runs: two networks, a plan for the second, and a file that is no network.
fn files() -> [(&'static str, &'static [u8]); 4] {
    [
        ("link", ONE_LINK.as_bytes()),
        ("crossing", CROSSING.as_bytes()),
        ("plan", FIRST_PLAN.as_bytes()),
        ("empty", b""),
    ]
}

/// The words of a run, the status that comes of it, and what is put.
const RUNS: &[(&[&str], u8, &str)] = &[
    (&["replay", "link"], 0, "delay 0\nleft 0\n"),
    (&["replay", "crossing", "plan"], 0, "delay 1\nleft 0\n"),
    (&[], 2, "words\n"),
    (&["replay"], 2, "words\n"),
    (&["replay", ""], 2, "words\n"),
    (&["reply", "link"], 2, "words\n"),
    (&["replay", "crossing", ""], 2, "words\n"),
    (&["replay", "", "plan"], 2, "words\n"),
    (&["replay", "link", "link"], 2, "words\n"),
    (&["replay", "nothing", "nothing"], 2, "words\n"),
    (&["replay", "crossing", "plan", "link"], 2, "words\n"),
    (&["trace", "crossing", "plan"], 2, "words\n"),
    (&["trace", "crossing", "plan", "out", "more"], 2, "words\n"),
    (&["program", "crossing"], 2, "words\n"),
    (&["program", "crossing", "out", "more"], 2, "words\n"),
    (&["check", "crossing"], 2, "words\n"),
    (&["gap", "crossing", "plan"], 2, "words\n"),
    (&["solve", "crossing", "1", "out"], 2, "words\n"),
    (&["study", "7"], 2, "words\n"),
    (&["replay", "nothing"], 6, "read fault\n"),
    (&["replay", "nothing", "plan"], 6, "read fault\n"),
    (&["replay", "crossing", "nothing"], 6, "read fault\n"),
    (&["replay", "empty", "nothing"], 3, "network format\n"),
    (&["replay", "plan", "crossing"], 3, "network toml\n"),
    (&["replay", "crossing", "empty"], 4, "plan form 1\n"),
    (&["replay", "crossing", "link"], 4, "plan form 1\n"),
];

/// The words of two runs, of which the second reads four times.
const ALONE: &[&str] = &["replay", "link"];

const PLANNED: &[&str] = &["replay", "crossing", "plan"];

/// The words of a run, the reads and the puts that fail, the most bytes of a call, the status that comes of it, and what
/// is put.
type Failing = (
    &'static [&'static str],
    &'static [u64],
    &'static [u64],
    usize,
    u8,
    &'static str,
);

const FAILING: &[Failing] = &[
    (ALONE, &[], &[], 1, 0, "delay 0\nleft 0\n"),
    (ALONE, &[], &[2], 4, 7, "dela"),
    (PLANNED, &[], &[], 1, 0, "delay 1\nleft 0\n"),
    (PLANNED, &[], &[], 7, 0, "delay 1\nleft 0\n"),
    (PLANNED, &[1], &[], 65_536, 6, "read fault\n"),
    (PLANNED, &[2], &[], 65_536, 6, "read fault\n"),
    (PLANNED, &[3], &[], 65_536, 6, "read fault\n"),
    (PLANNED, &[4], &[], 65_536, 6, "read fault\n"),
    (PLANNED, &[5], &[], 65_536, 0, "delay 1\nleft 0\n"),
    (PLANNED, &[1], &[2], 4, 6, "read"),
    (PLANNED, &[], &[1], 65_536, 7, ""),
    (PLANNED, &[], &[4], 4, 7, "delay 1\nleft"),
];

/// Lengths of a file of spaces, and what comes of it as a network and as a plan.
const SPACES: &[(usize, &str, &str)] = &[
    (1_048_576, "network format\n", "plan form 1\n"),
    (1_048_577, "network long\n", "plan long\n"),
];

#[test]
fn words_and_files(rt: HostRuntime) -> Result<(), Fail> {
    for (words, status, put) in RUNS {
        try_run(&rt, words, &files(), &ALL_CALLS, *status, put)?;
    }
    Ok(())
}

#[test]
fn calls_that_fail(rt: HostRuntime) -> Result<(), Fail> {
    for (words, failing, failing_puts, most, status, put) in FAILING {
        let calls = Calls {
            failing,
            most: *most,
            failing_puts,
            most_put: *most,
        };
        try_run(&rt, words, &files(), &calls, *status, put)?;
    }
    Ok(())
}

#[test]
fn files_that_are_too_long(rt: HostRuntime) -> Result<(), Fail> {
    for (length, network, plan) in SPACES {
        let spaces = vec![in rt.alloc(); b' '; *length]?;
        let files = [
            ("spaces", spaces.as_slice()),
            ("crossing", CROSSING.as_bytes()),
        ];
        try_run(&rt, &["replay", "spaces"], &files, &ALL_CALLS, 3, network)?;
        try_run(
            &rt,
            &["replay", "crossing", "spaces"],
            &files,
            &ALL_CALLS,
            4,
            plan,
        )?;
    }
    Ok(())
}
