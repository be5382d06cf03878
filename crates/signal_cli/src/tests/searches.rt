//! Searches: the budget as a word, the two files that a search writes, and each of its calls failing.

use crate::tests::examples::{CROSSING, ONE_CELL};
use crate::tests::runs::told;
use crate::tests::world::{ALL_CALLS, Calls, run_over, try_run};
use std::test::Fail;

/// What is put for the network of one cell.
const LINES: &str = "delay 1\nbound 1\nnodes 1\nstate optimal\n";

/// The plan of a network without signals, and a certificate of the one cell.
const PLAN: &str = "ctm-plan 1\nend\n";

const CERTIFICATE: &str = "ctm-cert 1\nbound 1\nfixed\nend\n";

/// All calls of such a search.
const CALLS_OF_SEARCH: &str =
    "cell 0, cell 73, create out, append out 15, create proof, append proof 29, ";

/// A word in the place of a budget, the status that comes of it for the network of one cell, and what is put.
const BUDGETS: &[(&str, u8, &str)] = &[
    ("1", 0, LINES),
    ("1600000", 0, LINES),
    ("1600001", 5, "too large 5\n"),
    ("4294967295", 5, "too large 5\n"),
    ("4294967296", 2, "words\n"),
    ("18446744073709551617", 2, "words\n"),
    ("0", 2, "words\n"),
    ("01", 2, "words\n"),
    ("+1", 2, "words\n"),
    ("1 ", 2, "words\n"),
    ("one", 2, "words\n"),
    ("", 2, "words\n"),
];

/// The names of the network, of the plan and of the certificate, and the status that comes of them.
const NAMES: &[(&str, &str, &str, u8, &str)] = &[
    ("cell", "out", "out", 2, "words\n"),
    ("cell", "cell", "proof", 2, "words\n"),
    ("cell", "out", "cell", 2, "words\n"),
    ("", "out", "proof", 2, "words\n"),
    ("cell", "", "proof", 2, "words\n"),
    ("cell", "out", "", 2, "words\n"),
    ("nothing", "out", "proof", 6, "read fault\n"),
    ("plan", "out", "proof", 3, "network toml\n"),
];

/// The calls on the shelf and the puts that fail, the most bytes of a put, the status that comes of it, what is put, and what the files
/// of the plan and of the certificate hold then.
type Stopped = (
    &'static [u64],
    &'static [u64],
    usize,
    u8,
    &'static str,
    Option<&'static str>,
    Option<&'static str>,
);

const STOPPED: &[Stopped] = &[
    (&[], &[], 65_536, 0, LINES, Some(PLAN), Some(CERTIFICATE)),
    (&[], &[], 4, 0, LINES, Some(PLAN), Some(CERTIFICATE)),
    (&[1], &[], 65_536, 6, "read fault\n", None, None),
    (&[2], &[], 65_536, 6, "read fault\n", None, None),
    (&[3], &[], 65_536, 7, "", None, None),
    (&[4], &[], 65_536, 7, "", Some(""), None),
    (&[5], &[], 65_536, 7, "", Some(PLAN), None),
    (&[6], &[], 65_536, 7, "", Some(PLAN), Some("")),
    (&[], &[1], 65_536, 7, "", Some(PLAN), Some(CERTIFICATE)),
    (&[], &[3], 4, 7, "delay 1\n", Some(PLAN), Some(CERTIFICATE)),
];

#[test]
fn budgets(rt: HostRuntime) -> Result<(), Fail> {
    let files = [("cell", ONE_CELL.as_bytes())];
    for (budget, status, put) in BUDGETS {
        let words = ["solve", "cell", *budget, "out", "proof"];
        try_run(&rt, &words, &files, &ALL_CALLS, *status, put)?;
    }
    Ok(())
}

#[test]
fn names(rt: HostRuntime) -> Result<(), Fail> {
    let files = [("cell", ONE_CELL.as_bytes()), ("plan", PLAN.as_bytes())];
    for (network, plan, certificate, status, put) in NAMES {
        let words = ["solve", *network, "1", *plan, *certificate];
        try_run(&rt, &words, &files, &ALL_CALLS, *status, put)?;
    }
    Ok(())
}

#[test]
fn searches_that_stop(rt: HostRuntime) -> Result<(), Fail> {
    let files = [("cell", ONE_CELL.as_bytes())];
    let words = ["solve", "cell", "1", "out", "proof"];
    for (failing, failing_puts, most_put, status, put, plan, certificate) in STOPPED {
        let calls = Calls {
            failing,
            failing_puts,
            most_put: *most_put,
            ..ALL_CALLS
        };
        let ran = run_over(&rt, &words, &files, &calls)?;
        let shelf = ran.shelf.shelf();
        assert_eq!(rt; ran.status, *status);
        assert_eq!(rt; ran.out.bytes(), put.as_bytes());
        assert!(rt; shelf.file("out") == plan.map(|text| text.as_bytes()));
        assert!(rt; shelf.file("proof") == certificate.map(|text| text.as_bytes()));
    }
    Ok(())
}

#[test]
fn a_search_makes_these_calls_and_no_others(rt: HostRuntime) -> Result<(), Fail> {
    let files = [("cell", ONE_CELL.as_bytes())];
    let words = ["solve", "cell", "1", "out", "proof"];
    let ran = run_over(&rt, &words, &files, &ALL_CALLS)?;
    let calls = told(&rt, rt.alloc(), ran.shelf.calls())?;
    assert_eq!(rt; calls.as_str(), CALLS_OF_SEARCH);
    Ok(())
}

#[test]
fn what_a_search_writes_is_accepted(rt: HostRuntime) -> Result<(), Fail> {
    let files = [("crossing", CROSSING.as_bytes())];
    let words = ["solve", "crossing", "31", "out", "proof"];
    let ran = run_over(&rt, &words, &files, &ALL_CALLS)?;
    assert_eq!(rt; ran.status, 0);
    let out = ran.out.bytes();
    assert!(rt; out.starts_with(b"delay 1\nbound 1\nnodes "));
    assert!(rt; out.ends_with(b"\nstate optimal\n"));
    let shelf = ran.shelf.shelf();
    let files = [
        ("crossing", CROSSING.as_bytes()),
        ("out", shelf.file("out").unwrap_or(b"")),
        ("proof", shelf.file("proof").unwrap_or(b"")),
    ];
    let words = ["gap", "crossing", "out", "proof"];
    let put = "delay 1\nbound 1\ngap 0\npermille 0\n";
    try_run(&rt, &words, &files, &ALL_CALLS, 0, put)?;
    Ok(())
}
