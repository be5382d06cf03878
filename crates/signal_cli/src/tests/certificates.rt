//! Certificates of the crossing and of one cell: what is put of them in pieces of any length, and all calls that such a run makes.

use crate::tests::examples::{CROSSING, LONG_LINK, ONE_CELL};
use crate::tests::runs::{Run, try_runs};
use crate::tests::world::{ALL_CALLS, Calls, try_run};
use std::alloc::{AllocError, Global};
use std::test::Fail;

/// A plan of the crossing with delay 2.
const PLAN: &str = "ctm-plan 1\nsignal s\na 2\nb 1\nend\n";

/// The nodes of a tree of boxes over the plans of the crossing. They show that no plan has a delay below 1.
const NODES: &[&str] = &[
    "split 2 0",
    "split 3 0",
    "empty 5 1",
    "split 4 0",
    "split 5 0",
    "empty 8 1",
    "fixed",
    "split 5 0",
    "fixed",
    "empty 8 -1",
    "split 3 0",
    "split 4 0",
    "split 5 0",
    "empty 8 1",
    "fixed",
    "empty 3 1",
    "empty 5 -1",
];

/// The words of two runs.
const CHECK: &[&str] = &["check", "crossing", "cert"];

const GAP: &[&str] = &["gap", "crossing", "plan", "cert"];

const RUNS: &[Run] = &[
    (
        CHECK,
        &[],
        &[],
        65_536,
        0,
        "accepted\nbound 1\n",
        None,
        "crossing 0, crossing 373, cert 0, cert 183, ",
    ),
    (
        CHECK,
        &[7],
        &[],
        100,
        6,
        "read fault\n",
        None,
        "crossing 0, crossing 100, crossing 200, crossing 300, crossing 373, cert 0, cert 100, ",
    ),
    (
        GAP,
        &[],
        &[],
        65_536,
        0,
        "delay 2\nbound 1\ngap 1\npermille 500\n",
        None,
        "crossing 0, crossing 373, plan 0, plan 32, cert 0, cert 183, ",
    ),
    (
        GAP,
        &[],
        &[],
        100,
        0,
        "delay 2\nbound 1\ngap 1\npermille 500\n",
        None,
        "crossing 0, crossing 100, crossing 200, crossing 300, crossing 373, plan 0, plan 32, cert 0, cert 100, cert 183, ",
    ),
    (
        &["gap", "crossing", "cert", "plan"],
        &[],
        &[],
        65_536,
        4,
        "plan form 1\n",
        None,
        "crossing 0, crossing 373, cert 0, cert 183, ",
    ),
    (
        &["gap", "crossing", "plan", "nothing"],
        &[],
        &[],
        65_536,
        6,
        "read fault\n",
        None,
        "crossing 0, crossing 373, plan 0, plan 32, nothing 0, ",
    ),
    (
        &["check", "long", "nothing"],
        &[],
        &[],
        65_536,
        5,
        "too large 490784\n",
        None,
        "long 0, long 85, ",
    ),
    (
        &["gap", "crossing", "plan", "plan"],
        &[],
        &[],
        65_536,
        2,
        "words\n",
        None,
        "",
    ),
];

/// A network, the bound of a text, how many of the nodes it has, and what stands behind them; the status that comes of it as a
/// certificate of the network, and what is put.
type Judged = (&'static str, u64, usize, &'static str, u8, &'static str);

const JUDGED: &[Judged] = &[
    ("crossing", 1, 17, "end\n", 0, "accepted\nbound 1\n"),
    (
        "crossing",
        2,
        17,
        "end\n",
        1,
        "rejected\nline 9\nwhy weak\nvalue 1\n",
    ),
    (
        "crossing",
        1,
        15,
        "empty 3 -1\n",
        1,
        "rejected\nline 18\nwhy sign\n",
    ),
    (
        "crossing",
        1,
        2,
        "empty 5 0\n",
        1,
        "rejected\nline 5\nwhy form\n",
    ),
    (
        "crossing",
        1,
        2,
        "empty 5 01\n",
        1,
        "rejected\nline 5\nwhy form\n",
    ),
    (
        "crossing",
        1,
        5,
        "fixed\n",
        1,
        "rejected\nline 8\nwhy notplan\n",
    ),
    (
        "crossing",
        1,
        2,
        "fixed\n",
        1,
        "rejected\nline 5\nwhy notfixed\n",
    ),
    ("crossing", 1, 17, "", 1, "rejected\nline 20\nwhy form\n"),
    (
        "crossing",
        1,
        17,
        "end\nx",
        1,
        "rejected\nline 21\nwhy tail\n",
    ),
    ("cell", 1, 0, "priced\nend\n", 0, "accepted\nbound 1\n"),
    (
        "cell",
        2,
        0,
        "priced\nend\n",
        1,
        "rejected\nline 3\nwhy weak\nvalue 1\n",
    ),
    ("cell", 1, 0, "priced 2 1\nend\n", 0, "accepted\nbound 1\n"),
    (
        "cell",
        1,
        0,
        "priced 2 1024\nend\n",
        1,
        "rejected\nline 3\nwhy weak\nvalue 0\n",
    ),
    (
        "cell",
        1,
        0,
        "empty 0 1\nend\n",
        1,
        "rejected\nline 3\nwhy notempty\nvalue -1\n",
    ),
    (
        "cell",
        1,
        0,
        "empty\nend\n",
        1,
        "rejected\nline 3\nwhy notempty\nvalue 0\n",
    ),
    ("cell", 1, 0, "fixed\nend\n", 0, "accepted\nbound 1\n"),
    (
        "cell",
        1,
        0,
        "priced 5 1\nend\n",
        1,
        "rejected\nline 3\nwhy row\n",
    ),
    (
        "cell",
        1,
        0,
        "priced 2 1 1 1\nend\n",
        1,
        "rejected\nline 3\nwhy order\n",
    ),
    (
        "cell",
        1,
        0,
        "priced 2 1099511627777\nend\n",
        1,
        "rejected\nline 3\nwhy price\n",
    ),
    (
        "cell",
        1,
        0,
        "priced 2 -1\nend\n",
        1,
        "rejected\nline 3\nwhy sign\n",
    ),
];

/// The most bytes that a read gives. With ten the first line is cut between its letters and its line feed.
const PIECES: &[usize] = &[1, 2, 7, 10, 65_536];

/// How many reads of at most 64 bytes `gap` makes: seven of the network, two of the plan and four of the certificate.
const READS: u64 = 13;

/// The text of a certificate with a bound, so many of the nodes, and what stands behind them.
fn certificate(
    alloc: Global,
    bound: u64,
    nodes: usize,
    behind: &str,
) -> Result<String, AllocError> {
    let mut text = format!(in alloc; "ctm-cert 1\nbound {bound}\n")?;
    for node in NODES.iter().take(nodes) {
        text.push_str(node)?;
        text.push_str("\n")?;
    }
    text.push_str(behind)?;
    Ok(text)
}

#[test]
fn certificates_are_read_by_these_calls(rt: HostRuntime) -> Result<(), Fail> {
    let accepted = certificate(rt.alloc(), 1, NODES.len(), "end\n")?;
    let files = [
        ("crossing", CROSSING.as_bytes()),
        ("long", LONG_LINK.as_bytes()),
        ("plan", PLAN.as_bytes()),
        ("cert", accepted.as_bytes()),
    ];
    try_runs(&rt, RUNS, &files)?;
    Ok(())
}

#[test]
fn certificates_are_judged_in_pieces(rt: HostRuntime) -> Result<(), Fail> {
    for (network, bound, nodes, behind, status, put) in JUDGED {
        let text = certificate(rt.alloc(), *bound, *nodes, behind)?;
        let files = [
            ("crossing", CROSSING.as_bytes()),
            ("cell", ONE_CELL.as_bytes()),
            ("cert", text.as_bytes()),
        ];
        for most in PIECES {
            let calls = Calls {
                most: *most,
                ..ALL_CALLS
            };
            try_run(
                &rt,
                &["check", network, "cert"],
                &files,
                &calls,
                *status,
                put,
            )?;
        }
    }
    Ok(())
}

#[test]
fn each_read_of_a_run_may_fail(rt: HostRuntime) -> Result<(), Fail> {
    let accepted = certificate(rt.alloc(), 1, NODES.len(), "end\n")?;
    let files = [
        ("crossing", CROSSING.as_bytes()),
        ("plan", PLAN.as_bytes()),
        ("cert", accepted.as_bytes()),
    ];
    for read in 1..=READS {
        let calls = Calls {
            failing: &[read],
            most: 64,
            ..ALL_CALLS
        };
        try_run(&rt, GAP, &files, &calls, 6, "read fault\n")?;
    }
    Ok(())
}
