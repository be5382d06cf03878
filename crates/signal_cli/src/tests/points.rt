//! Points of the crossing, of one cell and of two links: what is put of them, and all calls that such a run makes.

use crate::tests::examples::{CROSSING, LONG_LINK, ONE_CELL, TWO_LINKS};
use crate::tests::runs::{Run, try_runs};
use crate::tests::world::{ALL_CALLS, try_run};
use std::alloc::{AllocError, Global};
use std::test::Fail;

/// The point of the first plan of the crossing.
const POINT: &str =
    "ctm-point 1\n1\n0\n0\n1\n1\n0\n1\n1\n1\n0\n0\n1\n0\n1\n0\n0\n0\n0\n0\n1\n0\n0\n1\n0\n0\n1\n1\n1\n0\n0\n1\n1\n1\n0\n0\n0\n0\n1\n0\n0\n0\n1\n0\n0\n1\n1\n1\n0\nend\n";

/// What is put of it: the first plan with its delay.
const SHOWN: &str = "point\ndelay 1\nctm-plan 1\nsignal s\na 1\nb 1\na 1\nend\n";

/// The words of a run over it.
const CALL: &[&str] = &["point", "crossing", "point"];

/// What a point puts whose line 2 is of no form.
const BROKEN: &str = "rejected\nwhy form\nat 2\n";

const RUNS: &[Run] = &[
    (
        CALL,
        &[],
        &[],
        65_536,
        0,
        SHOWN,
        None,
        "crossing 0, crossing 373, point 0, point 112, ",
    ),
    (
        CALL,
        &[1],
        &[],
        65_536,
        6,
        "read fault\n",
        None,
        "crossing 0, ",
    ),
    (
        CALL,
        &[2],
        &[],
        65_536,
        6,
        "read fault\n",
        None,
        "crossing 0, crossing 373, ",
    ),
    (
        CALL,
        &[3],
        &[],
        65_536,
        6,
        "read fault\n",
        None,
        "crossing 0, crossing 373, point 0, ",
    ),
    (
        CALL,
        &[4],
        &[],
        65_536,
        6,
        "read fault\n",
        None,
        "crossing 0, crossing 373, point 0, point 112, ",
    ),
    (
        CALL,
        &[],
        &[1],
        65_536,
        7,
        "",
        None,
        "crossing 0, crossing 373, point 0, point 112, ",
    ),
    (
        CALL,
        &[7],
        &[],
        100,
        6,
        "read fault\n",
        None,
        "crossing 0, crossing 100, crossing 200, crossing 300, crossing 373, point 0, point 100, ",
    ),
    (
        &["point", "cell", "broken"],
        &[],
        &[],
        65_536,
        1,
        BROKEN,
        None,
        "cell 0, cell 73, broken 0, broken 25, ",
    ),
    (
        &["point", "cell", "broken"],
        &[],
        &[1],
        65_536,
        7,
        "",
        None,
        "cell 0, cell 73, broken 0, broken 25, ",
    ),
    (
        &["point", "cell", "nothing"],
        &[],
        &[],
        65_536,
        6,
        "read fault\n",
        None,
        "cell 0, cell 73, nothing 0, ",
    ),
    (
        &["point", "nothing", "point"],
        &[],
        &[],
        65_536,
        6,
        "read fault\n",
        None,
        "nothing 0, ",
    ),
    (
        &["point", "point", "nothing"],
        &[],
        &[],
        65_536,
        3,
        "network toml\n",
        None,
        "point 0, point 112, ",
    ),
    (
        &["point", "long", "nothing"],
        &[],
        &[],
        65_536,
        5,
        "too large 490784\n",
        None,
        "long 0, long 85, ",
    ),
    (
        &["point", "cell", "cell"],
        &[],
        &[],
        65_536,
        2,
        "words\n",
        None,
        "",
    ),
    (
        &["point", "", "point"],
        &[],
        &[],
        65_536,
        2,
        "words\n",
        None,
        "",
    ),
    (
        &["point", "cell", ""],
        &[],
        &[],
        65_536,
        2,
        "words\n",
        None,
        "",
    ),
    (&["point", "cell"], &[], &[], 65_536, 2, "words\n", None, ""),
    (
        &["point", "cell", "point", "more"],
        &[],
        &[],
        65_536,
        2,
        "words\n",
        None,
        "",
    ),
];

/// Files that stand for the point of the one cell, the status, and what is put of them.
const OF_THE_CELL: &[(&str, u8, &str)] = &[
    (
        "ctm-point 1\n3\n2\n1\n0\nend\n",
        0,
        "point\ndelay 1\nctm-plan 1\nend\n",
    ),
    ("", 1, "rejected\nwhy form\nat 1\n"),
    ("ctm-point 1", 1, "rejected\nwhy form\nat 1\n"),
    ("ctm-plan 1\nend\n", 1, "rejected\nwhy form\nat 1\n"),
    (
        "ctm-point 1\n+3\n2\n1\n0\nend\n",
        1,
        "rejected\nwhy form\nat 2\n",
    ),
    (
        "ctm-point 1\n3\n2\n1\n-0\nend\n",
        1,
        "rejected\nwhy form\nat 5\n",
    ),
    (
        "ctm-point 1\n3\n007\n1\n0\nend\n",
        1,
        "rejected\nwhy form\nat 3\n",
    ),
    (
        "ctm-point 1\n3\n2\n1\n0\nend",
        1,
        "rejected\nwhy form\nat 6\n",
    ),
    ("ctm-point 1\n3\n2\n1\n0\n", 1, "rejected\nwhy form\nat 6\n"),
    (
        "ctm-point 1\n3\n2\n1\n0\nend\n\n",
        1,
        "rejected\nwhy form\nat 7\n",
    ),
    (
        "ctm-point 1\n3\n2\n1 0\nend\n",
        1,
        "rejected\nwhy form\nat 4\n",
    ),
    (
        "ctm-point 1\n9999999999999999\n2\n1\n0\nend\n",
        1,
        "rejected\nwhy form\nat 2\n",
    ),
    (
        "ctm-point 1\n999999999999999\n2\n1\n0\nend\n",
        1,
        "rejected\nwhy column\nat 0\n",
    ),
    (
        "ctm-point 1\n3\n2\n1\n-999999999999999\nend\n",
        1,
        "rejected\nwhy column\nat 3\n",
    ),
    ("ctm-point 1\nend\n", 1, "rejected\nwhy length\nat 0\n"),
    (
        "ctm-point 1\n3\n2\n1\nend\n",
        1,
        "rejected\nwhy length\nat 3\n",
    ),
    (
        "ctm-point 1\n3\n2\n1\n0\n0\nend\n",
        1,
        "rejected\nwhy length\nat 5\n",
    ),
    (
        "ctm-point 1\n3\n1\n1\n0\nend\n",
        1,
        "rejected\nwhy row\nat 3\n",
    ),
    (
        "ctm-point 1\n3\n1\n0\n1\nend\n",
        1,
        "rejected\nwhy row\nat 4\n",
    ),
    (
        "ctm-point 1\n3\n2\n1\n1\nend\n",
        1,
        "rejected\nwhy row\nat 0\n",
    ),
];

/// The values of the crossing's point, each of one digit, changed, and what is put of them.
const OF_THE_CROSSING: &[(&str, &str)] = &[
    (
        "100110110101010000010010011100111000010001001110",
        "rejected\nwhy row\nat 10\n",
    ),
    (
        "102110111001010000010010011100111000010001001110",
        "rejected\nwhy column\nat 2\n",
    ),
    (
        "10011011100101000001001001110011100001000100111",
        "rejected\nwhy length\nat 47\n",
    ),
    (
        "1001101110010100000100100111001110000100010011100",
        "rejected\nwhy length\nat 49\n",
    ),
];

/// The text of a point whose values have one digit each.
fn point_of(alloc: Global, digits: &str) -> Result<String, AllocError> {
    let mut text = String::from_str(alloc, "ctm-point 1\n")?;
    for digit in digits.chars() {
        text.push(digit)?;
        text.push('\n')?;
    }
    text.push_str("end\n")?;
    Ok(text)
}

/// Lengths of a file of zeros, and what is put of it as a point.
const LENGTHS: &[(usize, &str)] = &[
    (16_777_216, "rejected\nwhy form\nat 1\n"),
    (16_777_217, "rejected\nwhy long\nat 0\n"),
];

#[test]
fn points_are_decoded_by_these_calls(rt: HostRuntime) -> Result<(), Fail> {
    let files = [
        ("cell", ONE_CELL.as_bytes()),
        ("crossing", CROSSING.as_bytes()),
        ("long", LONG_LINK.as_bytes()),
        ("point", POINT.as_bytes()),
        ("broken", "ctm-point 1\n+3\n2\n1\n0\nend\n".as_bytes()),
    ];
    try_runs(&rt, RUNS, &files)?;
    Ok(())
}

#[test]
fn points_of_a_cell(rt: HostRuntime) -> Result<(), Fail> {
    for (point, status, put) in OF_THE_CELL {
        let files = [("n", ONE_CELL.as_bytes()), ("p", point.as_bytes())];
        try_run(&rt, &["point", "n", "p"], &files, &ALL_CALLS, *status, put)?;
    }
    Ok(())
}

#[test]
fn changed_points_of_a_crossing(rt: HostRuntime) -> Result<(), Fail> {
    for (digits, put) in OF_THE_CROSSING {
        let point = point_of(rt.alloc(), digits)?;
        let files = [("n", CROSSING.as_bytes()), ("p", point.as_bytes())];
        try_run(&rt, &["point", "n", "p"], &files, &ALL_CALLS, 1, put)?;
    }
    let files = [("n", TWO_LINKS.as_bytes()), ("p", POINT.as_bytes())];
    try_run(
        &rt,
        &["point", "n", "p"],
        &files,
        &ALL_CALLS,
        1,
        "rejected\nwhy length\nat 48\n",
    )?;
    Ok(())
}

#[test]
fn points_that_are_long(rt: HostRuntime) -> Result<(), Fail> {
    for (length, put) in LENGTHS {
        let zeros = vec![in rt.alloc(); b'0'; *length]?;
        let files = [("n", ONE_CELL.as_bytes()), ("p", zeros.as_slice())];
        try_run(&rt, &["point", "n", "p"], &files, &ALL_CALLS, 1, put)?;
    }
    Ok(())
}
