//! The program of a network and the point of a plan as files: whole, or as far as calls did not fail; and all calls that such
//! a run makes.

use crate::tests::examples::{CROSSING, FIRST_PLAN, INTERSECTION, LONG_LINK, ONE_CELL, TWO_LINKS};
use crate::tests::runs::{Run, try_runs};
use crate::tests::world::{ALL_CALLS, try_run};
use std::test::Fail;

/// The program of the one cell.
const CELL_PROGRAM: &str =
    "ctm-program 1\ncolumns 4 0\n3 3 1\n0 2 -1\n0 1 0\n0 1 0\nrows 5\neq 1 2:1 3:1\nge -2 1:-1 3:-1\nge 0 0:1 1:-1\nge 0 1:1 2:-2\nge -3 0:-1 1:1 3:-3\nend\n";

/// The point of the first plan of the crossing.
const CROSSING_POINT: &str =
    "ctm-point 1\n1\n0\n0\n1\n1\n0\n1\n1\n1\n0\n0\n1\n0\n1\n0\n0\n0\n0\n0\n1\n0\n0\n1\n0\n0\n1\n1\n1\n0\n0\n1\n1\n1\n0\n0\n0\n0\n1\n0\n0\n0\n1\n0\n0\n1\n1\n1\n0\nend\n";

/// The first hundred bytes of it.
const CROSSING_FRONT: &str =
    "ctm-point 1\n1\n0\n0\n1\n1\n0\n1\n1\n1\n0\n0\n1\n0\n1\n0\n0\n0\n0\n0\n1\n0\n0\n1\n0\n0\n1\n1\n1\n0\n0\n1\n1\n1\n0\n0\n0\n0\n1\n0\n0\n0\n1\n0\n0\n";

/// The words of a run that writes a program.
const PROGRAM: &[&str] = &["program", "cell", "out"];

/// The words of a run that writes a point.
const ENCODE: &[&str] = &["encode", "crossing", "plan", "out"];

const RUNS: &[Run] = &[
    (
        PROGRAM,
        &[],
        &[],
        65_536,
        0,
        "rows 5\ncolumns 4\nplan 0\n",
        Some(CELL_PROGRAM),
        "cell 0, cell 73, create out, append out 139, ",
    ),
    (
        PROGRAM,
        &[1],
        &[],
        65_536,
        6,
        "read fault\n",
        None,
        "cell 0, ",
    ),
    (
        PROGRAM,
        &[2],
        &[],
        65_536,
        6,
        "read fault\n",
        None,
        "cell 0, cell 73, ",
    ),
    (
        PROGRAM,
        &[3],
        &[],
        65_536,
        7,
        "",
        None,
        "cell 0, cell 73, create out, ",
    ),
    (
        PROGRAM,
        &[4],
        &[],
        65_536,
        7,
        "",
        Some(""),
        "cell 0, cell 73, create out, append out 139, ",
    ),
    (
        PROGRAM,
        &[],
        &[1],
        65_536,
        7,
        "",
        Some(CELL_PROGRAM),
        "cell 0, cell 73, create out, append out 139, ",
    ),
    (
        &["program", "long", "out"],
        &[],
        &[],
        65_536,
        5,
        "too large 490784\n",
        None,
        "long 0, long 85, ",
    ),
    (
        &["program", "long", "out"],
        &[],
        &[1],
        65_536,
        5,
        "",
        None,
        "long 0, long 85, ",
    ),
    (
        &["program", "plan", "out"],
        &[],
        &[],
        65_536,
        3,
        "network toml\n",
        None,
        "plan 0, plan 36, ",
    ),
    (
        &["program", "nothing", "out"],
        &[],
        &[],
        65_536,
        6,
        "read fault\n",
        None,
        "nothing 0, ",
    ),
    (
        &["program", "cell", "cell"],
        &[],
        &[],
        65_536,
        2,
        "words\n",
        None,
        "",
    ),
    (
        &["program", "", "out"],
        &[],
        &[],
        65_536,
        2,
        "words\n",
        None,
        "",
    ),
    (
        &["program", "cell", ""],
        &[],
        &[],
        65_536,
        2,
        "words\n",
        None,
        "",
    ),
    (
        ENCODE,
        &[],
        &[],
        65_536,
        0,
        "columns 48\n",
        Some(CROSSING_POINT),
        "crossing 0, crossing 373, plan 0, plan 36, create out, append out 112, ",
    ),
    (
        ENCODE,
        &[1],
        &[],
        65_536,
        6,
        "read fault\n",
        None,
        "crossing 0, ",
    ),
    (
        ENCODE,
        &[2],
        &[],
        65_536,
        6,
        "read fault\n",
        None,
        "crossing 0, crossing 373, ",
    ),
    (
        ENCODE,
        &[3],
        &[],
        65_536,
        6,
        "read fault\n",
        None,
        "crossing 0, crossing 373, plan 0, ",
    ),
    (
        ENCODE,
        &[4],
        &[],
        65_536,
        6,
        "read fault\n",
        None,
        "crossing 0, crossing 373, plan 0, plan 36, ",
    ),
    (
        ENCODE,
        &[5],
        &[],
        65_536,
        7,
        "",
        None,
        "crossing 0, crossing 373, plan 0, plan 36, create out, ",
    ),
    (
        ENCODE,
        &[6],
        &[],
        65_536,
        7,
        "",
        Some(""),
        "crossing 0, crossing 373, plan 0, plan 36, create out, append out 112, ",
    ),
    (
        ENCODE,
        &[10],
        &[],
        100,
        7,
        "",
        Some(CROSSING_FRONT),
        "crossing 0, crossing 100, crossing 200, crossing 300, crossing 373, plan 0, plan 36, create out, append out 112, append out 12, ",
    ),
    (
        ENCODE,
        &[],
        &[1],
        65_536,
        7,
        "",
        Some(CROSSING_POINT),
        "crossing 0, crossing 373, plan 0, plan 36, create out, append out 112, ",
    ),
    (
        &["encode", "long", "nothing", "out"],
        &[],
        &[],
        65_536,
        5,
        "too large 490784\n",
        None,
        "long 0, long 85, ",
    ),
    (
        &["encode", "plan", "nothing", "out"],
        &[],
        &[],
        65_536,
        3,
        "network toml\n",
        None,
        "plan 0, plan 36, ",
    ),
    (
        &["encode", "crossing", "cell", "out"],
        &[],
        &[],
        65_536,
        4,
        "plan form 1\n",
        None,
        "crossing 0, crossing 373, cell 0, cell 73, ",
    ),
    (
        &["encode", "crossing", "nothing", "out"],
        &[],
        &[],
        65_536,
        6,
        "read fault\n",
        None,
        "crossing 0, crossing 373, nothing 0, ",
    ),
    (
        &["encode", "crossing", "plan", "plan"],
        &[],
        &[],
        65_536,
        2,
        "words\n",
        None,
        "",
    ),
    (
        &["encode", "crossing", "plan", "crossing"],
        &[],
        &[],
        65_536,
        2,
        "words\n",
        None,
        "",
    ),
    (
        &["encode", "crossing", "plan", ""],
        &[],
        &[],
        65_536,
        2,
        "words\n",
        None,
        "",
    ),
    (
        &["encode", "crossing", "plan"],
        &[],
        &[],
        65_536,
        2,
        "words\n",
        None,
        "",
    ),
    (
        &["encode", "crossing", "plan", "out", "more"],
        &[],
        &[],
        65_536,
        2,
        "words\n",
        None,
        "",
    ),
];

/// Networks, and what is put of their programs.
const COUNTS: &[(&str, &str)] = &[
    (TWO_LINKS, "rows 135\ncolumns 96\nplan 0\n"),
    (CROSSING, "rows 72\ncolumns 48\nplan 6\n"),
    (INTERSECTION, "rows 17966\ncolumns 13560\nplan 240\n"),
];

#[test]
fn programs_and_points_are_written_by_these_calls(rt: HostRuntime) -> Result<(), Fail> {
    let files = [
        ("cell", ONE_CELL.as_bytes()),
        ("crossing", CROSSING.as_bytes()),
        ("long", LONG_LINK.as_bytes()),
        ("plan", FIRST_PLAN.as_bytes()),
    ];
    try_runs(&rt, RUNS, &files)?;
    Ok(())
}

#[test]
fn rows_and_columns_are_counted(rt: HostRuntime) -> Result<(), Fail> {
    for (network, put) in COUNTS {
        let files = [("n", network.as_bytes())];
        try_run(&rt, &["program", "n", "out"], &files, &ALL_CALLS, 0, put)?;
    }
    Ok(())
}
