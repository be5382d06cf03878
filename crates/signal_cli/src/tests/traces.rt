//! The table of a replay as a file: whole, replaced, or as far as calls did not fail; and all calls that a run makes.

use crate::tests::examples::{CROSSING, DIVERGE, FIRST_PLAN, LATE_QUEUE, ONE_LINK};
use crate::tests::runs::{Run, try_runs};
use crate::tests::world::{ALL_CALLS, Calls, run_over};
use std::test::Fail;

/// The most bytes of a network file, and of a plan file.
const LONGEST: usize = 1_048_576;

/// The plan of a network without signals.
const NO_SIGNAL: &str = "ctm-plan 1\nend\n";

/// The table of the crossing under its first plan.
const CROSSING_TABLE: &str =
    "step,link,cell,units,out,delay\n0,x,0,1,1,0\n0,z,0,1,0,1\n0,m,0,0,0,0\n1,x,0,0,0,0\n1,z,0,1,1,0\n1,m,0,1,1,0\n2,x,0,0,0,0\n2,z,0,0,0,0\n2,m,0,1,1,0\n";

/// The first hundred bytes of it.
const CROSSING_FRONT: &str =
    "step,link,cell,units,out,delay\n0,x,0,1,1,0\n0,z,0,1,0,1\n0,m,0,0,0,0\n1,x,0,0,0,0\n1,z,0,1,1,0\n1,m,0,1,1";

/// The table of the one link with its queue.
const LINK_TABLE: &str =
    "step,link,cell,units,out,delay\n0,a,q,0,0,0\n0,a,0,0,0,0\n0,a,1,0,0,0\n1,a,q,2,2,0\n1,a,0,0,0,0\n1,a,1,0,0,0\n2,a,q,2,2,0\n2,a,0,2,2,0\n2,a,1,0,0,0\n3,a,q,0,0,0\n3,a,0,2,2,0\n3,a,1,2,2,0\n4,a,q,0,0,0\n4,a,0,0,0,0\n4,a,1,2,2,0\n";

/// The table of the queue: numbers of two digits, and a name of several letters.
const QUEUE_TABLE: &str =
    "step,link,cell,units,out,delay\n0,north_2,q,0,0,0\n0,north_2,0,0,0,0\n0,north_2,1,0,0,0\n1,north_2,q,0,0,0\n1,north_2,0,0,0,0\n1,north_2,1,0,0,0\n2,north_2,q,0,0,0\n2,north_2,0,0,0,0\n2,north_2,1,0,0,0\n3,north_2,q,0,0,0\n3,north_2,0,0,0,0\n3,north_2,1,0,0,0\n4,north_2,q,0,0,0\n4,north_2,0,0,0,0\n4,north_2,1,0,0,0\n5,north_2,q,0,0,0\n5,north_2,0,0,0,0\n5,north_2,1,0,0,0\n6,north_2,q,0,0,0\n6,north_2,0,0,0,0\n6,north_2,1,0,0,0\n7,north_2,q,0,0,0\n7,north_2,0,0,0,0\n7,north_2,1,0,0,0\n8,north_2,q,0,0,0\n8,north_2,0,0,0,0\n8,north_2,1,0,0,0\n9,north_2,q,12,2,10\n9,north_2,0,0,0,0\n9,north_2,1,0,0,0\n10,north_2,q,10,2,8\n10,north_2,0,2,2,0\n10,north_2,1,0,0,0\n";

/// The table of the diverge.
const DIVERGE_TABLE: &str =
    "step,link,cell,units,out,delay\n0,d,0,5,3,2\n0,b,0,0,0,0\n0,c,0,0,0,0\n1,d,0,2,0,2\n1,b,0,2,2,0\n1,c,0,1,1,0\n";

/// The reads of a file that is one byte longer than is allowed: none past the first piece beyond the limit.
const SEVENTEEN_READS: &str =
    "spaces 0, spaces 65536, spaces 131072, spaces 196608, spaces 262144, spaces 327680, spaces 393216, spaces 458752, spaces 524288, spaces 589824, spaces 655360, spaces 720896, spaces 786432, spaces 851968, spaces 917504, spaces 983040, spaces 1048576, ";

/// The same behind the reads of a network.
const LINK_AND_SEVENTEEN_READS: &str =
    "link 0, link 84, spaces 0, spaces 65536, spaces 131072, spaces 196608, spaces 262144, spaces 327680, spaces 393216, spaces 458752, spaces 524288, spaces 589824, spaces 655360, spaces 720896, spaces 786432, spaces 851968, spaces 917504, spaces 983040, spaces 1048576, ";

/// The words of a run that writes.
const TRACE: &[&str] = &["trace", "crossing", "plan", "out"];

const RUNS: &[Run] = &[
    (
        TRACE,
        &[],
        &[],
        65_536,
        0,
        "delay 1\nleft 0\n",
        Some(CROSSING_TABLE),
        "crossing 0, crossing 373, plan 0, plan 36, create out, append out 139, ",
    ),
    (
        &["trace", "link", "none", "out"],
        &[],
        &[],
        65_536,
        0,
        "delay 0\nleft 0\n",
        Some(LINK_TABLE),
        "link 0, link 84, none 0, none 15, create out, append out 211, ",
    ),
    (
        &["trace", "diverge", "none", "out"],
        &[],
        &[],
        65_536,
        0,
        "delay 4\nleft 2\n",
        Some(DIVERGE_TABLE),
        "diverge 0, diverge 214, none 0, none 15, create out, append out 103, ",
    ),
    (
        &["trace", "queue", "none", "out"],
        &[],
        &[],
        65_536,
        0,
        "delay 18\nleft 12\n",
        Some(QUEUE_TABLE),
        "queue 0, queue 113, none 0, none 15, create out, append out 631, ",
    ),
    (
        TRACE,
        &[],
        &[],
        200,
        0,
        "delay 1\nleft 0\n",
        Some(CROSSING_TABLE),
        "crossing 0, crossing 200, crossing 373, plan 0, plan 36, create out, append out 139, ",
    ),
    (
        TRACE,
        &[1],
        &[],
        65_536,
        6,
        "read fault\n",
        None,
        "crossing 0, ",
    ),
    (
        TRACE,
        &[2],
        &[],
        65_536,
        6,
        "read fault\n",
        None,
        "crossing 0, crossing 373, ",
    ),
    (
        TRACE,
        &[3],
        &[],
        65_536,
        6,
        "read fault\n",
        None,
        "crossing 0, crossing 373, plan 0, ",
    ),
    (
        TRACE,
        &[4],
        &[],
        65_536,
        6,
        "read fault\n",
        None,
        "crossing 0, crossing 373, plan 0, plan 36, ",
    ),
    (
        TRACE,
        &[5],
        &[],
        65_536,
        7,
        "",
        None,
        "crossing 0, crossing 373, plan 0, plan 36, create out, ",
    ),
    (
        TRACE,
        &[6],
        &[],
        65_536,
        7,
        "",
        Some(""),
        "crossing 0, crossing 373, plan 0, plan 36, create out, append out 139, ",
    ),
    (
        TRACE,
        &[10],
        &[],
        100,
        7,
        "",
        Some(CROSSING_FRONT),
        "crossing 0, crossing 100, crossing 200, crossing 300, crossing 373, plan 0, plan 36, create out, append out 139, append out 39, ",
    ),
    (
        TRACE,
        &[],
        &[1],
        65_536,
        7,
        "",
        Some(CROSSING_TABLE),
        "crossing 0, crossing 373, plan 0, plan 36, create out, append out 139, ",
    ),
    (
        &["trace", "plan", "nothing", "out"],
        &[],
        &[],
        65_536,
        3,
        "network toml\n",
        None,
        "plan 0, plan 36, ",
    ),
    (
        &["trace", "crossing", "diverge", "out"],
        &[],
        &[],
        65_536,
        4,
        "plan form 1\n",
        None,
        "crossing 0, crossing 373, diverge 0, diverge 214, ",
    ),
    (
        &["trace", "crossing", "nothing", "out"],
        &[],
        &[],
        65_536,
        6,
        "read fault\n",
        None,
        "crossing 0, crossing 373, nothing 0, ",
    ),
    (
        &["trace", "crossing", "plan", "plan"],
        &[],
        &[],
        65_536,
        2,
        "words\n",
        None,
        "",
    ),
    (
        &["trace", "crossing", "plan", "crossing"],
        &[],
        &[],
        65_536,
        2,
        "words\n",
        None,
        "",
    ),
    (
        &["trace", "crossing", "plan", ""],
        &[],
        &[],
        65_536,
        2,
        "words\n",
        None,
        "",
    ),
    (
        &["replay", "link"],
        &[],
        &[],
        65_536,
        0,
        "delay 0\nleft 0\n",
        None,
        "link 0, link 84, ",
    ),
    (
        &["replay", "crossing", "plan"],
        &[],
        &[],
        65_536,
        0,
        "delay 1\nleft 0\n",
        None,
        "crossing 0, crossing 373, plan 0, plan 36, ",
    ),
    (
        &["replay", "crossing", "plan"],
        &[3],
        &[],
        65_536,
        6,
        "read fault\n",
        None,
        "crossing 0, crossing 373, plan 0, ",
    ),
    (
        &["replay", "crossing", "plan"],
        &[],
        &[1],
        65_536,
        7,
        "",
        None,
        "crossing 0, crossing 373, plan 0, plan 36, ",
    ),
    (
        &["replay", "crossing"],
        &[],
        &[],
        65_536,
        4,
        "plan missing 0\n",
        None,
        "crossing 0, crossing 373, ",
    ),
    (
        &["replay", "link"],
        &[1],
        &[],
        65_536,
        6,
        "read fault\n",
        None,
        "link 0, ",
    ),
    (
        &["replay", "link"],
        &[2],
        &[],
        65_536,
        6,
        "read fault\n",
        None,
        "link 0, link 84, ",
    ),
    (
        &["replay", "spaces", "plan"],
        &[],
        &[],
        65_536,
        3,
        "network long\n",
        None,
        SEVENTEEN_READS,
    ),
    (
        &["trace", "link", "spaces", "out"],
        &[],
        &[],
        65_536,
        4,
        "plan long\n",
        None,
        LINK_AND_SEVENTEEN_READS,
    ),
];

#[test]
fn a_run_makes_these_calls_and_no_others(rt: HostRuntime) -> Result<(), Fail> {
    let spaces = vec![in rt.alloc(); b' '; LONGEST + 1]?;
    let files = [
        ("spaces", spaces.as_slice()),
        ("link", ONE_LINK.as_bytes()),
        ("crossing", CROSSING.as_bytes()),
        ("diverge", DIVERGE.as_bytes()),
        ("queue", LATE_QUEUE.as_bytes()),
        ("plan", FIRST_PLAN.as_bytes()),
        ("none", NO_SIGNAL.as_bytes()),
    ];
    try_runs(&rt, RUNS, &files)?;
    Ok(())
}

/// The calls that fail where a table was there before, the status that comes of it, and what the file holds then.
const REPLACED: &[(&[u64], u8, &str)] = &[
    (&[], 0, DIVERGE_TABLE),
    (&[5], 7, CROSSING_TABLE),
    (&[6], 7, ""),
];

#[test]
fn a_table_that_was_there_is_replaced(rt: HostRuntime) -> Result<(), Fail> {
    let files = [
        ("diverge", DIVERGE.as_bytes()),
        ("none", NO_SIGNAL.as_bytes()),
        ("out", CROSSING_TABLE.as_bytes()),
    ];
    let words = ["trace", "diverge", "none", "out"];
    for (failing, status, out) in REPLACED {
        let calls = Calls {
            failing,
            ..ALL_CALLS
        };
        let ran = run_over(&rt, &words, &files, &calls)?;
        assert_eq!(rt; ran.status, *status, "{out}");
        assert!(rt;
            ran.shelf.shelf().file("out") == Some(out.as_bytes()),
            "{out}"
        );
    }
    Ok(())
}
