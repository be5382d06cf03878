//! Plans that are replayed, or refused with the line of their first fault.

use crate::tests::examples::{CROSSING, FIRST_PLAN, ONE_LINK};
use crate::tests::world::{ALL_CALLS, try_run};
use std::test::Fail;

/// A network of one link behind a signal, whose second phase lasts at least three steps.
const LONG_PHASE: &str =
    "format = 1\nsteps = 4\n[[link]]\nname = \"x\"\ncap = 1\nstore = 2\nsignal = \"s\"\ngreens = [\"a\"]\n[[signal]]\nname = \"s\"\n[[signal.phase]]\nname = \"a\"\nmin = 1\nmax = 4\nnext = [\"b\"]\n[[signal.phase]]\nname = \"b\"\nmin = 3\nmax = 4\nnext = [\"a\"]\n";

/// The same with two steps of clearance after the first phase.
const CLEARED: &str =
    "format = 1\nsteps = 4\n[[link]]\nname = \"x\"\ncap = 1\nstore = 2\ninitial = [2]\nsignal = \"s\"\ngreens = [\"a\"]\n[[signal]]\nname = \"s\"\n[[signal.phase]]\nname = \"a\"\nmin = 1\nmax = 4\nclear = 2\nnext = [\"b\"]\n[[signal.phase]]\nname = \"b\"\nmin = 3\nmax = 4\nnext = [\"a\"]\n";

/// A network, a plan, the status of `replay n p`, and what is put.
const PLANS: &[(&str, &str, u8, &str)] = &[
    (CROSSING, FIRST_PLAN, 0, "delay 1\nleft 0\n"),
    (
        CROSSING,
        "ctm-plan 1\nsignal s\na 1\nb 2\nend\n",
        0,
        "delay 1\nleft 0\n",
    ),
    (
        CROSSING,
        "ctm-plan 1\nsignal s\na 2\nb 1\nend\n",
        0,
        "delay 2\nleft 1\n",
    ),
    (
        CROSSING,
        "ctm-plan 1\nsignal s\na 3\nend\n",
        4,
        "plan run 3 green\n",
    ),
    (CROSSING, "", 4, "plan form 1\n"),
    (CROSSING, "ctm-plan 1", 4, "plan form 1\n"),
    (CROSSING, "ctm-plan 2\nend\n", 4, "plan form 1\n"),
    (CROSSING, "ctm-plan 1\n", 4, "plan form 2\n"),
    (CROSSING, "\nctm-plan 1\n", 4, "plan form 1\n"),
    (
        CROSSING,
        "ctm-plan 1\nsignal s\nctm-plan 1\n",
        4,
        "plan form 3\n",
    ),
    (
        CROSSING,
        "ctm-plan 1\nsignal s\nsignal 1\n",
        4,
        "plan run 3 start\n",
    ),
    (
        CROSSING,
        "ctm-plan 1\nsignal s\na 1 \nb 1\na 1\nend\n",
        4,
        "plan form 3\n",
    ),
    (
        CROSSING,
        "ctm-plan 1\nsignal s\na 1\nb 1\na 1\n",
        4,
        "plan form 6\n",
    ),
    (CROSSING, "ctm-plan 1\nend\n", 4, "plan missing 0\n"),
    (CROSSING, "ctm-plan 1\na 1\n", 4, "plan form 2\n"),
    (
        CROSSING,
        "ctm-plan 1\nsignal t\na 1\nb 1\na 1\nend\n",
        4,
        "plan signal 2\n",
    ),
    (
        CROSSING,
        "ctm-plan 1\nsignal s\nend\n",
        4,
        "plan run 3 short\n",
    ),
    (
        CROSSING,
        "ctm-plan 1\nsignal s\nb 1\nend\n",
        4,
        "plan run 3 start\n",
    ),
    (
        CROSSING,
        "ctm-plan 1\nsignal s\na 1\na 1\nend\n",
        4,
        "plan run 4 order\n",
    ),
    (
        CROSSING,
        "ctm-plan 1\nsignal s\na 1\nc 1\nend\n",
        4,
        "plan run 4 order\n",
    ),
    (
        CROSSING,
        "ctm-plan 1\nsignal s\na 1\nb 1\nend\n",
        4,
        "plan run 5 short\n",
    ),
    (
        CROSSING,
        "ctm-plan 1\nsignal s\na 1\nb 1\nsignal s\n",
        4,
        "plan run 5 short\n",
    ),
    (
        CROSSING,
        "ctm-plan 1\nsignal s\na 1\nb 1\na 1\nb 1\nend\n",
        4,
        "plan run 6 surplus\n",
    ),
    (
        CROSSING,
        "ctm-plan 1\nsignal s\na 1\nb 1\na 1\nc 1\nend\n",
        4,
        "plan run 6 surplus\n",
    ),
    (
        CROSSING,
        "ctm-plan 1\nsignal s\na 1\nb 1\na 2\nend\n",
        4,
        "plan run 5 green\n",
    ),
    (
        CROSSING,
        "ctm-plan 1\nsignal s\na 0\n",
        4,
        "plan run 3 green\n",
    ),
    (
        CROSSING,
        "ctm-plan 1\nsignal s\na 9999\n",
        4,
        "plan run 3 green\n",
    ),
    (
        CROSSING,
        "ctm-plan 1\nsignal s\na 10000\n",
        4,
        "plan form 3\n",
    ),
    (
        CROSSING,
        "ctm-plan 1\nsignal s\na 01\nb 1\na 1\nend\n",
        4,
        "plan form 3\n",
    ),
    (
        CROSSING,
        "ctm-plan 1\nsignal s\na  1\nb 1\na 1\nend\n",
        4,
        "plan form 3\n",
    ),
    (
        CROSSING,
        "ctm-plan 1\nsignal s\nA 1\nb 1\na 1\nend\n",
        4,
        "plan form 3\n",
    ),
    (
        CROSSING,
        "ctm-plan 1\r\nsignal s\na 1\nb 1\na 1\nend\n",
        4,
        "plan form 1\n",
    ),
    (
        CROSSING,
        "ctm-plan 1\nsignal s\na 1\nb 1\na 1\nend\nx",
        4,
        "plan form 7\n",
    ),
    (
        CROSSING,
        "ctm-plan 1\nsignal s\na 1\nb 1\na 1\nend\n\n",
        4,
        "plan form 7\n",
    ),
    (
        CROSSING,
        "ctm-plan 1\nsignal s\na 1\nb 1\na 1\nend",
        4,
        "plan form 6\n",
    ),
    (
        CROSSING,
        "ctm-plan 1\nsignal s\na 1\nb 1\na 1\nsignal s\n",
        4,
        "plan signal 6\n",
    ),
    (
        LONG_PHASE,
        "ctm-plan 1\nsignal s\na 3\nb 1\nend\n",
        0,
        "delay 0\nleft 0\n",
    ),
    (
        LONG_PHASE,
        "ctm-plan 1\nsignal s\na 1\nb 2\na 1\nend\n",
        4,
        "plan run 4 green\n",
    ),
    (
        CLEARED,
        "ctm-plan 1\nsignal s\na 3\nend\n",
        0,
        "delay 1\nleft 0\n",
    ),
    (
        CLEARED,
        "ctm-plan 1\nsignal s\na 1\nb 1\nend\n",
        0,
        "delay 4\nleft 1\n",
    ),
    (
        CLEARED,
        "ctm-plan 1\nsignal s\na 2\nb 1\nend\n",
        4,
        "plan run 4 surplus\n",
    ),
    (ONE_LINK, "ctm-plan 1\nend\n", 0, "delay 0\nleft 0\n"),
    (
        ONE_LINK,
        "ctm-plan 1\nsignal s\nend\n",
        4,
        "plan signal 2\n",
    ),
    ("", "", 3, "network format\n"),
];

#[test]
fn plans_are_replayed_or_refused_with_their_first_fault(rt: HostRuntime) -> Result<(), Fail> {
    for (network, plan, status, put) in PLANS {
        let files = [("n", network.as_bytes()), ("p", plan.as_bytes())];
        try_run(&rt, &["replay", "n", "p"], &files, &ALL_CALLS, *status, put)?;
    }
    Ok(())
}
