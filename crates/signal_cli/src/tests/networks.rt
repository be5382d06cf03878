//! Networks that are accepted, or refused with the line of their first fault. Each is a worked network with one change.

use crate::fault::Fault;
use crate::tests::examples::{CROSSING, DIVERGE, INTERSECTION, ONE_LINK, TWO_LINKS};
use crate::tests::world::{ALL_CALLS, try_run};
use std::alloc::Global;
use std::test::Fail;

/// A network, a text in it that is replaced where it stands first, what stands in its place, the status of `replay n`, and what is put.
type Change = (&'static str, &'static str, &'static str, u8, &'static str);

const CHANGES: &[Change] = &[
    (ONE_LINK, "", "", 0, "delay 0\nleft 0\n"),
    (TWO_LINKS, "", "", 0, "delay 2\nleft 0\n"),
    (DIVERGE, "", "", 0, "delay 4\nleft 2\n"),
    (CROSSING, "", "", 4, "plan missing 0\n"),
    (INTERSECTION, "", "", 4, "plan missing 0\n"),
    (ONE_LINK, ONE_LINK, "", 3, "network format\n"),
    (ONE_LINK, "format = 1", "format = [", 3, "network toml\n"),
    (ONE_LINK, "format = 1", "format = 3", 3, "network format\n"),
    (
        ONE_LINK,
        "format = 1",
        "format = true",
        3,
        "network format\n",
    ),
    (ONE_LINK, "steps = 5", "steps = 240", 0, "delay 0\nleft 0\n"),
    (
        ONE_LINK,
        "steps = 5",
        "steps = 241",
        3,
        "network range top 2\n",
    ),
    (
        ONE_LINK,
        "steps = 5",
        "steps = 0",
        3,
        "network range top 2\n",
    ),
    (
        ONE_LINK,
        "steps = 5",
        "steps = \"5\"",
        3,
        "network key top 2\n",
    ),
    (
        ONE_LINK,
        "steps = 5\n",
        "steps = 5\nspeed = 3\n",
        3,
        "network key top 0\n",
    ),
    (ONE_LINK, "[[link]]", "[[way]]", 3, "network key top 3\n"),
    (ONE_LINK, "[[link]]", "[link]", 3, "network key top 3\n"),
    (
        ONE_LINK,
        "steps = 5\n",
        "steps = 5\nsignal = []\n",
        0,
        "delay 0\nleft 0\n",
    ),
    (ONE_LINK, "cap = 2\n", "", 3, "network key link 0 3\n"),
    (
        ONE_LINK,
        "cap = 2\n",
        "cap = 2\nspeed = 3\n",
        3,
        "network key link 0 0\n",
    ),
    (
        ONE_LINK,
        "cap = 2\n",
        "cap = 2.0\n",
        3,
        "network key link 0 3\n",
    ),
    (
        ONE_LINK,
        "cap = 2\n",
        "cap = 0\n",
        3,
        "network range link 0 3\n",
    ),
    (
        ONE_LINK,
        "cap = 2\n",
        "cap = 1001\n",
        3,
        "network range link 0 3\n",
    ),
    (
        ONE_LINK,
        "name = \"a\"",
        "name = \"A\"",
        3,
        "network range link 0 1\n",
    ),
    (
        ONE_LINK,
        "name = \"a\"",
        "name = 1",
        3,
        "network key link 0 1\n",
    ),
    (
        ONE_LINK,
        "cells = 2",
        "cells = 256",
        3,
        "network cells 257\n",
    ),
    (ONE_LINK, "cells = 2", "cells = 255", 0, "delay 0\nleft 4\n"),
    (
        ONE_LINK,
        "cells = 2",
        "cells = 257",
        3,
        "network range link 0 2\n",
    ),
    (
        ONE_LINK,
        "store = 4",
        "store = 10000",
        0,
        "delay 0\nleft 0\n",
    ),
    (
        ONE_LINK,
        "store = 4",
        "store = 10001",
        3,
        "network range link 0 4\n",
    ),
    (
        ONE_LINK,
        "store = 4",
        "store = 4\nwave = []",
        3,
        "network range link 0 5\n",
    ),
    (
        ONE_LINK,
        "store = 4",
        "store = 4\nturns = []",
        3,
        "network range link 0 7\n",
    ),
    (
        ONE_LINK,
        "store = 4",
        "store = 4\ngreens = 3",
        3,
        "network key link 0 8\n",
    ),
    (
        ONE_LINK,
        "store = 4",
        "store = 4\nsignal = \"s\"",
        3,
        "network key link 0 9\n",
    ),
    (
        ONE_LINK,
        "store = 4",
        "store = 4\ninitial = []",
        3,
        "network initial 0\n",
    ),
    (
        ONE_LINK,
        "store = 4",
        "store = 4\ninitial = [4, 5]",
        3,
        "network initial 0\n",
    ),
    (
        ONE_LINK,
        "rates = [2, 2]",
        "rates = [2, true]",
        3,
        "network key link 0 12\n",
    ),
    (
        ONE_LINK,
        "rates = [2, 2]",
        "rates = [2, 1001]",
        3,
        "network range link 0 12\n",
    ),
    (
        ONE_LINK,
        "rates = [2, 2]",
        "demand = [{ from = 0, until = 2, rate = 2 }]",
        0,
        "delay 0\nleft 0\n",
    ),
    (
        ONE_LINK,
        "rates = [2, 2]",
        "demand = [{ from = 0, until = 6, rate = 1 }]",
        3,
        "network demand 0 range 0\n",
    ),
    (
        ONE_LINK,
        "rates = [2, 2]",
        "demand = [{ from = 2, until = 2, rate = 1 }]",
        3,
        "network demand 0 range 0\n",
    ),
    (
        ONE_LINK,
        "rates = [2, 2]",
        "rates = [600]\ndemand = [{ from = 0, until = 1, rate = 401 }]",
        3,
        "network demand 0 heavy 0\n",
    ),
    (
        ONE_LINK,
        "rates = [2, 2]",
        "rates = [0, 0, 0, 0, 600]\ndemand = [{ from = 4, until = 5, rate = 400 }]",
        0,
        "delay 0\nleft 1000\n",
    ),
    (
        ONE_LINK,
        "rates = [2, 2]",
        "demand = [{ from = 0, until = 2 }]",
        3,
        "network key piece 0 0 3\n",
    ),
    (
        ONE_LINK,
        "rates = [2, 2]",
        "demand = [{ from = 0, until = 2, rate = 2 }, { from = 241, until = 2, rate = 2 }]",
        3,
        "network range piece 0 1 1\n",
    ),
    (
        TWO_LINKS,
        "name = \"b\"",
        "name = \"a\"",
        3,
        "network name link 1\n",
    ),
    (
        TWO_LINKS,
        "to = \"b\"",
        "to = \"c\"",
        3,
        "network unknownlink 0 0\n",
    ),
    (
        TWO_LINKS,
        "to = \"b\"",
        "to = \"a\"",
        3,
        "network itself 0\n",
    ),
    (
        TWO_LINKS,
        "cap = 1\n",
        "cap = 1\nrates = [2]\n",
        3,
        "network fed 1\n",
    ),
    (
        DIVERGE,
        "link = \"c\"",
        "link = \"b\"",
        3,
        "network twiceturn 0 1\n",
    ),
    (
        DIVERGE,
        "link = \"c\"",
        "link = \"e\"",
        3,
        "network unknownlink 0 2\n",
    ),
    (
        DIVERGE,
        "initial = [5]\n",
        "initial = [5]\nto = \"b\"\n",
        3,
        "network outboth 0\n",
    ),
    (
        DIVERGE,
        "initial = [5]\n",
        "initial = [5, 0]\n",
        3,
        "network initial 0\n",
    ),
    (DIVERGE, ", parcel = 2", "", 3, "network key turn 0 0 2\n"),
    (
        DIVERGE,
        "parcel = 1",
        "parcel = 101",
        3,
        "network range turn 0 1 2\n",
    ),
    (
        CROSSING,
        "signal = \"s\"\n",
        "signal = \"t\"\n",
        3,
        "network unknownsignal 0\n",
    ),
    (
        CROSSING,
        "greens = [\"b\"]",
        "greens = [\"c\"]",
        3,
        "network unknownphase green 1 0\n",
    ),
    (
        CROSSING,
        "greens = [\"b\"]",
        "greens = [\"b\", \"a\"]",
        3,
        "network openmerge 2\n",
    ),
    (
        CROSSING,
        "signal = \"s\"\ngreens = [\"b\"]\n",
        "",
        3,
        "network openmerge 2\n",
    ),
    (
        CROSSING,
        "[[signal]]\n",
        "[[signal]]\nstart = \"c\"\n",
        3,
        "network unknownphase start 0\n",
    ),
    (
        CROSSING,
        "next = [\"a\"]",
        "next = [\"c\"]",
        3,
        "network unknownphase next 0 1 0\n",
    ),
    (
        CROSSING,
        "next = [\"a\"]",
        "next = []",
        3,
        "network phase 0 1\n",
    ),
    (
        CROSSING,
        "next = [\"b\"]",
        "next = [\"a\"]",
        3,
        "network phase 0 0\n",
    ),
    (CROSSING, "min = 1", "min = 3", 3, "network phase 0 0\n"),
    (
        CROSSING,
        "min = 1",
        "min = 0",
        3,
        "network range phase 0 0 2\n",
    ),
    (
        CROSSING,
        "name = \"b\"\nmin",
        "name = \"a\"\nmin",
        3,
        "network name phase 0 1\n",
    ),
    (
        CROSSING,
        "[[signal]]\nname = \"s\"\n",
        "[[signal]]\n",
        3,
        "network key signal 0 1\n",
    ),
];

#[test]
fn networks_are_accepted_or_refused_with_their_first_fault(rt: HostRuntime) -> Result<(), Fail> {
    for (network, old, new, status, put) in CHANGES {
        let text = network.replacen(rt.alloc(), *old, new, 1)?;
        let files = [("n", text.as_str().as_bytes())];
        try_run(&rt, &["replay", "n"], &files, &ALL_CALLS, *status, put)?;
    }
    Ok(())
}

#[test]
fn bytes_that_are_no_text(rt: HostRuntime) -> Result<(), Fail> {
    let mut bytes = Vec::from_slice(rt.alloc(), ONE_LINK.as_bytes())?;
    bytes.push(255)?;
    let files = [("n", bytes.as_slice())];
    try_run(
        &rt,
        &["replay", "n"],
        &files,
        &ALL_CALLS,
        3,
        "network toml\n",
    )?;
    Ok(())
}

/// How many cells a network has.
fn count_of_cells(alloc: Global, network: &str) -> Result<usize, Fault> {
    let named = cell_build::read(alloc, network.as_bytes())?;
    Ok(named.net().cells.len())
}

#[test]
fn networks_have_their_cells(rt: HostRuntime) -> Result<(), Fail> {
    assert!(rt; count_of_cells(rt.alloc(), ONE_LINK) == Ok(3));
    assert!(rt; count_of_cells(rt.alloc(), INTERSECTION) == Ok(32));
    Ok(())
}
