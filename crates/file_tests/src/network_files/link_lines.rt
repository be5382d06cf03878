//! The keys of a link, of its turns and of its pieces of demand.

use crate::network_files::{Case, LINK, try_each};
use network_file::{At, NetFault};
use std::test::Fail;

const TURN: At = At::Turn(0, 1);

const PIECE: At = At::Piece(0, 1);

/// What stands before a link's further lines.
const LINK_HEAD: &str = "format = 1\nsteps = 5\n[[link]]\nname = 'a'\ncap = 1\nstore = 1\n";

/// Further lines of a link.
const LINK_LINES: [Case; 51] = [
    (
        "cells = 0\n",
        Some(NetFault::Range {
            table: LINK,
            key: 2,
        }),
    ),
    ("cells = 1\n", None),
    ("cells = 256\n", None),
    (
        "cells = 257\n",
        Some(NetFault::Range {
            table: LINK,
            key: 2,
        }),
    ),
    (
        "cells = '2'\n",
        Some(NetFault::Key {
            table: LINK,
            key: 2,
        }),
    ),
    ("wave = [1, 1]\n", None),
    ("wave = [99, 100]\n", None),
    (
        "wave = [0, 1]\n",
        Some(NetFault::Range {
            table: LINK,
            key: 5,
        }),
    ),
    (
        "wave = [2, 1]\n",
        Some(NetFault::Range {
            table: LINK,
            key: 5,
        }),
    ),
    (
        "wave = [1, 101]\n",
        Some(NetFault::Range {
            table: LINK,
            key: 5,
        }),
    ),
    (
        "wave = [1]\n",
        Some(NetFault::Range {
            table: LINK,
            key: 5,
        }),
    ),
    (
        "wave = [1, 2, 3]\n",
        Some(NetFault::Range {
            table: LINK,
            key: 5,
        }),
    ),
    (
        "wave = [1, 1.5]\n",
        Some(NetFault::Key {
            table: LINK,
            key: 5,
        }),
    ),
    ("to = ''\n", None),
    (
        "to = 1\n",
        Some(NetFault::Key {
            table: LINK,
            key: 6,
        }),
    ),
    (
        "turns = []\n",
        Some(NetFault::Range {
            table: LINK,
            key: 7,
        }),
    ),
    (
        "turns = ['b']\n",
        Some(NetFault::Key {
            table: LINK,
            key: 7,
        }),
    ),
    (
        "turns = [{ link = 'b', parcel = 1 }]\n",
        Some(NetFault::Range {
            table: LINK,
            key: 7,
        }),
    ),
    (
        "turns = [{ link = 'b', parcel = 1 }, { link = 'c', parcel = 100 }]\n",
        None,
    ),
    (
        "turns = [{ link = 'b', parcel = 1 }, { link = 'c', parcel = 0 }]\n",
        Some(NetFault::Range {
            table: TURN,
            key: 2,
        }),
    ),
    (
        "turns = [{ link = 'b', parcel = 1 }, { link = 'c', parcel = 101 }]\n",
        Some(NetFault::Range {
            table: TURN,
            key: 2,
        }),
    ),
    (
        "turns = [{ link = 'b', parcel = 1 }, { parcel = true }]\n",
        Some(NetFault::Key {
            table: TURN,
            key: 1,
        }),
    ),
    (
        "turns = [{ link = 'b', parcel = 1 }, { link = 'c', parcel = 1, lane = 1 }]\n",
        Some(NetFault::Key {
            table: TURN,
            key: 0,
        }),
    ),
    (
        "signal = 's'\n",
        Some(NetFault::Key {
            table: LINK,
            key: 9,
        }),
    ),
    (
        "greens = ['p']\n",
        Some(NetFault::Key {
            table: LINK,
            key: 8,
        }),
    ),
    (
        "greens = 3\n",
        Some(NetFault::Key {
            table: LINK,
            key: 8,
        }),
    ),
    (
        "signal = 3\n",
        Some(NetFault::Key {
            table: LINK,
            key: 8,
        }),
    ),
    (
        "signal = 's'\ngreens = ['p', 1]\n",
        Some(NetFault::Key {
            table: LINK,
            key: 9,
        }),
    ),
    (
        "signal = 's'\ngreens = []\n",
        Some(NetFault::Range {
            table: LINK,
            key: 9,
        }),
    ),
    ("signal = 's'\ngreens = ['p', 'p']\n", None),
    ("initial = []\n", None),
    ("initial = [0, 10_000]\n", None),
    (
        "initial = [10_001]\n",
        Some(NetFault::Range {
            table: LINK,
            key: 10,
        }),
    ),
    (
        "initial = [0, -1]\n",
        Some(NetFault::Range {
            table: LINK,
            key: 10,
        }),
    ),
    (
        "initial = ['1']\n",
        Some(NetFault::Key {
            table: LINK,
            key: 10,
        }),
    ),
    ("demand = []\nrates = []\n", None),
    (
        "demand = {}\n",
        Some(NetFault::Key {
            table: LINK,
            key: 11,
        }),
    ),
    (
        "demand = [{ from = 0, until = 240, rate = 1000 }, { from = 240, until = 0, rate = 0 }]\n",
        None,
    ),
    (
        "demand = [{ from = 0, until = 1, rate = 1 }, { from = 241, until = 1, rate = 1 }]\n",
        Some(NetFault::Range {
            table: PIECE,
            key: 1,
        }),
    ),
    (
        "demand = [{ from = 0, until = 1, rate = 1 }, { from = 0, until = 241, rate = 1 }]\n",
        Some(NetFault::Range {
            table: PIECE,
            key: 2,
        }),
    ),
    (
        "demand = [{ from = 0, until = 1, rate = 1 }, { from = 0, until = 1, rate = 1001 }]\n",
        Some(NetFault::Range {
            table: PIECE,
            key: 3,
        }),
    ),
    (
        "demand = [{ from = 0, until = 1, rate = 1 }, { from = 0, until = 1, rate = -1 }]\n",
        Some(NetFault::Range {
            table: PIECE,
            key: 3,
        }),
    ),
    (
        "demand = [{ from = 0, until = 1, rate = 1 }, { from = 0, until = 1 }]\n",
        Some(NetFault::Key {
            table: PIECE,
            key: 3,
        }),
    ),
    (
        "demand = [{ from = 0, until = 1, rate = 1 }, { first = 0, until = 1, rate = 1 }]\n",
        Some(NetFault::Key {
            table: PIECE,
            key: 1,
        }),
    ),
    (
        "demand = [{ from = 0, until = 1, rate = 1 }, { from = 0, until = 1, rate = 1, per = 1 }]\n",
        Some(NetFault::Key {
            table: PIECE,
            key: 0,
        }),
    ),
    ("rates = [0, 1000]\n", None),
    (
        "rates = [1001]\n",
        Some(NetFault::Range {
            table: LINK,
            key: 12,
        }),
    ),
    (
        "rates = [-1]\n",
        Some(NetFault::Range {
            table: LINK,
            key: 12,
        }),
    ),
    (
        "rates = [1, true]\n",
        Some(NetFault::Key {
            table: LINK,
            key: 12,
        }),
    ),
    (
        "rates = 1\ncells = true\n",
        Some(NetFault::Key {
            table: LINK,
            key: 2,
        }),
    ),
    (
        "rates = [1001]\ncells = 0\n",
        Some(NetFault::Range {
            table: LINK,
            key: 2,
        }),
    ),
];

#[test]
fn lines_of_a_link_get_their_first_refusal(rt: HostRuntime) -> Result<(), Fail> {
    try_each(&rt, LINK_HEAD, &LINK_LINES)
}
