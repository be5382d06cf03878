//! Whole files: the format's number, the top table, and the order of the stages and of the tables.

use crate::network_files::{Case, LINK, PHASE, TOP, try_each};
use network_file::{At, NetFault, read};
use std::test::Fail;

/// Whole files.
const FILES: [Case; 31] = [
    ("", Some(NetFault::Format)),
    ("format = 2\nsteps = 0\n", Some(NetFault::Format)),
    ("format = true\n", Some(NetFault::Format)),
    ("format = 1.0\n", Some(NetFault::Format)),
    ("format = 1\nformat = 1\n", Some(NetFault::Toml)),
    ("format = 2\nsteps = = 1\n", Some(NetFault::Toml)),
    ("format = 1\n", Some(NetFault::Key { table: TOP, key: 2 })),
    (
        "format = 1\nsteps = true\nlink = []\n",
        Some(NetFault::Key { table: TOP, key: 2 }),
    ),
    (
        "format = 1\nsteps = 0\n",
        Some(NetFault::Key { table: TOP, key: 3 }),
    ),
    (
        "format = 1\nsteps = 0\nlink = 3\nplan = 1\n",
        Some(NetFault::Key { table: TOP, key: 3 }),
    ),
    (
        "format = 1\nsteps = 0\nlink = [3]\n",
        Some(NetFault::Key { table: TOP, key: 3 }),
    ),
    (
        "format = 1\nsteps = 0\nlink = []\nsignal = {}\n",
        Some(NetFault::Key { table: TOP, key: 4 }),
    ),
    (
        "format = 1\nsteps = 0\nlink = []\nplan = 1\n",
        Some(NetFault::Key { table: TOP, key: 0 }),
    ),
    (
        "format = 1\nsteps = 0\nlink = []\n",
        Some(NetFault::Range { table: TOP, key: 2 }),
    ),
    (
        "format = 1\nsteps = 5\nlink = []\nsignal = []\n",
        Some(NetFault::Range { table: TOP, key: 3 }),
    ),
    (
        "format = 1\nsteps = 5\nsignal = []\nlink = [{ name = 'a', cap = 2, store = 4 }]\n",
        None,
    ),
    (
        "format = 1\nsteps = 0\nlink = [{ name = 'a', cap = 0, store = 4 }, { name = 'a', cap = 1 }]\n",
        Some(NetFault::Key {
            table: At::Link(1),
            key: 4,
        }),
    ),
    (
        "format = 1\nsteps = 5\nlink = [{ name = 'a', cells = 0, cap = 2, store = 4 }]\nsignal = [{ name = 's', phase = [{ name = 'p', min = 1, max = 1, next = [] }, { name = 'p', min = 1, next = [] }] }]\n",
        Some(NetFault::Key {
            table: PHASE,
            key: 3,
        }),
    ),
    (
        "format = 1\nsteps = 5\nlink = [{ name = 'a', cap = 2, store = 4 }, { name = 'a', cap = 2, store = 0 }]\n",
        Some(NetFault::Range {
            table: At::Link(1),
            key: 4,
        }),
    ),
    (
        "format = 1\nsteps = 5\nlink = [{ name = 'a', cap = 2, store = 4, demand = [{}] }, {}]\n",
        Some(NetFault::Key {
            table: At::Piece(0, 0),
            key: 1,
        }),
    ),
    (
        "format = 1\nsteps = 5\nlink = [{ name = 'a', cap = 2, store = 4, demand = [{}], turns = [{}] }]\n",
        Some(NetFault::Key {
            table: At::Turn(0, 0),
            key: 1,
        }),
    ),
    (
        "format = 1\nsteps = 5\nlink = [{ name = 'a', cap = 2, store = 4, demand = [{}], lanes = 2 }]\n",
        Some(NetFault::Key {
            table: LINK,
            key: 0,
        }),
    ),
    (
        "format = 1\nsteps = 5\nlink = [{ name = 'b', cap = 2, store = 4 }, { name = 'a', cap = 2, store = 4 }, { name = 'b', cap = 2, store = 4 }]\n",
        Some(NetFault::Name { table: At::Link(2) }),
    ),
    (
        "format = 1\nsteps = 1\nlink = [{ name = 'a', cap = 2, store = 4 }]\n",
        None,
    ),
    (
        "format = 1\nsteps = 240\nlink = [{ name = 'a', cap = 2, store = 4 }]\n",
        None,
    ),
    (
        "format = 1\nsteps = 241\nlink = [{ name = 'a', cap = 2, store = 4 }]\n",
        Some(NetFault::Range { table: TOP, key: 2 }),
    ),
    (
        "format = 1\nsteps = -1\nlink = [{ name = 'a', cap = 2, store = 4 }]\n",
        Some(NetFault::Range { table: TOP, key: 2 }),
    ),
    (
        "format = 1\nsteps = 4294967297\nlink = [{ name = 'a', cap = 2, store = 4 }]\n",
        Some(NetFault::Range { table: TOP, key: 2 }),
    ),
    (
        "format = 1\nsteps = 5\nlink = [{ name = 'A', cap = 2, store = 4 }]\n",
        Some(NetFault::Range {
            table: LINK,
            key: 1,
        }),
    ),
    (
        "format = 1\nsteps = 5\nlink = [{ name = 'a', cap = 1001, store = 10_001 }]\n",
        Some(NetFault::Range {
            table: LINK,
            key: 3,
        }),
    ),
    (
        "format = 1\nsteps = 5\nlink = [{ name = 'a', cap = 1000, store = 10_000 }]\n",
        None,
    ),
];

#[test]
fn whole_files_get_their_first_refusal(rt: HostRuntime) -> Result<(), Fail> {
    try_each(&rt, "", &FILES)?;
    let bytes = b"format = 1 # \xff\n";
    assert_eq!(rt; read(rt.alloc(), bytes).err(), Some(NetFault::Toml));
    Ok(())
}
