//! The keys of a signal and of its phases, and the names of signals and of phases.

use crate::network_files::{Case, PHASE, SIGNAL, try_each};
use network_file::{At, NetFault};
use std::test::Fail;

/// What stands before a signal's lines, and after the first of its phases.
const SIGNAL_HEAD: &str =
    "format = 1\nsteps = 5\nlink = [{ name = 's', cap = 2, store = 4 }]\n[[signal]]\n";

/// Lines of a signal, with other signals behind them.
const SIGNAL_LINES: [Case; 26] = [
    (
        "phase = []\n",
        Some(NetFault::Key {
            table: SIGNAL,
            key: 1,
        }),
    ),
    (
        "name = 's'\n",
        Some(NetFault::Key {
            table: SIGNAL,
            key: 3,
        }),
    ),
    (
        "name = 's'\nstart = 1\n",
        Some(NetFault::Key {
            table: SIGNAL,
            key: 2,
        }),
    ),
    (
        "name = 's'\nphase = []\ncycle = 60\n",
        Some(NetFault::Key {
            table: SIGNAL,
            key: 0,
        }),
    ),
    (
        "name = 's'\nphase = []\n",
        Some(NetFault::Range {
            table: SIGNAL,
            key: 3,
        }),
    ),
    (
        "name = '1'\nphase = []\n",
        Some(NetFault::Range {
            table: SIGNAL,
            key: 1,
        }),
    ),
    (
        "name = 's'\nphase = [{ name = 'p', min = 1, max = 1, next = [] }]\n",
        Some(NetFault::Range {
            table: SIGNAL,
            key: 3,
        }),
    ),
    (
        "name = 's'\nstart = 'q'\nphase = [{ name = 'p', min = 1, max = 60, next = ['q'] }, { name = 'q', min = 60, max = 1, clear = 20, next = [] }]\n",
        None,
    ),
    (
        "name = 's'\nphase = [{ name = 'p', min = 1, max = 1, next = [] }, { min = 1, max = 1, next = [] }]\n",
        Some(NetFault::Key {
            table: PHASE,
            key: 1,
        }),
    ),
    (
        "name = 's'\nphase = [{ name = 'p', min = 1, max = 1, next = [] }, { name = 'q', min = '1', max = 1, next = [] }]\n",
        Some(NetFault::Key {
            table: PHASE,
            key: 2,
        }),
    ),
    (
        "name = 's'\nphase = [{ name = 'p', min = 1, max = 1, next = [] }, { name = 'q', min = 1, max = 1, clear = 1.0, next = [] }]\n",
        Some(NetFault::Key {
            table: PHASE,
            key: 4,
        }),
    ),
    (
        "name = 's'\nphase = [{ name = 'p', min = 1, max = 1, next = [] }, { name = 'q', min = 1, max = 1 }]\n",
        Some(NetFault::Key {
            table: PHASE,
            key: 5,
        }),
    ),
    (
        "name = 's'\nphase = [{ name = 'p', min = 1, max = 1, next = [] }, { name = 'q', min = 1, max = 1, next = [], red = 1 }]\n",
        Some(NetFault::Key {
            table: PHASE,
            key: 0,
        }),
    ),
    (
        "name = 's'\nphase = [{ name = 'p', min = 1, max = 1, next = [] }, { name = '', min = 1, max = 1, next = [] }]\n",
        Some(NetFault::Range {
            table: PHASE,
            key: 1,
        }),
    ),
    (
        "name = 's'\nphase = [{ name = 'p', min = 1, max = 1, next = [] }, { name = 'q', min = 0, max = 1, next = [] }]\n",
        Some(NetFault::Range {
            table: PHASE,
            key: 2,
        }),
    ),
    (
        "name = 's'\nphase = [{ name = 'p', min = 1, max = 1, next = [] }, { name = 'q', min = 61, max = 1, next = [] }]\n",
        Some(NetFault::Range {
            table: PHASE,
            key: 2,
        }),
    ),
    (
        "name = 's'\nphase = [{ name = 'p', min = 1, max = 1, next = [] }, { name = 'q', min = 1, max = 0, next = [] }]\n",
        Some(NetFault::Range {
            table: PHASE,
            key: 3,
        }),
    ),
    (
        "name = 's'\nphase = [{ name = 'p', min = 1, max = 1, next = [] }, { name = 'q', min = 1, max = 61, next = [] }]\n",
        Some(NetFault::Range {
            table: PHASE,
            key: 3,
        }),
    ),
    (
        "name = 's'\nphase = [{ name = 'p', min = 1, max = 1, next = [] }, { name = 'q', min = 1, max = 1, clear = 21, next = [] }]\n",
        Some(NetFault::Range {
            table: PHASE,
            key: 4,
        }),
    ),
    (
        "name = 's'\nphase = [{ name = 'p', min = 1, max = 1, next = [] }, { name = 'q', min = 1, max = 1, clear = -1, next = [] }]\n",
        Some(NetFault::Range {
            table: PHASE,
            key: 4,
        }),
    ),
    (
        "name = 's'\nphase = [{ name = 'p', min = 1, max = 1, next = [] }, { name = 'p', min = 1, max = 1, next = [] }]\n",
        Some(NetFault::Name { table: PHASE }),
    ),
    (
        "name = 's'\nphase = [{ name = 'p', min = 1, max = 1, next = [] }, { name = 'q', min = 1, max = 1, next = [] }]\n[[signal]]\nname = 't'\nphase = [{ name = 'p', min = 1, max = 1, next = [] }, { name = 'q', min = 1, max = 1, next = [] }]\n",
        None,
    ),
    (
        "name = 's'\nphase = [{ name = 'p', min = 1, max = 1, next = [] }, { name = 'q', min = 1, max = 1, next = [] }]\n[[signal]]\nname = 's'\nphase = [{ name = 'p', min = 1, max = 1, next = [] }, { name = 'p', min = 1, max = 1, next = [] }]\n",
        Some(NetFault::Name {
            table: At::Signal(1),
        }),
    ),
    (
        "name = 's'\nphase = [{ name = 'p', min = 1, max = 1, next = [] }, { name = 'p', min = 1, max = 1, next = [] }]\n[[signal]]\nname = 's'\nphase = [{ name = 'p', min = 1, max = 1, next = [] }, { name = 'q', min = 1, max = 1, next = [] }]\n",
        Some(NetFault::Name { table: PHASE }),
    ),
    (
        "name = 's'\nphase = [{ name = 'p', min = 0, max = 1, next = [] }, { name = 'q', min = 1, max = 1, next = [] }]\n[[signal]]\nname = 't'\n",
        Some(NetFault::Key {
            table: At::Signal(1),
            key: 3,
        }),
    ),
    (
        "name = 's'\nphase = [{ name = 'p', min = 0, max = 1, next = [] }, { name = 'q', min = 1, max = 1, next = [] }]\n[[signal]]\nname = 'T'\nphase = []\n",
        Some(NetFault::Range {
            table: At::Phase(0, 0),
            key: 2,
        }),
    ),
];

#[test]
fn lines_of_a_signal_get_their_first_refusal(rt: HostRuntime) -> Result<(), Fail> {
    try_each(&rt, SIGNAL_HEAD, &SIGNAL_LINES)
}
