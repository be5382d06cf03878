//! For each rule of a valid network, what just keeps it and what just breaks it.

use super::change::{Change, changed};
use super::given::{GivenCell, GivenOut, GivenSignal, net_of};
use ct_base::{Kind, Memory, valid};
use std::alloc::Global;
use std::process::Abort;

/// A queue before cell 1, over 3 steps.
const QUEUE: GivenCell<'static> = GivenCell {
    kind: Kind::Queue,
    cap: 2,
    store: 0,
    wave: (1, 1),
    gate: None,
    out: GivenOut::To(1),
    initial: 0,
    demand: &[2, 0, 1],
};

/// The last cell of a road.
const EXIT: GivenCell<'static> = GivenCell {
    kind: Kind::Road,
    cap: 2,
    store: 4,
    wave: (1, 2),
    gate: None,
    out: GivenOut::Exit,
    initial: 0,
    demand: &[],
};

/// A road cell before cell 2.
const ROAD: GivenCell<'static> = GivenCell {
    out: GivenOut::To(2),
    ..EXIT
};

/// A diverge that holds five units.
const DIVERGE: GivenCell<'static> = GivenCell {
    store: 10,
    initial: 5,
    ..EXIT
};

/// A queue before cell 6.
const LATER_QUEUE: GivenCell<'static> = GivenCell {
    out: GivenOut::To(6),
    ..QUEUE
};

/// A cell before cell 2 that is full.
const APPROACH: GivenCell<'static> = GivenCell {
    cap: 1,
    store: 2,
    initial: 1,
    ..ROAD
};

/// The exit of one unit a step.
const NARROW_EXIT: GivenCell<'static> = GivenCell {
    cap: 1,
    store: 2,
    ..EXIT
};

/// What is tried, what is changed in a cell, and whether it may be.
type Case = (&'static str, Change, bool);

/// A signal that lets each of two phases follow the other.
const SIGNAL: GivenSignal<'static> = GivenSignal {
    start: 0,
    phases: &[(1, 2, 0, 2), (1, 2, 0, 1)],
};

/// Whether the network of these cells and signals is valid.
fn judged(
    alloc: Global,
    steps: u32,
    cells: &[GivenCell],
    signals: &[GivenSignal],
) -> Result<bool, Memory> {
    let net = net_of(alloc, steps, cells, signals)?;
    Ok(valid(&net))
}

/// Whether a network of so many exits and signals is valid.
fn judged_counts(alloc: Global, steps: u32, cells: usize, signals: usize) -> Result<bool, Memory> {
    let cells = vec![in alloc; EXIT; cells]?;
    let signals = vec![in alloc; SIGNAL; signals]?;
    judged(alloc, steps, &cells, &signals)
}

/// Steps, cells and signals, and whether there may be so many.
const COUNTS: &[(u32, usize, usize, bool)] = &[
    (1, 1, 0, true),
    (240, 256, 16, true),
    (0, 1, 0, false),
    (241, 1, 0, false),
    (3, 0, 0, false),
    (3, 257, 0, false),
    (3, 1, 17, false),
];

pub fn try_counts(rt: &impl Abort, alloc: Global) -> Result<(), Memory> {
    for (steps, cells, signals, expected) in COUNTS {
        let valid = judged_counts(alloc, *steps, *cells, *signals)?;
        assert_eq!(rt; valid, *expected, "{steps} steps");
    }
    Ok(())
}

/// What is changed in the road cell between a queue and an exit, and whether it may be.
const ROADS: &[Case] = &[
    ("nothing", Change::Nothing, true),
    ("no capacity", Change::Cap(0), false),
    ("a capacity of 1000", Change::Cap(1000), true),
    ("a capacity of 1001", Change::Cap(1001), false),
    ("no storage", Change::Store(0), false),
    ("a storage of 10000", Change::Store(10_000), true),
    ("a storage of 10001", Change::Store(10_001), false),
    ("no wave", Change::Wave(0, 2), false),
    ("a wave at free flow", Change::Wave(2, 2), true),
    ("a wave beyond free flow", Change::Wave(3, 2), false),
    ("a wave over 100", Change::Wave(1, 100), true),
    ("a wave over 101", Change::Wave(1, 101), false),
    ("full at the start", Change::Initial(4), true),
    ("more than full at the start", Change::Initial(5), false),
    ("a move into itself", Change::To(1), false),
    ("a move into a queue", Change::To(0), false),
    ("a move into no cell", Change::To(3), false),
    ("a gate of no signal", Change::Gate(1, 1), false),
    ("demand at a road cell", Change::Demand(&[0, 0, 0]), false),
];

/// What is changed in a queue before two road cells, and whether it may be.
const QUEUES: &[Case] = &[
    ("nothing", Change::Nothing, true),
    ("no capacity", Change::Cap(0), false),
    ("storage", Change::Store(1), false),
    ("a wave of 1/2", Change::Wave(1, 2), false),
    ("a wave of 0/1", Change::Wave(0, 1), false),
    ("a gate", Change::Gate(0, 1), false),
    ("a unit at the start", Change::Initial(1), false),
    ("an exit", Change::Exit, false),
    ("a diverge", Change::Turns(&[(1, 1), (2, 1)]), false),
    ("a move into itself", Change::To(0), false),
    ("demand for 2 of 3 steps", Change::Demand(&[2, 0]), false),
    (
        "demand for a step too many",
        Change::Demand(&[2, 0, 1, 0]),
        false,
    ),
    ("a demand of 1000", Change::Demand(&[0, 0, 1000]), true),
    ("a demand of 1001", Change::Demand(&[0, 0, 1001]), false),
];

/// The branches of a diverge before six exits and a queue, and whether it may have them.
const DIVERGES: &[Case] = &[
    ("2 branches", Change::Turns(&[(1, 2), (2, 1)]), true),
    (
        "4 branches",
        Change::Turns(&[(1, 100), (2, 1), (3, 1), (4, 1)]),
        true,
    ),
    ("no branch", Change::Turns(&[]), false),
    ("1 branch", Change::Turns(&[(1, 2)]), false),
    (
        "5 branches",
        Change::Turns(&[(1, 1), (2, 1), (3, 1), (4, 1), (5, 1)]),
        false,
    ),
    ("equal branches", Change::Turns(&[(1, 2), (1, 1)]), false),
    (
        "the first and last equal",
        Change::Turns(&[(1, 1), (2, 1), (1, 1)]),
        false,
    ),
    (
        "a branch with no unit",
        Change::Turns(&[(1, 2), (2, 0)]),
        false,
    ),
    (
        "a branch with 101 units",
        Change::Turns(&[(1, 101), (2, 1)]),
        false,
    ),
    (
        "a branch into itself",
        Change::Turns(&[(1, 2), (0, 1)]),
        false,
    ),
    (
        "a branch into a queue",
        Change::Turns(&[(1, 2), (7, 1)]),
        false,
    ),
    (
        "a branch into no cell",
        Change::Turns(&[(8, 2), (2, 1)]),
        false,
    ),
    (
        "a branch where the queue leads",
        Change::Turns(&[(1, 2), (6, 1)]),
        false,
    ),
];

pub fn try_cells(rt: &impl Abort, alloc: Global) -> Result<(), Memory> {
    try_changes(rt, alloc, &[QUEUE], ROAD, &[EXIT], ROADS)?;
    try_changes(rt, alloc, &[], QUEUE, &[ROAD, EXIT], QUEUES)?;
    let behind = [EXIT, EXIT, EXIT, EXIT, EXIT, EXIT, LATER_QUEUE];
    try_changes(rt, alloc, &[], DIVERGE, &behind, DIVERGES)
}

/// Tries each change of a cell between others.
fn try_changes(
    rt: &impl Abort,
    alloc: Global,
    before: &[GivenCell<'static>],
    cell: GivenCell<'static>,
    behind: &[GivenCell<'static>],
    cases: &[Case],
) -> Result<(), Memory> {
    for (what, change, expected) in cases {
        let valid = judged_between(alloc, before, changed(cell, *change), behind)?;
        assert_eq!(rt; valid, *expected, "{what}");
    }
    Ok(())
}

/// Whether the network of a cell between others is valid.
fn judged_between(
    alloc: Global,
    before: &[GivenCell<'static>],
    cell: GivenCell<'static>,
    behind: &[GivenCell<'static>],
) -> Result<bool, Memory> {
    let mut cells = Vec::from_slice(alloc, before)?;
    cells.push(cell)?;
    cells.extend_from_slice(behind)?;
    judged(alloc, 3, &cells, &[SIGNAL])
}

/// The gates of two approaches that lead into one exit, and whether they may have them.
const MERGES: &[(&str, Option<(u32, u8)>, Option<(u32, u8)>, bool)] = &[
    ("a phase each", Some((0, 1)), Some((0, 2)), true),
    ("no green", Some((0, 0)), Some((0, 2)), false),
    ("a green of no phase", Some((0, 5)), Some((0, 2)), false),
    ("a gate of no signal", Some((2, 1)), Some((2, 2)), false),
    ("equal greens", Some((0, 1)), Some((0, 1)), false),
    ("overlapping greens", Some((0, 3)), Some((0, 2)), false),
    ("greens of two signals", Some((0, 1)), Some((1, 2)), false),
    ("the first has a gate", Some((0, 1)), None, false),
    ("the second has a gate", None, Some((0, 2)), false),
    ("no gate", None, None, false),
];

pub fn try_merges(rt: &impl Abort, alloc: Global) -> Result<(), Memory> {
    for (what, major, minor, expected) in MERGES {
        let first = GivenCell {
            gate: *major,
            ..APPROACH
        };
        let second = GivenCell {
            gate: *minor,
            ..APPROACH
        };
        let cells = [first, second, NARROW_EXIT];
        let valid = judged(alloc, 3, &cells, &[SIGNAL, SIGNAL])?;
        assert_eq!(rt; valid, *expected, "{what}");
    }
    Ok(())
}

/// The start and the phases of a signal that gates no cell, and whether it may have them.
const SIGNALS: &[(&str, u8, &[(u32, u32, u32, u8)], bool)] = &[
    ("2 phases", 1, &[(1, 2, 0, 2), (1, 2, 0, 1)], true),
    ("a start beyond", 2, &[(1, 2, 0, 2), (1, 2, 0, 1)], false),
    ("no phase", 0, &[], false),
    ("1 phase", 0, &[(1, 2, 0, 2)], false),
    ("no green step", 0, &[(1, 2, 0, 2), (0, 2, 0, 1)], false),
    ("2 green steps", 0, &[(2, 2, 0, 2), (1, 2, 0, 1)], true),
    (
        "3 to 2 green steps",
        0,
        &[(3, 2, 0, 2), (1, 2, 0, 1)],
        false,
    ),
    ("60 green steps", 0, &[(1, 2, 0, 2), (1, 60, 0, 1)], true),
    ("61 green steps", 0, &[(1, 2, 0, 2), (1, 61, 0, 1)], false),
    ("20 clearing steps", 0, &[(1, 2, 20, 2), (1, 2, 0, 1)], true),
    (
        "21 clearing steps",
        0,
        &[(1, 2, 21, 2), (1, 2, 0, 1)],
        false,
    ),
    ("no phase follows", 0, &[(1, 2, 0, 2), (1, 2, 0, 0)], false),
    ("itself follows", 0, &[(1, 2, 0, 1), (1, 2, 0, 1)], false),
    ("each may follow", 0, &[(1, 2, 0, 2), (1, 2, 0, 3)], false),
    (
        "a third phase follows",
        0,
        &[(1, 2, 0, 6), (1, 2, 0, 1)],
        false,
    ),
    ("phase 7 follows", 0, &[(1, 2, 0, 2), (1, 2, 0, 128)], false),
    ("8 phases", 7, EIGHT, true),
    ("9 phases", 7, NINE, false),
];

const EIGHT: &[(u32, u32, u32, u8)] = &[
    (1, 1, 1, 2),
    (1, 1, 1, 4),
    (1, 1, 1, 8),
    (1, 1, 1, 16),
    (1, 1, 1, 32),
    (1, 1, 1, 64),
    (1, 1, 1, 128),
    (1, 1, 1, 127),
];

const NINE: &[(u32, u32, u32, u8)] = &[
    (1, 1, 1, 2),
    (1, 1, 1, 4),
    (1, 1, 1, 8),
    (1, 1, 1, 16),
    (1, 1, 1, 32),
    (1, 1, 1, 64),
    (1, 1, 1, 128),
    (1, 1, 1, 1),
    (1, 1, 1, 1),
];

pub fn try_signals(rt: &impl Abort, alloc: Global) -> Result<(), Memory> {
    for (what, start, phases, expected) in SIGNALS {
        let signal = GivenSignal {
            start: *start,
            phases,
        };
        let valid = judged(alloc, 3, &[EXIT], &[SIGNAL, signal])?;
        assert_eq!(rt; valid, *expected, "{what}");
    }
    Ok(())
}
