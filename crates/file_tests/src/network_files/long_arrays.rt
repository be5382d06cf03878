//! The most items of each kind of array, and one more.

use crate::network_files::{LINK, PHASE, SIGNAL, TOP};
use network_file::{At, NetFault, read};
use std::alloc::Global;
use std::process::Abort;
use std::test::Fail;

/// What stands before an array, an item of it, a number of items with what is refused there, and what stands behind.
type Array = (
    &'static str,
    &'static str,
    usize,
    Option<NetFault>,
    &'static str,
);

/// Arrays of the most items, and of one more. Links, signals and phases have one name each, so that the most of them
/// are refused for their names alone.
const ARRAYS: [Array; 18] = [
    (
        "format = 1\nsteps = 5\nlink = [",
        "{ name = 'a', cap = 1, store = 1 }, ",
        64,
        Some(NetFault::Name { table: At::Link(1) }),
        "]\n",
    ),
    (
        "format = 1\nsteps = 5\nlink = [",
        "{ name = 'a', cap = 1, store = 1 }, ",
        65,
        Some(NetFault::Range { table: TOP, key: 3 }),
        "]\n",
    ),
    (
        "format = 1\nsteps = 5\nlink = [{ name = 'a', cap = 1, store = 1 }]\nsignal = [",
        "{ name = 's', phase = [{ name = 'p', min = 1, max = 1, next = [] }, { name = 'q', min = 1, max = 1, next = [] }] }, ",
        16,
        Some(NetFault::Name {
            table: At::Signal(1),
        }),
        "]\n",
    ),
    (
        "format = 1\nsteps = 5\nlink = [{ name = 'a', cap = 1, store = 1 }]\nsignal = [",
        "{ name = 's', phase = [{ name = 'p', min = 1, max = 1, next = [] }, { name = 'q', min = 1, max = 1, next = [] }] }, ",
        17,
        Some(NetFault::Range { table: TOP, key: 4 }),
        "]\n",
    ),
    (
        "format = 1\nsteps = 5\nlink = [{ name = 'a', cap = 1, store = 1 }]\nsignal = [{ name = 's', phase = [",
        "{ name = 'p', min = 1, max = 1, next = [] }, ",
        8,
        Some(NetFault::Name { table: PHASE }),
        "] }]\n",
    ),
    (
        "format = 1\nsteps = 5\nlink = [{ name = 'a', cap = 1, store = 1 }]\nsignal = [{ name = 's', phase = [",
        "{ name = 'p', min = 1, max = 1, next = [] }, ",
        9,
        Some(NetFault::Range {
            table: SIGNAL,
            key: 3,
        }),
        "] }]\n",
    ),
    (
        "format = 1\nsteps = 5\nlink = [{ name = 'a', cap = 1, store = 1 }]\nsignal = [{ name = 's', phase = [{ name = 'q', min = 1, max = 1, next = [] }, { name = 'p', min = 1, max = 1, next = [",
        "'p', ",
        16,
        None,
        "] }] }]\n",
    ),
    (
        "format = 1\nsteps = 5\nlink = [{ name = 'a', cap = 1, store = 1 }]\nsignal = [{ name = 's', phase = [{ name = 'q', min = 1, max = 1, next = [] }, { name = 'p', min = 1, max = 1, next = [",
        "'p', ",
        17,
        Some(NetFault::Range {
            table: PHASE,
            key: 5,
        }),
        "] }] }]\n",
    ),
    (
        "format = 1\nsteps = 5\nlink = [{ name = 'a', cap = 1, store = 1, turns = [",
        "{ link = 'b', parcel = 1 }, ",
        4,
        None,
        "] }]\n",
    ),
    (
        "format = 1\nsteps = 5\nlink = [{ name = 'a', cap = 1, store = 1, turns = [",
        "{ link = 'b', parcel = 1 }, ",
        5,
        Some(NetFault::Range {
            table: LINK,
            key: 7,
        }),
        "] }]\n",
    ),
    (
        "format = 1\nsteps = 5\nlink = [{ name = 'a', cap = 1, store = 1, signal = 's', greens = [",
        "'p', ",
        16,
        None,
        "] }]\n",
    ),
    (
        "format = 1\nsteps = 5\nlink = [{ name = 'a', cap = 1, store = 1, signal = 's', greens = [",
        "'p', ",
        17,
        Some(NetFault::Range {
            table: LINK,
            key: 9,
        }),
        "] }]\n",
    ),
    (
        "format = 1\nsteps = 5\nlink = [{ name = 'a', cap = 1, store = 1, initial = [",
        "1, ",
        256,
        None,
        "] }]\n",
    ),
    (
        "format = 1\nsteps = 5\nlink = [{ name = 'a', cap = 1, store = 1, initial = [",
        "1, ",
        257,
        Some(NetFault::Range {
            table: LINK,
            key: 10,
        }),
        "] }]\n",
    ),
    (
        "format = 1\nsteps = 5\nlink = [{ name = 'a', cap = 1, store = 1, demand = [",
        "{ from = 0, until = 1, rate = 1 }, ",
        240,
        None,
        "] }]\n",
    ),
    (
        "format = 1\nsteps = 5\nlink = [{ name = 'a', cap = 1, store = 1, demand = [",
        "{ from = 0, until = 1, rate = 1 }, ",
        241,
        Some(NetFault::Range {
            table: LINK,
            key: 11,
        }),
        "] }]\n",
    ),
    (
        "format = 1\nsteps = 5\nlink = [{ name = 'a', cap = 1, store = 1, rates = [",
        "1, ",
        240,
        None,
        "] }]\n",
    ),
    (
        "format = 1\nsteps = 5\nlink = [{ name = 'a', cap = 1, store = 1, rates = [",
        "1, ",
        241,
        Some(NetFault::Range {
            table: LINK,
            key: 12,
        }),
        "] }]\n",
    ),
];

/// A text so many times.
fn repeated(alloc: Global, text: &str, count: usize) -> Result<String, Fail> {
    let mut texts = String::new(alloc);
    for _ in 0..count {
        texts.push_str(text)?;
    }
    Ok(texts)
}

/// Reads each of the long arrays.
fn try_arrays(rt: &(impl Abort + AllocGlobal)) -> Result<(), Fail> {
    for (head, item, count, refusal, tail) in &ARRAYS {
        let items = repeated(rt.alloc(), item, *count)?;
        let document = format!(in rt.alloc(); "{head}{items}{tail}")?;
        assert_eq!(rt;
            read(rt.alloc(), document.as_bytes()).err(),
            *refusal,
            "{document}"
        );
    }
    Ok(())
}

#[test]
fn long_arrays_get_their_first_refusal(rt: HostRuntime) -> Result<(), Fail> {
    try_arrays(&rt)
}
