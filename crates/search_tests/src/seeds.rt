//! The seeds of two small networks, worked by hand.

use ct_base::{Cell, Gate, Kind, Listed, Memory, Net, Out, Phase, Signal, valid};
use seed_prices::seed;
use std::alloc::Global;
use std::process::Abort;
use std::test::Fail;

/// A road cell of one capacity and one storage, without a gate.
fn road(alloc: Global, cap: u32, store: u32, initial: u32, out: Out) -> Cell {
    Cell {
        kind: Kind::Road,
        cap,
        store,
        wave_p: 1,
        wave_q: 1,
        gate: None,
        out,
        initial,
        demand: Listed::new(alloc),
    }
}

/// Five units before a diverge that sends whole parcels of three.
fn diverge(alloc: Global) -> Result<Net, Memory> {
    let turns = Out::Turns(Listed::of(vec![in alloc; (1, 2), (2, 1)]?));
    let first = road(alloc, 6, 9, 5, turns);
    let left = road(alloc, 6, 9, 0, Out::Exit);
    let right = road(alloc, 6, 9, 0, Out::Exit);
    Ok(Net {
        steps: 2,
        cells: Listed::of(vec![in alloc; first, left, right]?),
        signals: Listed::new(alloc),
    })
}

/// A cell with one unit, which a set of phases of the signal 0 lets into the cell 2.
fn approach(alloc: Global, greens: u8) -> Cell {
    let mut cell = road(alloc, 1, 2, 1, Out::To(2));
    cell.gate = Some(Gate { signal: 0, greens });
    cell
}

/// Two approaches that a signal of two phases lets into one cell in turn.
fn crossing(alloc: Global) -> Result<Net, Memory> {
    let phase = |next: u8| Phase {
        min: 1,
        max: 2,
        clear: 0,
        next,
    };
    let signal = Signal {
        start: 0,
        phases: Listed::of(vec![in alloc; phase(2), phase(1)]?),
    };
    let exit = road(alloc, 1, 2, 0, Out::Exit);
    Ok(Net {
        steps: 3,
        cells: Listed::of(vec![in alloc; approach(alloc, 1), approach(alloc, 2), exit]?),
        signals: Listed::of(vec![in alloc; signal]?),
    })
}

/// The rows that have a price, with their prices.
fn priced(alloc: Global, prices: &[i64]) -> Result<Vec<(usize, i64)>, Memory> {
    let mut priced = Vec::new(alloc);
    for (row, price) in prices.iter().enumerate() {
        if *price != 0 {
            priced.push((row, *price))?;
        }
    }
    Ok(priced)
}

/// The seed of a network has so many prices, of which these are not 0.
fn try_seed(
    rt: &impl Abort,
    alloc: Global,
    net: &Net,
    rows: usize,
    wanted: &[(usize, i64)],
) -> Result<(), Memory> {
    assert!(rt; valid(net));
    let prices = seed(alloc, net)?;
    assert_eq!(rt; prices.len(), rows);
    assert_eq!(rt; priced(alloc, prices.as_slice())?.as_slice(), wanted);
    Ok(())
}

/// Behind nine rule rows each step has eight flow rows of each approach, of which the third is the lower row of its units, and six of the
/// exit, of which that is the third too; the last step has one row less of each.
const OF_THE_CROSSING: [(usize, i64); 9] = [
    (11, 1024),
    (19, 1024),
    (27, 1024),
    (33, 1024),
    (41, 1024),
    (49, 1024),
    (55, 1024),
    (62, 1024),
    (69, 1024),
];

/// The floor of the parcels is the first of the twelve flow rows of the diverge, and the lower row of the parcels the fifth. Each exit has
/// six rows; the last step has one row less of each cell.
const OF_THE_DIVERGE: [(usize, i64); 8] = [
    (0, -1024),
    (4, 3072),
    (14, 1024),
    (20, 1024),
    (24, -1024),
    (28, 3072),
    (37, 1024),
    (42, 1024),
];

#[test]
fn seeds_are_those_worked_by_hand(rt: HostRuntime) -> Result<(), Fail> {
    let alloc = rt.alloc();
    try_seed(&rt, alloc, &crossing(alloc)?, 72, &OF_THE_CROSSING)?;
    try_seed(&rt, alloc, &diverge(alloc)?, 45, &OF_THE_DIVERGE)?;
    Ok(())
}
