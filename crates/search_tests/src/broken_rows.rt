//! The first rule row that bits break.

ghost use Rattle.ct_base.specs.Validity.{IsValid};

use ct_base::{Cell, Gate, Kind, Listed, Memory, Net, Out, Phase, Signal, valid};
use program_layout::layout_of;
use rule_breaks::{RuleBreak, are_bits, broken_row};
use std::alloc::Global;
use std::test::Fail;

/// A road cell with one unit, which a set of phases of the signal lets into the cell 2.
fn approach(alloc: Global, greens: u8) -> Cell {
    Cell {
        kind: Kind::Road,
        cap: 1,
        store: 2,
        wave_p: 1,
        wave_q: 1,
        gate: Some(Gate { signal: 0, greens }),
        out: Out::To(2),
        initial: 1,
        demand: Listed::new(alloc),
    }
}

/// Two approaches that a signal of two phases lets into one cell in turn, each for one or two of three steps.
fn crossing(alloc: Global) -> Result<Net, Memory> {
    let phase = |next: u8| Phase {
        min: 1,
        max: 2,
        clear: 0,
        next,
    };
    let signal = Signal {
        start: 0,
        phases: Listed::of(vec![in alloc; phase(2), phase(1)]?),
    };
    let mut exit = approach(alloc, 1);
    exit.gate = None;
    exit.out = Out::Exit;
    exit.initial = 0;
    Ok(Net {
        steps: 3,
        cells: Listed::of(vec![in alloc; approach(alloc, 1), approach(alloc, 2), exit]?),
        signals: Listed::of(vec![in alloc; signal]?),
    })
}

/// What is found, where there is a bit for each plan column and so many steps.
fn found(
    alloc: Global,
    net: &Net,
    bits: &[i64],
    steps: u32,
) -> Result<Option<Option<RuleBreak>>, Memory>
    requires valid { IsValid net.now }
{
    let columns = layout_of(alloc, net)?.plan;
    let asked = 1 <= steps && steps <= net.steps;
    if asked && bits.len() == columns as usize && are_bits(bits) {
        Ok(Some(broken_row(net, bits, steps)))
    } else {
        Ok(None)
    }
}

/// Bits of the two greens step by step, the steps that are looked at, and what is found.
const CASES: [([i64; 6], u32, &str); 9] = [
    // a plan; a step with no letter, behind which there is nothing, and where it is not looked at
    ([1, 0, 0, 1, 1, 0], 3, "Some(None)"),
    (
        [1, 0, 0, 0, 1, 0],
        3,
        "Some(Some(RuleBreak { row: 1, price: 1 }))",
    ),
    ([1, 0, 0, 0, 1, 0], 1, "Some(None)"),
    // two letters in the first step, and in the second
    (
        [1, 1, 0, 1, 1, 0],
        3,
        "Some(Some(RuleBreak { row: 0, price: -1 }))",
    ),
    (
        [1, 0, 1, 1, 0, 1],
        3,
        "Some(Some(RuleBreak { row: 5, price: -1 }))",
    ),
    // a green that is too long, and as long as it can be
    (
        [1, 0, 1, 0, 1, 0],
        3,
        "Some(Some(RuleBreak { row: 3, price: 1 }))",
    ),
    ([1, 0, 1, 0, 1, 0], 2, "Some(None)"),
    // no letter in the last step; a value that is no bit
    (
        [1, 0, 0, 1, 0, 0],
        3,
        "Some(Some(RuleBreak { row: 7, price: 1 }))",
    ),
    ([1, 0, 0, 2, 1, 0], 3, "None"),
];

#[test]
fn the_first_row_that_is_broken_is_found(rt: HostRuntime) -> Result<(), Fail> {
    let alloc = rt.alloc();
    let net = crossing(alloc)?;
    assert!(rt; valid(&net));
    for (bits, steps, wanted) in &CASES {
        let found = found(alloc, &net, bits, *steps)?;
        assert_eq!(rt; format!(in alloc; "{found:?}")?.as_str(), *wanted);
    }
    Ok(())
}
