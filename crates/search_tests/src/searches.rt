//! Searches of two small networks, with budgets for one node, for the whole tree and for too many nodes.

use cert_check::{MAX_CERTIFICATE_BYTES, Verdict, verdict};
use cert_format::{Cert, write};
use ct_base::{Cell, Gate, Kind, Listed, Memory, Net, Out, Phase, Signal, valid};
use solve_core::{SolveFault, Solved, State, solve};
use std::alloc::Global;
use std::test::Fail;

/// A road cell without a gate.
fn road(alloc: Global, cap: u32, store: u32, initial: u32, out: Out) -> Cell {
    Cell {
        kind: Kind::Road,
        cap,
        store,
        wave_p: 1,
        wave_q: 1,
        gate: None,
        out,
        initial,
        demand: Listed::new(alloc),
    }
}

/// One cell over one step, in which 3 units wait, of which 2 leave. Its program has five rows.
fn one_cell(alloc: Global) -> Result<Net, Memory> {
    Ok(Net {
        steps: 1,
        cells: Listed::of(vec![in alloc; road(alloc, 2, 3, 3, Out::Exit)]?),
        signals: Listed::new(alloc),
    })
}

/// A cell with one unit, which a set of phases of the signal 0 lets into the cell 2.
fn approach(alloc: Global, greens: u8) -> Cell {
    let mut cell = road(alloc, 1, 2, 1, Out::To(2));
    cell.gate = Some(Gate { signal: 0, greens });
    cell
}

/// Two approaches that a signal of two phases lets into one cell in turn. Four plan columns are open, so that no tree has more than 31
/// nodes.
fn crossing(alloc: Global) -> Result<Net, Memory> {
    let phase = |next: u8| Phase {
        min: 1,
        max: 2,
        clear: 0,
        next,
    };
    let signal = Signal {
        start: 0,
        phases: Listed::of(vec![in alloc; phase(2), phase(1)]?),
    };
    let exit = road(alloc, 1, 2, 0, Out::Exit);
    Ok(Net {
        steps: 3,
        cells: Listed::of(vec![in alloc; approach(alloc, 1), approach(alloc, 2), exit]?),
        signals: Listed::of(vec![in alloc; signal]?),
    })
}

/// What a search finds within a budget.
fn found(alloc: Global, net: &Net, budget: u32) -> Result<Solved, SolveFault> {
    if valid(net) && 1 <= budget {
        solve(alloc, net, budget)
    } else {
        Err(SolveFault::Memory)
    }
}

/// The delay, the bound and the state of what is found.
fn told(alloc: Global, net: &Net, budget: u32) -> Result<(u64, i64, State), SolveFault> {
    let solved = found(alloc, net, budget)?;
    Ok((solved.delay, solved.cert.bound, solved.state))
}

/// How many nodes the certificate of what is found has.
fn nodes(alloc: Global, net: &Net, budget: u32) -> Result<u32, SolveFault> {
    let solved = found(alloc, net, budget)?;
    Ok(solved.nodes)
}

/// The verdict on the text of a certificate.
fn checked(alloc: Global, net: &Net, cert: &Cert) -> Result<Option<Verdict>, Memory> {
    let text = write(alloc, cert)?;
    if valid(net) && text.len() as u64 <= MAX_CERTIFICATE_BYTES {
        Ok(verdict(alloc, net, text.as_slice()).ok())
    } else {
        Ok(None)
    }
}

/// The verdict on the certificate of what is found.
fn verdict_on(alloc: Global, net: &Net, budget: u32) -> Result<Option<Verdict>, SolveFault> {
    let solved = found(alloc, net, budget)?;
    Ok(checked(alloc, net, &solved.cert)?)
}

#[test]
fn one_cell_takes_one_node(rt: HostRuntime) -> Result<(), Fail> {
    let alloc = rt.alloc();
    let net = one_cell(alloc)?;
    for budget in &[1, 1_600_000] {
        assert_eq!(rt;
            told(alloc, &net, *budget).ok(),
            Some((1, 1, State::Optimal))
        );
        assert_eq!(rt; nodes(alloc, &net, *budget).ok(), Some(1));
    }
    Ok(())
}

#[test]
fn a_budget_is_too_great_for_five_rows(rt: HostRuntime) -> Result<(), Fail> {
    let alloc = rt.alloc();
    let net = one_cell(alloc)?;
    assert_eq!(rt;
        told(alloc, &net, 1_600_001).err(),
        Some(SolveFault::Budget(5))
    );
    Ok(())
}

#[test]
fn a_budget_for_the_whole_tree_is_enough(rt: HostRuntime) -> Result<(), Fail> {
    let alloc = rt.alloc();
    let net = crossing(alloc)?;
    assert_eq!(rt; told(alloc, &net, 31).ok(), Some((1, 1, State::Optimal)));
    assert_eq!(rt;
        verdict_on(alloc, &net, 31).ok(),
        Some(Some(Verdict::Accepted(1)))
    );
    match nodes(alloc, &net, 31) {
        Ok(nodes) => assert!(rt; nodes % 2 == 1 && nodes <= 31),
        Err(_) => return Err("no search".into()),
    }
    Ok(())
}

#[test]
fn one_node_is_all_that_is_made_of_a_crossing(rt: HostRuntime) -> Result<(), Fail> {
    let alloc = rt.alloc();
    let net = crossing(alloc)?;
    assert_eq!(rt; nodes(alloc, &net, 1).ok(), Some(1));
    match told(alloc, &net, 1) {
        Ok((delay, _, _)) => assert_eq!(rt; delay, 1),
        Err(_) => return Err("no search".into()),
    }
    Ok(())
}
