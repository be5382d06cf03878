//! Replays of small networks that were worked by hand.

ghost use Rattle.std.specs.Prelude.{◌≡◌, length, IsTrue};
ghost use Rattle.ct_base.specs.Validity.{IsValid};
ghost use Rattle.traffic_model.specs.Runs.{HasWords};

use crate::networks::{bottleneck, crossing, diverge, green, no_plan, one_link};
use cell_replay::{KeptReplay, Line, Replay, delay, first_change, prefix_delay, totals, trace};
use ct_base::{Memory, Net, Plan, valid};
use std::alloc::Global;
use std::process::Abort;
use std::test::Fail;

/// Whether a plan has a word for each signal, with a letter for each step.
fn has_words(net: &Net, plan: &Plan) -> bool
    ensures { IsTrue result → HasWords net.now plan.now }
{
    plan.words.len() == net.signals.len()
        && plan
            .words
            .as_slice()
            .iter()
            .all(|word| word.len() == net.steps as usize)
}

/// The delay of each step of a network without signals.
fn step_delays(alloc: Global, net: &Net) -> Result<Vec<u64>, Memory>
    requires valid { IsValid net.now }
    requires no_signal { length net.now.signals ≡ 0 }
{
    let mut replay = Replay::start(alloc, net)?;
    let mut delays = Vec::new(alloc);
    for _step in 0..net.steps {
        delays.push(replay.step(net, &[]).units)?;
    }
    Ok(delays)
}

/// Asserts what a whole plan comes to.
fn assert_totals<R: Abort + AllocGlobal>(
    rt: &R,
    name: &str,
    net: &Net,
    plan: &Plan,
    delay: u64,
    left: u64,
) -> Result<(), Fail> {
    assert!(rt; valid(net), "{name}");
    assert!(rt; has_words(net, plan), "{name}");
    let totals = totals(rt.alloc(), net, plan)?;
    assert_eq!(rt; (totals.delay, totals.left), (delay, left), "{name}");
    assert_eq!(rt; cell_replay::delay(rt.alloc(), net, plan)?, delay, "{name}");
    Ok(())
}

/// Asserts the delay of each step.
fn assert_step_delays<R: Abort + AllocGlobal>(
    rt: &R,
    name: &str,
    net: &Net,
    delays: &[u64],
) -> Result<(), Fail> {
    assert!(rt; valid(net), "{name}");
    assert_eq!(rt; net.signals.len(), 0, "{name}");
    assert_eq!(rt; step_delays(rt.alloc(), net)?.as_slice(), delays, "{name}");
    Ok(())
}

#[test]
fn whole_plans(rt: HostRuntime) -> Result<(), Fail> {
    let alloc = rt.alloc();
    let none = no_plan(alloc);
    assert_totals(&rt, "one link", &one_link(alloc)?, &none, 0, 0)?;
    assert_totals(&rt, "a bottleneck", &bottleneck(alloc)?, &none, 2, 0)?;
    assert_totals(&rt, "a diverge", &diverge(alloc)?, &none, 4, 2)?;
    let crossing = crossing(alloc)?;
    assert_totals(
        &rt,
        "each in turn",
        &crossing,
        &green(alloc, [0, 1, 0])?,
        1,
        0,
    )?;
    assert_totals(
        &rt,
        "and then again",
        &crossing,
        &green(alloc, [0, 1, 1])?,
        1,
        0,
    )?;
    assert_totals(
        &rt,
        "one waits longer",
        &crossing,
        &green(alloc, [0, 0, 1])?,
        2,
        1,
    )
}

#[test]
fn steps(rt: HostRuntime) -> Result<(), Fail> {
    let alloc = rt.alloc();
    assert_step_delays(&rt, "one link", &one_link(alloc)?, &[0, 0, 0, 0, 0])?;
    assert_step_delays(
        &rt,
        "a bottleneck",
        &bottleneck(alloc)?,
        &[0, 0, 1, 1, 0, 0],
    )?;
    assert_step_delays(&rt, "a diverge", &diverge(alloc)?, &[2, 2])
}

#[test]
fn first_steps_of_a_plan(rt: HostRuntime) -> Result<(), Fail> {
    let alloc = rt.alloc();
    let net = bottleneck(alloc)?;
    let none = no_plan(alloc);
    assert!(rt; valid(&net));
    assert!(rt; has_words(&net, &none));
    assert!(rt; net.steps == 6);
    assert_eq!(rt; prefix_delay(alloc, &net, &none, 0)?, 0);
    assert_eq!(rt; prefix_delay(alloc, &net, &none, 3)?, 1);
    assert_eq!(rt; prefix_delay(alloc, &net, &none, 6)?, 2);
    Ok(())
}

#[test]
fn a_diverge_sends_whole_parcels(rt: HostRuntime) -> Result<(), Fail> {
    let net = diverge(rt.alloc())?;
    assert!(rt; valid(&net));
    assert_eq!(rt; net.steps, 2);
    assert_eq!(rt; net.cells.len(), 3);
    assert_eq!(rt; net.signals.len(), 0);
    let mut replay = Replay::start(rt.alloc(), &net)?;
    assert_eq!(rt; (replay.now(), replay.left()), (0, 5));
    let _delay = replay.step(&net, &[]);
    let held = [
        replay.occupancy(0),
        replay.occupancy(1),
        replay.occupancy(2),
    ];
    let left = [replay.outflow(0), replay.outflow(1), replay.outflow(2)];
    assert_eq!(rt; (replay.now(), held, left), (1, [2, 2, 1], [3, 0, 0]));
    Ok(())
}

/// In the second plan the unit of the second approach waits in the last step too.
#[test]
fn a_kept_replay_goes_on_at_the_last_step(rt: HostRuntime) -> Result<(), Fail> {
    let alloc = rt.alloc();
    let net = crossing(alloc)?;
    let at_last = green(alloc, [0, 0, 1])?;
    let never = green(alloc, [0, 0, 0])?;
    assert!(rt; valid(&net));
    assert!(rt; has_words(&net, &at_last) && has_words(&net, &never));
    let mut kept = KeptReplay::start(alloc, &net, &at_last)?;
    assert_eq!(rt; kept.delay(), 2);
    let first = first_change(&net, &at_last, &never);
    kept.replay(&net, &never, first);
    assert_eq!(rt; (first, kept.delay()), (2, 3));
    assert_eq!(rt; delay(alloc, &net, &never)?, 3);
    Ok(())
}

/// A line by its fields in their order.
fn line(step: u32, cell: u32, units: u32, out: u32, delay: u32) -> Line {
    Line {
        step,
        cell,
        units,
        out,
        delay,
    }
}

#[test]
fn the_trace_of_a_diverge(rt: HostRuntime) -> Result<(), Fail> {
    let alloc = rt.alloc();
    let net = diverge(alloc)?;
    let none = no_plan(alloc);
    assert!(rt; valid(&net));
    assert!(rt; has_words(&net, &none));
    let lines = [
        line(0, 0, 5, 3, 2),
        line(0, 1, 0, 0, 0),
        line(0, 2, 0, 0, 0),
        line(1, 0, 2, 0, 2),
        line(1, 1, 2, 2, 0),
        line(1, 2, 1, 1, 0),
    ];
    assert_eq!(rt; trace(alloc, &net, &none)?.as_slice(), lines.as_slice());
    Ok(())
}
