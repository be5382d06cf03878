//! Plans that limits name, that a climb finds, and that a point has.

ghost use Rattle.std.specs.Prelude.{◌<◌, length};
ghost use Rattle.ct_base.specs.Validity.{IsValid};
ghost use Rattle.traffic_model.specs.Runs.{IsAdmissiblePlan};

use crate::networks::{crossing, intersection, three_phases};
use cell_replay::delay;
use ct_base::{Memory, Net, Plan, valid};
use phase_rules::{RunList, runs};
use plan_rounding::{improved, named, replayed, round};
use std::alloc::Global;
use std::process::Abort;
use std::test::Fail;

/// The runs of the first signal in an admissible plan.
fn runs_of(alloc: Global, net: &Net, plan: &Plan) -> Result<RunList, Memory>
    requires valid { IsValid net.now }
    requires signal { 0 < length net.now.signals }
    requires admissible { IsAdmissiblePlan net.now plan.now }
{
    runs(alloc, net.signal(0), plan.words.as_slice()[0].as_slice())
}

/// Asserts the runs of the first signal in `short` and in `long`.
fn assert_named(
    rt: &(impl Abort + AllocGlobal),
    net: &Net,
    short: &[(u8, u32)],
    long: &[(u8, u32)],
) -> Result<(), Fail> {
    let alloc = rt.alloc();
    assert!(rt; valid(net));
    assert!(rt; 0 < net.signals.len());
    let found = runs_of(alloc, net, &named(alloc, net, false)?)?;
    assert_eq!(rt; found.as_slice(), short);
    let found = runs_of(alloc, net, &named(alloc, net, true)?)?;
    assert_eq!(rt; found.as_slice(), long);
    Ok(())
}

#[test]
fn limits_name_two_plans(rt: HostRuntime) -> Result<(), Fail> {
    let alloc = rt.alloc();
    assert_named(&rt, &crossing(alloc)?, &[(0, 1), (1, 1)], &[(0, 3)])?;
    let three = three_phases(alloc)?;
    assert_named(
        &rt,
        &three,
        &[(2, 1), (0, 2), (1, 1), (0, 1)],
        &[(2, 4), (0, 2)],
    )
}

/// The delay of a plan that is found on a network, which the replay of the whole plan has to give too.
fn delay_of(rt: &(impl Abort + AllocGlobal), net: &Net, tries: u32) -> Result<u64, Fail>
    requires valid { IsValid net.now }
{
    let alloc = rt.alloc();
    let found = improved(alloc, net, named(alloc, net, false)?, tries)?;
    assert_eq!(rt; found.delay, delay(alloc, net, &found.plan)?);
    Ok(found.delay)
}

#[test]
fn a_climb_finds_the_least_delay_of_an_intersection(rt: HostRuntime) -> Result<(), Fail> {
    let net = intersection(rt.alloc())?;
    assert!(rt; valid(&net));
    assert_eq!(rt; delay_of(&rt, &net, 0)?, 3049);
    assert_eq!(rt; delay_of(&rt, &net, 2000)?, 2521);
    Ok(())
}

/// Two greens of the first phase, its clearing letter, and one green of the second.
const POINT: &[i64] = &[1, 0, 0, 0, 1, 0, 0, 0, 0, 1, 0, 0, 0, 0, 1, 0];

/// Asserts the first signal's runs, and the delay, of the plan that a point is rounded to.
fn assert_rounded(
    rt: &(impl Abort + AllocGlobal),
    net: &Net,
    point: &[i64],
    runs: &[(u8, u32)],
    delay: u64,
) -> Result<(), Fail>
    requires valid { IsValid net.now }
    requires signal { 0 < length net.now.signals }
{
    let found = round(rt.alloc(), net, point)?;
    assert_eq!(rt; runs_of(rt.alloc(), net, &found.plan)?.as_slice(), runs);
    assert_eq!(rt; found.delay, delay);
    Ok(())
}

/// The delay of the plan `short`.
fn short_delay(alloc: Global, net: &Net) -> Result<u64, Memory>
    requires { IsValid net.now }
{
    let short = replayed(alloc, net, named(alloc, net, false)?)?;
    Ok(short.delay)
}

/// Asserts what the crossing is rounded to, with a point and without one.
fn assert_crossing(rt: &(impl Abort + AllocGlobal), net: &Net) -> Result<(), Fail> {
    assert!(rt; valid(net));
    assert!(rt; 0 < net.signals.len());
    assert_eq!(rt; short_delay(rt.alloc(), net)?, 6);
    assert_rounded(rt, net, POINT, &[(0, 2), (1, 1)], 4)?;
    assert_rounded(rt, net, &[], &[(0, 2), (1, 1)], 4)
}

#[test]
fn a_point_is_rounded(rt: HostRuntime) -> Result<(), Fail> {
    let net = crossing(rt.alloc())?;
    assert_crossing(&rt, &net)
}
