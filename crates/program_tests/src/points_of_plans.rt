//! The point of a plan that was worked by hand.

ghost use Rattle.std.specs.Prelude.{IsTrue};
ghost use Rattle.traffic_model.specs.Runs.{IsAdmissiblePlan};
ghost use Rattle.ct_base.specs.Validity.{IsValid};

use crate::networks::{crossing, green};
use ct_base::{Net, Plan, valid};
use phase_rules::admissible;
use plan_point::encode;
use std::test::Fail;

/// Whether a plan of one word is one of the network with one signal.
fn is_admissible(net: &Net, plan: &Plan) -> bool
    requires { IsValid net.now }
    ensures { IsTrue result → IsAdmissiblePlan net.now plan.now }
{
    if net.signals.len() != 1 {
        return false;
    }
    match plan.words.as_slice() {
        [word] => { word.len() == net.steps as usize && admissible(net.signal(0), word.as_slice()) }
        _ => false,
    }
}

/// The values of the program's columns: of the plan, and then of each step.
const POINT: &str = "[1, 0, 0, 1, 1, 0, \
    1, 1, 1, 0, 0, 1, 0, 1, 0, 0, 0, 0, 0, 1, \
    0, 0, 1, 0, 0, 1, 1, 1, 0, 0, 1, 1, 1, 0, \
    0, 0, 0, 1, 0, 0, 0, 1, 0, 0, 1, 1, 1, 0]";

#[test]
fn the_point_of_a_plan_counts_what_the_replay_does(rt: HostRuntime) -> Result<(), Fail> {
    let alloc = rt.alloc();
    let net = crossing(alloc)?;
    let plan = green(alloc, [0, 1, 0])?;
    assert!(rt; valid(&net));
    assert!(rt; is_admissible(&net, &plan));
    let point = encode(alloc, &net, &plan)?;
    assert_eq!(rt;
        format!(in alloc; "{:?}", point.as_slice())?.as_str(),
        POINT
    );
    Ok(())
}
