//! Plans of a network that was worked by hand are read, and written back as they were.

ghost use Rattle.traffic_model.specs.Runs.{IsAdmissiblePlan};

use crate::tests::examples::CROSSING;
use ct_base::Letter::Green;
use ct_base::{Letter, Plan};
use named_net::NamedNet;
use std::alloc::AllocGlobal;
use std::process::Abort;
use std::test::Fail;

/// The three plans of the network, and what the signal shows in each.
const PLANS: &[(&str, &[Letter])] = &[
    (
        "ctm-plan 1\nsignal s\na 1\nb 1\na 1\nend\n",
        &[Green(0), Green(1), Green(0)],
    ),
    (
        "ctm-plan 1\nsignal s\na 1\nb 2\nend\n",
        &[Green(0), Green(1), Green(1)],
    ),
    (
        "ctm-plan 1\nsignal s\na 2\nb 1\nend\n",
        &[Green(0), Green(0), Green(1)],
    ),
];

/// What the first signal of a plan shows.
fn first_word(plan: &Plan) -> &[Letter] {
    match plan.words.as_slice().first() {
        Some(word) => word.as_slice(),
        None => &[],
    }
}

/// Asserts that the plan has the one word, and that this is its text.
fn assert_plan<R: Abort + AllocGlobal>(
    rt: &R,
    named: &NamedNet,
    plan: &Plan,
    text: &str,
    word: &[Letter],
) -> Result<(), Fail>
    requires { IsAdmissiblePlan named.now.net plan.now }
{
    assert_eq!(rt; plan.words.len(), 1, "{text}");
    assert_eq!(rt; first_word(plan), word, "{text}");
    let written = plan_file::write(rt.alloc(), named, plan)?;
    assert_eq!(rt; written.as_slice(), text.as_bytes(), "{text}");
    Ok(())
}

#[test]
fn plans_are_read_and_written_back(rt: HostRuntime) -> Result<(), Fail> {
    let named = cell_build::read(rt.alloc(), CROSSING.as_bytes()).map_err(|_| "no network")?;
    for (text, word) in PLANS {
        match plan_file::read(rt.alloc(), &named, text.as_bytes()) {
            Ok(plan) => assert_plan(&rt, &named, &plan, text, word)?,
            Err(fault) => panic!(rt; "{text}: {fault:?}"),
        }
    }
    Ok(())
}
