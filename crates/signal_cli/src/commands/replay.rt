//! `replay NET` and `replay NET PLAN`: the delay of a network under a plan, and the units that are left in it.

ghost use Rattle.std.specs.Prelude.{◌≡◌, ◌<◌, false, length, None, Some, Ok, Err, IfSome};
ghost use Rattle.std.specs.Option.{option_copied};
ghost use Rattle.std.specs.Str.{bytes_eq};
ghost use Rattle.ct_base.specs.Validity.{IsValid};
ghost use Rattle.traffic_model.specs.Runs.{HasWords};
ghost use Rattle.signal_cli.specs.Answers as said;
ghost use Rattle.signal_cli.specs.Answers.{printed, replay_lines, replay_of};
ghost use Rattle.plan_file.specs.declared.fault.PlanFault.TheVariants.{Missing};
ghost use Rattle.signal_cli.specs.inner.Causes.{Finds, Gives};
ghost use Rattle.signal_cli.specs.declared.fault.Fault.TheVariants as fault;

use crate::fault::Fault;
use crate::input::{read_network, read_planned};
use crate::reply::Reply;
use cell_replay::totals;
use ct_base::{Listed, Net, Plan, Text};
use named_net::NamedNet;
use plan_file::PlanFault;
use shelf_io::Shelf;
use std::alloc::Global;

/// The delay and what is left of a network, under a plan where one is named.
pub fn replay<F: Shelf>(
    alloc: Global,
    network: &str,
    plan: Option<&str>,
    shelf: &mut F,
) -> Result<Reply, Fault>
    requires { IfSome plan (λ plan. bytes_eq network.now plan.now ≡ false) }
    ensures { Finds (λ files outcome. replay_of files network.now (option_copied plan.entry) ≡ outcome) result (F.state shelf.old) (F.state shelf.new) }
{
    match plan {
        Some(plan) => replay_under(alloc, network, plan, shelf),
        None => replay_alone(alloc, network, shelf),
    }
}

/// The reply for a network under a plan.
fn replay_under<F: Shelf>(
    alloc: Global,
    network: &str,
    plan: &str,
    shelf: &mut F,
) -> Result<Reply, Fault>
    requires { bytes_eq network.now plan.now ≡ false }
    ensures { Finds (λ files outcome. replay_of files network.now (Some plan.now) ≡ outcome) result (F.state shelf.old) (F.state shelf.new) }
{
    let planned = read_planned(alloc, shelf, network, plan)?;
    let reply = reply_under(alloc, planned.named.net(), &planned.plan)?;
    Ok(reply)
}

/// The reply for a network without a plan.
fn replay_alone<F: Shelf>(alloc: Global, network: &str, shelf: &mut F) -> Result<Reply, Fault>
    ensures { Finds (λ files outcome. replay_of files network.now None ≡ outcome) result (F.state shelf.old) (F.state shelf.new) }
{
    let named = read_network(alloc, shelf, network)?;
    let reply = reply_alone(alloc, &named)?;
    Ok(reply)
}

/// What a network deserves without a plan: its lines, or where it has signals that a plan is wanting.
fn reply_alone(alloc: Global, named: &NamedNet) -> Result<Reply, Fault>
    ensures value { Gives result (said.replay_alone named.now.net named.now.net.signals) }
    ensures wanting { 0 < length named.now.net.signals → result ≡ Err (fault.Plan (Missing 0)) }
{
    let net = named.net();
    if net.signals.len() > 0 {
        return Err(Fault::Plan(PlanFault::Missing(0)));
    }
    let plan = Plan {
        words: Listed::new(alloc),
    };
    let reply = reply_under(alloc, net, &plan)?;
    Ok(reply)
}

/// What a network under a plan deserves.
fn reply_under(alloc: Global, net: &Net, plan: &Plan) -> Result<Reply, Fault>
    requires valid { IsValid net.now }
    requires words { HasWords net.now plan.now }
    ensures { Gives result (Ok (printed (replay_lines net.now plan.now.words))) }
{
    let lines = lines_of(alloc, net, plan)?;
    Ok(Reply::printed(alloc, lines))
}

/// The delay of a network under a plan and what is left in it, as two lines.
#[tactic(auto, unfolding(crate::specs::Answers::replay_lines))]
pub fn lines_of(alloc: Global, net: &Net, plan: &Plan) -> Result<Text, Fault>
    requires valid { IsValid net.now }
    requires words { HasWords net.now plan.now }
    ensures { Gives result (Ok (replay_lines net.now plan.now.words)) }
{
    let totals = totals(alloc, net, plan)?;
    let delay = totals.delay;
    let left = totals.left;
    Ok(Text::of(format!(in alloc; "delay {delay}\nleft {left}\n")?))
}
