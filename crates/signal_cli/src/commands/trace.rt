//! `trace NET PLAN OUT`: the table of a network's replay under a plan, written to a file.

ghost use Rattle.std.specs.Prelude.{◌≡◌, false, Ok, IfOk};
ghost use Rattle.std.specs.Str.{bytes_eq};
ghost use Rattle.traffic_model.specs.Delay.{letters_at};
ghost use Rattle.traffic_model.specs.Runs.{HasWords, IsAdmissiblePlan};
ghost use Rattle.cell_replay.specs.Trace.{trace_of};
ghost use Rattle.plan_report.specs.Table.{trace_text};
ghost use Rattle.signal_cli.specs.Answers.{trace_in, trace_reply};
ghost use Rattle.signal_cli.specs.inner.Causes.{Finds, Gives};

use crate::commands::replay::lines_of;
use crate::fault::Fault;
use crate::input::{Planned, read_planned};
use crate::reply::Reply;
use ct_base::{Listed, Memory, Plan};
use named_net::NamedNet;
use plan_report::trace_csv;
use shelf_io::Shelf;
use std::alloc::Global;

/// The delay and what is left of a network under a plan, and the table of its replay for a file.
pub fn trace<F: Shelf>(
    alloc: Global,
    network: &str,
    plan: &str,
    table: &str,
    shelf: &mut F,
) -> Result<Reply, Fault>
    requires { bytes_eq network.now plan.now ≡ false }
    ensures { Finds (λ files outcome. trace_in files network.now plan.now table.now ≡ outcome) result (F.state shelf.old) (F.state shelf.new) }
{
    let planned = read_planned(alloc, shelf, network, plan)?;
    let reply = reply_with(alloc, &planned, table)?;
    Ok(reply)
}

/// What a network and a plan deserve: the lines of the replay, and its table under a name.
fn reply_with(alloc: Global, planned: &Planned, table: &str) -> Result<Reply, Fault>
    requires { IsAdmissiblePlan planned.now.named.net planned.now.plan }
    ensures { Gives result (Ok (trace_reply table.now planned.now)) }
{
    let lines = lines_of(alloc, planned.named.net(), &planned.plan)?;
    let text = text_of(alloc, &planned.named, &planned.plan)?;
    let reply = Reply::filed(alloc, table, text, lines)?;
    Ok(reply)
}

/// The table of a network's replay under a plan, as a text.
fn text_of(alloc: Global, named: &NamedNet, plan: &Plan) -> Result<Listed<u8>, Memory>
    requires { HasWords named.now.net plan.now }
    ensures { IfOk result (λ text. text ≡ trace_text named.now.names (trace_of named.now.net.cells (letters_at plan.now.words) named.now.net.steps)) }
{
    let trace = cell_replay::trace(alloc, named.net(), plan)?;
    Ok(Listed::of(trace_csv(alloc, named, &trace)?))
}
