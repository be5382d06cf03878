//! `encode NET PLAN OUT`: the point of a plan in the program of its network, written to a file.

ghost use Rattle.std.specs.Prelude.{◌≡◌, false, Ok, IfOk};
ghost use Rattle.std.specs.Str.{bytes_eq};
ghost use Rattle.traffic_model.specs.Runs.{IsAdmissiblePlan};
ghost use Rattle.signal_cli.specs.Answers.{encode_in, point_line, point_reply};
ghost use Rattle.signal_cli.specs.inner.Causes.{Finds, Gives};

use crate::fault::Fault;
use crate::input::{Planned, read_sized_planned};
use crate::reply::Reply;
use ct_base::{Listed, Text};
use program_text::write_point;
use shelf_io::Shelf;
use std::alloc::{AllocError, Global};

/// The text of a plan's point for a file, and how many values it has.
pub fn encode<F: Shelf>(
    alloc: Global,
    network: &str,
    plan: &str,
    text: &str,
    shelf: &mut F,
) -> Result<Reply, Fault>
    requires { bytes_eq network.now plan.now ≡ false }
    ensures { Finds (λ files outcome. encode_in files network.now plan.now text.now ≡ outcome) result (F.state shelf.old) (F.state shelf.new) }
{
    let planned = read_sized_planned(alloc, shelf, network, plan)?;
    let reply = reply_with(alloc, &planned, text)?;
    Ok(reply)
}

/// What a network and a plan deserve: the plan's point under a name.
fn reply_with(alloc: Global, planned: &Planned, text: &str) -> Result<Reply, Fault>
    requires { IsAdmissiblePlan planned.now.named.net planned.now.plan }
    ensures { Gives result (Ok (point_reply text.now planned.now)) }
{
    let point = plan_point::encode(alloc, planned.named.net(), &planned.plan)?;
    let line = line_of(alloc, point.as_slice())?;
    let bytes = Listed::of(write_point(alloc, point.as_slice())?);
    let reply = Reply::filed(alloc, text, bytes, line)?;
    Ok(reply)
}

/// How many values a point has.
#[tactic(auto, unfolding(crate::specs::Answers::point_line))]
fn line_of(alloc: Global, point: &[i64]) -> Result<Text, AllocError>
    ensures { IfOk result (λ line. line ≡ point_line point.now) }
{
    let columns = point.len();
    Ok(Text::of(format!(in alloc; "columns {columns}\n")?))
}
