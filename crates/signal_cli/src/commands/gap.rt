//! `gap NET PLAN CERT`: how far the delay of a plan is above the bound of a certificate.

ghost use Rattle.std.specs.Prelude.{◌≡◌, ◌<◌, ◌^◌, ℤ, ◌≤ℤ◌, pos, false, IfOk, string_bytes};
ghost use Rattle.std.specs.Str.{bytes_eq};
ghost use Rattle.traffic_model.specs.Runs.{IsAdmissiblePlan};
ghost use Rattle.certificate_model.specs.Leaves.{plan_delay};
ghost use Rattle.certificate_model.specs.declared.verdict.Verdict.TheVariants.{Accepted};
ghost use Rattle.signal_cli.specs.Answers as said;
ghost use Rattle.signal_cli.specs.BoundLines as bound_lines;
ghost use Rattle.signal_cli.specs.Answers.{GapGives};
ghost use Rattle.signal_cli.specs.inner.Causes.{Finds};
ghost use Rattle.signal_cli.specs.inner.Judgements.{answer_to};
ghost use Rattle.signal_cli.specs.declared.certificate.Judgement.TheVariants.{Whole};

use crate::certificate::{Judgement, judge_certificate};
use crate::commands::rejection::{long, rejected};
use crate::fault::Fault;
use crate::input::{Planned, read_sized_planned};
use crate::reply::Reply;
use cell_replay::delay;
use cert_check::Verdict;
use ct_base::{Memory, Text};
use plan_report::gap_of;
use shelf_io::Shelf;
use std::alloc::{AllocError, Global};

/// How far the delay of the plan is above the bound of the certificate, or the first line at which the certificate breaks.
pub fn gap<F: Shelf>(
    alloc: Global,
    network: &str,
    plan: &str,
    certificate: &str,
    shelf: &mut F,
) -> Result<Reply, Fault>
    requires plan { bytes_eq network.now plan.now ≡ false }
    requires first { bytes_eq network.now certificate.now ≡ false }
    requires second { bytes_eq plan.now certificate.now ≡ false }
    ensures { Finds (GapGives network.now plan.now certificate.now) result (F.state shelf.old) (F.state shelf.new) }
{
    let planned = read_sized_planned(alloc, shelf, network, plan)?;
    let judgement = judge_certificate(alloc, shelf, certificate, planned.named.net())?;
    let reply = reply_to(alloc, &planned, judgement)?;
    Ok(reply)
}

/// The reply for a plan to what a file comes to as a certificate.
fn reply_to(alloc: Global, planned: &Planned, judgement: Judgement) -> Result<Reply, Memory>
    requires admissible { IsAdmissiblePlan planned.now.named.net planned.now.plan }
    requires safe { (bound : ℤ) → judgement ≡ Whole (Accepted bound) → bound ≤ℤ plan_delay planned.now.named.net planned.now.plan }
    ensures { IfOk result (λ reply. reply ≡ answer_to (said.gap_reply planned.now) judgement) }
{
    match judgement {
        Judgement::Whole(verdict) => reply_of(alloc, planned, verdict),
        Judgement::TooLong => Ok(long(alloc)?),
    }
}

/// The reply for a plan to a verdict.
fn reply_of(alloc: Global, planned: &Planned, verdict: Verdict) -> Result<Reply, Memory>
    requires admissible { IsAdmissiblePlan planned.now.named.net planned.now.plan }
    requires safe { (bound : ℤ) → verdict ≡ Accepted bound → bound ≤ℤ plan_delay planned.now.named.net planned.now.plan }
    ensures { IfOk result (λ reply. reply ≡ said.gap_reply planned.now verdict) }
{
    match verdict {
        Verdict::Accepted(bound) => {
            let delay = delay(alloc, planned.named.net(), &planned.plan)?;
            Ok(Reply::printed(alloc, lines_of(alloc, delay, bound)?))
        }
        Verdict::Rejected { line, why } => Ok(rejected(alloc, line, why)?),
    }
}

/// A delay, a bound, and how far the delay is above the bound.
fn lines_of(alloc: Global, delay: u64, bound: i64) -> Result<Text, AllocError>
    requires bound { bound ≤ℤ pos delay }
    requires delay { delay < 2 ^ 50 }
    ensures { IfOk result (λ lines. lines ≡ bound_lines.gap_lines delay bound) }
{
    let gap = gap_of(delay, bound);
    let mut lines = delay_lines(alloc, delay, bound)?;
    let above = above_lines(alloc, gap.units, gap.permille)?;
    lines.push_str(above.as_str())?;
    Ok(Text::of(lines))
}

/// A delay and a bound.
#[tactic(auto, unfolding(crate::specs::BoundLines::delay_lines))]
fn delay_lines(alloc: Global, delay: u64, bound: i64) -> Result<String, AllocError>
    ensures { IfOk result (λ lines. string_bytes lines ≡ bound_lines.delay_lines delay bound) }
{
    Ok(format!(in alloc; "delay {delay}\nbound {bound}\n")?)
}

/// How far a delay is above a bound.
#[tactic(auto, unfolding(crate::specs::BoundLines::above_lines))]
fn above_lines(alloc: Global, units: u64, permille: u32) -> Result<String, AllocError>
    ensures { IfOk result (λ lines. string_bytes lines ≡ bound_lines.above_lines units permille) }
{
    Ok(format!(in alloc; "gap {units}\npermille {permille}\n")?)
}
