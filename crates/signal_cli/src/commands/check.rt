//! `check NET CERT`: whether a certificate shows its bound for a network.

ghost use Rattle.std.specs.Prelude.{◌≡◌, false, IfOk};
ghost use Rattle.std.specs.Str.{bytes_eq};
ghost use Rattle.signal_cli.specs.Answers as said;
ghost use Rattle.signal_cli.specs.BoundLines as bound_lines;
ghost use Rattle.signal_cli.specs.Answers.{CheckGives};
ghost use Rattle.signal_cli.specs.inner.Causes.{Finds};
ghost use Rattle.signal_cli.specs.inner.Judgements.{answer_to};

use crate::certificate::{Judgement, judge_certificate};
use crate::commands::rejection::{long, rejected};
use crate::fault::Fault;
use crate::input::read_sized;
use crate::reply::Reply;
use cert_check::Verdict;
use ct_base::Text;
use shelf_io::Shelf;
use std::alloc::{AllocError, Global};

/// Whether the certificate shows its bound, and where not its first line that breaks.
pub fn check<F: Shelf>(
    alloc: Global,
    network: &str,
    certificate: &str,
    shelf: &mut F,
) -> Result<Reply, Fault>
    requires { bytes_eq network.now certificate.now ≡ false }
    ensures { Finds (CheckGives network.now certificate.now) result (F.state shelf.old) (F.state shelf.new) }
{
    let named = read_sized(alloc, shelf, network)?;
    let judgement = judge_certificate(alloc, shelf, certificate, named.net())?;
    let reply = reply_to(alloc, judgement)?;
    Ok(reply)
}

/// The reply to what a file comes to as a certificate.
fn reply_to(alloc: Global, judgement: Judgement) -> Result<Reply, AllocError>
    ensures { IfOk result (λ reply. reply ≡ answer_to said.check_reply judgement) }
{
    match judgement {
        Judgement::Whole(verdict) => reply_of(alloc, verdict),
        Judgement::TooLong => long(alloc),
    }
}

/// The reply to a verdict.
fn reply_of(alloc: Global, verdict: Verdict) -> Result<Reply, AllocError>
    ensures { IfOk result (λ reply. reply ≡ said.check_reply verdict) }
{
    match verdict {
        Verdict::Accepted(bound) => Ok(Reply::printed(alloc, lines_of(alloc, bound)?)),
        Verdict::Rejected { line, why } => rejected(alloc, line, why),
    }
}

/// That a certificate is accepted, and its bound.
#[tactic(auto, unfolding(crate::specs::BoundLines::accepted_lines))]
fn lines_of(alloc: Global, bound: i64) -> Result<Text, AllocError>
    ensures { IfOk result (λ lines. lines ≡ bound_lines.accepted_lines bound) }
{
    Ok(Text::of(format!(in alloc; "accepted\nbound {bound}\n")?))
}
