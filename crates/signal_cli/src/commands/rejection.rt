//! The replies to a certificate that is not accepted.

ghost use Rattle.std.specs.Prelude.{◌≡◌, IfOk, string_bytes};
ghost use Rattle.signal_cli.specs.Answers as said;
ghost use Rattle.signal_cli.specs.RejectionLines as rejection_lines;

use crate::reply::Reply;
use cert_check::Why;
use ct_base::Text;
use std::alloc::{AllocError, Global};

/// The reply to a certificate that is longer than its limit.
#[tactic(auto, unfolding(crate::specs::RejectionLines::long_lines))]
pub fn long(alloc: Global) -> Result<Reply, AllocError>
    ensures { IfOk result (λ reply. reply ≡ said.rejection rejection_lines.long_lines) }
{
    let lines = Text::of(format!(in alloc; "rejected\nline 0\nwhy long\n")?);
    Ok(Reply::rejection(alloc, lines))
}

/// The reply to a certificate that breaks at a line.
pub fn rejected(alloc: Global, line: u64, why: Why) -> Result<Reply, AllocError>
    ensures { IfOk result (λ reply. reply ≡ said.rejection (rejection_lines.rejected_lines line why)) }
{
    let lines = lines_of(alloc, line, why)?;
    Ok(Reply::rejection(alloc, lines))
}

/// The first line that breaks, and why.
#[tactic(auto, unfolding(crate::specs::RejectionLines::rejected_lines))]
fn lines_of(alloc: Global, line: u64, why: Why) -> Result<Text, AllocError>
    ensures { IfOk result (λ lines. lines ≡ rejection_lines.rejected_lines line why) }
{
    let why = why_text(alloc, why)?;
    Ok(Text::of(format!(in alloc; "rejected\nline {line}\nwhy {why}\n")?))
}

/// Why a line breaks a certificate.
fn why_text(alloc: Global, why: Why) -> Result<String, AllocError>
    ensures { IfOk result (λ text. string_bytes text ≡ rejection_lines.why_text why) }
{
    match why {
        Why::Form => format!(in alloc; "form"),
        Why::Tail => format!(in alloc; "tail"),
        Why::Column => format!(in alloc; "column"),
        Why::Range => format!(in alloc; "range"),
        Why::Row => format!(in alloc; "row"),
        Why::Order => format!(in alloc; "order"),
        Why::Price => format!(in alloc; "price"),
        Why::Sign => format!(in alloc; "sign"),
        Why::Weak(number) => format!(in alloc; "weak\nvalue {number}"),
        Why::NotEmpty(value) => format!(in alloc; "notempty\nvalue {value}"),
        Why::NotFixed => format!(in alloc; "notfixed"),
        Why::NotPlan => format!(in alloc; "notplan"),
    }
}
