//! The line of each fault.

ghost use Rattle.std.specs.Prelude.{◌≡◌, IfOk};
ghost use Rattle.signal_cli.specs.Faults.{line_of};

use crate::fault::Fault;
use ct_base::Text;
use fault_words::{network_text, plan_text};
use std::alloc::{AllocError, Global};

/// The line that says why a command was not done.
#[tactic(auto, unfolding(crate::specs::Faults::line_of))]
pub fn line_of(alloc: Global, fault: Fault) -> Result<Text, AllocError>
    ensures { IfOk result (λ line. line ≡ line_of fault) }
{
    Ok(Text::of(match fault {
        Fault::NetworkLong => format!(in alloc; "network long\n")?,
        Fault::Network(fault) => {
            let text = network_text(alloc, fault)?;
            format!(in alloc; "network {text}\n")?
        }
        Fault::PlanLong => format!(in alloc; "plan long\n")?,
        Fault::Plan(fault) => {
            let text = plan_text(alloc, fault)?;
            format!(in alloc; "plan {text}\n")?
        }
        Fault::TooLarge(rows) => format!(in alloc; "too large {rows}\n")?,
        Fault::Read => format!(in alloc; "read fault\n")?,
        Fault::Memory => format!(in alloc; "want of memory\n")?,
    }))
}
