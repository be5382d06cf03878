//! What a search answers.

use cert_format::Cert;
use ct_base::Plan;

/// Whether a search has come to its end.
#[derive(Clone, Copy, Debug, PartialEq, Eq)]
pub enum State {
    /// The bound is the delay of the plan, so that no plan is better.
    Optimal,
    /// The bound is below the delay: the budget was spent.
    StillOpen,
}

/// A plan, and a certificate of a bound on the delay of every plan.
#[derive(Debug, Drop)]
pub struct Solved {
    /// The best plan that was found.
    pub plan: Plan,
    /// Its delay, in units times steps.
    pub delay: u64,
    /// The certificate, whose bound is the least number that one of its leaves gives.
    pub cert: Cert,
    /// How many nodes the certificate has.
    pub nodes: u32,
    /// Whether the bound is the delay.
    pub state: State,
}
