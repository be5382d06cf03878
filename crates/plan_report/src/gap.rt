//! How far the delay of a plan is above a lower bound on all delays.

ghost use Rattle.std.specs.Prelude.{◌≡◌, ◌<◌, ◌≤◌, ◌^◌, pos, ◌≤ℤ◌};
ghost use Rattle.plan_report.specs.Gaps.{gap_permille, gap_units, permille};

/// How far a delay is above a lower bound.
#[derive(Clone, Copy, Debug, PartialEq, Eq)]
pub struct Gap {
    /// In units times steps.
    pub units: u64,
    /// In thousandths of the delay, rounded up.
    pub permille: u32,
}

/// How far a delay is above a lower bound, both in units times steps. A bound below 0 counts as 0, since no delay is below 0.
pub fn gap_of(delay: u64, bound: i64) -> Gap
    requires bound { bound ≤ℤ pos delay }
    requires delay { delay < 2 ^ 50 }
    ensures units { result.units ≡ gap_units delay bound }
    ensures permille { result.permille ≡ gap_permille delay bound }
{
    let units = delay - bound.max(0).unsigned_abs();
    let permille = permille_of(units, delay);
    Gap { units, permille }
}

/// So many thousandths of a whole, rounded up, or 0 of nothing.
fn permille_of(part: u64, whole: u64) -> u32
    requires part { part ≤ whole }
    requires whole { whole < 2 ^ 50 }
    ensures { result ≡ permille part whole }
{
    if whole == 0 {
        return 0;
    }
    (1000 * part).div_ceil(whole) as u32
}
