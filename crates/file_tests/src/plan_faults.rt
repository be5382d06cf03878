//! What a fault of a plan says of itself.

use plan_file::{PlanFault, RunFault};
use std::test::Fail;

/// Faults, and their sentences.
const SENTENCES: &[(PlanFault, &str)] = &[
    (
        PlanFault::Signal(2),
        "line 2 begins the block of another signal than the next one",
    ),
    (
        PlanFault::Run(4, RunFault::Order { run: 1 }),
        "line 4: run 1 is of a phase that may not follow the one before",
    ),
    (
        PlanFault::Run(5, RunFault::Short { letters: 2 }),
        "line 5: the runs have 2 letters, fewer than the horizon has steps",
    ),
    (PlanFault::Missing(0), "there is no block for signal 0"),
];

#[test]
fn a_fault_is_a_sentence(rt: HostRuntime) -> Result<(), Fail> {
    for (fault, sentence) in SENTENCES {
        let said = format!(in rt.alloc(); "{fault}")?;
        assert_eq!(rt; said.as_str(), *sentence);
    }
    Ok(())
}
