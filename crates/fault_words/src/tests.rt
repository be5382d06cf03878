//! What is told of faults.

use crate::{network_text, plan_text};
use cell_build::{BuildFault, DemandFault, NetworkFault, PhaseAt};
use network_file::{At, NetFault};
use plan_file::{PlanFault, RunFault};
use std::test::Fail;

/// Faults of a network file.
const NET_WORDS: &[(NetFault, &str)] = &[
    (NetFault::Toml, "toml"),
    (
        NetFault::Key {
            table: At::Top,
            key: 2,
        },
        "key top 2",
    ),
    (
        NetFault::Range {
            table: At::Turn(3, 1),
            key: 2,
        },
        "range turn 3 1 2",
    ),
    (
        NetFault::Name {
            table: At::Phase(0, 7),
        },
        "name phase 0 7",
    ),
];

/// Faults of links and signals.
const BUILD_WORDS: &[(BuildFault, &str)] = &[
    (
        BuildFault::UnknownLink { link: 12, place: 0 },
        "unknownlink 12 0",
    ),
    (
        BuildFault::UnknownPhase {
            at: PhaseAt::Next(1, 0, 4),
        },
        "unknownphase next 1 0 4",
    ),
    (BuildFault::Cells { count: 257 }, "cells 257"),
    (
        BuildFault::Demand {
            link: 2,
            fault: DemandFault::Heavy { step: 10 },
        },
        "demand 2 heavy 10",
    ),
];

/// Faults of a plan file.
const PLAN_WORDS: &[(PlanFault, &str)] = &[
    (PlanFault::Form(1), "form 1"),
    (
        PlanFault::Run(17, RunFault::Order { run: 3 }),
        "run 17 order",
    ),
    (PlanFault::Missing(15), "missing 15"),
];

#[test]
fn faults_are_told_in_words(rt: HostRuntime) -> Result<(), Fail> {
    let alloc = rt.alloc();
    for (fault, words) in NET_WORDS {
        assert_eq!(rt;
            network_text(alloc, NetworkFault::File(*fault))?.as_str(),
            *words
        );
    }
    for (fault, words) in BUILD_WORDS {
        assert_eq!(rt;
            network_text(alloc, NetworkFault::Build(*fault))?.as_str(),
            *words
        );
    }
    for (fault, words) in PLAN_WORDS {
        assert_eq!(rt; plan_text(alloc, *fault)?.as_str(), *words);
    }
    Ok(())
}
