//! Demand that is spread over steps, and the first fault of each kind.

use demand::{DemandFault, Piece, spread};
use std::test::Fail;

/// Two units at steps 0 and 1.
const EARLY: [Piece; 1] = [Piece {
    first: 0,
    until: 2,
    rate: 2,
}];

/// Pieces of which one is refused, with the fault over five steps.
const REFUSED: [([Piece; 2], DemandFault); 5] = [
    // the second holds no step
    (
        [
            Piece {
                first: 0,
                until: 5,
                rate: 1,
            },
            Piece {
                first: 3,
                until: 3,
                rate: 1,
            },
        ],
        DemandFault::Range { piece: 1 },
    ),
    // the first ends before it begins, and the second ends past the horizon
    (
        [
            Piece {
                first: 4,
                until: 2,
                rate: 0,
            },
            Piece {
                first: 0,
                until: 6,
                rate: 0,
            },
        ],
        DemandFault::Range { piece: 0 },
    ),
    // the second ends past the horizon, which is told although step 2 is heavy
    (
        [
            Piece {
                first: 2,
                until: 3,
                rate: 1000,
            },
            Piece {
                first: 2,
                until: 6,
                rate: 1,
            },
        ],
        DemandFault::Range { piece: 1 },
    ),
    // both hold step 3
    (
        [
            Piece {
                first: 2,
                until: 4,
                rate: 500,
            },
            Piece {
                first: 3,
                until: 5,
                rate: 501,
            },
        ],
        DemandFault::Heavy { step: 3 },
    ),
    // each step from 1 on is heavy
    (
        [
            Piece {
                first: 0,
                until: 5,
                rate: 1000,
            },
            Piece {
                first: 1,
                until: 5,
                rate: 1,
            },
        ],
        DemandFault::Heavy { step: 1 },
    ),
];

#[test]
fn pieces_are_summed_or_the_first_fault_is_told(rt: HostRuntime) -> Result<(), Fail> {
    let alloc = rt.alloc();
    let early = spread(alloc, &EARLY, 5).map_err(|_| "refused")?;
    assert_eq!(rt; early.as_slice(), [2u32, 2, 0, 0, 0].as_slice());

    let full = [
        Piece {
            first: 0,
            until: 3,
            rate: 999,
        },
        Piece {
            first: 2,
            until: 5,
            rate: 1,
        },
    ];
    let full = spread(alloc, &full, 5).map_err(|_| "refused")?;
    assert_eq!(rt; full.as_slice(), [999u32, 999, 1000, 1, 1].as_slice());

    let none = spread(alloc, &[], 2).map_err(|_| "refused")?;
    assert_eq!(rt; none.as_slice(), [0u32, 0].as_slice());

    for (pieces, fault) in &REFUSED {
        let answer = spread(alloc, pieces, 5);
        assert_eq!(rt; answer.err(), Some(*fault));
    }
    Ok(())
}

#[test]
fn a_fault_is_shown_by_a_sentence(rt: HostRuntime) -> Result<(), Fail> {
    let alloc = rt.alloc();
    let range = format!(in alloc; "{}", DemandFault::Range { piece: 3 })?;
    assert_eq!(rt;
        range.as_str(),
        "piece 3 of demand holds no step or ends past the horizon"
    );
    let heavy = format!(in alloc; "{}", DemandFault::Heavy { step: 17 })?;
    assert_eq!(rt; heavy.as_str(), "more than 1000 units arrive in step 17");
    Ok(())
}
