//! Gaps of delays above bounds, worked by hand.

use plan_report::{Gap, gap_of};
use std::test::Fail;

/// A delay, a bound, and the gap between them: its units, and how many thousandths of the delay they are.
const GAPS: &[(u64, i64, u64, u32)] = &[
    (0, 0, 0, 0),
    (0, -3, 0, 0),
    (2, 1, 1, 500),
    (3, 2, 1, 334),
    (3, -5, 3, 1000),
    (1001, 1, 1000, 1000),
    (1042, 1042, 0, 0),
];

#[test]
fn gaps_are_rounded_up(rt: HostRuntime) -> Result<(), Fail> {
    for (delay, bound, units, permille) in GAPS {
        assert!(rt; *delay < 1 << 50 && *bound <= *delay as i64);
        let wanted = Gap {
            units: *units,
            permille: *permille,
        };
        assert_eq!(rt; gap_of(*delay, *bound), wanted);
    }
    Ok(())
}
