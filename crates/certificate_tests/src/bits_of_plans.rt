//! Plans that bits give back, and bits that are those of no admissible plan.

ghost use Rattle.ct_base.specs.Validity.{IsValid};

use crate::networks::crossing;
use ct_base::{Memory, Net, Plan, valid};
use lo_program::plan_cols;
use plan_bits::plan_of_bits;
use sparse_program::Builder;
use std::alloc::Global;
use std::test::Fail;

/// The plan whose bits these are, where there is one for each plan column.
fn plan_with(alloc: Global, net: &Net, bits: &[i64]) -> Result<Option<Plan>, Memory>
    requires valid { IsValid net.now }
{
    let mut builder = Builder::new(alloc);
    let count = plan_cols(net, &mut builder)?;
    if bits.len() != count as usize {
        return Ok(None);
    }
    plan_of_bits(alloc, net, bits)
}

/// Green of the first phase, of the second, and of the first again.
const PLAN: &str = "Some(Plan { words: Listed { items: [\
    Listed { items: [Green(0), Green(1), Green(0)] }] } })";

#[test]
fn bits_give_their_plan_or_none(rt: HostRuntime) -> Result<(), Fail> {
    let alloc = rt.alloc();
    let net = crossing(alloc)?;
    assert!(rt; valid(&net));
    let cases: [([i64; 6], &str); 6] = [
        ([1, 0, 0, 1, 1, 0], PLAN),
        // two letters in the second step, and none
        ([1, 0, 1, 1, 1, 0], "None"),
        ([1, 0, 0, 0, 1, 0], "None"),
        // a value that is no bit
        ([1, 0, 2, 1, 1, 0], "None"),
        // another phase than the first one begins, and a green that is too long
        ([0, 1, 1, 0, 0, 1], "None"),
        ([1, 0, 1, 0, 1, 0], "None"),
    ];
    for (bits, wanted) in &cases {
        let found = plan_with(alloc, &net, bits)?;
        assert_eq!(rt; format!(in alloc; "{found:?}")?.as_str(), *wanted);
    }
    Ok(())
}
