//! The rule rows of a network, worked by hand. They are built on the columns of the plan, with no other column there.

ghost use Rattle.std.specs.Prelude.{◌≤◌, length};
ghost use Rattle.ct_base.specs.Validity.{IsValid};
ghost use Rattle.program_model.specs.RuleRows.{rule_rows};

use crate::networks::crossing;
use crate::rows::{WantedRow, try_rows};
use ct_base::{Net, valid};
use lo_program::{plan_cols, rule_row_count, rule_rows};
use sparse_program::{Builder, Memory, Program};
use std::alloc::Global;
use std::test::Fail;

/// The columns of the plan and the rule rows of a network, and nothing else.
fn rules_alone(alloc: Global, net: &Net) -> Result<Program, Memory>
    requires valid { IsValid net.now }
    requires few { length (rule_rows net.now) ≤ 100 }
{
    let mut builder = Builder::new(alloc);
    let count = plan_cols(net, &mut builder)?;
    rule_rows(net, &mut builder)?;
    builder.finish(count)
}

#[test]
fn rule_rows_stand_on_the_columns_of_the_plan(rt: HostRuntime) -> Result<(), Fail> {
    let alloc = rt.alloc();
    let net = crossing(alloc)?;
    assert!(rt; valid(&net));
    assert_eq!(rt; rule_row_count(&net), 9);
    let program = rules_alone(alloc, &net)?;
    assert_eq!(rt; (program.cols(), program.plan_cols()), (6, 6));
    let wanted: [WantedRow; 9] = [
        (true, 1, &[(0, 1), (1, 1)]),
        (false, 0, &[(0, -1), (2, 1), (3, 1)]),
        (false, 0, &[(1, -1), (2, 1), (3, 1)]),
        (false, -2, &[(0, -1), (2, -1), (4, -1)]),
        (false, -2, &[(1, -1), (3, -1), (5, -1)]),
        (true, 1, &[(2, 1), (3, 1)]),
        (false, 0, &[(2, -1), (4, 1), (5, 1)]),
        (false, 0, &[(3, -1), (4, 1), (5, 1)]),
        (true, 1, &[(4, 1), (5, 1)]),
    ];
    try_rows(&rt, &program, &wanted);
    Ok(())
}
