//! How many rows and columns the programs of small networks have, counted by hand.

use crate::networks::{crossing, one_link};
use ct_base::{Net, valid};
use lo_program::{compile, judge_size, row_count, rule_row_count};
use std::alloc::Global;
use std::process::Abort;
use std::test::Fail;

/// A network's rows, those of them that are rule rows, its columns, and those of them that are the plan's.
fn try_sizes(
    rt: &impl Abort,
    alloc: Global,
    net: &Net,
    wanted: (u64, u64, u32, u32),
) -> Result<(), Fail> {
    assert!(rt; valid(net));
    assert_eq!(rt; (row_count(net), rule_row_count(net)), (wanted.0, wanted.1));
    assert!(rt; judge_size(net).is_ok());
    let program = compile(alloc, net).map_err(|_| "no program")?;
    assert_eq!(rt; u64::from(program.rows()), wanted.0);
    assert_eq!(rt; (program.cols(), program.plan_cols()), (wanted.2, wanted.3));
    Ok(())
}

#[test]
fn programs_have_as_many_rows_as_are_counted(rt: HostRuntime) -> Result<(), Fail> {
    let alloc = rt.alloc();
    try_sizes(&rt, alloc, &one_link(alloc)?, (107, 0, 70, 0))?;
    try_sizes(&rt, alloc, &crossing(alloc)?, (72, 9, 48, 6))?;
    Ok(())
}
