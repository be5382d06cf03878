//! Networks that are valid and, for each rule, one that is not; and networks and plans that are copied.

mod change;
mod copies;
mod given;
mod rules;

use std::test::Fail;

#[test]
fn networks_are_valid_by_each_rule(rt: HostRuntime) -> Result<(), Fail> {
    let alloc = rt.alloc();
    rules::try_counts(&rt, alloc)?;
    rules::try_cells(&rt, alloc)?;
    rules::try_merges(&rt, alloc)?;
    rules::try_signals(&rt, alloc)?;
    Ok(())
}

#[test]
fn copies_are_equal(rt: HostRuntime) -> Result<(), Fail> {
    copies::try_networks(&rt)?;
    copies::try_plans(&rt)?;
    Ok(())
}
