//! The program of a network of one link, built, read by rows and by columns, and its box narrowed and set back.

mod parts;
mod read_back;

use crate::one_link;
use std::test::Fail;

#[test]
fn programs_are_built_read_and_narrowed(rt: HostRuntime) -> Result<(), Fail> {
    let alloc = rt.alloc();
    parts::try_terms(&rt, alloc)?;
    parts::try_copies(&rt, alloc)?;
    let program = one_link::built(&rt, alloc)?;
    read_back::try_all_rows(&rt, &program);
    read_back::try_columns(&rt, &program);
    read_back::try_bounds(&rt, alloc, &program)?;
    Ok(())
}
