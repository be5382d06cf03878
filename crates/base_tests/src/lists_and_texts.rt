//! Lists, stacks and texts that are filled, copied and read once, lists at each type that the repository keeps in them.

use listed::{Duplicate, Listed, Memory, Stack, Text};
use std::alloc::Global;
use std::fmt::Debug;
use std::process::Abort;
use std::test::Fail;

/// A list of some items.
fn list_of<T: Duplicate + Copy + Drop>(alloc: Global, items: &[T]) -> Result<Listed<T>, Memory> {
    let mut list = Listed::new(alloc);
    for item in items {
        list.push(*item)?;
    }
    Ok(list)
}

/// The copy of a list has the items that were pushed to the list.
fn try_copy<T: Duplicate + Copy + Debug + Drop + PartialEq>(
    rt: &impl Abort,
    alloc: Global,
    items: &[T],
) -> Result<(), Memory> {
    let list = list_of(alloc, items)?.copy()?;
    assert_eq!(rt; list.len(), items.len());
    assert_eq!(rt; list.as_slice(), items);
    Ok(())
}

#[test]
fn copies_keep_what_is_pushed(rt: HostRuntime) -> Result<(), Fail> {
    let alloc = rt.alloc();
    try_copy::<u32>(&rt, alloc, &[])?;
    try_copy(&rt, alloc, &[3u32, 1, 2])?;
    try_copy(&rt, alloc, &[5u64, 1 << 48])?;
    try_copy(&rt, alloc, &[-7i64, 0, 9])?;
    try_copy(&rt, alloc, &[(2u32, 1u32), (3, 4)])?;
    try_copy(&rt, alloc, &[(1u8, 6u32), (0, 2)])?;
    try_copy(&rt, alloc, &[(6u32, -1i64), (8, 1)])?;
    try_copy(&rt, alloc, &[Some(4u32), None])?;
    Ok(())
}

#[test]
fn vectors_are_moved(rt: HostRuntime) -> Result<(), Fail> {
    let units = list_of(rt.alloc(), &[3u32, 1, 2])?;
    let moved = Listed::of(units.into_vec());
    assert_eq!(rt; moved.as_slice(), [3u32, 1, 2].as_slice());
    Ok(())
}

#[test]
fn the_last_that_was_pushed_is_popped_first(rt: HostRuntime) -> Result<(), Fail> {
    let mut waiting = Stack::new(rt.alloc());
    waiting.push(4u32)?;
    waiting.push(9)?;
    assert_eq!(rt; waiting.len(), 2);
    assert_eq!(rt; waiting.pop(), Some(9));
    assert_eq!(rt; waiting.pop(), Some(4));
    assert_eq!(rt; waiting.pop(), None);
    Ok(())
}

#[test]
fn texts_keep_their_characters(rt: HostRuntime) -> Result<(), Fail> {
    let mut text = Text::new(rt.alloc());
    for character in ['z', 'u', 'g', 'ü'] {
        text.push(character)?;
    }
    assert_eq!(rt; text.copy()?.as_str(), "zugü");
    Ok(())
}

#[test]
fn texts_are_made_of_others(rt: HostRuntime) -> Result<(), Fail> {
    let alloc = rt.alloc();
    assert_eq!(rt; Text::from_str(alloc, "link a")?.as_str(), "link a");
    assert_eq!(rt;
        Text::of(format!(in alloc; "delay {}", 2)?).as_str(),
        "delay 2"
    );
    Ok(())
}
