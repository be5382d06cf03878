//! The calls that a shelf noted.

use crate::whole_files::is_read_as;
use listed::Listed;
use shelf_io::{MemoryShelf, ReadAll, Watched, write_all};
use std::test::Fail;

#[test]
fn each_call_is_noted_in_its_turn(rt: HostRuntime) -> Result<(), Fail> {
    let alloc = rt.alloc();
    let failing = Listed::of(vec![in alloc; 5]?);
    let mut watched = Watched::new(alloc, MemoryShelf::new(Listed::new(alloc), failing, 4));
    assert_eq!(rt; write_all(&mut watched, "new", b"left 0\n"), Ok(()));
    assert!(rt; is_read_as(alloc, &mut watched, "new", 7, Err(ReadAll::Fault)));
    assert_eq!(rt; watched.shelf().file("new"), Some(b"left 0\n".as_slice()));
    assert_eq!(rt;
        format!(in alloc; "{:?}", watched.calls())?.as_str(),
        "[Create(\"new\"), Append(\"new\", 7), Append(\"new\", 3), Read(\"new\", 0, 65536), Read(\"new\", 4, 65536)]"
    );
    Ok(())
}
