//! Tables of runs, each with all calls that it makes.

use crate::tests::world::{Calls, run_over};
use shelf_io::{Call, Memory};
use std::alloc::{AllocError, AllocGlobal, Global};
use std::process::Abort;

/// The words of a run over the files of a test, the calls on the shelf and the puts that fail, the most bytes of a call
/// on the shelf, the status that comes of it, what is put, what the file `out` holds then, and all calls that were made on
/// the shelf.
pub type Run = (
    &'static [&'static str],
    &'static [u64],
    &'static [u64],
    usize,
    u8,
    &'static str,
    Option<&'static str>,
    &'static str,
);

/// The calls in their order, each followed by a comma. A read asks for 65,536 bytes.
pub fn told(rt: &impl Abort, alloc: Global, calls: &[Call]) -> Result<String, AllocError> {
    let mut text = String::new(alloc);
    for call in calls {
        let line = match call {
            Call::Read(name, at, room) => {
                assert!(rt; *room == 65_536);
                format!(in alloc; "{name} {at}, ")?
            }
            Call::Create(name) => format!(in alloc; "create {name}, ")?,
            Call::Append(name, count) => format!(in alloc; "append {name} {count}, ")?,
        };
        text.push_str(line.as_str())?;
    }
    Ok(text)
}

/// Tries each run of a table. Its inputs stay as they were.
pub fn try_runs(
    rt: &(impl Abort + AllocGlobal),
    runs: &[Run],
    files: &[(&str, &[u8])],
) -> Result<(), Memory> {
    for (words, failing, failing_puts, most, status, put, out, wanted) in runs {
        let calls = Calls {
            failing,
            most: *most,
            failing_puts,
            most_put: 65_536,
        };
        let ran = run_over(rt, words, files, &calls)?;
        assert_eq!(rt; ran.status, *status, "{wanted}");
        assert_eq!(rt; ran.out.bytes(), put.as_bytes(), "{wanted}");
        assert!(rt;
            ran.shelf.shelf().file("out") == out.map(|text| text.as_bytes()),
            "{wanted}"
        );
        assert_eq!(rt; told(rt, rt.alloc(), ran.shelf.calls())?.as_str(), *wanted);
        for (name, bytes) in files {
            assert!(rt; ran.shelf.shelf().file(name) == Some(*bytes), "{wanted}");
        }
    }
    Ok(())
}
