//! What a command answers where nothing stands in its way.

ghost use Rattle.std.specs.Prelude.{◌≡◌, IfOk};
ghost use Rattle.signal_cli.specs.Answers as said;

use ct_base::Memory;
use shelf_io::{File, FileList, Listed, Text};
use std::alloc::Global;

/// An answer that is computed whole before any of it is written.
#[derive(Debug, Drop)]
pub struct Reply {
    /// Whether a file that was to be judged is not accepted. Its status is 1 then, and else 0.
    pub rejected: bool,
    /// The lines that are put once all files stand.
    pub lines: Text,
    /// The files that are written, in the order of writing.
    pub outputs: FileList,
}

impl Reply {
    /// Lines alone.
    pub fn printed(alloc: Global, lines: Text) -> Reply
        ensures { result ≡ said.printed lines }
    {
        Reply {
            rejected: false,
            lines,
            outputs: Listed::new(alloc),
        }
    }

    /// Lines that say why a file that was judged is not accepted.
    pub fn rejection(alloc: Global, lines: Text) -> Reply
        ensures { result ≡ said.rejection lines }
    {
        Reply {
            rejected: true,
            lines,
            outputs: Listed::new(alloc),
        }
    }

    /// A file under a name, and then lines.
    pub fn filed(alloc: Global, name: &str, bytes: Listed<u8>, lines: Text) -> Result<Reply, Memory>
        ensures { IfOk result (λ reply. reply ≡ said.filed name.now bytes lines) }
    {
        let name = Text::from_str(alloc, name)?;
        let mut outputs = Listed::new(alloc);
        outputs.push(File { name, bytes })?;
        Ok(Reply {
            rejected: false,
            lines,
            outputs,
        })
    }

    /// Two files, and then lines.
    pub fn both_filed(
        alloc: Global,
        first: File,
        second: File,
        lines: Text,
    ) -> Result<Reply, Memory>
        ensures { IfOk result (λ reply. reply ≡ said.both_filed first second lines) }
    {
        let mut outputs = Listed::new(alloc);
        outputs.push(first)?;
        outputs.push(second)?;
        Ok(Reply {
            rejected: false,
            lines,
            outputs,
        })
    }
}
