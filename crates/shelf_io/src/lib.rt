//! Files and standard output behind two traits, whose faults are counted, and the loops that read and write a whole
//! file and put a whole text.
#![tactic(auto)]

mod calls;
mod counts;
mod file_map;
mod host;
mod memory_shelf;
mod memory_sink;
mod opens;
mod shelf;
mod sink;
mod watched;
mod whole_file;
mod whole_text;
mod whole_write;

pub use calls::CallList;
pub use file_map::{File, FileList};
pub use host::{HostShelf, HostSink};
pub use listed::{Duplicate, Listed, Memory, Text};
pub use memory_shelf::MemoryShelf;
pub use memory_sink::MemorySink;
pub use shelf::{Failed, Shelf};
pub use sink::Sink;
pub use watched::{Call, Watched};
pub use whole_file::{ReadAll, read_all};
pub use whole_text::put_all;
pub use whole_write::write_all;

/// The words of a command line, as contracts see them a list of texts.
pub type Words = Listed<Text>;
