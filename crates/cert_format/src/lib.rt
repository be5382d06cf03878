//! The text of a certificate: a bound, and the nodes of a tree from the top down, a line each (docs/certificate-file.md, "The text").
#![tactic(auto)]

mod cert;
mod event;
mod fault;
pub mod laws;
mod line;
mod next;
mod number;
mod reader;
mod reading;
mod spare;
mod step;
mod unfinished;
mod writing;

pub use cert::{Cert, Node, Pairs};
pub use event::Event;
pub use fault::CertFault;
pub use line::{Mark, is_end, is_head, read_bound, read_node};
pub use reader::Reader;
pub use reading::{Ending, Front, read, read_front};
pub use unfinished::Unfinished;
pub use writing::write;
