//! The network file: reads the bytes of a TOML document as links and signals, or names the first place at which they
//! break the rules of the file.
#![tactic(auto)]

mod document;
mod fault;
mod judge;
mod keys;
mod kinds;
mod link;
mod raw;
mod reader;
mod signal;

pub use demand::Piece;
pub use fault::{At, NetFault};
pub use raw::{RawLink, RawNet, RawPhase, RawSignal};
pub use reader::read;
pub use texts::Name;
