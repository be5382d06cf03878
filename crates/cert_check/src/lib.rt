//! The checker: whether the text of a certificate shows its bound for a network (docs/certificate.md). It walks the lines one after
//! another, with one box that is narrowed and set back, and knows nothing of where a certificate comes from.
#![tactic(auto)]

mod frame;
mod judging;
mod known;
mod line_checker;
mod line_feed;
mod pieces;
mod state;
mod walk;
mod whole_text;

pub use certificate_model::{MAX_CERTIFICATE_BYTES, Verdict, Why};
pub use lo_program::CompileFault;
pub use pieces::Checker;
pub use whole_text::verdict;
