//! What a certificate of a lower bound on the delay is, and why its bound is safe (docs/certificate.md): the value of prices, trees of
//! boxes, their leaves, their texts, and which verdict a text deserves. There is no algorithm here.
#![tactic(auto)]

mod constants;
pub mod laws;
mod verdict;

pub use constants::{MAX_CERTIFICATE_BYTES, MAX_PRICE, SCALE};
pub use verdict::{Verdict, Why};
