//! What the texts of the repository are made of: lines, words, names, and numbers of one spelling each.
#![tactic(auto)]

pub mod laws;
mod line;
mod name;
mod number;

pub use line::{cut, take_line, take_word};
pub use name::{Name, is_name};
pub use number::{natural, price, whole};
