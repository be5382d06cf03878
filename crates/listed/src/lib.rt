//! Lists, stacks and texts that own their memory and that contracts see as plain lists, and the one error for want of
//! memory. `specs/` has the sums, tables and joins that definitions everywhere are made of.
#![tactic(auto)]

mod duplicate;
mod list;
mod memory;
mod stack;
mod text;

pub use duplicate::Duplicate;
pub use list::Listed;
pub use memory::Memory;
pub use stack::Stack;
pub use text::Text;
