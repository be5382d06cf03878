//! The program of a network (docs/program.md), after Lo 1999 and 2001 in outline: its rows, how many there are, and the whole with its
//! columns.
#![tactic(auto)]

mod count;
mod fault;
mod flows;
mod program;
mod row;
mod rules;

pub use count::{row_count, rule_row_count};
pub use fault::CompileFault;
pub use program::{compile, judge_size};
pub use program_columns::plan_cols;
pub use rules::rule_rows;
