//! The columns of a network's program, added one by one in their order, with their bounds and costs (docs/program.md, "Columns").
#![tactic(auto)]

mod columns;

pub use columns::arrivals::{demand_at, more_arrived, none_arrived};
pub use columns::bounds::{cap_of, least_units, most_room, most_units, units_of_flow};
pub use columns::{add_columns, plan_cols};
