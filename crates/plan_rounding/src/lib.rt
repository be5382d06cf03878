//! Admissible plans with their delays: two that a network's limits name, those that a climb over greens finds, and the best of
//! what a point has (docs/search.md, "Plans").
#![tactic(auto)]

mod climbing;
mod constants;
mod greens;
pub mod laws;
mod naming;
mod replays;
mod rounding;
mod runs;
mod splits;
mod starts;
mod word_change;

pub use climbing::improved;
pub use constants::{
    LEVELS_OF_A_SPLIT, MOST_STEPS_OF_A_CHANGE, PARTS_OF_A_GREEN, STARTS_OF_A_ROUNDING,
    TRIES_OF_A_ROUNDING, TRIES_OF_A_START,
};
pub use naming::named;
pub use replays::{ReplayedPlan, replayed};
pub use rounding::round;
