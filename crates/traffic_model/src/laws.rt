//! The laws that show that the definitions mean traffic. Each function does nothing: its clause is a law,
//! and a caller that calls it knows the law.

mod conservation;
mod delays;
mod fronts;
mod movement;
mod plans;

pub use conservation::{units_are_conserved_over_a_run, units_are_conserved_over_a_step};
pub use delays::{
    delays_are_small, delays_never_fall, earlier_letters_decide_the_delay,
    earlier_letters_decide_the_occupancies, earlier_letters_decide_what_is_left,
};
pub use fronts::{
    fronts_have_no_more_delay, fronts_of_plans_are_admissible, fronts_of_words_are_admissible,
    fronts_show_the_same_letters,
};
pub use movement::{
    cells_hold_what_they_can, cells_hold_what_they_can_over_a_step, closed_cells_let_nothing_leave,
    inflow_fits_into_the_room, no_cell_sends_more_than_it_holds,
};
pub use plans::{networks_have_plans, plans_go_on, signals_have_words, words_go_on};
