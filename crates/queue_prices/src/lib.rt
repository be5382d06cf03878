//! Prices by costs to go: what a unit that stands in a cell costs at least from a step on, where gates ask for tolls (docs/search.md,
//! "Prices by costs to go"). They are a start of an ascent and are never trusted; that they are lawful is proved.
#![tactic(auto)]

mod costs;
mod flows;
mod letters;
mod places;
mod prices;
mod relaxation;
mod rows;
mod tolls;

pub use relaxation::Relaxation;
pub use tolls::Tolls;
