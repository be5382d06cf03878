//! From the links and signals of a network file to a valid network of cells with its names, or the first rule that they
//! break.
#![tactic(auto)]

mod builder;
mod by_name;
mod cell_numbers;
mod fault;
mod gate;
mod judge;
pub mod laws;
mod link;
mod naming;
mod network;
mod network_fault;
mod out;
mod reader;

pub use builder::build;
pub use demand::DemandFault;
pub use fault::{BuildFault, PhaseAt};
pub use named_net::{NamedNet, Names, Place, SignalNames};
pub use network_fault::NetworkFault;
pub use reader::read;
