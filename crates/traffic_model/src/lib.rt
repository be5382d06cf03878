//! What traffic does on a network: the flow of a step, occupancies, delay, and the words that a signal
//! may show. There is no algorithm here: `specs/` has the definitions, and the functions are their laws.
#![tactic(auto)]

pub mod laws;
