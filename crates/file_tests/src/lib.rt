//! Tests of the crates that read files: each tries what a crate makes public.
#![tactic(auto)]

#[cfg(test)]
mod generated_networks;
#[cfg(test)]
mod network_files;
#[cfg(test)]
mod networks_built;
#[cfg(test)]
mod plan_faults;
#[cfg(test)]
mod words_of_signals;
