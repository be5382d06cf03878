//! Tests of the crates that all others stand on: each tries what a crate makes public.
#![tactic(auto)]

#[cfg(test)]
mod demands;
#[cfg(test)]
mod lines_and_numbers;
#[cfg(test)]
mod lists_and_texts;
#[cfg(test)]
mod networks;
