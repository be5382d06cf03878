//! Tests of a search and of what it is made of: each tries what a crate makes public.
#![tactic(auto)]

#[cfg(test)]
mod branch_trees;
#[cfg(test)]
mod broken_rows;
#[cfg(test)]
mod networks;
#[cfg(test)]
mod plans;
#[cfg(test)]
mod prices;
#[cfg(test)]
mod searches;
#[cfg(test)]
mod seeds;
