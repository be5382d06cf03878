//! Tests of the replay, of programs in whole numbers and of the program of a network: each tries what a crate makes public.
#![tactic(auto)]

#[cfg(test)]
mod decoded_points;
#[cfg(test)]
mod moves_and_floors;
#[cfg(test)]
mod networks;
#[cfg(test)]
mod one_link;
#[cfg(test)]
mod points_of_plans;
#[cfg(test)]
mod program_texts;
#[cfg(test)]
mod programs;
#[cfg(test)]
mod replays;
#[cfg(test)]
mod rows;
#[cfg(test)]
mod rules;
#[cfg(test)]
mod sizes;
