//! Tests of values of prices, of texts of certificates, of the checker and of gaps: each tries what a crate makes public.
#![tactic(auto)]

#[cfg(test)]
mod bits_of_plans;
#[cfg(test)]
mod certificate_pieces;
#[cfg(test)]
mod certificate_texts;
#[cfg(test)]
mod certificates;
#[cfg(test)]
mod costed_boxes;
#[cfg(test)]
mod gaps;
#[cfg(test)]
mod kept_values;
#[cfg(test)]
mod networks;
#[cfg(test)]
mod price_values;
