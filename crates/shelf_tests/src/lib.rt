//! Tests of files and output behind their two traits: those in memory, those of the host, and the calls that were noted.
#![tactic(auto)]

#[cfg(test)]
mod files_in_memory;
#[cfg(test)]
mod host;
#[cfg(test)]
mod noted_calls;
#[cfg(test)]
mod output_in_memory;
#[cfg(test)]
mod whole_files;
