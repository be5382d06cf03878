//! Whole runs over files and an output in memory: what they print, and what comes of calls that fail.

mod calls;
mod certificates;
mod demos;
mod examples;
mod networks;
mod plan_texts;
mod plans;
mod points;
mod programs;
mod runs;
mod searches;
mod traces;
mod world;
