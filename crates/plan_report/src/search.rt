//! The lines that tell of a search.

ghost use Rattle.std.specs.Prelude.{◌≡◌, IfOk, string_bytes};
ghost use Rattle.plan_report.specs.Summary as said;

use ct_base::{Memory, Text};
use solve_core::{Solved, State};
use std::alloc::{AllocError, Global};

/// The delay of the plan, the bound, how many nodes the certificate has, and whether the bound is the delay: a line each.
pub fn summary(alloc: Global, solved: &Solved) -> Result<Text, Memory>
    ensures { IfOk result (λ text. text ≡ said.summary_lines solved.now.delay solved.now.cert.bound solved.now.nodes solved.now.state) }
{
    let mut lines = found_lines(alloc, solved.delay, solved.cert.bound)?;
    let end = end_lines(alloc, solved.nodes, solved.state)?;
    lines.push_str(end.as_str())?;
    Ok(Text::of(lines))
}

/// The delay of a plan and a bound.
#[tactic(auto, unfolding(crate::specs::Summary::found_lines))]
fn found_lines(alloc: Global, delay: u64, bound: i64) -> Result<String, AllocError>
    ensures { IfOk result (λ lines. string_bytes lines ≡ said.found_lines delay bound) }
{
    Ok(format!(in alloc; "delay {delay}\nbound {bound}\n")?)
}

/// How many nodes a certificate has, and the state.
#[tactic(auto, unfolding(crate::specs::Summary::end_lines))]
fn end_lines(alloc: Global, nodes: u32, state: State) -> Result<String, AllocError>
    ensures { IfOk result (λ lines. string_bytes lines ≡ said.end_lines nodes state) }
{
    let word = state_word(state);
    Ok(format!(in alloc; "nodes {nodes}\nstate {word}\n")?)
}

/// The word of a state.
fn state_word(state: State) -> &'static str
    ensures { result.now ≡ said.state_word state }
{
    match state {
        State::Optimal => "optimal",
        State::StillOpen => "open",
    }
}
