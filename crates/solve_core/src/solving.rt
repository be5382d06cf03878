//! The search.

ghost use Rattle.std.specs.Prelude.{◌≡◌, ℕ, ◌*◌, ◌≤◌, ◌^◌, ◌≤ℤ◌, pos, IfOk, false, length};
ghost use Rattle.ct_base.specs.Validity.{IsValid};
ghost use Rattle.refusals.specs.Faults.{unless};
ghost use Rattle.program_model.specs.Points.{program_of};
ghost use Rattle.branch_tree.specs.OpenTree.{is_open};
ghost use Rattle.solve_core.specs.Solved.{IsSolved, Solves, solve_faults};
ghost use Rattle.solve_core.specs.inner.Searching.{IsSearching, IsTask};
ghost use Rattle.solve_core.specs.declared.solved.State.TheVariants.{Optimal, StillOpen};

use crate::constants::MAX_WORK;
use crate::fault::SolveFault;
use crate::laws::{programs_have_rows, whole_trees_are_searched};
use crate::lists::Lists;
use crate::running::Running;
use crate::search::Search;
use crate::solved::{Solved, State};
use cert_format::Cert;
use ct_base::{Memory, Net};
use lo_program::{compile, row_count};
use plan_rounding::ReplayedPlan;
use queue_prices::Relaxation;
use search_model::laws::plans_that_reach_a_bound_are_best;
use sparse_program::Program;
use sparse_program::limits::MAX_ROWS;
use std::alloc::Global;
use std::collections::BinaryHeap;

/// Refuses a network whose program has more rows than a program holds, or too many for a budget. It takes no memory.
#[tactic(auto, unfolding(crate::specs::Solved::solve_faults))]
pub fn judge(net: &Net, budget: u32) -> Result<(), SolveFault>
    requires { IsValid net.now }
    ensures { result ≡ unless (solve_faults net.now budget) tt }
{
    let rows = row_count(net);
    if rows > MAX_ROWS as u64 {
        return Err(SolveFault::TooLarge(rows));
    }
    if u64::from(budget) * rows > MAX_WORK {
        return Err(SolveFault::Budget(rows));
    }
    Ok(())
}

/// A plan that can be run, and a certificate of a bound below which the delay of no admissible plan lies, found within a budget of nodes.
/// A greater budget costs more time and may give a better bound; one of `2 ^ (B + 1) - 1` nodes, where the network's program leaves B plan
/// columns open, gives the best plan of all (docs/search.md).
pub fn solve(alloc: Global, net: &Net, budget: u32) -> Result<Solved, SolveFault>
    requires valid { IsValid net.now }
    requires budget { 1 ≤ budget }
    ensures { Solves net.now budget result }
{
    programs_have_rows();
    judge(net, budget)?;
    match compile(alloc, net) {
        Ok(program) => Ok(search_within(alloc, net, &program, budget)?),
        Err(_) => Err(SolveFault::Memory),
    }
}

/// Searches until no leaf is open.
fn search_within(alloc: Global, net: &Net, program: &Program, budget: u32) -> Result<Solved, Memory>
    requires { IsTask net.now program.now budget }
    ensures { IfOk result (IsSolved net.now budget) }
{
    let search = Search::start(alloc, net, program, budget)?;
    let seed = search.kept.prices().to_vec(alloc)?;
    let mut running = Running {
        search,
        waiting: BinaryHeap::new(alloc),
        lists: Lists {
            seed,
            worked: Vec::new(alloc),
            tolls: Vec::new(alloc),
        },
        relaxation: Relaxation::new(alloc, net, program)?,
        refinings: budget,
    };
    running.run(alloc, net, program, budget)?;
    let Running { search, .. } = running;
    finish(net, budget, search)
}

/// What a search has come to, once no leaf is open. Its least number is then no greater than the delay, so that the limit of a number
/// changes nothing.
fn finish(net: &Net, budget: u32, search: Search) -> Result<Solved, Memory>
    requires valid { IsValid net.now }
    requires held { length (program_of net.now).rows ≤ MAX_ROWS }
    requires few { budget * length (program_of net.now).rows ≤ MAX_WORK }
    requires searching { IsSearching net.now budget search }
    requires whole { (n : ℕ) → is_open search.tree.tree n ≡ false }
    ensures { IfOk result (IsSolved net.now budget) }
{
    whole_trees_are_searched();
    plans_that_reach_a_bound_are_best();
    let bound = bound_of(&search);
    let Search { tree, best, .. } = search;
    let nodes = tree.nodes();
    let cert = tree.to_cert(bound)?;
    let ReplayedPlan { plan, delay } = best;
    let state = state_of(&cert, delay);
    Ok(Solved {
        plan,
        delay,
        cert,
        nodes,
        state,
    })
}

/// Whether the bound of a certificate is a delay.
fn state_of(cert: &Cert, delay: u64) -> State
    ensures optimal { result ≡ Optimal → cert.now.bound ≡ pos delay }
    ensures open { result ≡ StillOpen → cert.now.bound ≡ pos delay → ⊥ }
{
    if i128::from(cert.bound) == i128::from(delay) {
        State::Optimal
    } else {
        State::StillOpen
    }
}

/// The least number of a search as one of 64 bits, where it is from 0 on and not too great; else the nearest to it.
fn bound_of(search: &Search) -> i64
    ensures { pos 0 ≤ℤ search.now.least → search.now.least ≤ℤ pos (2 ^ 62) → result ≡ search.now.least }
{
    if search.least < 0 {
        0
    } else if search.least > 1 << 62 {
        1 << 62
    } else {
        search.least as i64
    }
}
