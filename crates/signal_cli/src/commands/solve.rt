//! `solve NET BUDGET PLANOUT CERTOUT`: a plan and a certificate of a bound, found by a search and written to two files.

ghost use Rattle.std.specs.Prelude.{◌≡◌, ◌≤◌, ℕ, List, [], IfOk};
ghost use Rattle.ct_base.specs.Validity.{IsValid};
ghost use Rattle.traffic_model.specs.Runs.{IsAdmissiblePlan};
ghost use Rattle.plan_file.specs.PlanText.{Spells};
ghost use Rattle.solve_core.specs.Solved.{IsSolved, solve_faults};
ghost use Rattle.signal_cli.specs.Answers.{IsSearchReply, SolveGives, solve_reply};
ghost use Rattle.signal_cli.specs.inner.Causes.{Finds};

use crate::fault::Fault;
use crate::input::read_searchable;
use crate::reply::Reply;
use ct_base::{Memory, Net};
use named_net::NamedNet;
use plan_report::summary;
use shelf_io::{File, Listed, Shelf, Text};
use solve_core::{SolveFault, Solved};
use std::alloc::Global;

/// The texts of a plan and of a certificate for two files, the plan first, and the lines of the search that found them.
pub fn solve<F: Shelf>(
    alloc: Global,
    network: &str,
    budget: u32,
    plan: &str,
    certificate: &str,
    shelf: &mut F,
) -> Result<Reply, Fault>
    requires { 1 ≤ budget }
    ensures { Finds (SolveGives network.now budget plan.now certificate.now) result (F.state shelf.old) (F.state shelf.new) }
{
    let named = read_searchable(alloc, shelf, network, budget)?;
    let reply = reply_with(alloc, &named, budget, plan, certificate)?;
    Ok(reply)
}

/// Searches, and makes the files and the lines of what was found.
fn reply_with(
    alloc: Global,
    named: &NamedNet,
    budget: u32,
    plan: &str,
    certificate: &str,
) -> Result<Reply, Memory>
    requires budget { 1 ≤ budget }
    requires small { solve_faults named.now.net budget ≡ [] }
    ensures { IfOk result (IsSearchReply budget plan.now certificate.now named.now) }
{
    let solved = search(alloc, named.net(), budget)?;
    let reply = reply_of(alloc, named, &solved, plan, certificate)?;
    Ok(reply)
}

/// What a search comes to, where the rows are not too many for the budget.
pub fn search(alloc: Global, net: &Net, budget: u32) -> Result<Solved, Memory>
    requires valid { IsValid net.now }
    requires budget { 1 ≤ budget }
    requires small { solve_faults net.now budget ≡ [] }
    ensures { IfOk result (IsSolved net.now budget) }
{
    match solve_core::solve(alloc, net, budget) {
        Ok(solved) => Ok(solved),
        Err(SolveFault::TooLarge(_) | SolveFault::Budget(_)) => unreachable!(),
        Err(SolveFault::Memory) => Err(Memory),
    }
}

/// The files and the lines of what a search came to.
fn reply_of(
    alloc: Global,
    named: &NamedNet,
    solved: &Solved,
    plan: &str,
    certificate: &str,
) -> Result<Reply, Memory>
    requires { IsAdmissiblePlan named.now.net solved.now.plan }
    ensures { IfOk result (λ reply. (text : List ℕ) × Spells named.now text solved.now.plan × (reply ≡ solve_reply plan.now certificate.now text solved.now)) }
{
    let plan = file(alloc, plan, plan_file::write(alloc, named, &solved.plan)?)?;
    let certificate = file(alloc, certificate, cert_format::write(alloc, &solved.cert)?)?;
    let lines = summary(alloc, solved)?;
    let reply = Reply::both_filed(alloc, plan, certificate, lines)?;
    Ok(reply)
}

/// A file of a name and bytes.
fn file(alloc: Global, name: &str, bytes: Vec<u8>) -> Result<File, Memory>
    ensures { IfOk result (λ file. file ≡ record { name = name.now; bytes = bytes.items }) }
{
    let name = Text::from_str(alloc, name)?;
    Ok(File {
        name,
        bytes: Listed::of(bytes),
    })
}
