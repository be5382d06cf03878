//! What a command reads whole: networks and plans, each judged as soon as its bytes are there, and the bytes of other files.

ghost use Rattle.std.specs.Prelude.{◌≡◌, ◌≤◌, [], false, Err, IfErr, IfOk, OnOk};
ghost use Rattle.std.specs.Str.{bytes_eq};
ghost use Rattle.traffic_model.specs.Runs.{IsAdmissiblePlan};
ghost use Rattle.lo_program.specs.Compiled.{size_faults};
ghost use Rattle.solve_core.specs.Solved.{solve_faults};
ghost use Rattle.signal_cli.specs.Answers as said;
ghost use Rattle.signal_cli.specs.Answers.{content_in, network, network_from, network_in, plan, plan_from, plan_in, planned_in, searchable, searchable_in, searchable_text, sized, sized_in, sized_planned_in};
ghost use Rattle.signal_cli.specs.inner.Causes.{Finds, Gives, ended_as};
ghost use Rattle.limits.specs.declared.TheConstants.{MAX_FILE_BYTES};
ghost use Rattle.signal_cli.specs.declared.fault.Fault.TheVariants as fault;

use crate::fault::Fault;
use ct_base::{Listed, Plan};
use limits::MAX_FILE_BYTES;
use lo_program::judge_size;
use named_net::NamedNet;
use shelf_io::{ReadAll, Shelf, read_all};
use std::alloc::Global;

/// What a file holds.
#[derive(Debug, Drop)]
pub enum Content {
    /// All its bytes.
    Whole(Listed<u8>),
    /// More bytes than are allowed.
    TooLong,
}

/// A network and a plan for it.
#[derive(Debug, Drop)]
pub struct Planned {
    pub named: NamedNet,
    pub plan: Plan,
}

/// The network in a file, or why there is none.
pub fn read_network<F: Shelf>(alloc: Global, shelf: &mut F, name: &str) -> Result<NamedNet, Fault>
    ensures { Finds (λ files outcome. network_in files name.now ≡ outcome) result (F.state shelf.old) (F.state shelf.new) }
{
    let content = read_content(alloc, shelf, name, MAX_FILE_BYTES)?;
    let named = network_from(alloc, content)?;
    Ok(named)
}

/// The network in a file whose program is not too large, or why there is none.
pub fn read_sized<F: Shelf>(alloc: Global, shelf: &mut F, name: &str) -> Result<NamedNet, Fault>
    ensures found { Finds (λ files outcome. sized_in files name.now ≡ outcome) result (F.state shelf.old) (F.state shelf.new) }
    ensures small { IfOk result (λ named. size_faults named.net ≡ []) }
{
    let named = read_network(alloc, shelf, name)?;
    refuse_large(&named)?;
    Ok(named)
}

/// Refuses a network whose program is too large.
fn refuse_large(named: &NamedNet) -> Result<(), Fault>
    ensures small { OnOk result (size_faults named.now.net ≡ []) }
    ensures large { IfErr result (λ fault. Gives (Err fault) (sized named.now)) }
    ensures exact { IfErr result (λ fault. sized named.now ≡ Err fault) }
{
    judge_size(named.net())?;
    Ok(())
}

/// The network in a file whose program is not too large, also for a search within a budget of nodes, or why there is none.
pub fn read_searchable<F: Shelf>(
    alloc: Global,
    shelf: &mut F,
    name: &str,
    budget: u32,
) -> Result<NamedNet, Fault>
    ensures found { Finds (λ files outcome. searchable_in files name.now budget ≡ outcome) result (F.state shelf.old) (F.state shelf.new) }
    ensures small { IfOk result (λ named. solve_faults named.net budget ≡ []) }
{
    let named = read_network(alloc, shelf, name)?;
    refuse_unsearchable(&named, budget)?;
    Ok(named)
}

/// The network that a text spells, judged as a file that holds the text, for a search within a budget of nodes.
pub fn searchable_of(alloc: Global, text: Vec<u8>, budget: u32) -> Result<NamedNet, Fault>
    ensures value { Gives result (searchable_text text.items budget) }
    ensures small { IfOk result (λ named. solve_faults named.net budget ≡ []) }
{
    let named = network_from(alloc, content_of(text))?;
    refuse_unsearchable(&named, budget)?;
    Ok(named)
}

/// A text as what a file would hold.
fn content_of(text: Vec<u8>) -> Content
    ensures { result ≡ said.content_of MAX_FILE_BYTES text.items }
{
    if text.len() as u64 > MAX_FILE_BYTES {
        Content::TooLong
    } else {
        Content::Whole(Listed::of(text))
    }
}

/// Refuses a network whose program is too large, or whose rows are too many for a budget of nodes.
fn refuse_unsearchable(named: &NamedNet, budget: u32) -> Result<(), Fault>
    ensures small { OnOk result (solve_faults named.now.net budget ≡ []) }
    ensures large { IfErr result (λ fault. Gives (Err fault) (searchable budget named.now)) }
    ensures exact { IfErr result (λ fault. searchable budget named.now ≡ Err fault) }
{
    solve_core::judge(named.net(), budget)?;
    Ok(())
}

/// The plan in a file for a network, or why there is none.
fn read_plan<F: Shelf>(
    alloc: Global,
    shelf: &mut F,
    name: &str,
    named: &NamedNet,
) -> Result<Plan, Fault>
    ensures found { Finds (λ files outcome. plan_in named.now files name.now ≡ outcome) result (F.state shelf.old) (F.state shelf.new) }
    ensures admissible { IfOk result (IsAdmissiblePlan named.now.net) }
{
    let content = read_content(alloc, shelf, name, MAX_FILE_BYTES)?;
    let plan = plan_from(alloc, named, content)?;
    Ok(plan)
}

/// The network in a file and the plan for it in another one, or the first fault. The plan is not read where the network is
/// refused.
pub fn read_planned<F: Shelf>(
    alloc: Global,
    shelf: &mut F,
    network: &str,
    plan: &str,
) -> Result<Planned, Fault>
    requires { bytes_eq network.now plan.now ≡ false }
    ensures found { Finds (λ files outcome. planned_in files network.now plan.now ≡ outcome) result (F.state shelf.old) (F.state shelf.new) }
    ensures admissible { IfOk result (λ planned. IsAdmissiblePlan planned.named.net planned.plan) }
{
    let named = read_network(alloc, shelf, network)?;
    let plan = read_plan(alloc, shelf, plan, &named)?;
    Ok(Planned { named, plan })
}

/// The same where the network's program must not be too large. The plan is not read where it is.
pub fn read_sized_planned<F: Shelf>(
    alloc: Global,
    shelf: &mut F,
    network: &str,
    plan: &str,
) -> Result<Planned, Fault>
    requires { bytes_eq network.now plan.now ≡ false }
    ensures found { Finds (λ files outcome. sized_planned_in files network.now plan.now ≡ outcome) result (F.state shelf.old) (F.state shelf.new) }
    ensures small { IfOk result (λ planned. size_faults planned.named.net ≡ []) }
    ensures admissible { IfOk result (λ planned. IsAdmissiblePlan planned.named.net planned.plan) }
{
    let named = read_sized(alloc, shelf, network)?;
    let plan = read_plan(alloc, shelf, plan, &named)?;
    Ok(Planned { named, plan })
}

/// What a file holds that is read whole: all its bytes, or more than the limit.
pub fn read_content<F: Shelf>(
    alloc: Global,
    shelf: &mut F,
    name: &str,
    limit: u64,
) -> Result<Content, Fault>
    requires { limit ≤ 134217728 }
    ensures { Finds (λ files outcome. content_in files name.now limit ≡ outcome) result (F.state shelf.old) (F.state shelf.new) }
{
    match read_all(alloc, shelf, name, limit) {
        Ok(bytes) => Ok(Content::Whole(Listed::of(bytes))),
        Err(end) => ended(end),
    }
}

/// What comes of a reading that ended before the whole file was read.
fn ended(end: ReadAll) -> Result<Content, Fault>
    ensures { result ≡ ended_as end }
{
    match end {
        ReadAll::TooLong => Ok(Content::TooLong),
        ReadAll::Fault => Err(Fault::Read),
        ReadAll::Memory => Err(Fault::Memory),
    }
}

/// The network that a file holds.
#[tactic(auto, unfolding(crate::specs::Answers::network))]
fn network_from(alloc: Global, content: Content) -> Result<NamedNet, Fault>
    ensures value { Gives result (network_from content) }
    ensures long { content ≡ Content.TooLong → result ≡ Err fault.NetworkLong }
{
    match content {
        Content::Whole(bytes) => network_of(alloc, bytes.as_slice()),
        Content::TooLong => Err(Fault::NetworkLong),
    }
}

/// The network that bytes spell.
#[tactic(auto, unfolding(crate::specs::Answers::network))]
fn network_of(alloc: Global, bytes: &[u8]) -> Result<NamedNet, Fault>
    ensures { Gives result (network bytes.now) }
{
    let named = cell_build::read(alloc, bytes)?;
    Ok(named)
}

/// The plan that a file holds for a network.
fn plan_from(alloc: Global, named: &NamedNet, content: Content) -> Result<Plan, Fault>
    ensures value { Gives result (plan_from named.now content) }
    ensures long { content ≡ Content.TooLong → result ≡ Err fault.PlanLong }
    ensures admissible { IfOk result (IsAdmissiblePlan named.now.net) }
{
    match content {
        Content::Whole(bytes) => plan_of(alloc, named, bytes.as_slice()),
        Content::TooLong => Err(Fault::PlanLong),
    }
}

/// The plan that bytes spell for a network.
#[tactic(auto, unfolding(crate::specs::Answers::plan))]
fn plan_of(alloc: Global, named: &NamedNet, bytes: &[u8]) -> Result<Plan, Fault>
    ensures value { Gives result (plan named.now bytes.now) }
    ensures admissible { IfOk result (IsAdmissiblePlan named.now.net) }
{
    let plan = plan_file::read(alloc, named, bytes)?;
    Ok(plan)
}
