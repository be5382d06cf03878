//! What is told of a fault of a network or of a plan, in the words of its line.

ghost use Rattle.std.specs.Prelude.{◌≡◌, IfOk, string_bytes};
ghost use Rattle.fault_words.specs.Words as text;

use cell_build::{BuildFault, DemandFault, NetworkFault, PhaseAt};
use network_file::{At, NetFault};
use plan_file::{PlanFault, RunFault};
use std::alloc::{AllocError, Global};

/// A table of a network file.
fn table_text(alloc: Global, table: At) -> Result<String, AllocError>
    ensures { IfOk result (λ made. string_bytes made ≡ text.table_text table) }
{
    match table {
        At::Top => format!(in alloc; "top"),
        At::Link(link) => format!(in alloc; "link {link}"),
        At::Turn(link, place) => format!(in alloc; "turn {link} {place}"),
        At::Piece(link, place) => format!(in alloc; "piece {link} {place}"),
        At::Signal(signal) => format!(in alloc; "signal {signal}"),
        At::Phase(signal, place) => format!(in alloc; "phase {signal} {place}"),
    }
}

/// The words of a fault of the keys of a network file: the fault's word, the table, and the number of the key.
pub(crate) fn net_text(alloc: Global, fault: NetFault) -> Result<String, AllocError>
    ensures { IfOk result (λ made. string_bytes made ≡ text.net_text fault) }
{
    match fault {
        NetFault::Toml => format!(in alloc; "toml"),
        NetFault::Format => format!(in alloc; "format"),
        NetFault::Key { table, key } => {
            let table = table_text(alloc, table)?;
            format!(in alloc; "key {table} {key}")
        }
        NetFault::Range { table, key } => {
            let table = table_text(alloc, table)?;
            format!(in alloc; "range {table} {key}")
        }
        NetFault::Name { table } => {
            let table = table_text(alloc, table)?;
            format!(in alloc; "name {table}")
        }
        NetFault::Memory => Ok(String::new(alloc)),
    }
}

/// Where a phase is named that its signal does not have.
fn phase_text(alloc: Global, at: PhaseAt) -> Result<String, AllocError>
    ensures { IfOk result (λ made. string_bytes made ≡ text.phase_text at) }
{
    match at {
        PhaseAt::Green(link, place) => format!(in alloc; "green {link} {place}"),
        PhaseAt::Start(signal) => format!(in alloc; "start {signal}"),
        PhaseAt::Next(signal, phase, place) => next_text(alloc, signal, phase, place),
    }
}

/// Two numbers, each behind a space. A line of three numbers is joined of two parts, whose bytes the proof compares one
/// by one.
fn two_numbers(alloc: Global, first: u32, second: u32) -> Result<String, AllocError>
    ensures { IfOk result (λ made. string_bytes made ≡ text.two_numbers first second) }
{
    format!(in alloc; " {first} {second}")
}

/// A place among the phases that may follow one.
fn next_text(alloc: Global, signal: u32, phase: u32, place: u32) -> Result<String, AllocError>
    ensures { IfOk result (λ made. string_bytes made ≡ text.next_text signal phase place) }
{
    let phase = two_numbers(alloc, signal, phase)?;
    format!(in alloc; "next{phase} {place}")
}

/// The piece or the step of a fault of demand, behind a space.
fn demand_place(alloc: Global, fault: DemandFault) -> Result<String, AllocError>
    ensures { IfOk result (λ made. string_bytes made ≡ text.demand_place fault) }
{
    match fault {
        DemandFault::Range { piece } => format!(in alloc; " range {piece}"),
        DemandFault::Heavy { step } => format!(in alloc; " heavy {step}"),
        DemandFault::Memory => Ok(String::new(alloc)),
    }
}

/// A fault of the demand of a link.
fn demand_text(alloc: Global, link: u32, fault: DemandFault) -> Result<String, AllocError>
    ensures { IfOk result (λ made. string_bytes made ≡ text.demand_text link fault) }
{
    let place = demand_place(alloc, fault)?;
    format!(in alloc; "demand {link}{place}")
}

/// The words of a fault of links and signals: the rule's word, and the place that breaks it.
pub(crate) fn build_text(alloc: Global, fault: BuildFault) -> Result<String, AllocError>
    ensures { IfOk result (λ made. string_bytes made ≡ text.build_text fault) }
{
    match fault {
        BuildFault::UnknownLink { link, place } => format!(in alloc; "unknownlink {link} {place}"),
        BuildFault::UnknownSignal { link } => format!(in alloc; "unknownsignal {link}"),
        BuildFault::UnknownPhase { at } => {
            let at = phase_text(alloc, at)?;
            format!(in alloc; "unknownphase {at}")
        }
        BuildFault::OutBoth { link } => format!(in alloc; "outboth {link}"),
        BuildFault::Itself { link } => format!(in alloc; "itself {link}"),
        BuildFault::TwiceTurn { link, place } => format!(in alloc; "twiceturn {link} {place}"),
        BuildFault::Fed { link } => format!(in alloc; "fed {link}"),
        BuildFault::OpenMerge { link } => format!(in alloc; "openmerge {link}"),
        BuildFault::Initial { link } => format!(in alloc; "initial {link}"),
        BuildFault::Cells { count } => format!(in alloc; "cells {count}"),
        BuildFault::Demand { link, fault } => demand_text(alloc, link, fault),
        BuildFault::Phase { signal, phase } => format!(in alloc; "phase {signal} {phase}"),
        BuildFault::Memory => Ok(String::new(alloc)),
    }
}

/// What the line of a fault of a network says after the word `network`. Want of memory has no words. An error is want of
/// memory.
pub fn network_text(alloc: Global, fault: NetworkFault) -> Result<String, AllocError>
    ensures { IfOk result (λ made. string_bytes made ≡ text.network_text fault) }
{
    match fault {
        NetworkFault::File(fault) => net_text(alloc, fault),
        NetworkFault::Build(fault) => build_text(alloc, fault),
        NetworkFault::Memory => Ok(String::new(alloc)),
    }
}

/// What the line of a fault of a plan file says after the word `plan`: the fault's word, the line of the text or the signal,
/// and what is wrong with a run. Want of memory has no words. An error is want of memory.
pub fn plan_text(alloc: Global, fault: PlanFault) -> Result<String, AllocError>
    ensures { IfOk result (λ made. string_bytes made ≡ text.plan_text fault) }
{
    match fault {
        PlanFault::Form(line) => format!(in alloc; "form {line}"),
        PlanFault::Signal(line) => format!(in alloc; "signal {line}"),
        PlanFault::Run(line, fault) => {
            let word = run_word(fault);
            format!(in alloc; "run {line}{word}")
        }
        PlanFault::Missing(signal) => format!(in alloc; "missing {signal}"),
        PlanFault::Memory => Ok(String::new(alloc)),
    }
}

/// The word of a fault of a run, behind a space.
fn run_word(fault: RunFault) -> &'static str
    ensures { result.now ≡ text.run_text fault }
{
    match fault {
        RunFault::Surplus { .. } => " surplus",
        RunFault::Start => " start",
        RunFault::Order { .. } => " order",
        RunFault::Green { .. } => " green",
        RunFault::Short { .. } => " short",
        RunFault::Memory => "",
    }
}
