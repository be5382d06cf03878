//! The walk that looks for the faults of one stage. It begins with the top table, takes the links one by one, each with
//! its branches and then its pieces, and after them the signals, each with its phases. It stops at the first fault.

ghost use Rattle.std.specs.Prelude.{◌≡◌, flat_map, codes};
ghost use Rattle.network_file.specs.Documents.{tables_at};
ghost use Rattle.network_file.specs.Keys.{link_keys};
ghost use Rattle.network_file.specs.Refusals.{place, walk};
ghost use Rattle.network_file.specs.inner.Stages.{faults_at, inner_faults, inner_faults_at, inner_key, link_faults, signal_faults};
ghost use Rattle.network_file.specs.inner.Tables.{each_from, if_table, next_number};
ghost use Rattle.network_file.specs.declared.fault.At.TheVariants.{Link as LinkAt};
ghost use Rattle.refusals.specs.Faults.{unless};
ghost use Rattle.toml.specs.View.{table_view, view};

use crate::document::items_at;
use crate::fault::{At, NetFault};
use crate::judge::number_after;
use crate::judge::table::{Stage, judge_table};
use crate::keys::{LINK_KEYS, PHASE_KEYS, PIECE_KEYS, SIGNAL_KEYS, TOP_KEYS, TURN_KEYS};
use toml::{Table, Value};

/// An array of tables inside a link or a signal.
#[derive(Clone, Copy, Debug, PartialEq, Eq)]
pub enum Inner {
    /// The branches of a link.
    Turns,
    /// The pieces of a link's demand.
    Pieces,
    /// The phases of a signal.
    Phases,
}

impl Inner {
    /// The key at which the array stands.
    fn key(self) -> &'static str
        ensures { result.now ≡ inner_key self }
    {
        match self {
            Inner::Turns => "turns",
            Inner::Pieces => "demand",
            Inner::Phases => "phase",
        }
    }
}

/// Refuses table j of an array inside link or signal k with its first fault.
fn judge_part(stage: Stage, inner: Inner, k: u32, j: u32, table: &Table) -> Result<(), NetFault>
    ensures { result ≡ unless (inner_faults_at stage inner k j (table_view table.now)) tt }
{
    match inner {
        Inner::Turns => judge_table(stage, At::Turn(k, j), &TURN_KEYS, table),
        Inner::Pieces => judge_table(stage, At::Piece(k, j), &PIECE_KEYS, table),
        Inner::Phases => judge_table(stage, At::Phase(k, j), &PHASE_KEYS, table),
    }
}

/// Refuses table j of an array inside link or signal k, where the value is a table, and answers the number of the next.
fn judge_inner_at(
    stage: Stage,
    inner: Inner,
    k: u32,
    j: u32,
    value: &Value,
) -> Result<u32, NetFault>
    ensures { result ≡ unless (if_table j (inner_faults_at stage inner k) (view value.now)) (next_number j (view value.now)) }
{
    match value.as_table() {
        Some(table) => {
            judge_part(stage, inner, k, j, table)?;
            Ok(number_after(j))
        }
        None => Ok(j),
    }
}

/// Refuses the first fault in an array inside link or signal k.
#[tactic(auto, using(crate::proofs::TableWalks::walks))]
fn judge_inner(stage: Stage, inner: Inner, k: u32, table: &Table) -> Result<(), NetFault>
    ensures { result ≡ unless (inner_faults stage inner k (table_view table.now)) tt }
{
    let values = items_at(table, inner.key());
    let mut j = 0;
    for value in values {
        j = judge_inner_at(stage, inner, k, j, value)?;
    }
    Ok(())
}

/// Refuses link k with the first fault of its own table.
fn judge_link_table(stage: Stage, k: u32, link: &Table) -> Result<(), NetFault>
    ensures { result ≡ unless (faults_at stage (place (LinkAt k) link_keys (table_view link.now))) tt }
{
    judge_table(stage, At::Link(k), &LINK_KEYS, link)
}

/// Refuses link k with its first fault, or that of its branches, or that of its pieces.
#[tactic(auto, using(crate::proofs::TableWalks::joined))]
fn judge_link(stage: Stage, k: u32, link: &Table) -> Result<(), NetFault>
    ensures { result ≡ unless (link_faults stage k (table_view link.now)) tt }
{
    judge_link_table(stage, k, link)?;
    judge_inner(stage, Inner::Turns, k, link)?;
    judge_inner(stage, Inner::Pieces, k, link)
}

/// Refuses signal s with its first fault, or that of its phases.
#[tactic(auto, using(crate::proofs::TableWalks::joined))]
fn judge_signal(stage: Stage, s: u32, signal: &Table) -> Result<(), NetFault>
    ensures { result ≡ unless (signal_faults stage s (table_view signal.now)) tt }
{
    judge_table(stage, At::Signal(s), &SIGNAL_KEYS, signal)?;
    judge_inner(stage, Inner::Phases, s, signal)
}

/// Refuses link k, where the value is a table, and answers the number of the next link.
fn judge_link_at(stage: Stage, k: u32, value: &Value) -> Result<u32, NetFault>
    ensures { result ≡ unless (if_table k (link_faults stage) (view value.now)) (next_number k (view value.now)) }
{
    match value.as_table() {
        Some(link) => {
            judge_link(stage, k, link)?;
            Ok(number_after(k))
        }
        None => Ok(k),
    }
}

/// Refuses signal s, where the value is a table, and answers the number of the next signal.
fn judge_signal_at(stage: Stage, s: u32, value: &Value) -> Result<u32, NetFault>
    ensures { result ≡ unless (if_table s (signal_faults stage) (view value.now)) (next_number s (view value.now)) }
{
    match value.as_table() {
        Some(signal) => {
            judge_signal(stage, s, signal)?;
            Ok(number_after(s))
        }
        None => Ok(s),
    }
}

/// Refuses the first fault in the links.
#[tactic(auto, using(crate::proofs::TableWalks::walks))]
fn judge_links(stage: Stage, top: &Table) -> Result<(), NetFault>
    ensures { result ≡ unless (each_from 0 (link_faults stage) (tables_at (codes "link") (table_view top.now))) tt }
{
    let values = items_at(top, "link");
    let mut k = 0;
    for value in values {
        k = judge_link_at(stage, k, value)?;
    }
    Ok(())
}

/// Refuses the first fault in the signals.
#[tactic(auto, using(crate::proofs::TableWalks::walks))]
fn judge_signals(stage: Stage, top: &Table) -> Result<(), NetFault>
    ensures { result ≡ unless (each_from 0 (signal_faults stage) (tables_at (codes "signal") (table_view top.now))) tt }
{
    let values = items_at(top, "signal");
    let mut s = 0;
    for value in values {
        s = judge_signal_at(stage, s, value)?;
    }
    Ok(())
}

/// Refuses the first fault of the stage.
#[tactic(auto, using(crate::proofs::TableWalks::whole))]
pub fn judge_tables(stage: Stage, top: &Table) -> Result<(), NetFault>
    ensures { result ≡ unless (flat_map (faults_at stage) (walk (table_view top.now))) tt }
{
    judge_table(stage, At::Top, &TOP_KEYS, top)?;
    judge_links(stage, top)?;
    judge_signals(stage, top)
}
