//! Names that stand twice: among the links, among the signals, and among the phases of one signal. It is asked only once
//! the numbers of tables were judged, so that each name is compared with few others.

ghost use Rattle.std.specs.Prelude.{◌≡◌, [], codes};
ghost use Rattle.std.specs.List.{list_any};
ghost use Rattle.std.specs.Str.{bytes_eq};
ghost use Rattle.network_file.specs.Documents.{tables_among, text_at};
ghost use Rattle.network_file.specs.Refusals.{name_faults, names_of};
ghost use Rattle.network_file.specs.inner.SameNames.{has_name, name_after, named_at, same_names, signal_after};
ghost use Rattle.network_file.specs.inner.Tables.{each_after, if_table, next_number};
ghost use Rattle.network_file.specs.declared.fault.NetFault.TheVariants.{Name as SameName};
ghost use Rattle.refusals.specs.Faults.{unless, where_so};
ghost use Rattle.toml.specs.View.{items_view, table_view, view};

use crate::document::{items_at, text_at};
use crate::fault::{At, NetFault};
use crate::judge::{number_after, refuse_where};
use toml::{Table, Value};

/// Tables of one kind, whose names differ.
#[derive(Clone, Copy, Debug, PartialEq, Eq)]
enum Named {
    /// The links.
    Links,
    /// The phases of a signal.
    Phases(u32),
}

impl Named {
    /// Where table k of these stands.
    fn at(self, k: u32) -> At
        ensures { result ≡ named_at self k }
    {
        match self {
            Named::Links => At::Link(k),
            Named::Phases(s) => At::Phase(s, k),
        }
    }
}

/// Whether the value is a table of this name.
fn has_name(name: &str, value: &Value) -> bool
    ensures { result ≡ has_name name.now (view value.now) }
{
    match value.as_table() {
        Some(table) => name == text_at(table, "name"),
        None => false,
    }
}

/// Whether one of the values is a table of this name.
fn is_name_among(name: &str, values: &[Value]) -> bool
    ensures { result ≡ list_any (λ value. has_name name.now (view value)) values.now }
{
    values.iter().any(|value| has_name(name, value))
}

/// Refuses the table at this place where an earlier one has its name.
#[tactic(auto, using(crate::proofs::NameLists::names))]
fn judge_name(at: At, earlier: &[Value], table: &Table) -> Result<(), NetFault>
    ensures { result ≡ unless (where_so (list_any (bytes_eq (text_at (codes "name") (table_view table.now))) (names_of (tables_among (items_view earlier.now)))) (SameName at)) tt }
{
    refuse_where(
        is_name_among(text_at(table, "name"), earlier),
        NetFault::Name { table: at },
    )
}

/// Refuses table k, where the value is a table whose name an earlier one has, and answers the number of the next.
fn judge_name_at(named: Named, k: u32, earlier: &[Value], value: &Value) -> Result<u32, NetFault>
    ensures { result ≡ unless (if_table k (λ k ms. name_after (named_at named) k (tables_among (items_view earlier.now)) ms) (view value.now)) (next_number k (view value.now)) }
{
    match value.as_table() {
        Some(table) => {
            judge_name(named.at(k), earlier, table)?;
            Ok(number_after(k))
        }
        None => Ok(k),
    }
}

/// Refuses the first of the tables whose name an earlier one has.
fn judge_names(named: Named, values: &[Value]) -> Result<(), NetFault>
    ensures { result ≡ unless (same_names named (tables_among (items_view values.now))) tt }
{
    let mut k = 0;
    for (index, value) in values.iter().enumerate() {
        k = judge_name_at(named, k, &values[..index], value)?;
    }
    Ok(())
}

/// Refuses signal s where an earlier one has its name, or the first of its phases whose name an earlier one has.
#[tactic(auto, using(crate::proofs::NameLists::parts))]
fn judge_signal(s: u32, earlier: &[Value], signal: &Table) -> Result<(), NetFault>
    ensures { result ≡ unless (signal_after s (tables_among (items_view earlier.now)) (table_view signal.now)) tt }
{
    judge_name(At::Signal(s), earlier, signal)?;
    judge_names(Named::Phases(s), items_at(signal, "phase"))
}

/// Refuses signal s, where the value is a table, and answers the number of the next.
fn judge_signal_at(s: u32, earlier: &[Value], value: &Value) -> Result<u32, NetFault>
    ensures { result ≡ unless (if_table s (λ s ms. signal_after s (tables_among (items_view earlier.now)) ms) (view value.now)) (next_number s (view value.now)) }
{
    match value.as_table() {
        Some(signal) => {
            judge_signal(s, earlier, signal)?;
            Ok(number_after(s))
        }
        None => Ok(s),
    }
}

/// Refuses the first of the signals whose name an earlier one has, or the first such phase of a signal.
fn judge_signals(values: &[Value]) -> Result<(), NetFault>
    ensures { result ≡ unless (each_after 0 signal_after [] (tables_among (items_view values.now))) tt }
{
    let mut s = 0;
    for (index, value) in values.iter().enumerate() {
        s = judge_signal_at(s, &values[..index], value)?;
    }
    Ok(())
}

/// Refuses the first name that stands twice: a link's, a signal's, or a phase's of one signal.
#[tactic(auto, using(crate::proofs::NameLists::whole))]
pub fn judge_all_names(top: &Table) -> Result<(), NetFault>
    ensures { result ≡ unless (name_faults (table_view top.now)) tt }
{
    judge_names(Named::Links, items_at(top, "link"))?;
    judge_signals(items_at(top, "signal"))
}
