//! The faults of a single table: the first key that is missing or of another type, an unknown key, and the first value
//! that is out of its range. Each is a walk over the keys that the table may have.

ghost use Rattle.std.specs.Prelude.{◌≡◌, ◌<◌, ◌≤◌, length, map};
ghost use Rattle.std.specs.List.{list_any};
ghost use Rattle.std.specs.Str.{bytes_eq};
ghost use Rattle.network_file.specs.inner.KeyTables.{key_of, keys_of, need_of};
ghost use Rattle.network_file.specs.Refusals.{has_only, is_broken, is_out_of_range, key_at, key_faults_at, place, range_at, range_faults_at};
ghost use Rattle.network_file.specs.inner.Stages.{faults_at};
ghost use Rattle.refusals.specs.Faults.{per_item, unless};
ghost use Rattle.toml.specs.View.{table_view};

use crate::document::{find, stands};
use crate::fault::{At, NetFault};
use crate::judge::refuse_where;
use crate::keys::{Key, Need};
use crate::kinds::{has_type, is_within};
use toml::Table;

/// What a walk over all tables looks for.
#[derive(Clone, Copy, Debug, PartialEq, Eq)]
pub enum Stage {
    /// Keys that are missing, of another type or unknown.
    Keys,
    /// Values that are out of range.
    Ranges,
}

/// Whether the key must stand in the table.
fn is_needed(table: &Table, need: Need) -> bool
    ensures { result ≡ need_of need (table_view table.now) }
{
    match need {
        Need::Needed => true,
        Need::Optional => false,
        Need::NeededWith(other) => stands(table, other),
    }
}

/// Whether the key is missing where it must stand, or its value is of another type.
fn is_broken(table: &Table, key: &Key) -> bool
    ensures { result ≡ is_broken (table_view table.now) (key_of key.now) }
{
    match find(table, key.name) {
        Some(value) => !has_type(value, key.kind),
        None => is_needed(table, key.need),
    }
}

/// Whether the key stands and its value is out of range.
fn is_out_of_range(table: &Table, key: &Key) -> bool
    ensures { result ≡ is_out_of_range (table_view table.now) (key_of key.now) }
{
    match find(table, key.name) {
        Some(value) => !is_within(value, key.kind),
        None => false,
    }
}

/// Whether a text is the name of one of the keys.
fn is_one_of(text: &str, keys: &[Key]) -> bool
    ensures { result ≡ list_any (λ key. bytes_eq text.now key.name.now) keys.now }
{
    keys.iter().any(|key| text == key.name)
}

/// Whether each key of the table is one of these.
#[tactic(auto, using(crate::proofs::KeyLists::has_only_by_keys))]
fn has_only(table: &Table, keys: &[Key]) -> bool
    ensures { result ≡ has_only (map (λ key. key.name) (keys_of keys.now)) (table_view table.now) }
{
    for name in table.keys() {
        if !is_one_of(name.as_str(), keys) {
            return false;
        }
    }
    true
}

/// Refuses key k of the table where it is missing or of another type.
fn key_at(at: At, table: &Table, k: u8, key: &Key) -> Result<(), NetFault>
    requires few { k < 12 }
    ensures { result ≡ unless (key_at at (table_view table.now) k (key_of key.now)) tt }
{
    let fault = NetFault::Key {
        table: at,
        key: k + 1,
    };
    refuse_where(is_broken(table, key), fault)
}

/// Refuses key k of the table where its value is out of range.
fn range_at(at: At, table: &Table, k: u8, key: &Key) -> Result<(), NetFault>
    requires few { k < 12 }
    ensures { result ≡ unless (range_at at (table_view table.now) k (key_of key.now)) tt }
{
    let fault = NetFault::Range {
        table: at,
        key: k + 1,
    };
    refuse_where(is_out_of_range(table, key), fault)
}

/// Refuses the first of the keys that is missing or of another type.
fn judge_known_keys(at: At, keys: &[Key], table: &Table) -> Result<(), NetFault>
    requires few { length keys.now ≤ 12 }
    ensures { result ≡ unless (per_item (keys_of keys.now) (key_at at (table_view table.now))) tt }
{
    for (k, key) in keys.iter().enumerate() {
        key_at(at, table, k as u8, key)?;
    }
    Ok(())
}

/// Refuses the first of the keys whose value is out of range.
#[tactic(auto, unfolding(crate::specs::Refusals::range_faults_at))]
fn judge_ranges(at: At, keys: &[Key], table: &Table) -> Result<(), NetFault>
    requires few { length keys.now ≤ 12 }
    ensures { result ≡ unless (range_faults_at (place at (keys_of keys.now) (table_view table.now))) tt }
{
    for (k, key) in keys.iter().enumerate() {
        range_at(at, table, k as u8, key)?;
    }
    Ok(())
}

/// Refuses the first key that is missing or of another type, and then an unknown one, as key 0.
#[tactic(auto, unfolding(crate::specs::Refusals::key_faults_at))]
fn judge_keys(at: At, keys: &[Key], table: &Table) -> Result<(), NetFault>
    requires few { length keys.now ≤ 12 }
    ensures { result ≡ unless (key_faults_at (place at (keys_of keys.now) (table_view table.now))) tt }
{
    judge_known_keys(at, keys, table)?;
    refuse_where(!has_only(table, keys), NetFault::Key { table: at, key: 0 })
}

/// Refuses the table with the first fault of the stage.
#[tactic(auto, unfolding(crate::specs::inner::Stages::faults_at))]
pub fn judge_table(stage: Stage, at: At, keys: &[Key], table: &Table) -> Result<(), NetFault>
    requires few { length keys.now ≤ 12 }
    ensures { result ≡ unless (faults_at stage (place at (keys_of keys.now) (table_view table.now))) tt }
{
    match stage {
        Stage::Keys => judge_keys(at, keys, table),
        Stage::Ranges => judge_ranges(at, keys, table),
    }
}
