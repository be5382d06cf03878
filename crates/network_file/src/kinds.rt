//! What stands at a key: whether a value has the type of a kind, and whether it lies in its range.

ghost use Rattle.std.specs.Prelude.{◌≡◌};
ghost use Rattle.std.specs.List.{list_all};
ghost use Rattle.network_file.specs.inner.KeyTables.{range_of, type_of};
ghost use Rattle.network_file.specs.Keys.{count, name_shape, wave, whole, wholes};
ghost use Rattle.toml.specs.Data.{array, integer, item, no_items};
ghost use Rattle.toml.specs.View.{items_view, view};

use crate::document::{
    is_array_of_tables, is_array_of_texts, is_array_of_wholes, is_text, is_whole,
};
use crate::keys::Kind;
use texts::is_name;
use toml::Value;

/// Whether the value has the type.
pub fn has_type(value: &Value, kind: Kind) -> bool
    ensures { result ≡ type_of kind (view value.now) }
{
    match kind {
        Kind::AnyWhole | Kind::Whole { .. } => is_whole(value),
        Kind::AnyText | Kind::Name => is_text(value),
        Kind::Wave | Kind::Wholes { .. } => is_array_of_wholes(value),
        Kind::Texts { .. } => is_array_of_texts(value),
        Kind::Tables { .. } => is_array_of_tables(value),
    }
}

/// Whether the value is a whole number from `low` to `high`.
pub fn is_whole_within(value: &Value, low: u32, high: u32) -> bool
    ensures { result ≡ whole low high (view value.now) }
{
    match value.as_integer() {
        Some(number) => i64::from(low) <= number && number <= i64::from(high),
        None => false,
    }
}

/// Whether each of the values is a whole number from `low` to `high`.
fn are_wholes_within(values: &[Value], low: u32, high: u32) -> bool
    ensures { result ≡ list_all (λ value. whole low high (view value)) values.now }
{
    values.iter().all(|value| is_whole_within(value, low, high))
}

/// Whether the value is an array of at most so many whole numbers from `low` to `high`.
#[tactic(auto, using(crate::proofs::Arrays::arrays))]
fn is_array_of_wholes_within(value: &Value, most: usize, low: u32, high: u32) -> bool
    ensures { result ≡ wholes most low high (view value.now) }
{
    match value.as_array() {
        Some(items) => items.len() <= most && are_wholes_within(items.as_slice(), low, high),
        None => false,
    }
}

/// Whether 1 <= p <= q <= 100.
fn is_ratio(p: i64, q: i64) -> bool
    ensures { result ≡ wave (array (item (integer p) (item (integer q) no_items))) }
{
    1 <= p && p <= q && q <= 100
}

/// Whether the values are two numbers p and q with 1 <= p <= q <= 100.
#[tactic(auto, using(crate::proofs::Arrays::waves))]
fn are_wave(values: &[Value]) -> bool
    ensures { result ≡ wave (array (items_view values.now)) }
{
    let [first, second] = values else {
        return false;
    };
    match (first.as_integer(), second.as_integer()) {
        (Some(p), Some(q)) => is_ratio(p, q),
        _ => false,
    }
}

/// Whether the value is an array of two numbers p and q with 1 <= p <= q <= 100.
fn is_wave(value: &Value) -> bool
    ensures { result ≡ wave (view value.now) }
{
    match value.as_array() {
        Some(items) => are_wave(items.as_slice()),
        None => false,
    }
}

/// Whether the value is a text of the shape of a name.
fn has_name_shape(value: &Value) -> bool
    ensures { result ≡ name_shape (view value.now) }
{
    match value.as_str() {
        Some(text) => is_name(text.as_bytes()),
        None => false,
    }
}

/// Whether the value is an array of `low` to `high` items.
#[tactic(auto, using(crate::proofs::Arrays::arrays))]
fn has_count(value: &Value, low: usize, high: usize) -> bool
    ensures { result ≡ count low high (view value.now) }
{
    match value.as_array() {
        Some(items) => low <= items.len() && items.len() <= high,
        None => false,
    }
}

/// Whether the value is within the range.
pub fn is_within(value: &Value, kind: Kind) -> bool
    ensures { result ≡ range_of kind (view value.now) }
{
    match kind {
        Kind::AnyWhole | Kind::AnyText => true,
        Kind::Whole { low, high } => is_whole_within(value, low, high),
        Kind::Name => has_name_shape(value),
        Kind::Wave => is_wave(value),
        Kind::Wholes { most, low, high } => is_array_of_wholes_within(value, most, low, high),
        Kind::Texts { low, high } | Kind::Tables { low, high } => has_count(value, low, high),
    }
}
