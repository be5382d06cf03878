//! Typed access to the values of a TOML document and to the keys of its tables. It is total: a value of another type is
//! seen as 0, as the empty text, or as no items.

ghost use Rattle.std.specs.Prelude.{◌≡◌, IfOk, option_map, slice_index_or};
ghost use Rattle.std.specs.List.{list_all};
ghost use Rattle.network_file.specs.Documents.{each_item, is_array_of, is_table, is_text, is_whole, number_at, number_of, numbers_at, some_numbers_at, some_text_at, stands, text_at, text_of, texts_at};
ghost use Rattle.network_file.specs.inner.Tables.{items_at, items_in};
ghost use Rattle.toml.specs.Data.{get_member};
ghost use Rattle.toml.specs.View.{items_view, table_view, view};

use ct_base::{Listed, Memory, Text, Units};
use std::alloc::Global;
use toml::{Table, Value};

/// The value at a key.
pub fn find<'a>(table: &'a Table, key: &str) -> Option<&'a Value>
    ensures { option_map (λ value. view value.now) result ≡ get_member key.now (table_view table.now) }
{
    table.get(key)
}

/// The items of the array at a key; none where the key does not stand, or no array does.
pub fn items_at<'a>(table: &'a Table, key: &str) -> &'a [Value]
    ensures { items_view result.now ≡ items_at key.now (table_view table.now) }
{
    match find(table, key) {
        Some(value) => items_of(value),
        None => &[],
    }
}

/// The items of an array; of any other value none.
fn items_of(value: &Value) -> &[Value]
    ensures { items_view result.now ≡ items_in (view value.now) }
{
    match value.as_array() {
        Some(items) => items.as_slice(),
        None => &[],
    }
}

/// The text that the value is.
pub fn text_of(value: &Value) -> &str
    ensures { result.now ≡ text_of (view value.now) }
{
    value.as_str().unwrap_or("")
}

/// The text at a key; the empty one where no text stands there.
pub fn text_at<'a>(table: &'a Table, key: &str) -> &'a str
    ensures { result.now ≡ text_at key.now (table_view table.now) }
{
    match find(table, key) {
        Some(value) => text_of(value),
        None => "",
    }
}

/// Whether the key stands.
pub fn stands(table: &Table, key: &str) -> bool
    ensures { result ≡ stands key.now (table_view table.now) }
{
    find(table, key).is_some()
}

/// Whether the value is a whole number.
pub fn is_whole(value: &Value) -> bool
    ensures { result ≡ is_whole (view value.now) }
{
    value.is_integer()
}

/// Whether the value is a text.
pub fn is_text(value: &Value) -> bool
    ensures { result ≡ is_text (view value.now) }
{
    value.is_str()
}

/// Whether the value is a table.
pub fn is_table(value: &Value) -> bool
    ensures { result ≡ is_table (view value.now) }
{
    value.is_table()
}

/// Whether each of the values is a whole number.
fn are_wholes(values: &[Value]) -> bool
    ensures { result ≡ list_all (λ value. is_whole (view value)) values.now }
{
    values.iter().all(|value| is_whole(value))
}

/// Whether each of the values is a text.
fn are_texts(values: &[Value]) -> bool
    ensures { result ≡ list_all (λ value. is_text (view value)) values.now }
{
    values.iter().all(|value| is_text(value))
}

/// Whether each of the values is a table.
fn are_tables(values: &[Value]) -> bool
    ensures { result ≡ list_all (λ value. is_table (view value)) values.now }
{
    values.iter().all(|value| is_table(value))
}

/// Whether the value is an array of whole numbers.
#[tactic(auto, using(crate::proofs::Arrays::arrays))]
pub fn is_array_of_wholes(value: &Value) -> bool
    ensures { result ≡ is_array_of is_whole (view value.now) }
{
    match value.as_array() {
        Some(items) => are_wholes(items.as_slice()),
        None => false,
    }
}

/// Whether the value is an array of texts.
#[tactic(auto, using(crate::proofs::Arrays::arrays))]
pub fn is_array_of_texts(value: &Value) -> bool
    ensures { result ≡ is_array_of is_text (view value.now) }
{
    match value.as_array() {
        Some(items) => are_texts(items.as_slice()),
        None => false,
    }
}

/// Whether the value is an array of tables.
#[tactic(auto, using(crate::proofs::Arrays::arrays))]
pub fn is_array_of_tables(value: &Value) -> bool
    ensures { result ≡ is_array_of is_table (view value.now) }
{
    match value.as_array() {
        Some(items) => are_tables(items.as_slice()),
        None => false,
    }
}

/// The whole number that the value is, as 32 bits hold it.
pub fn number_of(value: &Value) -> u32
    ensures { result ≡ number_of (view value.now) }
{
    match value.as_integer() {
        Some(number) if number >= i64::from(u32::MAX) => u32::MAX,
        Some(number) if number >= 0 => number as u32,
        _ => 0,
    }
}

/// The whole number at a key, as 32 bits hold it; a default where the key does not stand.
pub fn number_at(table: &Table, key: &str, default: u32) -> u32
    ensures { result ≡ number_at default key.now (table_view table.now) }
{
    match find(table, key) {
        Some(value) => number_of(value),
        None => default,
    }
}

/// A copy of the text at a key.
pub fn copy_text_at(alloc: Global, table: &Table, key: &str) -> Result<Text, Memory>
    ensures { IfOk result (λ made. made ≡ text_at key.now (table_view table.now)) }
{
    Text::from_str(alloc, text_at(table, key))
}

/// A copy of the text at a key, where the key stands.
pub fn some_text_at(alloc: Global, table: &Table, key: &str) -> Result<Option<Text>, Memory>
    ensures { IfOk result (λ made. made ≡ some_text_at key.now (table_view table.now)) }
{
    match find(table, key) {
        Some(value) => Ok(Some(Text::from_str(alloc, text_of(value))?)),
        None => Ok(None),
    }
}

/// Copies of the texts.
#[tactic(auto, using(crate::proofs::ItemLists::items))]
fn texts_of(alloc: Global, values: &[Value]) -> Result<Listed<Text>, Memory>
    ensures { IfOk result (λ made. made ≡ each_item text_of (items_view values.now)) }
{
    let mut texts = Listed::new(alloc);
    for value in values {
        texts.push(Text::from_str(alloc, text_of(value))?)?;
    }
    Ok(texts)
}

/// Copies of the texts in the array at a key.
#[tactic(auto, using(crate::proofs::ItemLists::items))]
pub fn texts_at(alloc: Global, table: &Table, key: &str) -> Result<Listed<Text>, Memory>
    ensures { IfOk result (λ made. made ≡ texts_at key.now (table_view table.now)) }
{
    texts_of(alloc, items_at(table, key))
}

/// The whole numbers, as 32 bits hold them.
#[tactic(auto, using(crate::proofs::ItemLists::items))]
fn numbers_of(alloc: Global, values: &[Value]) -> Result<Units, Memory>
    ensures { IfOk result (λ made. made ≡ each_item number_of (items_view values.now)) }
{
    let mut numbers = Listed::new(alloc);
    for value in values {
        numbers.push(number_of(value))?;
    }
    Ok(numbers)
}

/// The whole numbers in the array at a key, where the key stands.
#[tactic(auto, using(crate::proofs::ItemLists::items))]
pub fn some_numbers_at(alloc: Global, table: &Table, key: &str) -> Result<Option<Units>, Memory>
    ensures { IfOk result (λ made. made ≡ some_numbers_at key.now (table_view table.now)) }
{
    match find(table, key) {
        Some(value) => Ok(Some(numbers_of(alloc, items_of(value))?)),
        None => Ok(None),
    }
}

/// The number at a place of the array at a key, as 32 bits hold it; a default where nothing stands there.
#[tactic(auto, using(crate::proofs::ItemLists::items))]
pub fn item_number_at(table: &Table, key: &str, place: usize, default: u32) -> u32
    ensures { result ≡ slice_index_or (numbers_at key.now (table_view table.now)) place default }
{
    match items_at(table, key).get(place) {
        Some(value) => number_of(value),
        None => default,
    }
}
