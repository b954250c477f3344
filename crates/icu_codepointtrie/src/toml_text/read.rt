//! A trie from the text of a TOML table.
ghost use Rattle.std.specs.Prelude.{◌≡◌, ◌^◌, ◌<◌, nat_lt, codes, Some, None, option_map, IfOk, MatchResult, IsSomeAnd};
ghost use Rattle.toml.specs.View.{view, table_view, array_view, items_view};
ghost use Rattle.toml.specs.Data.{get_member};
ghost use Rattle.icu_codepointtrie.specs.TrieValues.{fitting};
ghost use Rattle.icu_codepointtrie.specs.Slots.{IsTrie};
ghost use Rattle.icu_codepointtrie.specs.TomlTables.{value_in, values_in, value_at_key, values_at_key, trie_type_named, trie_type_in, header_in, tables_in, tables_of_text, IsTomlRefused};

use super::super::trie::{CodePointTrie, CodePointTrieHeader, TrieType};
use super::super::value::TrieValue;
use super::CodePointTrieTomlError;
use icu_packed_vector::PackedVec;
use std::alloc::{AllocError, Global};
use toml::{Table, Value};

/// The value whose number is this integer.
fn value_of<T: TrieValue>(value: &Value) -> Option<T>
    ensures { result ≡ value_in T.of_number (view value.now) }
{
    let number = u32::try_from(value.as_integer()?).ok()?;
    T::try_from_u32(number)
}

/// What the table has at a key.
fn member_at<'t>(table: &'t Table, key: &str) -> Option<&'t Value>
    ensures { option_map (λ value. view value.now) result ≡ get_member key.now (table_view table.now) }
{
    table.get(key)
}

/// The value at a key.
fn value_at_key<T: TrieValue>(table: &Table, key: &str) -> Option<T>
    ensures { result ≡ value_at_key T.of_number key.now (table_view table.now) }
{
    value_of(member_at(table, key)?)
}

/// The type with this name.
fn trie_type_named(name: &str) -> Option<TrieType>
    ensures { result ≡ trie_type_named name.now }
{
    match name {
        "Fast" => Some(TrieType::Fast),
        "Small" => Some(TrieType::Small),
        _ => None,
    }
}

/// The type that the table names.
fn trie_type_in(table: &Table) -> Option<TrieType>
    ensures { result ≡ trie_type_in (table_view table.now) }
{
    trie_type_named(member_at(table, "trie_type")?.as_str()?)
}

/// The header that the table has, where it has each field.
fn header_in(table: &Table) -> Option<CodePointTrieHeader>
    ensures { result ≡ header_in (table_view table.now) }
{
    Some(CodePointTrieHeader {
        high_start: value_at_key(table, "high_start")?,
        shifted12_high_start: value_at_key(table, "shifted12_high_start")?,
        index3_null_offset: value_at_key(table, "index3_null_offset")?,
        data_null_offset: value_at_key(table, "data_null_offset")?,
        null_value: value_at_key(table, "null_value")?,
        trie_type: trie_type_in(table)?,
    })
}

/// The values whose numbers are these integers, or `None` where one is no value's.
fn values_of<T: TrieValue>(alloc: Global, array: &[Value]) -> Result<Option<Vec<T>>, AllocError>
    ensures { IfOk result (λ found. option_map (λ values. values.items) found ≡ values_in T.of_number (items_view array.now)) }
{
    let mut values = Vec::new(alloc);
    for value in array {
        let Some(value) = value_of(value) else {
            return Ok(None);
        };
        values.push(value)?;
    }
    Ok(Some(values))
}

/// The values of the array at a key, or `None` where there is no such array.
fn values_at_key<T: TrieValue>(
    alloc: Global,
    table: &Table,
    key: &str,
) -> Result<Option<PackedVec<'static, T>>, AllocError>
    ensures { IfOk result (λ found. found ≡ values_at_key T.of_number key.now (table_view table.now)) }
{
    let Some(value) = member_at(table, key) else {
        return Ok(None);
    };
    let Some(array) = value.as_array() else {
        return Ok(None);
    };
    let Some(values) = values_of(alloc, array.as_slice())? else {
        return Ok(None);
    };
    Ok(Some(PackedVec::from_slice(alloc, values.as_slice())?))
}

impl<T: TrieValue> CodePointTrie<'static, T> {
    /// The trie that this text spells as a TOML table of `high_start`, `shifted12_high_start`,
    /// `index3_null_offset`, `data_null_offset`, `null_value`, `trie_type` (`Fast` or `Small`), and
    /// the arrays `index` and `data`, a value by its number. Other keys are ignored. Refused as
    /// `FromDeserialized` where the text is not TOML, or a field is missing, of another kind or out
    /// of its range, or a number of `data` is that of no value; then as `try_new` refuses. `Memory`
    /// may come before these.
    pub fn from_toml(
        alloc: Global,
        text: &str,
    ) -> Result<CodePointTrie<'static, T>, CodePointTrieTomlError>
        ensures { MatchResult result
            (λ trie. (tables_of_text T.of_number text.now ≡ Some trie) × IsTrie trie)
            (IsTomlRefused (tables_of_text T.of_number text.now)) }
    {
        let table = match toml::table_from_str(alloc, text) {
            Ok(table) => table,
            Err(error) if error.is_memory() => return Err(CodePointTrieTomlError::Memory),
            Err(_) => return Err(CodePointTrieTomlError::FromDeserialized),
        };
        let Some(header) = header_in(&table) else {
            return Err(CodePointTrieTomlError::FromDeserialized);
        };
        let Some(index) = values_at_key(alloc, &table, "index")? else {
            return Err(CodePointTrieTomlError::FromDeserialized);
        };
        let Some(cells) = values_at_key(alloc, &table, "data")? else {
            return Err(CodePointTrieTomlError::FromDeserialized);
        };
        Ok(CodePointTrie::try_new(header, index, cells)?)
    }
}
