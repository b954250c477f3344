//! A trie as the text of a TOML table.
ghost use Rattle.std.specs.Prelude.{◌≡◌, pos, codes, false, Some, IfOk, OnOk, string_bytes};
ghost use Rattle.toml.specs.Data.{integer, string, member, no_members};
ghost use Rattle.toml.specs.View.{view, table_view, array_view};
ghost use Rattle.toml.specs.Parse.{parse_document};
ghost use Rattle.toml.specs.Text.{IsDocumentText};
ghost use Rattle.icu_codepointtrie.specs.TomlTables.{values_in, integers_of, name_of, table_of, tables_in, tables_of_text, with_member};

use super::super::trie::{CodePointTrie, CodePointTrieHeader, TrieType};
use super::super::value::TrieValue;
use icu_packed_vector::PackedVec;
use std::alloc::{AllocError, Global};
use toml::{Table, Value};

/// Puts a value at a key.
fn put(alloc: Global, table: &mut Table, key: &str, value: Value) -> Result<(), AllocError>
    ensures { OnOk result (table_view table.new ≡ with_member key.now (view value) (table_view table.old)) }
{
    let key = String::from_str(alloc, key)?;
    match table.insert(key, value) {
        Ok(_) => Ok(()),
        Err(_) => Err(AllocError),
    }
}

impl TrieType {
    /// The type's name.
    fn name(self) -> &'static str
        ensures { result.now ≡ name_of self }
    {
        match self {
            TrieType::Fast => "Fast",
            TrieType::Small => "Small",
        }
    }
}

/// Puts the fields of a header into an empty table.
fn put_header(
    alloc: Global,
    table: &mut Table,
    header: CodePointTrieHeader,
) -> Result<(), AllocError>
    requires { table_view table.old ≡ no_members }
    ensures { OnOk result (table_view table.new ≡
        member (codes "data_null_offset") (integer (pos header.data_null_offset)) (
        member (codes "high_start") (integer (pos header.high_start)) (
        member (codes "index3_null_offset") (integer (pos header.index3_null_offset)) (
        member (codes "null_value") (integer (pos header.null_value)) (
        member (codes "shifted12_high_start") (integer (pos header.shifted12_high_start)) (
        member (codes "trie_type") (string (name_of header.trie_type)) no_members)))))) }
{
    put(alloc, table, "high_start", header.high_start.into())?;
    let shifted12_high_start = u32::from(header.shifted12_high_start);
    put(
        alloc,
        table,
        "shifted12_high_start",
        shifted12_high_start.into(),
    )?;
    let index3_null_offset = u32::from(header.index3_null_offset);
    put(
        alloc,
        table,
        "index3_null_offset",
        index3_null_offset.into(),
    )?;
    put(
        alloc,
        table,
        "data_null_offset",
        header.data_null_offset.into(),
    )?;
    put(alloc, table, "null_value", header.null_value.into())?;
    let trie_type = Value::string(alloc, header.trie_type.name())?;
    put(alloc, table, "trie_type", trie_type)
}

/// The numbers of values as TOML integers.
fn integers_of<T: TrieValue>(
    alloc: Global,
    values: &PackedVec<'_, T>,
) -> Result<Vec<Value>, AllocError>
    ensures integers { IfOk result (λ array. array_view array ≡ integers_of T.number values.now) }
    ensures reads_back { IfOk result (λ array. values_in T.of_number (array_view array) ≡ Some values.now) }
{
    let mut array = Vec::new(alloc);
    for slot in 0..values.len() {
        let value = values.get(slot).unwrap();
        array.push(Value::from(value.to_u32()))?;
    }
    Ok(array)
}

impl<T: TrieValue> CodePointTrie<'_, T> {
    /// The trie as a TOML table.
    fn to_table(&self, alloc: Global) -> Result<Table, AllocError>
        ensures table { IfOk result (λ table. table_view table ≡ table_of T.number self.now) }
        ensures reads_back { IfOk result (λ table. tables_in T.of_number (table_view table) ≡ Some self.now) }
    {
        let mut table = Table::new(alloc);
        put_header(alloc, &mut table, self.header())?;
        let index = integers_of(alloc, self.index())?;
        put(alloc, &mut table, "index", Value::Array(index))?;
        let cells = integers_of(alloc, self.cells())?;
        put(alloc, &mut table, "data", Value::Array(cells))?;
        Ok(table)
    }

    /// The text of a TOML table of the header's fields (`high_start`, `shifted12_high_start`,
    /// `index3_null_offset`, `data_null_offset`, `null_value`, and `trie_type`, which is `Fast` or
    /// `Small`) and the arrays `index` and `data`, a value by its number. `from_toml` reads it as
    /// the same trie. The only error is `AllocError`.
    pub fn to_toml(&self, alloc: Global) -> Result<String, AllocError>
        ensures text { IfOk result (λ text. IsDocumentText false (table_of T.number self.now) (string_bytes text)) }
        ensures table { IfOk result (λ text. parse_document (string_bytes text) ≡ Some (table_of T.number self.now)) }
        ensures reads_back { IfOk result (λ text. tables_of_text T.of_number (string_bytes text) ≡ Some self.now) }
    {
        let table = self.to_table(alloc)?;
        match toml::table_to_string(alloc, &table) {
            Ok(text) => Ok(text),
            Err(toml::ser::Error::OutOfMemory) => Err(AllocError),
            Err(toml::ser::Error::DateInvalid) => unreachable!("a trie has no date-time"),
        }
    }
}
