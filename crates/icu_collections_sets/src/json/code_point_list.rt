//! Sets of code points as JSON arrays.
ghost use Rattle.std.specs.Prelude.{◌≡◌, ℕ, List, map, IfOk, MatchOption, MatchResult};
ghost use Rattle.serde_json.specs.View.{view};
ghost use Rattle.icu_collections_sets.specs.Json.{json_of, IsItem, SpellSet, IsJson};
ghost use Rattle.icu_collections_sets.specs.JsonFaults.{IsRefusedItems, IsRefusedJson};
ghost use Rattle.icu_collections_sets.specs.declared.json.error.JsonError.TheVariants.{Memory};

use super::error::JsonError;
use super::spelling::{read_range, write_range};
use crate::codepointinvlist::{CodePointInversionList, SetError};
use serde_json::Value;
use std::alloc::{AllocError, Global};

/// The range that an item of an array spells.
fn read_item(item: &Value) -> Option<(u32, u32)>
    ensures { MatchOption result ((range : ℕ × ℕ) → ¬ IsItem (view item.now) range) (IsItem (view item.now)) }
{
    let text = item.as_str()?;
    read_range(text)
}

/// The inversion list of the ranges that the items of an array spell.
fn read_edges(alloc: Global, items: &[Value]) -> Result<Vec<u32>, JsonError>
    ensures { MatchResult result (λ edges. SpellSet (map view items.now) edges.items) (IsRefusedItems (map view items.now)) }
{
    let mut edges = Vec::new(alloc);
    let mut least = 0;
    for (index, item) in items.iter().enumerate() {
        let Some((first, last)) = read_item(item) else {
            return Err(JsonError::JsonItem(index));
        };
        if first < least {
            return Err(JsonError::JsonOrder(index));
        }
        edges.extend_from_slice(&[first, last + 1])?;
        least = last + 2;
    }
    Ok(edges)
}

impl CodePointInversionList<'_> {
    /// The set as a JSON array of its ranges in order: `X` for one code point, else `X-Y`, where X
    /// and Y are characters, or `U+` and four upper-case hexadecimal digits for a surrogate. The
    /// only error is `AllocError`.
    pub fn to_json(&self, alloc: Global) -> Result<Value, AllocError>
        ensures exact { IfOk result (λ value. view value ≡ json_of self.now) }
        ensures stands { IfOk result (λ value. IsJson (view value) self.now) }
    {
        let mut items = Vec::new(alloc);
        for range in self.iter_ranges() {
            let text = write_range(alloc, *range.start(), *range.end())?;
            items.push(Value::from(text))?;
        }
        Ok(Value::from(items))
    }
}

impl CodePointInversionList<'static> {
    /// The set that a JSON array stands for, in memory of its own; `X-X` is taken for `X`. Refused
    /// as `JsonShape` for a value that is no array; else for the first index i at fault as
    /// `JsonItem(i)` where the item is no text `X` or `X-Y`, or has Y below X, or as `JsonOrder(i)`
    /// where X is at most one past the end of the item before; or as `Memory`.
    pub fn from_json(
        alloc: Global,
        value: &Value,
    ) -> Result<CodePointInversionList<'static>, JsonError>
        ensures exact { MatchResult result (IsJson (view value.now)) (IsRefusedJson (view value.now)) }
        ensures reads { (set : List ℕ) → IsJson (view value.now) set → MatchResult result (λ list. list ≡ set) (λ error. error ≡ Memory) }
    {
        let Some(items) = value.as_array() else {
            return Err(JsonError::JsonShape);
        };
        let edges = read_edges(alloc, items)?;
        match CodePointInversionList::try_from_u32_inversion_list_slice(alloc, &edges) {
            Ok(list) => Ok(list),
            Err(SetError::Memory) => Err(JsonError::Memory),
            Err(SetError::Invalid(_)) => unreachable!(),
        }
    }
}
