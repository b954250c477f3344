//! Sets of code points and strings as JSON objects.
ghost use Rattle.std.specs.Prelude.{◌≡◌, ℕ, List, map, Some, IfOk, MatchOption, MatchResult, string_bytes};
ghost use Rattle.serde_json.specs.Data.{Data, string, array};
ghost use Rattle.serde_json.specs.Find.{as_array};
ghost use Rattle.serde_json.specs.View.{view, items_of};
ghost use Rattle.icu_collections_sets.specs.JsonStringList.{string_list_json_of, HasMembers, IsStringListJson, IsNoTexts, IsRefusedStringList};
ghost use Rattle.icu_collections_sets.specs.StringList.{CodePointsAndStrings};
ghost use Rattle.icu_collections_sets.specs.declared.json.error.JsonError.TheVariants.{Memory};

use super::error::JsonError;
use crate::codepointinvlist::CodePointInversionList;
use crate::codepointinvliststringlist::CodePointInversionListAndStringList;
use serde_json::{Map, Value, put};
use std::alloc::{AllocError, Global};

/// The members `code_points` and `strings` of an object that has just these.
fn members_of(value: &Value) -> Option<(&Value, &Value)>
    ensures { MatchOption result ((list texts : Data) → ¬ HasMembers (view value.now) list texts) (λ found. HasMembers (view value.now) (view found.0.now) (view found.1.now)) }
{
    let members = value.as_object()?;
    if members.len() != 2 {
        return None;
    }
    let code_points = value.get("code_points")?;
    let strings = value.get("strings")?;
    Some((code_points, strings))
}

/// The strings of an array.
fn read_strings(alloc: Global, value: &Value) -> Result<Vec<String>, JsonError>
    ensures { MatchResult result (λ texts. as_array (view value.now) ≡ Some (items_of (map string (map string_bytes texts.items)))) (IsNoTexts (view value.now)) }
{
    let Some(items) = value.as_array() else {
        return Err(JsonError::JsonShape);
    };
    let mut texts = Vec::new(alloc);
    for item in items {
        let Some(text) = item.as_str() else {
            return Err(JsonError::JsonShape);
        };
        if texts.push(String::from_str(alloc, text)?).is_err() {
            return Err(JsonError::Memory);
        }
    }
    Ok(texts)
}

/// An array of strings.
fn write_strings(alloc: Global, strings: &[String]) -> Result<Value, AllocError>
    ensures { IfOk result (λ value. view value ≡ array (items_of (map string (map string_bytes strings.now)))) }
{
    let mut texts = Vec::new(alloc);
    for text in strings {
        texts.push(Value::try_from_str(alloc, text.as_str())?)?;
    }
    Ok(Value::from(texts))
}

impl CodePointInversionListAndStringList<'_> {
    /// The set as a JSON object of two members: `code_points`, the JSON array of its code points,
    /// and `strings`, an array of its strings. The only error is `AllocError`.
    pub fn to_json(&self, alloc: Global) -> Result<Value, AllocError>
        ensures exact { IfOk result (λ value. view value ≡ string_list_json_of self.now) }
        ensures stands { IfOk result (λ value. IsStringListJson (view value) self.now) }
    {
        let mut members = Map::new(alloc);
        let code_points = self.code_points().to_json(alloc)?;
        put(&mut members, alloc, "code_points", code_points)?;
        let strings = write_strings(alloc, self.strings())?;
        put(&mut members, alloc, "strings", strings)?;
        Ok(Value::from(members))
    }
}

impl CodePointInversionListAndStringList<'static> {
    /// The set that a JSON object stands for, in memory of its own. Refused as `JsonShape` for a
    /// value that is no object, or has not just the members `code_points`, an array, and `strings`,
    /// an array of strings; else as the set of code points is; else as `Strings` for the first
    /// string that breaks the rules of a set; or as `Memory`.
    pub fn from_json(
        alloc: Global,
        value: &Value,
    ) -> Result<CodePointInversionListAndStringList<'static>, JsonError>
        ensures exact { MatchResult result (IsStringListJson (view value.now)) (IsRefusedStringList (view value.now)) }
        ensures reads { (set : CodePointsAndStrings) → IsStringListJson (view value.now) set → MatchResult result (λ list. list ≡ set) (λ error. error ≡ Memory) }
    {
        let Some((list, texts)) = members_of(value) else {
            return Err(JsonError::JsonShape);
        };
        let strings = read_strings(alloc, texts)?;
        let code_points = CodePointInversionList::from_json(alloc, list)?;
        match CodePointInversionListAndStringList::try_from(code_points, strings) {
            Ok(set) => Ok(set),
            Err(fault) => Err(JsonError::Strings(fault)),
        }
    }
}
