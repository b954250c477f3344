//! Laws of sets as JSON.
ghost use Rattle.std.specs.Prelude.{◌≡◌, ℕ, List};
ghost use Rattle.serde_json.specs.Data.{Data};
ghost use Rattle.icu_collections_sets.specs.CodePoints.{IsInversionList};
ghost use Rattle.icu_collections_sets.specs.Json.{json_of, IsJson};
ghost use Rattle.icu_collections_sets.specs.JsonFaults.{IsRefusedJson};
ghost use Rattle.icu_collections_sets.specs.JsonStringList.{string_list_json_of, IsStringListJson, IsRefusedStringList};
ghost use Rattle.icu_collections_sets.specs.StringList.{CodePointsAndStrings, AreStrings};
ghost use Rattle.icu_collections_sets.specs.declared.json.error.JsonError.{JsonError};
ghost use Rattle.icu_collections_sets.specs.declared.json.error.JsonError.TheVariants.{Memory};

/// What is written for a set of code points is read back as that set, and refused only when out
/// of memory.
pub fn written_list_reads_back()
    ensures same { (set other : List ℕ) → IsInversionList set → IsJson (json_of set) other → other ≡ set }
    ensures taken { (set : List ℕ) (error : JsonError) → IsInversionList set → IsRefusedJson (json_of set) error → error ≡ Memory }
{}

/// What is written for a set of code points and strings is read back as that set, and refused only
/// when out of memory.
pub fn written_string_list_reads_back()
    ensures same { (set other : CodePointsAndStrings) → IsInversionList set.code_points → AreStrings set.strings
        → IsStringListJson (string_list_json_of set) other → other ≡ set }
    ensures taken { (set : CodePointsAndStrings) (error : JsonError) → IsInversionList set.code_points → AreStrings set.strings
        → IsRefusedStringList (string_list_json_of set) error → error ≡ Memory }
{}
