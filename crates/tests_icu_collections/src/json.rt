//! Tests of sets as JSON.
ghost use Rattle.std.specs.Prelude.{◌≡◌, MatchResult};
ghost use Rattle.icu_collections_sets.specs.declared.json.error.JsonError.TheVariants.{Memory};

use assertions::assert_same;
use icu_collections_sets::codepointinvlist::CodePointInversionList;
use icu_collections_sets::codepointinvliststringlist::CodePointInversionListAndStringList;
use icu_collections_sets::json::JsonError;
use serde_json::Value;
use std::alloc::Global;

/// A set of code points through JSON.
fn reread(
    alloc: Global,
    set: &CodePointInversionList<'_>,
) -> Result<CodePointInversionList<'static>, JsonError>
    ensures { MatchResult result (λ again. again ≡ set.now) (λ error. error ≡ Memory) }
{
    match set.to_json(alloc) {
        Ok(value) => CodePointInversionList::from_json(alloc, &value),
        Err(_) => Err(JsonError::Memory),
    }
}

/// A set of code points and strings through JSON.
fn reread_string_list(
    alloc: Global,
    set: &CodePointInversionListAndStringList<'_>,
) -> Result<CodePointInversionListAndStringList<'static>, JsonError>
    ensures { MatchResult result (λ again. again ≡ set.now) (λ error. error ≡ Memory) }
{
    match set.to_json(alloc) {
        Ok(value) => CodePointInversionListAndStringList::from_json(alloc, &value),
        Err(_) => Err(JsonError::Memory),
    }
}

/// Whether a value is written as this text.
fn is_written(alloc: Global, value: &Value, text: &str) -> bool {
    match value.to_string(alloc) {
        Ok(written) => written.as_str() == text,
        Err(_) => false,
    }
}

/// Whether the value of a set is.
fn set_is_written(alloc: Global, set: &CodePointInversionList<'_>, text: &str) -> bool {
    match set.to_json(alloc) {
        Ok(value) => is_written(alloc, &value, text),
        Err(_) => false,
    }
}

/// Whether that of a set that went through JSON is.
fn reread_is_written(alloc: Global, set: &CodePointInversionList<'_>, text: &str) -> bool {
    match reread(alloc, set) {
        Ok(again) => set_is_written(alloc, &again, text),
        Err(_) => false,
    }
}

/// Whether that of the set of a list is.
fn list_is_written(alloc: Global, list: &[u32], text: &str) -> bool {
    match CodePointInversionList::try_from_u32_inversion_list_slice(alloc, list) {
        Ok(set) => reread_is_written(alloc, &set, text),
        Err(_) => false,
    }
}

const WRITTEN: &[(&[u32], &str)] = &[
    (&[0x41, 0x46, 0x4B, 0x55], r#"["A-E","K-T"]"#),
    (&[], "[]"),
    (&[0x2D, 0x2E, 0x61, 0x62], r#"["-","a"]"#),
    (
        &[0xD7FF, 0xD801, 0xD8AB, 0xD8AC, 0xDFFF, 0xE001],
        "[\"\u{D7FF}-U+D800\",\"U+D8AB\",\"U+DFFF-\u{E000}\"]",
    ),
];

/// The first text that is not written.
fn first_unwritten(alloc: Global) -> Option<&'static str> {
    for (edges, expected) in WRITTEN {
        if !list_is_written(alloc, edges, expected) {
            return Some(expected);
        }
    }
    None
}

#[test]
fn ok_to_json(rt: HostRuntime) {
    assert_same!(rt; first_unwritten(rt.alloc()), None);
}

/// Whether numbers print as this text.
fn print(alloc: Global, numbers: &[u32], text: &str) -> bool {
    match format!(in alloc; "{numbers:?}") {
        Ok(printed) => printed.as_str() == text,
        Err(_) => false,
    }
}

/// Whether the inversion list of a set does.
fn lists(alloc: Global, set: &CodePointInversionList<'_>, text: &str) -> bool {
    match set.get_inversion_list_vec(alloc) {
        Ok(edges) => print(alloc, edges.as_slice(), text),
        Err(_) => false,
    }
}

/// Whether a refusal is shown as this text.
fn is_shown(alloc: Global, error: &JsonError, text: &str) -> bool {
    match format!(in alloc; "{error}") {
        Ok(shown) => shown.as_str() == text,
        Err(_) => false,
    }
}

/// Whether a value is read as this list, or refused with this text.
fn is_read(alloc: Global, value: &Value, expected: &str) -> bool {
    match CodePointInversionList::from_json(alloc, value) {
        Ok(set) => lists(alloc, &set, expected),
        Err(error) => is_shown(alloc, &error, expected),
    }
}

/// Whether JSON text is.
fn reads(alloc: Global, text: &str, expected: &str) -> bool {
    match Value::from_str(alloc, text) {
        Ok(value) => is_read(alloc, &value, expected),
        Err(_) => false,
    }
}

/// The first of these texts that is read or refused otherwise.
fn first_read_otherwise<'t>(alloc: Global, rows: &[(&'t str, &str)]) -> Option<&'t str> {
    for (text, expected) in rows {
        if !reads(alloc, text, expected) {
            return Some(text);
        }
    }
    None
}

const LISTS: &[(&str, &str)] = &[
    (r#"["A-E","K-T"]"#, "[65, 70, 75, 85]"),
    ("[]", "[]"),
    (r#"["---","a-a"]"#, "[45, 46, 97, 98]"),
    (r#"["--A","U"]"#, "[45, 66, 85, 86]"),
    (r#"["A-E","G"]"#, "[65, 70, 71, 72]"),
    (r#"["U+D800"]"#, "[55296, 55297]"),
    (r#"["U+D8AB-U+DFFF"]"#, "[55467, 57344]"),
    (r#"["U-U+D800"]"#, "[85, 55297]"),
    ("[\"\u{10000}-\u{10FFFF}\"]", "[65536, 1114112]"),
];

#[test]
fn ok_from_json(rt: HostRuntime) {
    assert_same!(rt; first_read_otherwise(rt.alloc(), LISTS), None);
}

const REFUSED: &[(&str, &str)] = &[
    ("{}", "not the shape of a set"),
    (r#""A""#, "not the shape of a set"),
    ("[1]", "no range at item 0"),
    (r#"["A-E","C-F"]"#, "not sorted at item 1"),
    (r#"["A-E","F"]"#, "not sorted at item 1"),
    (r#"["A-E","F-C"]"#, "no range at item 1"),
    (r#"["E-A"]"#, "no range at item 0"),
    (r#"[""]"#, "no range at item 0"),
    (r#"["a","bc"]"#, "no range at item 1"),
    (r#"["a","b-"]"#, "no range at item 1"),
    (r#"["--"]"#, "no range at item 0"),
    (r#"["U+DC"]"#, "no range at item 0"),
    (r#"["U+d800"]"#, "no range at item 0"),
    (r#"["U+0041"]"#, "no range at item 0"),
    (r#"["U+E000"]"#, "no range at item 0"),
    (r#"["A-EF"]"#, "no range at item 0"),
];

#[test]
fn refused_values(rt: HostRuntime) {
    assert_same!(rt; first_read_otherwise(rt.alloc(), REFUSED), None);
}

/// Whether the value of a set with strings is written as this text.
fn string_list_is_written(
    alloc: Global,
    set: &CodePointInversionListAndStringList<'_>,
    text: &str,
) -> bool {
    match set.to_json(alloc) {
        Ok(value) => is_written(alloc, &value, text),
        Err(_) => false,
    }
}

/// Whether that of a set with strings that went through JSON is.
fn reread_string_list_is_written(
    alloc: Global,
    set: &CodePointInversionListAndStringList<'_>,
    text: &str,
) -> bool {
    match reread_string_list(alloc, set) {
        Ok(again) => string_list_is_written(alloc, &again, text),
        Err(_) => false,
    }
}

/// Whether a value is read as the set with strings of this text, or refused with it.
fn string_list_is_read(alloc: Global, value: &Value, expected: &str) -> bool {
    match CodePointInversionListAndStringList::from_json(alloc, value) {
        Ok(set) => reread_string_list_is_written(alloc, &set, expected),
        Err(error) => is_shown(alloc, &error, expected),
    }
}

/// Whether JSON text is.
fn reads_string_list(alloc: Global, text: &str, expected: &str) -> bool {
    match Value::from_str(alloc, text) {
        Ok(value) => string_list_is_read(alloc, &value, expected),
        Err(_) => false,
    }
}

/// The first of these texts that is read or refused otherwise.
fn first_string_list_read_otherwise<'t>(
    alloc: Global,
    rows: &[(&'t str, &str)],
) -> Option<&'t str> {
    for (text, expected) in rows {
        if !reads_string_list(alloc, text, expected) {
            return Some(text);
        }
    }
    None
}

const STRING_LISTS: &[(&str, &str)] = &[
    (
        r#"{"strings":["","ab","b2"],"code_points":["A-E","U+D800"]}"#,
        r#"{"code_points":["A-E","U+D800"],"strings":["","ab","b2"]}"#,
    ),
    (
        r#"{"code_points":[],"strings":[]}"#,
        r#"{"code_points":[],"strings":[]}"#,
    ),
];

#[test]
fn ok_from_json_string_list(rt: HostRuntime) {
    assert_same!(rt; first_string_list_read_otherwise(rt.alloc(), STRING_LISTS), None);
}

const REFUSED_STRING_LISTS: &[(&str, &str)] = &[
    (r#"["A"]"#, "not the shape of a set"),
    (r#"{"code_points":["A"]}"#, "not the shape of a set"),
    (
        r#"{"code_points":["A"],"strings":[],"more":1}"#,
        "not the shape of a set",
    ),
    (
        r#"{"code_points":["A"],"string":[]}"#,
        "not the shape of a set",
    ),
    (
        r#"{"code_points":[1],"strings":[1]}"#,
        "not the shape of a set",
    ),
    (
        r#"{"code_points":"A","strings":["x"]}"#,
        "not the shape of a set",
    ),
    (
        r#"{"code_points":["B-A"],"strings":["x"]}"#,
        "no range at item 0",
    ),
    (
        r#"{"code_points":["A","A"],"strings":["x"]}"#,
        "not sorted at item 1",
    ),
    (
        r#"{"code_points":["A"],"strings":["x"]}"#,
        "one character alone: x",
    ),
    (
        r#"{"code_points":["A"],"strings":["ab","ab"]}"#,
        "twice in the list: ab",
    ),
    (
        r#"{"code_points":["A"],"strings":["b2","ab"]}"#,
        "not sorted: b2, ab",
    ),
];

#[test]
fn refused_string_lists(rt: HostRuntime) {
    assert_same!(rt; first_string_list_read_otherwise(rt.alloc(), REFUSED_STRING_LISTS), None);
}
