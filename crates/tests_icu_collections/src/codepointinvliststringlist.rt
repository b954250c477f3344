//! Tests of sets of code points and strings.
use assertions::assert_same;
use icu_collections_sets::codepointinvlist::CodePointInversionList;
use icu_collections_sets::codepointinvliststringlist::{
    CodePointInversionListAndStringList, InvalidStringList,
};
use std::alloc::{AllocError, Global};

fn strings_of(alloc: Global, texts: &[&str]) -> Result<Vec<String>, AllocError> {
    let mut strings = Vec::new(alloc);
    for text in texts {
        strings.push(String::from_str(alloc, text)?)?;
    }
    Ok(strings)
}

fn refusal(alloc: Global, texts: &[&str]) -> Result<Option<InvalidStringList>, AllocError> {
    let strings = strings_of(alloc, texts)?;
    Ok(CodePointInversionListAndStringList::try_from(CodePointInversionList::all(), strings).err())
}

/// Whether a refusal is shown as this.
fn is_shown(alloc: Global, fault: &InvalidStringList, text: &str) -> bool {
    match format!(in alloc; "{fault}") {
        Ok(shown) => shown.as_str() == text,
        Err(_) => false,
    }
}

/// Whether what these texts are refused for is shown as this, `none` where they are not refused.
fn is_refused_as(alloc: Global, texts: &[&str], text: &str) -> bool {
    match refusal(alloc, texts) {
        Ok(None) => text == "none",
        Ok(Some(fault)) => is_shown(alloc, &fault, text),
        Err(_) => false,
    }
}

/// Texts, and what is said of the first at fault.
const REFUSED: &[(&[&str], &str)] = &[
    (&["x"], "one character alone: x"),
    (&["ab", "ab"], "twice in the list: ab"),
    (&["b2", "ab"], "not sorted: b2, ab"),
    (&["b2", "é"], "one character alone: é"),
    (&["", "ab", "b2", "éa"], "none"),
    (&["éa", "b2"], "not sorted: éa, b2"),
];

/// The number of the first row that is refused otherwise.
fn first_refused_otherwise(alloc: Global) -> Option<usize> {
    for (number, (texts, expected)) in REFUSED.iter().enumerate() {
        if !is_refused_as(alloc, texts, expected) {
            return Some(number);
        }
    }
    None
}

#[test]
fn refused_strings(rt: HostRuntime) {
    assert_same!(rt; first_refused_otherwise(rt.alloc()), None);
}

/// Whether the set holds each of these texts, or none of them.
fn holds_texts(set: &CodePointInversionListAndStringList<'_>, texts: &[&str], held: bool) -> bool {
    for text in texts {
        if set.contains_str(text) != held {
            return false;
        }
    }
    true
}

/// Whether the set holds the first code point, and not the second.
fn tells_apart(set: &CodePointInversionListAndStringList<'_>, held: u32, other: u32) -> bool {
    set.contains32(held) && !set.contains32(other) && set.code_points().contains32(held)
}

/// The set of the code points below 10000 (hex) and these strings, if it is one.
fn with_strings(
    alloc: Global,
    texts: &[&str],
) -> Option<CodePointInversionListAndStringList<'static>> {
    let strings = strings_of(alloc, texts).ok()?;
    CodePointInversionListAndStringList::try_from(CodePointInversionList::bmp(), strings).ok()
}

/// Whether the set has so many members and so many strings.
fn has_sizes(set: &CodePointInversionListAndStringList<'_>, size: usize, strings: usize) -> bool {
    set.size() == size && set.has_strings() && set.strings().len() == strings
}

/// Whether the set is that with four strings.
fn is_of_four(set: &CodePointInversionListAndStringList<'_>) -> bool {
    has_sizes(set, 0x1_0004, 4)
        && holds_texts(set, &["", "ab", "éa", "a", "é"], true)
        && holds_texts(set, &["\u{10000}", "abc", "aa"], false)
        && set.contains('a')
        && tells_apart(set, 0xD800, 0x1_0000)
}

/// Whether the set with four strings is made.
fn makes_four(alloc: Global) -> bool {
    match with_strings(alloc, &["", "ab", "b2", "éa"]) {
        Some(set) => is_of_four(&set),
        None => false,
    }
}

#[test]
fn sets_with_strings(rt: HostRuntime) {
    assert!(rt; makes_four(rt.alloc()));
}

/// Whether a set is equal to its copy.
fn is_copied(alloc: Global, set: &CodePointInversionListAndStringList<'_>) -> bool {
    match set.clone(alloc) {
        Ok(copy) => copy == *set,
        Err(_) => false,
    }
}

/// Whether the set with these strings is.
fn strings_are_copied(alloc: Global, texts: &[&str]) -> bool {
    match with_strings(alloc, texts) {
        Some(set) => is_copied(alloc, &set),
        None => false,
    }
}

#[test]
fn ok_clone(rt: HostRuntime) {
    assert!(rt; strings_are_copied(rt.alloc(), &["ab", "éa"]));
}

/// Whether the set with these strings is another than a set.
fn differs_from(
    alloc: Global,
    set: &CodePointInversionListAndStringList<'_>,
    texts: &[&str],
) -> bool {
    match with_strings(alloc, texts) {
        Some(other) => !(other == *set),
        None => false,
    }
}

/// Whether the sets with these strings and with those are made, and are two.
fn differ(alloc: Global, texts: &[&str], others: &[&str]) -> bool {
    match with_strings(alloc, texts) {
        Some(set) => differs_from(alloc, &set, others),
        None => false,
    }
}

#[test]
fn sets_with_other_strings(rt: HostRuntime) {
    assert!(rt; differ(rt.alloc(), &["ab", "éa"], &[]));
}

/// Whether a string alone is refused by its length.
fn is_of_bad_length(alloc: Global, text: &str) -> bool {
    match refusal(alloc, &[text]) {
        Ok(Some(InvalidStringList::InvalidStringLength(string))) => string.as_str() == text,
        _ => false,
    }
}

#[test]
fn a_string_of_one_character(rt: HostRuntime) {
    assert!(rt; is_of_bad_length(rt.alloc(), "x"));
}

/// Whether a set prints as this text.
fn prints(alloc: Global, set: &CodePointInversionListAndStringList<'_>, text: &str) -> bool {
    match format!(in alloc; "{set:?}") {
        Ok(printed) => printed.as_str() == text,
        Err(_) => false,
    }
}

/// Whether the set with these strings does.
fn strings_print(alloc: Global, texts: &[&str], text: &str) -> bool {
    match with_strings(alloc, texts) {
        Some(set) => prints(alloc, &set, text),
        None => false,
    }
}

#[test]
fn what_sets_with_strings_print(rt: HostRuntime) {
    let text =
        "CodePointInversionListAndStringList { code_points: CodePointInversionList { edges: [0, 65536] }, strings: [\"ab\"] }";
    assert!(rt; strings_print(rt.alloc(), &["ab"], text));
}
