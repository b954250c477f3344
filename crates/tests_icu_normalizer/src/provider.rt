//! Data from a provider, and in which order what is wrong is named.

use icu_normalizer_core::builder::CanonicalDataBuildError;
use icu_normalizer_core::canonical::{CanonicalBorrowed, CanonicalDataError, CanonicalFault};
use icu_normalizer_core::properties::{
    CanonicalCombiningClassMap, CanonicalCombiningClassMapBorrowed, CanonicalComposition,
    CanonicalCompositionBorrowed, CanonicalDecomposition, CanonicalDecompositionBorrowed,
    Decomposed, combining_class, shape_compose, shape_decompose,
};
use icu_normalizer_core::provider::{DataError, TableName, load_canonical_data};
use samples_icu_normalizer::held::{Held, letters, provider_of};
use samples_icu_normalizer::tables::{PAIRS, STEPS, tables};
use std::alloc::Global;

/// Numbers of code points, and their classes.
const CLASSES: [(u32, u8); 7] = [
    (0x301, 230),
    (0x323, 220),
    (0xe1, 0),
    (0x344, 230),
    (0x309a, 8),
    (0xd800, 0),
    (0x11_0000, 0),
];

/// Whether a character's class is this, by each call.
fn is_class(classes: CanonicalCombiningClassMapBorrowed<'_>, c: char, class: u8) -> bool {
    classes.get(c) == class && classes.get_u8(c) == class && combining_class(classes, c) == class
}

/// Whether a number's class is, and so its character's, where it is that of one.
fn has_class(classes: CanonicalCombiningClassMapBorrowed<'_>, number: u32, class: u8) -> bool {
    classes.get32(number) == class
        && classes.get32_u8(number) == class
        && match char::from_u32(number) {
            Some(c) => is_class(classes, c, class),
            None => true,
        }
}

// What these letters' classes are.
fn has_classes(classes: CanonicalCombiningClassMapBorrowed<'_>) -> bool {
    for (number, class) in CLASSES {
        if !has_class(classes, number, class) {
            return false;
        }
    }
    true
}

/// Two characters, and what they compose to by the tables.
const COMPOSED: [(char, char, Option<char>); 4] = [
    ('a', '\u{308}', Some('ä')),
    ('b', '\u{308}', None),
    ('\u{308}', '\u{301}', None),
    ('\u{1100}', '\u{1161}', Some('\u{AC00}')),
];

/// Whether two characters compose to this.
fn composes(
    composition: CanonicalCompositionBorrowed<'_>,
    (first, second, composed): (char, char, Option<char>),
) -> bool {
    composition.compose(first, second) == composed
}

/// Whether they do as a shaper asks.
fn shapes_to(
    composition: CanonicalCompositionBorrowed<'_>,
    (first, second, composed): (char, char, Option<char>),
) -> bool {
    shape_compose(composition, first, second) == composed
}

// What they compose to.
fn has_pairs(composition: CanonicalCompositionBorrowed<'_>) -> bool {
    for row in COMPOSED {
        if !composes(composition, row) {
            return false;
        }
    }
    shapes_to(composition, ('\u{AC00}', '\u{11A8}', Some('\u{AC01}')))
}

/// Whether a character is mapped to this.
fn is_mapped(decomposition: CanonicalDecompositionBorrowed<'_>, c: char, to: Decomposed) -> bool {
    decomposition.decompose(c) == to
}

/// Whether it is as a shaper asks.
fn shapes_from(
    decomposition: CanonicalDecompositionBorrowed<'_>,
    c: char,
    to: Option<(char, char)>,
) -> bool {
    shape_decompose(decomposition, c) == to
}

// What they are mapped to.
fn has_mappings(decomposition: CanonicalDecompositionBorrowed<'_>) -> bool {
    is_mapped(decomposition, 'a', Decomposed::Default)
        && is_mapped(decomposition, '\u{340}', Decomposed::Singleton('\u{300}'))
        && is_mapped(decomposition, 'á', Decomposed::Expansion('a', '\u{301}'))
        && shapes_from(decomposition, 'a', None)
        && shapes_from(decomposition, '\u{340}', Some(('\u{300}', '\0')))
        && shapes_from(decomposition, '\u{AC01}', Some(('\u{AC00}', '\u{11A8}')))
}

/// Whether these are left of a character.
fn is_full_list(canonical: CanonicalBorrowed<'_>, c: char, left: &[char]) -> bool {
    let mut list = canonical.full_list(c);
    for wanted in left {
        if list.next() != Some(*wanted) {
            return false;
        }
    }
    list.next().is_none()
}

/// Whether a character is a starter, or is not.
fn starts(canonical: CanonicalBorrowed<'_>, c: char, expected: bool) -> bool {
    canonical.is_starter(c) == expected
}

// What is left of them.
fn has_full_lists(canonical: CanonicalBorrowed<'_>) -> bool {
    is_full_list(canonical, 'ạ', &['a', '\u{323}'])
        && is_full_list(canonical, '\u{344}', &['\u{308}', '\u{301}'])
        && starts(canonical, 'a', true)
        && starts(canonical, '\u{323}', false)
}

/// Whether a provider's classes are these letters'.
fn gives_classes(alloc: Global, held: &Held<'_>) -> bool {
    match CanonicalCombiningClassMap::try_new_unstable(alloc, held) {
        Ok(loaded) => has_classes(loaded.as_borrowed()),
        Err(_) => false,
    }
}

/// Whether those of the letters are.
fn letters_give_classes(alloc: Global) -> bool {
    match letters(alloc) {
        Some(held) => gives_classes(alloc, &held),
        None => false,
    }
}

#[test]
fn ok_try_new_unstable_of_classes(rt: HostRuntime) {
    assert!(rt; letters_give_classes(rt.alloc()));
}

/// Whether its pairs are.
fn gives_pairs(alloc: Global, held: &Held<'_>) -> bool {
    match CanonicalComposition::try_new_unstable(alloc, held) {
        Ok(loaded) => has_pairs(loaded.as_borrowed()),
        Err(_) => false,
    }
}

/// Whether those of the letters are.
fn letters_give_pairs(alloc: Global) -> bool {
    match letters(alloc) {
        Some(held) => gives_pairs(alloc, &held),
        None => false,
    }
}

#[test]
fn ok_try_new_unstable_of_pairs(rt: HostRuntime) {
    assert!(rt; letters_give_pairs(rt.alloc()));
}

/// Whether its mappings are.
fn gives_mappings(alloc: Global, held: &Held<'_>) -> bool {
    match CanonicalDecomposition::try_new_unstable(alloc, held) {
        Ok(loaded) => has_mappings(loaded.as_borrowed()),
        Err(_) => false,
    }
}

/// Whether those of the letters are.
fn letters_give_mappings(alloc: Global) -> bool {
    match letters(alloc) {
        Some(held) => gives_mappings(alloc, &held),
        None => false,
    }
}

#[test]
fn ok_try_new_unstable_of_mappings(rt: HostRuntime) {
    assert!(rt; letters_give_mappings(rt.alloc()));
}

/// Whether its full lists are.
fn gives_full_lists(alloc: Global, held: &Held<'_>) -> bool {
    match load_canonical_data(alloc, held) {
        Ok(loaded) => has_full_lists(loaded.as_borrowed()),
        Err(_) => false,
    }
}

/// Whether those of the letters are.
fn letters_give_full_lists(alloc: Global) -> bool {
    match letters(alloc) {
        Some(held) => gives_full_lists(alloc, &held),
        None => false,
    }
}

#[test]
fn ok_load_canonical_data(rt: HostRuntime) {
    assert!(rt; letters_give_full_lists(rt.alloc()));
}

/// Why there are no composed pairs of a provider.
fn refusal(alloc: Global, held: &Held<'_>) -> Option<DataError> {
    CanonicalComposition::try_new_unstable(alloc, held).err()
}

/// The same of one whose word of U+0300 says nothing, where it lacks some tables.
fn refusal_without(
    alloc: Global,
    lacks_words: bool,
    lacks_lists: bool,
    lacks_pairs: bool,
) -> Option<DataError> {
    let mut held = provider_of(tables(alloc, &[(0x300, 0)], &STEPS, &PAIRS)?);
    held.lacks_words = lacks_words;
    held.lacks_lists = lacks_lists;
    held.lacks_pairs = lacks_pairs;
    refusal(alloc, &held)
}

// Loads come first, in their order, then the check: U+0300 has a built-in class, and its word doesn't say it.
#[test]
fn refusals_in_order(rt: HostRuntime) {
    let alloc = rt.alloc();
    let words = DataError::Missing(TableName::Nfd);
    let lists = DataError::Missing(TableName::NfdTables);
    let pairs = DataError::Missing(TableName::Pairs);
    let check = DataError::Canonical(CanonicalFault::BuiltIn('\u{300}'));
    assert!(rt; refusal_without(alloc, true, true, true) == Some(words));
    assert!(rt; refusal_without(alloc, false, true, true) == Some(lists));
    assert!(rt; refusal_without(alloc, false, false, true) == Some(pairs));
    assert!(rt; refusal_without(alloc, false, false, false) == Some(check));
}

/// Whether an error is shown as this.
fn is_shown(alloc: Global, error: DataError, text: &str) -> bool {
    match format!(in alloc; "{error}") {
        Ok(shown) => shown.as_str() == text,
        Err(_) => false,
    }
}

/// Whether two errors of canonical tables are shown as this.
fn are_shown(
    alloc: Global,
    fault: CanonicalDataError,
    rules: CanonicalDataBuildError,
    text: &str,
) -> bool {
    match format!(in alloc; "{fault}, {rules}") {
        Ok(shown) => shown.as_str() == text,
        Err(_) => false,
    }
}

#[test]
fn refusals_print(rt: HostRuntime) {
    let alloc = rt.alloc();
    let check = DataError::Canonical(CanonicalFault::BuiltIn('\u{300}'));
    let missing = DataError::Missing(TableName::NfkdTables);
    assert!(rt; is_shown(alloc, check, "bad built-in at 300"));
    assert!(rt; is_shown(alloc, missing, "no table nfkd_tables"));
    let fault = CanonicalDataError::Fault(CanonicalFault::BadValue('\u{e1}'));
    let text = "bad value at E1, a rule of canonical data is broken";
    assert!(rt; are_shown(alloc, fault, CanonicalDataBuildError::Rules, text));
}
