//! Canonical tables that are built of classes and mappings.

use icu_normalizer_core::builder::{CanonicalDataBuildError, CanonicalDataBuilder};
use icu_normalizer_core::canonical::{CanonicalBorrowed, CanonicalData, CanonicalTables};
use icu_normalizer_core::compatibility::{CompatibilityBorrowed, CompatibilityData};
use samples_icu_normalizer::tables::{PAIRS, STEPS, tables};
use std::alloc::{AllocError, Global};

/// A builder that was given the classes and mappings of the worked rows, the last first.
fn given(alloc: Global) -> Result<CanonicalDataBuilder, AllocError> {
    let mut builder = CanonicalDataBuilder::new(alloc);
    builder.map('ạ', 'a', Some('\u{323}'), true)?;
    builder.map('á', 'a', Some('\u{301}'), true)?;
    builder.class('\u{323}', 220)?;
    builder.class('\u{302}', 230)?;
    Ok(builder)
}

/// Whether a character has this class.
fn has_class(canonical: CanonicalBorrowed<'_>, c: char, class: u8) -> bool {
    canonical.class(c) == class
}

/// Whether two characters compose to this.
fn composes(
    canonical: CanonicalBorrowed<'_>,
    first: char,
    second: char,
    composed: Option<char>,
) -> bool {
    canonical.compose(first, second) == composed
}

/// Whether two characters are left of a character.
fn leaves(canonical: CanonicalBorrowed<'_>, c: char, first: char, second: char) -> bool {
    let mut list = canonical.full_list(c);
    list.next() == Some(first) && list.next() == Some(second) && list.next().is_none()
}

/// Whether data say what was given, and what is built in.
fn say_what_was_given(canonical: CanonicalBorrowed<'_>) -> bool {
    has_class(canonical, '\u{323}', 220)
        && has_class(canonical, '\u{344}', 230)
        && composes(canonical, 'a', '\u{323}', Some('ạ'))
        && composes(canonical, '\u{308}', '\u{301}', None)
        && leaves(canonical, 'á', 'a', '\u{301}')
        && leaves(canonical, '\u{344}', '\u{308}', '\u{301}')
}

/// Whether tables are accepted as data that say so.
fn are_of_what_was_given(alloc: Global, tables: CanonicalTables<'_>) -> bool {
    match CanonicalData::try_new(alloc, tables) {
        Ok(checked) => say_what_was_given(checked.as_borrowed()),
        Err(_) => false,
    }
}

/// Whether the tables of the worked rows are.
fn rows_are_accepted(alloc: Global) -> bool {
    match tables(alloc, &[], &STEPS, &PAIRS) {
        Some(tables) => are_of_what_was_given(alloc, tables),
        None => false,
    }
}

#[test]
fn ok_try_new(rt: HostRuntime) {
    assert!(rt; rows_are_accepted(rt.alloc()));
}

/// Whether the tables that are built of what was given are.
fn built_are_accepted(alloc: Global, builder: &CanonicalDataBuilder) -> bool {
    match builder.build() {
        Ok(tables) => are_of_what_was_given(alloc, tables),
        Err(_) => false,
    }
}

/// Whether a builder builds such tables.
fn builds_tables(alloc: Global) -> bool {
    match given(alloc) {
        Ok(builder) => built_are_accepted(alloc, &builder),
        Err(_) => false,
    }
}

#[test]
fn ok_build(rt: HostRuntime) {
    assert!(rt; builds_tables(rt.alloc()));
}

/// Whether data that are built of what was given say so.
fn is_built_data(builder: &CanonicalDataBuilder) -> bool {
    match builder.build_data() {
        Ok(checked) => say_what_was_given(checked.as_borrowed()),
        Err(_) => false,
    }
}

/// Whether a builder builds such data.
fn builds_data(alloc: Global) -> bool {
    match given(alloc) {
        Ok(builder) => is_built_data(&builder),
        Err(_) => false,
    }
}

#[test]
fn ok_build_data(rt: HostRuntime) {
    assert!(rt; builds_data(rt.alloc()));
}

/// Whether the class that is given to U+0323 is in what is built.
fn class_is_built(builder: &CanonicalDataBuilder, class: u8) -> bool {
    match builder.build_data() {
        Ok(checked) => has_class(checked.as_borrowed(), '\u{323}', class),
        Err(_) => false,
    }
}

/// The same of a new builder.
fn class_comes_back(alloc: Global, class: u8) -> bool {
    let mut builder = CanonicalDataBuilder::new(alloc);
    builder.class('\u{323}', class).is_ok() && class_is_built(&builder, class)
}

#[test]
fn ok_class(rt: HostRuntime) {
    assert!(rt; class_comes_back(rt.alloc(), 220));
}

/// Whether U+0061 and U+0323 compose to this in what is built.
fn pair_is_built(builder: &CanonicalDataBuilder, composed: char) -> bool {
    match builder.build_data() {
        Ok(checked) => composes(checked.as_borrowed(), 'a', '\u{323}', Some(composed)),
        Err(_) => false,
    }
}

/// The same where that character is mapped to them in a new builder.
fn pair_comes_back(alloc: Global, composed: char) -> bool {
    let mut builder = CanonicalDataBuilder::new(alloc);
    builder.map(composed, 'a', Some('\u{323}'), true).is_ok() && pair_is_built(&builder, composed)
}

#[test]
fn ok_map(rt: HostRuntime) {
    assert!(rt; pair_comes_back(rt.alloc(), 'ạ'));
}

/// Why nothing is built where a character is mapped to another besides.
fn refusal(alloc: Global, character: char, target: char) -> Option<CanonicalDataBuildError> {
    let mut builder = given(alloc).ok()?;
    builder.map(character, target, None, false).ok()?;
    builder.build().err()
}

/// A loop, a mapping on a mark, one to a jamo, and one below U+00C0.
const REFUSED: [(char, char); 4] = [('b', 'b'), ('\u{323}', 'b'), ('ß', '\u{1100}'), ('b', 'c')];

#[test]
fn maps_that_break_rules(rt: HostRuntime) {
    for (character, target) in REFUSED {
        let refused = refusal(rt.alloc(), character, target);
        assert!(rt; refused == Some(CanonicalDataBuildError::Rules));
    }
}

/// A builder that was given some canonical mappings, and compatibility mappings of Unicode's data.
fn given_both(alloc: Global) -> Result<CanonicalDataBuilder, AllocError> {
    let mut builder = given(alloc)?;
    builder.kmap('ﬅ', 'ſ', &['t'])?;
    builder.kmap('ﬃ', 'f', &['f', 'i'])?;
    builder.kmap('ſ', 's', &[])?;
    builder.kmap('ẚ', 'á', &['ạ'])?;
    Ok(builder)
}

/// Whether full lists are what steps of both kinds leave.
fn say_both(data: CompatibilityBorrowed<'_>) -> bool {
    data.full_list('ﬅ').eq(['s', 't'])
        && data.full_list('ﬃ').eq(['f', 'f', 'i'])
        && data.full_list('ẚ').eq(['a', '\u{301}', 'a', '\u{323}'])
        && data.full_list('ạ').eq(['a', '\u{323}'])
        && data.full_list('\u{ff9e}').eq(['\u{3099}'])
        && data.class('\u{323}') == 220
}

/// Whether the data of a builder's canonical and compatibility tables say what it was given.
fn says_both(alloc: Global, builder: &CanonicalDataBuilder) -> Option<bool> {
    let canonical = builder.build_data().ok()?;
    let nfkd = builder.build_nfkd().ok()?;
    let data = CompatibilityData::try_new(alloc, canonical, nfkd).ok()?;
    Some(say_both(data.as_borrowed()))
}

/// Whether those of the builder that was given both do.
fn built_says_both(alloc: Global) -> bool {
    match given_both(alloc) {
        Ok(builder) => says_both(alloc, &builder) == Some(true),
        Err(_) => false,
    }
}

#[test]
fn ok_build_nfkd(rt: HostRuntime) {
    assert!(rt; built_says_both(rt.alloc()));
}

/// Whether a builder takes a compatibility mapping of a character that has no other, and builds tables of it.
fn takes_mapping(alloc: Global) -> bool {
    let mut builder = CanonicalDataBuilder::new(alloc);
    builder.kmap('ﬁ', 'f', &['i']).is_ok() && builder.build_nfkd().is_ok()
}

#[test]
fn ok_kmap(rt: HostRuntime) {
    assert!(rt; takes_mapping(rt.alloc()));
}

/// Why no compatibility tables are built where a character is mapped besides.
fn compatibility_refusal(
    alloc: Global,
    character: char,
    target: char,
) -> Option<CanonicalDataBuildError> {
    let mut builder = given_both(alloc).ok()?;
    builder.kmap(character, target, &[]).ok()?;
    builder.build_nfkd().err()
}

/// A loop with a mapping that is given, a mapping on a mark, and one below U+00A0.
const COMPATIBILITIES_REFUSED: [(char, char); 3] = [('s', 'ﬅ'), ('\u{323}', 'b'), ('b', 'c')];

#[test]
fn compatibility_mappings_that_break_rules(rt: HostRuntime) {
    for (character, target) in COMPATIBILITIES_REFUSED {
        let refused = compatibility_refusal(rt.alloc(), character, target);
        assert!(rt; refused == Some(CanonicalDataBuildError::Rules));
    }
}
