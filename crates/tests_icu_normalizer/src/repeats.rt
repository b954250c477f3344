//! What is given to a builder again: the same class or mapping, or another one of the same character.

use icu_normalizer_core::builder::{CanonicalDataBuildError, CanonicalDataBuilder};
use icu_normalizer_core::canonical::CanonicalData;
use std::alloc::{AllocError, Global};

/// Data in which U+0323 was given each of these classes, one after another.
fn with_classes(
    alloc: Global,
    classes: &[u8],
) -> Result<CanonicalData<'static>, CanonicalDataBuildError> {
    let mut builder = CanonicalDataBuilder::new(alloc);
    for class in classes {
        builder.class('\u{323}', *class)?;
    }
    builder.build_data()
}

/// The class that U+0323 then has.
fn class_of(alloc: Global, classes: &[u8]) -> Option<u8> {
    match with_classes(alloc, classes) {
        Ok(data) => Some(data.as_borrowed().class('\u{323}')),
        Err(_) => None,
    }
}

#[test]
fn classes_given_again(rt: HostRuntime) {
    assert!(rt; class_of(rt.alloc(), &[220, 220]) == Some(220));
    assert!(rt; class_of(rt.alloc(), &[220; 151]) == Some(220));
}

#[test]
fn other_classes(rt: HostRuntime) {
    assert!(rt; class_of(rt.alloc(), &[220, 230]) == Some(220));
    assert!(rt; class_of(rt.alloc(), &[220, 255, 0]) == Some(220));
    assert!(rt; class_of(rt.alloc(), &[255, 220]).is_none());
}

/// A builder that was given a class for each of so many characters from U+20000 on.
fn of_many(alloc: Global, count: u32) -> Result<CanonicalDataBuilder, AllocError> {
    let mut builder = CanonicalDataBuilder::new(alloc);
    for code in 0x2_0000..0x2_0000 + count.min(1000) {
        if let Some(c) = char::from_u32(code) {
            builder.class(c, 230)?;
        }
    }
    Ok(builder)
}

/// What is built of that.
fn built_of_many(alloc: Global, count: u32) -> Option<CanonicalDataBuildError> {
    match of_many(alloc, count) {
        Ok(builder) => builder.build_data().err(),
        Err(_) => Some(CanonicalDataBuildError::Memory),
    }
}

#[test]
fn limit_of_different_characters(rt: HostRuntime) {
    assert!(rt; built_of_many(rt.alloc(), 150).is_none());
    assert!(rt; built_of_many(rt.alloc(), 151) == Some(CanonicalDataBuildError::Rules));
}

/// A builder that was given so often that U+1EA1 is composed of U+0061 and U+0323.
fn with_mapping(alloc: Global, times: usize) -> Result<CanonicalDataBuilder, AllocError> {
    let mut builder = CanonicalDataBuilder::new(alloc);
    for _ in 0..times {
        builder.map('ạ', 'a', Some('\u{323}'), true)?;
    }
    Ok(builder)
}

/// Why nothing is built of that, if so.
fn mapping_refusal(alloc: Global, times: usize) -> Option<CanonicalDataBuildError> {
    match with_mapping(alloc, times) {
        Ok(builder) => builder.build_data().err(),
        Err(_) => Some(CanonicalDataBuildError::Memory),
    }
}

/// Why nothing is built where U+1EA1 is then mapped to two others, or isn't composed of the two.
fn other_mapping_refusal(
    alloc: Global,
    first: char,
    is_composed: bool,
) -> Option<CanonicalDataBuildError> {
    let mut builder = with_mapping(alloc, 2).ok()?;
    builder.map('ạ', first, Some('\u{323}'), is_composed).ok()?;
    builder.build_data().err()
}

#[test]
fn mappings_given_again(rt: HostRuntime) {
    assert!(rt; mapping_refusal(rt.alloc(), 2).is_none());
    assert!(rt; mapping_refusal(rt.alloc(), 151).is_none());
}

#[test]
fn other_mappings(rt: HostRuntime) {
    let rules = Some(CanonicalDataBuildError::Rules);
    assert!(rt; other_mapping_refusal(rt.alloc(), 'b', true) == rules);
    assert!(rt; other_mapping_refusal(rt.alloc(), 'a', false) == rules);
    assert!(rt; other_mapping_refusal(rt.alloc(), 'a', true).is_none());
}

/// A builder that was given so often that U+FB01 is U+0066 and U+0069 by compatibility.
fn with_compatibility(alloc: Global, times: usize) -> Result<CanonicalDataBuilder, AllocError> {
    let mut builder = CanonicalDataBuilder::new(alloc);
    for _ in 0..times {
        builder.kmap('ﬁ', 'f', &['i'])?;
    }
    Ok(builder)
}

/// Why no compatibility tables are built of that, if so.
fn compatibility_refusal(alloc: Global, times: usize) -> Option<CanonicalDataBuildError> {
    match with_compatibility(alloc, times) {
        Ok(builder) => builder.build_nfkd().err(),
        Err(_) => Some(CanonicalDataBuildError::Memory),
    }
}

/// Why none are built where U+FB01 is then mapped to another, by compatibility or canonically.
fn other_compatibility_refusal(
    alloc: Global,
    is_canonical: bool,
) -> Option<CanonicalDataBuildError> {
    let mut builder = with_compatibility(alloc, 2).ok()?;
    if is_canonical {
        builder.map('ﬁ', 'f', Some('i'), false).ok()?;
    } else {
        builder.kmap('ﬁ', 'f', &['j']).ok()?;
    }
    builder.build_nfkd().err()
}

#[test]
fn compatibility_mappings_given_again(rt: HostRuntime) {
    assert!(rt; compatibility_refusal(rt.alloc(), 2).is_none());
    assert!(rt; compatibility_refusal(rt.alloc(), 151).is_none());
}

#[test]
fn other_compatibility_mappings(rt: HostRuntime) {
    let rules = Some(CanonicalDataBuildError::Rules);
    assert!(rt; other_compatibility_refusal(rt.alloc(), false) == rules);
    assert!(rt; other_compatibility_refusal(rt.alloc(), true) == rules);
}
