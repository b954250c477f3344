//! Tests of the builder of sets.
use icu_collections_sets::codepointinvlist::{
    CodePointInversionList, CodePointInversionListBuilder,
};
use std::alloc::{AllocError, Global};

/// Whether a builder's set has these ends.
fn has_edges(
    alloc: Global,
    builder: &CodePointInversionListBuilder,
    edges: &[u32],
) -> Result<bool, AllocError> {
    let list = builder.build()?.get_inversion_list_vec(alloc)?;
    Ok(list.as_slice() == edges)
}

/// A builder that was given these ranges.
fn builder_of(
    alloc: Global,
    ranges: &[(u32, u32)],
) -> Result<CodePointInversionListBuilder, AllocError> {
    let mut builder = CodePointInversionListBuilder::new(alloc);
    for (first, last) in ranges {
        builder.add_range32(*first..=*last)?;
    }
    Ok(builder)
}

fn two_ranges(alloc: Global) -> Result<CodePointInversionListBuilder, AllocError> {
    builder_of(alloc, &[(0x0A, 0x13), (0x28, 0x31)])
}

fn six_edges(alloc: Global) -> Result<CodePointInversionList<'static>, AllocError> {
    builder_of(alloc, &[(0x05, 0x09), (0x16, 0x20), (0x2C, 0x32)])?.build()
}

/// What a builder is edited by: the set of six ends, a character, a code point, or a range of them.
#[derive(Clone, Copy)]
enum Part {
    Set,
    Char(char),
    CodePoint(u32),
    Range(char, char),
    Range32(u32, u32),
}

/// What is done with the part.
#[derive(Clone, Copy)]
enum Edit {
    Add,
    Remove,
    Retain,
    Complement,
}

fn add(
    alloc: Global,
    builder: &mut CodePointInversionListBuilder,
    part: Part,
) -> Result<(), AllocError> {
    match part {
        Part::Set => builder.add_set(&six_edges(alloc)?),
        Part::Char(character) => builder.add_char(character),
        Part::CodePoint(code_point) => builder.add32(code_point),
        Part::Range(first, last) => builder.add_range(first..=last),
        Part::Range32(first, last) => builder.add_range32(first..=last),
    }
}

fn remove(
    alloc: Global,
    builder: &mut CodePointInversionListBuilder,
    part: Part,
) -> Result<(), AllocError> {
    match part {
        Part::Set => builder.remove_set(&six_edges(alloc)?),
        Part::Char(character) => builder.remove_char(character),
        Part::CodePoint(code_point) => builder.remove32(code_point),
        Part::Range(first, last) => builder.remove_range(first..=last),
        Part::Range32(first, last) => builder.remove_range32(first..=last),
    }
}

fn retain(
    alloc: Global,
    builder: &mut CodePointInversionListBuilder,
    part: Part,
) -> Result<(), AllocError> {
    match part {
        Part::Set => builder.retain_set(&six_edges(alloc)?),
        Part::Char(character) => builder.retain_char(character),
        Part::CodePoint(code_point) => builder.retain32(code_point),
        Part::Range(first, last) => builder.retain_range(first..=last),
        Part::Range32(first, last) => builder.retain_range32(first..=last),
    }
}

fn complement(
    alloc: Global,
    builder: &mut CodePointInversionListBuilder,
    part: Part,
) -> Result<(), AllocError> {
    match part {
        Part::Set => builder.complement_set(&six_edges(alloc)?),
        Part::Char(character) => builder.complement_char(character),
        Part::CodePoint(code_point) => builder.complement32(code_point),
        Part::Range(first, last) => builder.complement_range(first..=last),
        Part::Range32(first, last) => builder.complement_range32(first..=last),
    }
}

/// Whether the builder of two ranges has these ends after an edit.
fn comes_to(alloc: Global, edit: Edit, part: Part, edges: &[u32]) -> Result<bool, AllocError> {
    let mut builder = two_ranges(alloc)?;
    match edit {
        Edit::Add => add(alloc, &mut builder, part)?,
        Edit::Remove => remove(alloc, &mut builder, part)?,
        Edit::Retain => retain(alloc, &mut builder, part)?,
        Edit::Complement => complement(alloc, &mut builder, part)?,
    }
    has_edges(alloc, &builder, edges)
}

/// Retaining an empty range leaves nothing.
#[test]
fn an_empty_range_retains_nothing(rt: HostRuntime) {
    let retained = comes_to(rt.alloc(), Edit::Retain, Part::Range32(0x2F, 0x2E), &[]);
    assert!(rt; retained == Ok(true));
}

#[test]
fn ok_add_char(rt: HostRuntime) {
    let edges = [0x0A, 0x15, 0x28, 0x32];
    let edited = comes_to(rt.alloc(), Edit::Add, Part::Char('\u{14}'), &edges);
    assert!(rt; edited == Ok(true));
}

#[test]
fn ok_add32(rt: HostRuntime) {
    let edges = [0x0A, 0x14, 0x27, 0x32];
    let edited = comes_to(rt.alloc(), Edit::Add, Part::CodePoint(0x27), &edges);
    assert!(rt; edited == Ok(true));
}

#[test]
fn ok_add_range(rt: HostRuntime) {
    let edges = [0x0A, 0x32];
    let edited = comes_to(
        rt.alloc(),
        Edit::Add,
        Part::Range('\u{10}', '\u{27}'),
        &edges,
    );
    assert!(rt; edited == Ok(true));
}

#[test]
fn ok_add_range32(rt: HostRuntime) {
    let edges = [0x0A, 0x14, 0x28, 0x32, 0x40, 0x11_0000];
    let edited = comes_to(
        rt.alloc(),
        Edit::Add,
        Part::Range32(0x40, 0xFFFF_FFFF),
        &edges,
    );
    assert!(rt; edited == Ok(true));
}

#[test]
fn ok_add_set(rt: HostRuntime) {
    let edges = [0x05, 0x14, 0x16, 0x21, 0x28, 0x33];
    let edited = comes_to(rt.alloc(), Edit::Add, Part::Set, &edges);
    assert!(rt; edited == Ok(true));
}

#[test]
fn ok_remove_char(rt: HostRuntime) {
    let edges = [0x0B, 0x14, 0x28, 0x32];
    let edited = comes_to(rt.alloc(), Edit::Remove, Part::Char('\u{0A}'), &edges);
    assert!(rt; edited == Ok(true));
}

#[test]
fn ok_remove32(rt: HostRuntime) {
    let edges = [0x0A, 0x14, 0x28, 0x31];
    let edited = comes_to(rt.alloc(), Edit::Remove, Part::CodePoint(0x31), &edges);
    assert!(rt; edited == Ok(true));
}

#[test]
fn ok_remove_range(rt: HostRuntime) {
    let edges = [0x0A, 0x10, 0x12, 0x14, 0x28, 0x32];
    let edited = comes_to(
        rt.alloc(),
        Edit::Remove,
        Part::Range('\u{10}', '\u{11}'),
        &edges,
    );
    assert!(rt; edited == Ok(true));
}

#[test]
fn ok_remove_range32(rt: HostRuntime) {
    let edges = [0x0A, 0x13, 0x29, 0x32];
    let edited = comes_to(rt.alloc(), Edit::Remove, Part::Range32(0x13, 0x28), &edges);
    assert!(rt; edited == Ok(true));
}

#[test]
fn ok_remove_set(rt: HostRuntime) {
    let edges = [0x0A, 0x14, 0x28, 0x2C];
    let edited = comes_to(rt.alloc(), Edit::Remove, Part::Set, &edges);
    assert!(rt; edited == Ok(true));
}

#[test]
fn ok_retain_char(rt: HostRuntime) {
    let edges = [0x0A, 0x0B];
    let edited = comes_to(rt.alloc(), Edit::Retain, Part::Char('\u{0A}'), &edges);
    assert!(rt; edited == Ok(true));
}

#[test]
fn ok_retain32(rt: HostRuntime) {
    let edges = [0x31, 0x32];
    let edited = comes_to(rt.alloc(), Edit::Retain, Part::CodePoint(0x31), &edges);
    assert!(rt; edited == Ok(true));
}

#[test]
fn ok_retain_range(rt: HostRuntime) {
    let edges = [0x10, 0x14, 0x28, 0x2A];
    let edited = comes_to(
        rt.alloc(),
        Edit::Retain,
        Part::Range('\u{10}', '\u{29}'),
        &edges,
    );
    assert!(rt; edited == Ok(true));
}

#[test]
fn ok_retain_range32(rt: HostRuntime) {
    let edges = [0x13, 0x14, 0x28, 0x29];
    let edited = comes_to(rt.alloc(), Edit::Retain, Part::Range32(0x13, 0x28), &edges);
    assert!(rt; edited == Ok(true));
}

#[test]
fn ok_retain_set(rt: HostRuntime) {
    let edges = [0x2C, 0x32];
    let edited = comes_to(rt.alloc(), Edit::Retain, Part::Set, &edges);
    assert!(rt; edited == Ok(true));
}

#[test]
fn ok_complement_char(rt: HostRuntime) {
    let edges = [0x0B, 0x14, 0x28, 0x32];
    let edited = comes_to(rt.alloc(), Edit::Complement, Part::Char('\u{0A}'), &edges);
    assert!(rt; edited == Ok(true));
}

#[test]
fn ok_complement32(rt: HostRuntime) {
    let edges = [0x0A, 0x15, 0x28, 0x32];
    let edited = comes_to(rt.alloc(), Edit::Complement, Part::CodePoint(0x14), &edges);
    assert!(rt; edited == Ok(true));
}

#[test]
fn ok_complement_range(rt: HostRuntime) {
    let edges = [0x0A, 0x10, 0x14, 0x28, 0x30, 0x32];
    let edited = comes_to(
        rt.alloc(),
        Edit::Complement,
        Part::Range('\u{10}', '\u{2F}'),
        &edges,
    );
    assert!(rt; edited == Ok(true));
}

#[test]
fn ok_complement_range32(rt: HostRuntime) {
    let edges = [0x0A, 0x32];
    let edited = comes_to(
        rt.alloc(),
        Edit::Complement,
        Part::Range32(0x14, 0x27),
        &edges,
    );
    assert!(rt; edited == Ok(true));
}

#[test]
fn ok_complement_set(rt: HostRuntime) {
    let edges = [0x05, 0x14, 0x16, 0x21, 0x28, 0x2C, 0x32, 0x33];
    let edited = comes_to(rt.alloc(), Edit::Complement, Part::Set, &edges);
    assert!(rt; edited == Ok(true));
}

/// Whether a new builder is empty, and its set has no end.
fn starts_empty(alloc: Global) -> bool {
    let empty = CodePointInversionListBuilder::new(alloc);
    empty.is_empty() && has_edges(alloc, &empty, &[]) == Ok(true)
}

/// Whether the builder of two ranges has their ends.
fn has_two_ranges(alloc: Global) -> Result<bool, AllocError> {
    has_edges(alloc, &two_ranges(alloc)?, &[0x0A, 0x14, 0x28, 0x32])
}

#[test]
fn ok_build(rt: HostRuntime) {
    assert!(rt; starts_empty(rt.alloc()));
    assert!(rt; has_two_ranges(rt.alloc()) == Ok(true));
}

/// Whether it has those of the rest after `complement`.
fn is_complemented(alloc: Global) -> Result<bool, AllocError> {
    let mut builder = two_ranges(alloc)?;
    builder.complement()?;
    has_edges(alloc, &builder, &[0, 0x0A, 0x14, 0x28, 0x32, 0x11_0000])
}

#[test]
fn ok_complement(rt: HostRuntime) {
    assert!(rt; is_complemented(rt.alloc()) == Ok(true));
}
