//! The characters that are named by what is given.

ghost use Rattle.std.specs.Prelude.{◌≡◌, ◌↔◌, ◌++◌, ◌∷◌, ◌<◌, ◌≤◌, ◌⊎◌, [], map, flat_map, length, nat_eq, IfOk, IfErr, IsTrue, OnOk, All};
ghost use Rattle.std.specs.BTreeSet.{IsFromIterResult};
ghost use Rattle.std.specs.Char.{IsScalar};
ghost use Rattle.std.specs.Ordering.{nat_cmp};
ghost use Rattle.std.specs.Set.{distinct_count};
ghost use Rattle.icu_normalizer_core.specs.declared.builder.given.CanonicalDataBuildError.TheVariants.{Rules, Memory};
ghost use Rattle.icu_normalizer_core.specs.CanonicalMaps.{mapping_given, named};
ghost use Rattle.icu_normalizer_core.specs.CharacterWords.{HasNamed, built_in_named};
ghost use Rattle.icu_normalizer_core.specs.CompatibilityMaps.{all_named};
ghost use Rattle.icu_normalizer_core.specs.Named.{AreDistinctOf, AreInFewBlocks, AreMany, HasThese, block_count, narrow_block, wide_block, with_new};
ghost use Rattle.icu_normalizer_core.specs.SettledMappings.{HasAllNamed, IsBehindBuiltIn};

use super::given::{CanonicalDataBuildError, GivenClass, GivenCompatibility, GivenMapping};
use std::alloc::{AllocError, Global};
use std::collections::BTreeSet;

/// The characters with a built-in class other than 0, and those with a built-in mapping but Hangul.
const BUILT_IN_NAMED: [char; 17] = [
    '\u{300}', '\u{301}', '\u{308}', '\u{313}', '\u{340}', '\u{341}', '\u{343}', '\u{344}',
    '\u{f71}', '\u{f72}', '\u{f73}', '\u{f74}', '\u{f75}', '\u{f80}', '\u{f81}', '\u{3099}',
    '\u{309a}',
];

/// The characters with a built-in compatibility mapping.
const BUILT_IN_COMPATIBLE: [char; 2] = ['\u{ff9e}', '\u{ff9f}'];

/// In at most so many aligned blocks of 512, and of 16 from U+10000 on, are characters that what is given names: tries
/// have room for 800 and 12,000 different ones.
const WIDE_LIMIT: usize = 700;

const NARROW_LIMIT: usize = 11_000;

/// Adds the characters that classes name. Fails only if memory is refused.
fn add_classed(list: &mut Vec<char>, classes: &[GivenClass]) -> Result<(), AllocError>
    ensures { IfOk result (λ _. list.new.items ≡ list.old.items ++ map (λ g. g.character) classes.now) }
{
    for given in classes {
        list.push(given.character)?;
    }
    Ok(())
}

/// Adds the characters that a canonical mapping names. Fails only if memory is refused.
fn add_mapping(list: &mut Vec<char>, given: GivenMapping) -> Result<(), AllocError>
    ensures { IfOk result (λ _. list.new.items ≡ list.old.items ++ given.character ∷ mapping_given given) }
{
    list.push(given.character)?;
    list.push(given.first)?;
    if let Some(second) = given.second {
        list.push(second)?;
    }
    Ok(())
}

/// Adds the characters that canonical mappings name. Fails only if memory is refused.
fn add_mapped(list: &mut Vec<char>, mappings: &[GivenMapping]) -> Result<(), AllocError>
    ensures { IfOk result (λ _. list.new.items ≡ list.old.items ++ flat_map (λ g. g.character ∷ mapping_given g) mappings.now) }
{
    for given in mappings {
        add_mapping(list, *given)?;
    }
    Ok(())
}

/// Adds the characters that compatibility mappings name. Fails only if memory is refused.
fn add_compatible(list: &mut Vec<char>, given: &[GivenCompatibility]) -> Result<(), AllocError>
    ensures { IfOk result (λ _. list.new.items ≡ list.old.items ++ flat_map (λ g. g.character ∷ g.mapping.items) given.now) }
{
    for one in given {
        list.push(one.character)?;
        list.extend_from_slice(one.mapping.as_slice())?;
    }
    Ok(())
}

/// The characters that classes and canonical mappings name. Fails only if memory is refused.
fn named(
    alloc: Global,
    classes: &[GivenClass],
    mappings: &[GivenMapping],
) -> Result<Vec<char>, AllocError>
    ensures { IfOk result (λ list. list.items ≡ named (record { classes = classes.now; mappings = mappings.now })) }
{
    let mut list = Vec::new(alloc);
    add_classed(&mut list, classes)?;
    add_mapped(&mut list, mappings)?;
    Ok(list)
}

/// The characters that classes and mappings of both kinds name. Fails only if memory is refused.
fn all_named(
    alloc: Global,
    classes: &[GivenClass],
    mappings: &[GivenMapping],
    given: &[GivenCompatibility],
) -> Result<Vec<char>, AllocError>
    ensures { IfOk result (λ list. list.items ≡ all_named (record { canonical = record { classes = classes.now; mappings = mappings.now }; compatibilities = given.now })) }
{
    let mut list = named(alloc, classes, mappings)?;
    add_compatible(&mut list, given)?;
    Ok(list)
}

/// Adds a character that isn't among those that were seen, which are the list's. Fails only if memory is refused.
fn add_new(list: &mut Vec<char>, seen: &mut BTreeSet<char>, c: char) -> Result<(), AllocError>
    requires scalars { All IsScalar list.old.items }
    requires seen { HasThese seen.old list.old.items }
    ensures added { OnOk result (list.new.items ≡ with_new list.old.items c) }
    ensures scalars { OnOk result (All IsScalar list.new.items) }
    ensures seen { OnOk result (HasThese seen.new list.new.items) }
{
    let is_new = seen.insert(c)?;
    if !is_new {
        return Ok(());
    }
    list.push(c)?;
    Ok(())
}

/// The characters of a list, each once. `Rules` where there are more than the limit.
fn distinct(alloc: Global, limit: usize, all: &[char]) -> Result<Vec<char>, CanonicalDataBuildError>
    ensures distinct { IfOk result (λ list. AreDistinctOf all.now list.items) }
    ensures scalars { IfOk result (λ list. All IsScalar list.items) }
    ensures few { IfOk result (λ list. length list.items ≤ limit) }
    ensures refused { IfErr result (λ e. (e ≡ Memory) ⊎ ((e ≡ Rules) × (limit < distinct_count nat_eq all.now))) }
{
    let mut list = Vec::new(alloc);
    let mut seen = BTreeSet::new(alloc);
    for c in all {
        add_new(&mut list, &mut seen, *c)?;
        if list.len() > limit {
            return Err(CanonicalDataBuildError::Rules);
        }
    }
    Ok(list)
}

/// The aligned block of 16 in which a character stands, from U+10000 on; a character below counts as U+10000 does.
fn narrow_block(c: char) -> u32
    ensures { result ≡ narrow_block c }
{
    (c as u32).saturating_sub(0x1_0000) / 16
}

/// The aligned block of 512 in which each character stands. Fails only if memory is refused.
fn wide_blocks(alloc: Global, characters: &[char]) -> Result<Vec<u32>, AllocError>
    ensures { IfOk result (λ numbers. numbers.items ≡ map wide_block characters.now) }
{
    let mut numbers = Vec::new(alloc);
    for c in characters {
        numbers.push(*c as u32 / 512)?;
    }
    Ok(numbers)
}

/// The aligned block of 16 in which each character stands, from U+10000 on. Fails only if memory is refused.
fn narrow_blocks(alloc: Global, characters: &[char]) -> Result<Vec<u32>, AllocError>
    ensures { IfOk result (λ numbers. numbers.items ≡ map narrow_block characters.now) }
{
    let mut numbers = Vec::new(alloc);
    for c in characters {
        numbers.push(narrow_block(*c))?;
    }
    Ok(numbers)
}

/// The different numbers. Fails only if memory is refused.
fn different(alloc: Global, numbers: &[u32]) -> Result<BTreeSet<u32>, AllocError>
    ensures { IfOk result (IsFromIterResult nat_cmp numbers.now) }
{
    numbers.iter().copied().collect(alloc)
}

/// How many different numbers there are. Fails only if memory is refused.
fn different_count(alloc: Global, numbers: &[u32]) -> Result<usize, AllocError>
    ensures { IfOk result (λ count. count ≡ distinct_count nat_eq numbers.now) }
{
    let different = different(alloc, numbers)?;
    Ok(different.len())
}

/// In how many aligned blocks of 512 characters stand. Fails only if memory is refused.
fn wide_count(alloc: Global, characters: &[char]) -> Result<usize, AllocError>
    ensures { IfOk result (λ count. count ≡ block_count wide_block characters.now) }
{
    let numbers = wide_blocks(alloc, characters)?;
    let count = different_count(alloc, numbers.as_slice())?;
    Ok(count)
}

/// In how many aligned blocks of 16 they stand from U+10000 on. Fails only if memory is refused.
fn narrow_count(alloc: Global, characters: &[char]) -> Result<usize, AllocError>
    ensures { IfOk result (λ count. count ≡ block_count narrow_block characters.now) }
{
    let numbers = narrow_blocks(alloc, characters)?;
    let count = different_count(alloc, numbers.as_slice())?;
    Ok(count)
}

/// Whether characters stand in no more blocks than tries have room for. Fails only if memory is refused.
fn are_in_few_blocks(alloc: Global, characters: &[char]) -> Result<bool, AllocError>
    ensures { IfOk result (λ few. IsTrue few ↔ AreInFewBlocks characters.now) }
{
    let wide = wide_count(alloc, characters)?;
    let narrow = narrow_count(alloc, characters)?;
    Ok(wide <= WIDE_LIMIT && narrow <= NARROW_LIMIT)
}

/// The characters of a list, each once. `Rules` where there are more than the limit, or they stand in more blocks than
/// tries have room for.
fn distinct_few(
    alloc: Global,
    limit: usize,
    all: &[char],
) -> Result<Vec<char>, CanonicalDataBuildError>
    ensures distinct { IfOk result (λ list. AreDistinctOf all.now list.items) }
    ensures scalars { IfOk result (λ list. All IsScalar list.items) }
    ensures few { IfOk result (λ list. length list.items ≤ limit) }
    ensures blocks { IfOk result (λ list. AreInFewBlocks list.items) }
    ensures refused { IfErr result (λ e. (e ≡ Memory) ⊎ ((e ≡ Rules) × AreMany limit all.now)) }
{
    let list = match distinct(alloc, limit, all) {
        Ok(list) => list,
        Err(error) => return Err(error),
    };
    if !are_in_few_blocks(alloc, list.as_slice())? {
        return Err(CanonicalDataBuildError::Rules);
    }
    Ok(list)
}

/// The characters that are named by what is built in, but syllables, and others. Fails only if memory is refused.
fn with_built_in(alloc: Global, others: &[char]) -> Result<Vec<char>, AllocError>
    ensures { IfOk result (λ list. list.items ≡ built_in_named ++ others.now) }
{
    let mut list = Vec::from_slice(alloc, &BUILT_IN_NAMED)?;
    list.extend_from_slice(others)?;
    Ok(list)
}

/// The characters with a built-in compatibility mapping, and others. Fails only if memory is refused.
fn with_compatible(alloc: Global, others: &[char]) -> Result<Vec<char>, AllocError>
    ensures { IfOk result (λ list. list.items ≡ (0xff9e ∷ 0xff9f ∷ []) ++ others.now) }
{
    let mut list = Vec::from_slice(alloc, &BUILT_IN_COMPATIBLE)?;
    list.extend_from_slice(others)?;
    Ok(list)
}

/// The characters with a word of their own: those that are named by what is built in, but syllables, and those that are
/// given, each once. `Rules` where more than the limit are given, or in more blocks than tries have room for.
pub(super) fn characters_of(
    alloc: Global,
    limit: usize,
    classes: &[GivenClass],
    mappings: &[GivenMapping],
) -> Result<Vec<char>, CanonicalDataBuildError>
    ensures named { IfOk result (λ list. HasNamed classes.now mappings.now list.items) }
    ensures scalars { IfOk result (λ list. All IsScalar list.items) }
    ensures wide { IfOk result (λ list. block_count wide_block list.items ≤ 717) }
    ensures narrow { IfOk result (λ list. block_count narrow_block list.items ≤ 11017) }
    ensures within { OnOk result (distinct_count nat_eq (named (record { classes = classes.now; mappings = mappings.now })) ≤ limit) }
    ensures refused { IfErr result (λ e. (e ≡ Memory) ⊎ ((e ≡ Rules) × AreMany limit (named (record { classes = classes.now; mappings = mappings.now })))) }
{
    let all = named(alloc, classes, mappings)?;
    let given = match distinct_few(alloc, limit, all.as_slice()) {
        Ok(given) => given,
        Err(error) => return Err(error),
    };
    let list = with_built_in(alloc, given.as_slice())?;
    Ok(list)
}

/// The characters with a compatibility word of their own: those, and those that compatibility mappings name or that have
/// a built-in one. `Rules` where more than the limit are given, or in more blocks than tries have room for.
pub(super) fn all_characters_of(
    alloc: Global,
    limit: usize,
    classes: &[GivenClass],
    mappings: &[GivenMapping],
    given: &[GivenCompatibility],
) -> Result<Vec<char>, CanonicalDataBuildError>
    ensures named { IfOk result (λ list. HasAllNamed classes.now mappings.now given.now list.items) }
    ensures scalars { IfOk result (λ list. All IsScalar list.items) }
    ensures listed { IfOk result (λ list. IsBehindBuiltIn list.items) }
    ensures wide { IfOk result (λ list. block_count wide_block list.items ≤ 719) }
    ensures narrow { IfOk result (λ list. block_count narrow_block list.items ≤ 11019) }
    ensures within { OnOk result (distinct_count nat_eq (all_named (record { canonical = record { classes = classes.now; mappings = mappings.now }; compatibilities = given.now })) ≤ limit) }
    ensures refused { IfErr result (λ e. (e ≡ Memory) ⊎ ((e ≡ Rules) × AreMany limit (all_named (record { canonical = record { classes = classes.now; mappings = mappings.now }; compatibilities = given.now })))) }
{
    let all = all_named(alloc, classes, mappings, given)?;
    let named = match distinct_few(alloc, limit, all.as_slice()) {
        Ok(named) => named,
        Err(error) => return Err(error),
    };
    let others = with_built_in(alloc, named.as_slice())?;
    let list = with_compatible(alloc, others.as_slice())?;
    Ok(list)
}
