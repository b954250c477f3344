//! The rules that look at one line: classes from 1 to 254 (C3), nothing against what is built in (C8), and no jamo or
//! syllable in a mapping (C9).

ghost use Rattle.std.specs.Prelude.{◌≡◌, ◌↔◌, ◌∷◌, ◌||◌, Option, map, IsTrue, MatchOption};
ghost use Rattle.std.specs.Option.{option_to_list};
ghost use Rattle.icu_normalizer_core.specs.BuiltIn.{is_jamo, is_syllable};
ghost use Rattle.collate_lines.specs.Record.{said, mapping, compatibility};
ghost use Rattle.collate_rules.specs.Rules.{IsBadClass, Contradicts, MapsHangul, has_hangul, is_built_in_record};
ghost use Rattle.collate_rules.specs.Offenders.{NoneOffends, IsFirstOffender};

use collate_lines::record::Record;
use collate_lines::rule::Rule;
use icu_normalizer_core::built_in::{
    built_in_class, built_in_compatibility_step, built_in_step, is_built_in, is_jamo, is_syllable,
};
use icu_normalizer_core::properties::Decomposed;

/// The first line that gives a class outside 1 to 254, other than one that is built in (rule C3,
/// docs/RECORDS.md). Lines count from 0; `None` where no line offends.
pub fn first_bad_class(records: &[Record]) -> Option<usize>
    ensures { MatchOption result (NoneOffends Rule.C3 (map said records.now)) (λ i. IsFirstOffender Rule.C3 (map said records.now) i) }
{
    records.iter().position(is_bad_class)
}

/// The first line that contradicts what is built in (rule C8, docs/RECORDS.md); a line that says the
/// same again doesn't. Lines count from 0; `None` where no line offends.
pub fn first_contradiction(records: &[Record]) -> Option<usize>
    ensures { MatchOption result (NoneOffends Rule.C8 (map said records.now)) (λ i. IsFirstOffender Rule.C8 (map said records.now) i) }
{
    records.iter().position(contradicts)
}

/// The first line whose mapping names a jamo or a syllable, unless the mapping is built in (rule
/// C9, docs/RECORDS.md). Lines count from 0; `None` where no line offends.
pub fn first_mapped_hangul(records: &[Record]) -> Option<usize>
    ensures { MatchOption result (NoneOffends Rule.C9 (map said records.now)) (λ i. IsFirstOffender Rule.C9 (map said records.now) i) }
{
    records.iter().position(maps_hangul)
}

/// Whether a line gives a class outside 1 to 254 that isn't built in.
fn is_bad_class(given: &Record) -> bool
    ensures { IsTrue result ↔ IsBadClass (said given.now) }
{
    match given {
        Record::Class { character, class } => {
            !(1..=254).contains(class)
                && built_in_class(*character as u32).map(u16::from) != Some(*class)
        }
        _ => false,
    }
}

/// Whether a line contradicts what is built in.
fn contradicts(given: &Record) -> bool
    ensures { IsTrue result ↔ Contradicts (said given.now) }
{
    match given {
        Record::Class { character, .. } => {
            built_in_class(*character as u32).is_some() && !is_built_in_record(given)
        }
        Record::Map { character, .. } => {
            is_built_in(*character as u32) && !is_built_in_record(given)
        }
        Record::Kmap { character, .. } => {
            is_built_in(*character as u32) && !is_built_in_record(given)
        }
        _ => false,
    }
}

/// Whether a line's mapping names a jamo or a syllable, and isn't built in.
fn maps_hangul(given: &Record) -> bool
    ensures { IsTrue result ↔ MapsHangul (said given.now) }
{
    match given {
        Record::Map {
            character,
            first,
            second,
            ..
        } => {
            let is_named = is_hangul(*character)
                || is_hangul(*first)
                || match second {
                    Some(second) => is_hangul(*second),
                    None => false,
                };
            is_named && !is_built_in_record(given)
        }
        Record::Kmap { character, mapping } => {
            (is_hangul(*character) || has_hangul(mapping)) && !is_built_in_record(given)
        }
        _ => false,
    }
}

/// Whether a character is a jamo or a Hangul syllable.
fn is_hangul(c: char) -> bool
    ensures { result ≡ is_jamo c || is_syllable c }
{
    is_jamo(c as u32) || is_syllable(c as u32)
}

/// Whether a jamo or a Hangul syllable stands in a list.
fn has_hangul(characters: &[char]) -> bool
    ensures { result ≡ has_hangul characters.now }
{
    characters.iter().any(|c| is_hangul(*c))
}

/// Whether a line says exactly what is built in.
fn is_built_in_record(given: &Record) -> bool
    ensures { result ≡ is_built_in_record (said given.now) }
{
    match given {
        Record::Class { character, class } => {
            built_in_class(*character as u32).map(u16::from) == Some(*class)
        }
        Record::Map {
            character,
            first,
            second,
            is_excluded,
        } => is_built_in_mapping(*character as u32, *first, *second, *is_excluded),
        Record::Kmap { character, mapping } => {
            is_built_in_compatibility(*character as u32, mapping)
        }
        _ => false,
    }
}

/// Whether a mapping is built in just so; a syllable alone is composed.
fn is_built_in_mapping(c: u32, first: char, second: Option<char>, is_excluded: bool) -> bool
    ensures { result ≡ is_built_in_record (mapping c (first ∷ option_to_list second) is_excluded) }
{
    match (built_in_step(c), second) {
        (Some(Decomposed::Singleton(d)), None) => first == d,
        (Some(Decomposed::Expansion(d, e)), Some(second)) => {
            first == d && second == e && is_excluded != is_syllable(c)
        }
        _ => false,
    }
}

/// Whether a compatibility mapping is built in just so.
fn is_built_in_compatibility(c: u32, mapping: &[char]) -> bool
    ensures { result ≡ is_built_in_record (compatibility c mapping.now) }
{
    match built_in_compatibility_step(c) {
        Some(Decomposed::Default) => mapping.is_empty(),
        Some(Decomposed::Singleton(d)) => matches!(mapping, [first] if *first == d),
        Some(Decomposed::Expansion(d, e)) => {
            matches!(mapping, [first, second] if *first == d && *second == e)
        }
        None => false,
    }
}
