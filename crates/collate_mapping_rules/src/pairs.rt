//! The rules on composed pairs: no two lines compose the same two characters (C5), and the second of the two is from
//! U+0300 on, and no vowel or final consonant of Hangul (C6).

ghost use Rattle.std.specs.Prelude.{◌≡◌, ◌<◌, ◌⊎◌, ◌↔◌, ◌∷◌, ◌++◌, [], List, map, IsTrue, IfOk, OnOk, MatchOption};
ghost use Rattle.std.specs.List.{list_any};
ghost use Rattle.icu_normalizer_core.specs.BuiltIn.{is_within};
ghost use Rattle.collate_lines.specs.Record.{Record as PlainRecord, said};
ghost use Rattle.collate_rules.specs.PartMaps.{HasComposed};
ghost use Rattle.collate_rules.specs.Rules.{IsBadlyComposed, is_same_pair, pair_in};
ghost use Rattle.collate_rules.specs.Offenders.{NoneOffends, IsFirstOffender};

use collate_lines::record::Record;
use collate_lines::rule::Rule;
use icu_normalizer_core::built_in::is_built_in;
use std::alloc::{AllocError, Global};
use std::collections::BTreeSet;

/// The first line that composes two characters which an earlier line composes (rule C5, docs/RECORDS.md). Lines count
/// from 0; `None` where no line offends.
///
/// Errors: `AllocError` where memory is refused.
pub fn first_repeated_pair(alloc: Global, records: &[Record]) -> Result<Option<usize>, AllocError>
    ensures { IfOk result (λ found. MatchOption found (NoneOffends Rule.C5 (map said records.now)) (λ i. IsFirstOffender Rule.C5 (map said records.now) i)) }
{
    let mut pairs = BTreeSet::new(alloc);
    for i in 0..records.len() {
        let is_repeated = repeats_pair(&mut pairs, &records[i])?;
        if is_repeated {
            return Ok(Some(i));
        }
    }
    Ok(None)
}

/// The first line that composes two characters of which the second is below U+0300, or a vowel or final consonant of
/// Hangul (rule C6, docs/RECORDS.md). Lines count from 0; `None` where no line offends.
pub fn first_bad_second(records: &[Record]) -> Option<usize>
    ensures { MatchOption result (NoneOffends Rule.C6 (map said records.now)) (λ i. IsFirstOffender Rule.C6 (map said records.now) i) }
{
    records.iter().position(is_badly_composed)
}

/// Whether a line composes two characters of which it is noted that a line composes them; notes them.
fn repeats_pair(pairs: &mut BTreeSet<(char, char)>, given: &Record) -> Result<bool, AllocError>
    ensures told { (lines : List PlainRecord) → HasComposed pairs.old lines → IfOk result (λ yes. yes ≡ list_any (λ s. is_same_pair (pair_in s) (pair_in (said given.now))) lines) }
    ensures noted { (lines : List PlainRecord) → HasComposed pairs.old lines → OnOk result (HasComposed pairs.new (lines ++ said given.now ∷ [])) }
{
    match composed_pair(given) {
        Some(pair) => {
            let is_new = pairs.insert(pair)?;
            Ok(!is_new)
        }
        None => Ok(false),
    }
}

/// Whether a line composes two characters of which the second is below U+0300, or a vowel or final consonant of Hangul.
fn is_badly_composed(given: &Record) -> bool
    ensures { IsTrue result ↔ IsBadlyComposed (said given.now) }
{
    match composed_pair(given) {
        Some((_, second)) => is_bad_second(second as u32),
        None => false,
    }
}

/// Whether a character is below U+0300, or a vowel or final consonant of Hangul.
fn is_bad_second(c: u32) -> bool
    ensures { IsTrue result ↔ ((c < 0x300) ⊎ IsTrue (is_within 0x1161 0x11ff c)) }
{
    c < 0x300 || (0x1161..=0x11ff).contains(&c)
}

/// The two characters that a line composes, unless what it says of them is built in.
fn composed_pair(given: &Record) -> Option<(char, char)>
    ensures { result ≡ pair_in (said given.now) }
{
    match given {
        Record::Map {
            character,
            first,
            second: Some(second),
            is_excluded: false,
        } if !is_built_in(*character as u32) => Some((*first, *second)),
        _ => None,
    }
}
