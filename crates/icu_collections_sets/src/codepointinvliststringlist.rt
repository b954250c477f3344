//! Sets of code points and strings, as ICU4X's `icu_collections::codepointinvliststringlist`.
ghost use Rattle.std.specs.Prelude.{◌≡◌, ◌≢◌, ℕ, ◌+◌, ◌<◌, ◌↔◌, ◌∷◌, [], IsTrue, length, map, MatchOption, MatchResult, string_bytes};
ghost use Rattle.std.specs.Prelude.{◌&&◌, ◌++◌, nat_eq, IfOk};
ghost use Rattle.std.specs.Hash as fed;
ghost use Rattle.std.specs.Cmp.{and_per, on_per, and_equiv, on_equiv, partial_equiv_from_equiv};
ghost use Rattle.std.specs.Cmp.Lexicographic.{pointwise, lists_per, lists_equiv, nat_list_eq_equiv};
ghost use Rattle.std.specs.Str.{chars};
ghost use Rattle.std.specs.List.{Contains};
ghost use Rattle.icu_collections_sets.specs.CodePoints.{holds, count_below};
ghost use Rattle.icu_collections_sets.specs.StringList.{CodePointsAndStrings, AreStrings, AreStringsUpTo};
ghost use Rattle.icu_collections_sets.specs.StringListHash.{fed_alike};
ghost use Rattle.icu_collections_sets.specs.StringListFaults.{IsFirstFault};
ghost use Rattle.icu_collections_sets.specs.StringListOffences.{IsOffence};

use crate::codepointinvlist::CodePointInversionList;
use std::alloc::{AllocError, Global};
use std::cmp::Ordering;
use std::error::Error;
use std::fmt;
use std::hash::{Hash, Hasher};
use std::marker::Model;

/// A set of code points and a sorted list of strings, none of them one character. It is seen as the
/// set and the strings, each by its UTF-8 bytes.
#[derive(Debug, Drop)]
pub struct CodePointInversionListAndStringList<'a> {
    code_points: CodePointInversionList<'a>,
    strings: Vec<String>,
}

impl<'a> Model for CodePointInversionListAndStringList<'a> {
    ghost use Rattle.std.specs.Prelude.{map, string_bytes};
    ghost use Rattle.icu_collections_sets.specs.StringList.{CodePointsAndStrings, AreStrings};

    ghost Value = { CodePointsAndStrings };

    ghost view = { λ inside. record { code_points = inside.code_points; strings = map string_bytes inside.strings.items } };

    ghost invariant = { λ inside. AreStrings (map string_bytes inside.strings.items) };
}

/// Why strings are not those of a set: the first string at fault, and its fault.
#[derive(Debug, PartialEq, Eq, Drop)]
pub enum InvalidStringList {
    /// The string is one character, which belongs to the code points.
    InvalidStringLength(String),
    /// The string equals the one before it.
    StringListNotUnique(String),
    /// The string before, and the string, which is below it by bytes.
    StringListNotSorted(String, String),
}

impl fmt::Display for InvalidStringList {
    ghost use Rattle.std.specs.Prelude.{Some};
    ghost use Rattle.icu_collections_sets.specs.StringListFaults.{fault_text};

    ghost output = { λ fault. Some (fault_text fault) };

    fn fmt<W: fmt::Write>(&self, f: &mut fmt::Formatter<W>) -> fmt::Result {
        match self {
            InvalidStringList::InvalidStringLength(text) => {
                write!(f, "one character alone: {text}")
            }
            InvalidStringList::StringListNotUnique(text) => write!(f, "twice in the list: {text}"),
            InvalidStringList::StringListNotSorted(before, text) => {
                write!(f, "not sorted: {before}, {text}")
            }
        }
    }
}

impl Error for InvalidStringList {}

/// What is wrong with a string that follows another one.
enum Offence {
    Length,
    NotUnique,
    NotSorted,
}

/// The character that a text is, if it is one alone.
fn only_character(text: &str) -> Option<char>
    ensures { MatchOption result (length (chars text.now) ≢ 1) (λ character. chars text.now ≡ character ∷ []) }
{
    let mut characters = text.chars();
    let character = characters.next()?;
    if characters.as_str().is_empty() {
        Some(character)
    } else {
        None
    }
}

/// What is wrong with the string at an index.
fn offence_at(strings: &[String], index: usize) -> Option<Offence>
    requires { index < length strings.now }
    ensures { IsOffence (map string_bytes strings.now) index result }
{
    let text = strings[index].as_str();
    if only_character(text).is_some() {
        return Some(Offence::Length);
    }
    if index == 0 {
        return None;
    }
    match strings[index - 1].as_str().cmp(text) {
        Ordering::Less => None,
        Ordering::Equal => Some(Offence::NotUnique),
        Ordering::Greater => Some(Offence::NotSorted),
    }
}

/// The first string at fault, by its index, and its fault.
fn first_offence(strings: &[String]) -> Option<(usize, Offence)>
    ensures { MatchOption result (AreStrings (map string_bytes strings.now)) (λ found.
        (found.0 < length strings.now) × AreStringsUpTo (map string_bytes strings.now) found.0 × IsOffence (map string_bytes strings.now) found.0 (Some found.1)) }
{
    for index in 0..strings.len() {
        if let Some(offence) = offence_at(strings, index) {
            return Some((index, offence));
        }
    }
    None
}

impl<'a> CodePointInversionListAndStringList<'a> {
    /// The set of the code points of a list and of these strings, which are sorted by bytes, differ,
    /// and have no string of one character. Refused with the first string that breaks one of these
    /// rules; of one string its length is asked first, then whether it equals the string before,
    /// then whether it is below that. It takes no memory.
    pub fn try_from(
        code_points: CodePointInversionList<'a>,
        mut strings: Vec<String>,
    ) -> Result<CodePointInversionListAndStringList<'a>, InvalidStringList>
        ensures { MatchResult result
            (λ set. AreStrings (map string_bytes strings.items) × (set ≡ record { code_points = code_points.entry; strings = map string_bytes strings.items }))
            (IsFirstFault (map string_bytes strings.items)) }
    {
        let Some((index, offence)) = first_offence(&strings) else {
            return Ok(CodePointInversionListAndStringList {
                code_points,
                strings,
            });
        };
        let text = strings.remove(index);
        match offence {
            Offence::Length => Err(InvalidStringList::InvalidStringLength(text)),
            Offence::NotUnique => Err(InvalidStringList::StringListNotUnique(text)),
            Offence::NotSorted => {
                let before = strings.remove(index - 1);
                Err(InvalidStringList::StringListNotSorted(before, text))
            }
        }
    }

    /// The set of code points.
    pub fn code_points(&self) -> &CodePointInversionList<'a>
        ensures { result.now ≡ self.now.code_points }
    {
        &self.code_points
    }

    /// The strings, each below the next by bytes.
    pub fn strings(&self) -> &[String]
        ensures strings { map string_bytes result.now ≡ self.now.strings }
        ensures valid { AreStrings self.now.strings }
    {
        &self.strings
    }

    /// The same set and strings: borrowed code points are borrowed again, all else is copied. The only
    /// error is `AllocError`.
    pub fn clone(
        &self,
        alloc: Global,
    ) -> Result<CodePointInversionListAndStringList<'a>, AllocError>
        ensures { IfOk result (λ set. set ≡ self.now) }
    {
        let code_points = self.code_points.clone(alloc)?;
        let strings = self.strings.clone()?;
        Ok(CodePointInversionListAndStringList {
            code_points,
            strings,
        })
    }

    /// Whether there is a string.
    pub fn has_strings(&self) -> bool
        ensures { IsTrue result ↔ (self.now.strings ≢ []) }
    {
        !self.strings.is_empty()
    }

    /// The number of code points and of strings.
    pub fn size(&self) -> usize
        ensures { result ≡ count_below (holds self.now.code_points) 0x110000 + length self.now.strings }
    {
        self.code_points.size() + self.strings.len()
    }

    /// Whether the set holds a code point; no number past 10FFFF hex is one. A binary search, which
    /// allocates nothing.
    pub fn contains32(&self, code_point: u32) -> bool
        ensures { result ≡ holds self.now.code_points code_point }
    {
        self.code_points.contains32(code_point)
    }

    /// Whether the set holds a character.
    pub fn contains(&self, character: char) -> bool
        ensures { result ≡ holds self.now.code_points character }
    {
        self.code_points.contains(character)
    }

    /// Whether the set holds a text: of one character, whether its code points hold that; of another
    /// text, whether it is one of the strings. A binary search, which allocates nothing.
    pub fn contains_str(&self, text: &str) -> bool
        ensures character { (c : ℕ) → chars text.now ≡ c ∷ [] → result ≡ holds self.now.code_points c }
        ensures string { length (chars text.now) ≢ 1 → (IsTrue result ↔ Contains self.now.strings text.now) }
    {
        match only_character(text) {
            Some(character) => self.contains(character),
            None => self
                .strings
                .binary_search_by(|string| string.as_str().cmp(text))
                .is_ok(),
        }
    }
}

impl PartialEq for CodePointInversionListAndStringList<'_> {
    ghost eq = { λ a b. pointwise nat_eq a.code_points b.code_points && pointwise (pointwise nat_eq) a.strings b.strings };

    ghost laws = { and_per
        (on_per (λ set. set.code_points) (partial_equiv_from_equiv nat_list_eq_equiv))
        (on_per (λ set. set.strings) (lists_per (partial_equiv_from_equiv nat_list_eq_equiv))) };

    fn eq(&self, other: &Self) -> bool {
        self.code_points == other.code_points && self.strings == other.strings
    }
}

impl Eq for CodePointInversionListAndStringList<'_> {
    ghost laws = { and_equiv
        (on_equiv (λ set. set.code_points) nat_list_eq_equiv)
        (on_equiv (λ set. set.strings) (lists_equiv nat_list_eq_equiv)) };
}

impl Hash for CodePointInversionListAndStringList<'_> {
    ghost hash_input = { λ set. fed.slice fed.u32 set.code_points ++ fed.slice fed.str set.strings };

    ghost respects_eq = { fed_alike.fed };

    fn hash<H: Hasher>(&self, state: &mut H) {
        self.code_points.hash(state);
        self.strings.hash(state);
    }
}
