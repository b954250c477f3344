//! The rule on the characters below U+0300: each is a starter and its own composed list, and the lowest have no mapping
//! (C7).

ghost use Rattle.std.specs.Prelude.{All, ◌≡◌, ◌≢◌, ℕ, ◌<◌, ◌≤◌, ◌+◌, ◌⊎◌, ◌↔◌, ◌∷◌, ◌++◌, ◌&&◌, List, [], map, length, take, drop, sum_by, ltb, true, false, IsTrue, IfOk, OnOk, MatchOption};
ghost use Rattle.icu_normalizer_core.specs.Canonical.{composed, composing, marks_in_order, put_in_order, recomposed};
ghost use Rattle.icu_normalizer_core.specs.BuiltIn.{is_built_in};
ghost use Rattle.collate_lines.specs.Record.{said};
ghost use Rattle.collate_rules.specs.PartMaps.{is_excluded};
ghost use Rattle.collate_rules.specs.Meaning.{canonical_of, class_of, compatibility_of, expanded, full_of, step_of};
ghost use Rattle.collate_rules.specs.Rules.{HasBadLow, IsBadlyLow};
ghost use Rattle.collate_rules.specs.CanonicalParts.{in_full, IsShort};
ghost use Rattle.collate_rules.specs.Breaches.{AnswersBreach, AnswersClear};
ghost use Rattle.collate_rules.specs.LowParts.{AreLeft, IsAlwaysOwn, IsAlwaysPair, IsNeverBadlyLow, NeverHasBadLow, left_of, turns};
ghost use Rattle.collate_rules.specs.Offenders.{NoneOffends, IsFirstOffender};

use collate_lines::record::Record;
use collate_lines::rule::Rule;
use collate_rules::canonical_parts::CanonicalParts;
use collate_rules::parts::first_breach;
use icu_normalizer_core::built_in::is_built_in;
use icu_normalizer_core::properties::Decomposed;
use std::alloc::{AllocError, Global};

/// The first line with which a character below U+0300 is a mark, isn't its own composed list, or has a mapping that it may
/// not have (rule C7, docs/RECORDS.md). Lines count from 0; `None` where no line offends.
///
/// It is meant for lines that close no loop (C2): else a list is followed for as many steps as there are code points.
///
/// Errors: `AllocError` where memory is refused.
pub fn first_bad_low(alloc: Global, records: &[Record]) -> Result<Option<usize>, AllocError>
    requires { All IsShort (map said records.now) }
    ensures { IfOk result (λ found. MatchOption found (NoneOffends Rule.C7 (map said records.now)) (λ i. IsFirstOffender Rule.C7 (map said records.now) i)) }
{
    first_breach(
        alloc,
        records,
        |parts: &CanonicalParts|
            ensures { AnswersClear Rule.C7 parts.now.list.items result }
        { Ok(never_has_bad_low(parts)) },
        |parts: &CanonicalParts|
            ensures { AnswersBreach Rule.C7 parts.now.list.items result }
        { has_bad_low(alloc, parts) },
    )
}

/// Whether it is plain that at no beginning of parts a character below U+0300 is what it may not be.
fn never_has_bad_low(parts: &CanonicalParts) -> bool
    ensures { IsTrue result → NeverHasBadLow parts.now.list.items }
{
    for part in &parts.list {
        if !is_never_badly_low(parts, part.character()) {
            return false;
        }
    }
    true
}

/// Whether it is plain that at no beginning of parts a character is below U+0300, and a mark, not its own composed list,
/// or mapped where it may not be.
fn is_never_badly_low(parts: &CanonicalParts, c: char) -> bool
    ensures { IsTrue result → IsNeverBadlyLow parts.now.list.items c }
{
    if c >= '\u{300}' {
        return true;
    }
    if parts.class_of(c) != 0 || is_mapped_too_low(parts, c) {
        return false;
    }
    is_always_own(parts, c)
}

/// Whether it is plain that at each beginning of parts a character is its own composed list: mapping steps take a second
/// character off it again and again, at most eight times, each step is a pair that composes, and the full list's marks stand
/// in order as they are.
fn is_always_own(parts: &CanonicalParts, c: char) -> bool
    ensures { IsTrue result → IsAlwaysOwn parts.now.list.items c }
{
    let mut left: u32 = 8;
    let mut front = c;
    let mut next_class = 0;
    'following: while left > 0 {
        if parts.class_of(front) != 0 {
            return false;
        }
        match parts.step_of(front) {
            Decomposed::Default => return true,
            Decomposed::Singleton(_) => return false,
            Decomposed::Expansion(first, second) => {
                let class = parts.class_of(second);
                if is_mark_below(next_class, class) {
                    return false;
                }
                if !is_always_pair(parts, front, first, second) {
                    return false;
                }
                left -= 1;
                front = first;
                next_class = class;
            }
        }
    }
    false
}

/// Whether two characters, of which the second isn't mapped, compose to a character once that is mapped to them.
fn is_always_pair(parts: &CanonicalParts, c: char, first: char, second: char) -> bool
    ensures { IsTrue result → IsAlwaysPair (map in_full parts.now.list.items) c first second }
{
    let Some(pair) = parts.pair_of(first, second) else {
        return false;
    };
    if pair != c {
        return false;
    }
    if !is_unmapped(parts, second) {
        return false;
    }
    is_let_compose(parts, c)
}

/// Whether a character has no canonical mapping.
fn is_unmapped(parts: &CanonicalParts, c: char) -> bool
    ensures { IsTrue result → step_of (map in_full parts.now.list.items) c ≡ [] }
{
    matches!(parts.step_of(c), Decomposed::Default)
}

/// Whether a character is built in, or the line that maps it first lets it be composed.
fn is_let_compose(parts: &CanonicalParts, c: char) -> bool
    ensures { IsTrue result → (is_built_in c ≡ true) ⊎ (is_excluded (map in_full parts.now.list.items) c ≡ false) }
{
    is_built_in(c as u32) || !parts.is_excluded(c)
}

/// Whether a character below U+0300 is what it may not be.
fn has_bad_low(alloc: Global, parts: &CanonicalParts) -> Result<bool, AllocError>
    ensures { IfOk result (λ b. IsTrue b ↔ HasBadLow (map in_full parts.now.list.items)) }
{
    for part in &parts.list {
        let is_bad = is_badly_low(alloc, parts, part.character())?;
        if is_bad {
            return Ok(true);
        }
    }
    Ok(false)
}

/// Whether a character is below U+0300, and a mark, not its own composed list, or mapped where it may not be.
fn is_badly_low(alloc: Global, parts: &CanonicalParts, c: char) -> Result<bool, AllocError>
    ensures { IfOk result (λ b. IsTrue b ↔ IsBadlyLow (map in_full parts.now.list.items) c) }
{
    if c >= '\u{300}' {
        return Ok(false);
    }
    if parts.class_of(c) != 0 || is_mapped_too_low(parts, c) {
        return Ok(true);
    }
    let is_own = is_own_composed(alloc, parts, c)?;
    Ok(!is_own)
}

/// Whether a character has a mapping and is below the characters that may have one of its kind.
fn is_mapped_too_low(parts: &CanonicalParts, c: char) -> bool
    ensures { IsTrue result ↔ (((c < 0xc0) × (step_of (map in_full parts.now.list.items) c ≢ [])) ⊎ ((c < 0xa0) × (compatibility_of (map in_full parts.now.list.items) c ≢ []))) }
{
    (c < '\u{c0}' && is_mapped(parts, c)) || (c < '\u{a0}' && has_compatibility(parts, c))
}

/// Whether a character has a canonical mapping.
fn is_mapped(parts: &CanonicalParts, c: char) -> bool
    ensures { IsTrue result ↔ (step_of (map in_full parts.now.list.items) c ≢ []) }
{
    !matches!(parts.step_of(c), Decomposed::Default)
}

/// Whether a character has a compatibility mapping.
fn has_compatibility(parts: &CanonicalParts, c: char) -> bool
    ensures { IsTrue result ↔ (compatibility_of (map in_full parts.now.list.items) c ≢ []) }
{
    !parts.compatibility_of(c).is_none()
}

/// Whether a character is its own composed list.
fn is_own_composed(alloc: Global, parts: &CanonicalParts, c: char) -> Result<bool, AllocError>
    ensures { IfOk result (λ b. IsTrue b ↔ (composed (canonical_of (map in_full parts.now.list.items)) (c ∷ []) ≡ c ∷ [])) }
{
    let list = list_in_order(alloc, parts, c)?;
    Ok(recomposes_to(parts, &list, c))
}

/// What steps leave of a character, its marks in order. `AllocError` where memory is refused.
///
/// The list is made from its end: what stands before it waits, the last on top.
fn list_in_order(alloc: Global, parts: &CanonicalParts, c: char) -> Result<Vec<char>, AllocError>
    ensures { IfOk result (λ list. list.items ≡ marks_in_order (class_of (map in_full parts.now.list.items)) (full_of (map in_full parts.now.list.items) c)) }
{
    let mut list = Vec::new(alloc);
    let mut waiting = Vec::new(alloc);
    waiting.push((c, 0x110000))?;
    'stepping: while let Some((last, limit)) = waiting.pop() {
        step_or_put(parts, last, limit, &mut waiting, &mut list)?;
    }
    Ok(list)
}

/// Puts a character before a list, so that its marks stay in order, if no step leads on from it; else what its step gives waits.
/// At most `limit` steps may follow. `AllocError` where memory is refused.
fn step_or_put(
    parts: &CanonicalParts,
    c: char,
    limit: u32,
    waiting: &mut Vec<(char, u32)>,
    list: &mut Vec<char>,
) -> Result<(), AllocError>
    ensures left { (rest : List ℕ) → list.old.items ≡ marks_in_order (class_of (map in_full parts.now.list.items)) rest → OnOk result (AreLeft (map in_full parts.now.list.items) (left_of (step_of (map in_full parts.now.list.items)) waiting.old.items ++ (expanded (step_of (map in_full parts.now.list.items)) limit c ++ rest)) waiting.new.items list.new.items) }
    ensures fewer { OnOk result (sum_by (λ w. turns w.1) waiting.new.items < sum_by (λ w. turns w.1) waiting.old.items + turns limit) }
{
    if limit == 0 {
        return put_in_order(parts, c, list);
    }
    match parts.step_of(c) {
        Decomposed::Default => put_in_order(parts, c, list),
        Decomposed::Singleton(first) => {
            waiting.push((first, limit - 1))?;
            Ok(())
        }
        Decomposed::Expansion(first, second) => {
            waiting.push((first, limit - 1))?;
            waiting.push((second, limit - 1))?;
            Ok(())
        }
    }
}

/// Puts a character before a list, after the marks of a lower class. `AllocError` where memory is refused.
fn put_in_order(parts: &CanonicalParts, c: char, list: &mut Vec<char>) -> Result<(), AllocError>
    ensures { OnOk result (list.new.items ≡ put_in_order (class_of (map in_full parts.now.list.items)) c list.old.items) }
{
    let index = place_in_order(parts, c, list);
    list.insert(index, c)?;
    Ok(())
}

/// How many marks of a lower class stand at the front of a list.
fn place_in_order(parts: &CanonicalParts, c: char, list: &[char]) -> usize
    ensures within { result ≤ length list.now }
    ensures index { put_in_order (class_of (map in_full parts.now.list.items)) c list.now ≡ take result list.now ++ c ∷ drop result list.now }
{
    let class = parts.class_of(c);
    let mut index = 0;
    while index < list.len() && is_mark_below(parts.class_of(list[index]), class) {
        index += 1;
    }
    index
}

/// Whether a class is that of a mark, and below the other.
fn is_mark_below(class: u16, other: u16) -> bool
    ensures { result ≡ ltb 0 class && ltb class other }
{
    0 < class && class < other
}

/// Whether a decomposed list is composed to one character, this one.
fn recomposes_to(parts: &CanonicalParts, list: &[char], c: char) -> bool
    ensures { IsTrue result ↔ (recomposed (canonical_of (map in_full parts.now.list.items)) list.now ≡ c ∷ []) }
{
    match list.split_first() {
        Some((first, rest)) => {
            if parts.class_of(*first) == 0 {
                composes_to(parts, *first, rest, c)
            } else {
                *first == c && rest.is_empty()
            }
        }
        None => false,
    }
}

/// Whether a starter and what follows it are composed to one character, this one.
fn composes_to(parts: &CanonicalParts, starter: char, rest: &[char], c: char) -> bool
    ensures { IsTrue result ↔ (composing (canonical_of (map in_full parts.now.list.items)) starter [] rest.now ≡ c ∷ []) }
{
    let mut composed = starter;
    for next in rest {
        match parts.pair_of(composed, *next) {
            Some(pair) => composed = pair,
            None => return false,
        }
    }
    composed == c
}
