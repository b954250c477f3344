//! The decomposed list of a text, made in place (NFD, UAX 15).

ghost use Rattle.std.specs.Prelude.{◌≡◌, ◌++◌, ◌∷◌, ℕ, List, [], true, take, drop, IfOk, OnErr, OnOk};
ghost use Rattle.std.specs.Iterator.{IsFinite};
ghost use lib.Utf8.{scalar, scalars};
ghost use Rattle.icu_normalizer_core.specs.BorrowedMeaning.{borrowed_meaning};
ghost use Rattle.icu_normalizer_core.specs.Canonical.{decomposed, marks_in_order};
ghost use Rattle.icu_normalizer_core.specs.Iter.{Spells};
ghost use Rattle.icu_collator_core.specs.Decomposing.{Appends, HasMarksFrom};

use icu_normalizer_core::canonical::{CanonicalBorrowed, Reading};
use icu_normalizer_core::decomposition::{FormData, sort_marks};
use smallvec::SmallVec;
use std::alloc::{AllocError, Global};

/// Appends a character. Fails only if memory is refused.
#[inline(always)]
fn push_character(list: &mut SmallVec<char, 64>, c: char) -> Result<(), AllocError>
    ensures items { OnOk result (list.new.items ≡ list.old.items ++ c ∷ []) }
    ensures character { scalar c ≡ true }
{
    list.push(c)?;
    Ok(())
}

/// Puts the marks from an index on in their order. Fails only if memory is refused.
#[inline(always)]
fn close(
    canonical: CanonicalBorrowed<'_>,
    list: &mut SmallVec<char, 64>,
    ready: usize,
) -> Result<(), AllocError>
    requires { HasMarksFrom (borrowed_meaning canonical).class list.old.items ready }
    ensures { OnOk result (list.new.items ≡ take ready list.old.items ++ marks_in_order (borrowed_meaning canonical.entry).class (drop ready list.old.items)) }
{
    sort_marks(FormData::Canonical(canonical), list, ready)
}

/// Appends a character of this class, and answers up to where the list is in order then. Fails only if memory is
/// refused.
#[inline(always)]
fn push_classed(
    canonical: CanonicalBorrowed<'_>,
    list: &mut SmallVec<char, 64>,
    ready: usize,
    c: char,
    class: u8,
) -> Result<usize, AllocError>
    requires class { class ≡ (borrowed_meaning canonical).class c }
    requires marks { HasMarksFrom (borrowed_meaning canonical).class list.old.items ready }
    ensures { IfOk result (λ next. Appends (borrowed_meaning canonical.entry).class list.old.items ready (c ∷ []) list.new.items next) }
{
    if class == 0 {
        close(canonical, list, ready)?;
        push_character(list, c)?;
        Ok(list.len())
    } else {
        push_character(list, c)?;
        Ok(ready)
    }
}

/// Appends a character that is its own full list, and answers up to where the list is in order then. Fails only if
/// memory is refused.
fn push_own(
    canonical: CanonicalBorrowed<'_>,
    list: &mut SmallVec<char, 64>,
    ready: usize,
    c: char,
) -> Result<usize, AllocError>
    requires { HasMarksFrom (borrowed_meaning canonical).class list.old.items ready }
    ensures { IfOk result (λ next. Appends (borrowed_meaning canonical.entry).class list.old.items ready (c ∷ []) list.new.items next) }
{
    let class = canonical.class(c);
    push_classed(canonical, list, ready, c, class)
}

/// Appends two characters, each its own full list, and answers up to where the list is in order then. Fails only if
/// memory is refused.
#[inline(never)]
fn push_two(
    canonical: CanonicalBorrowed<'_>,
    list: &mut SmallVec<char, 64>,
    ready: usize,
    first: char,
    second: char,
) -> Result<usize, AllocError>
    requires { HasMarksFrom (borrowed_meaning canonical).class list.old.items ready }
    ensures { IfOk result (λ next. Appends (borrowed_meaning canonical.entry).class list.old.items ready (first ∷ second ∷ []) list.new.items next) }
{
    let between = push_own(canonical, list, ready, first)?;
    let next = push_own(canonical, list, between, second)?;
    Ok(next)
}

/// Appends the full list of a character, and answers up to where the list is in order then. Fails only if memory is
/// refused.
#[inline(never)]
fn push_full_list(
    canonical: CanonicalBorrowed<'_>,
    list: &mut SmallVec<char, 64>,
    ready: usize,
    c: char,
) -> Result<usize, AllocError>
    requires { HasMarksFrom (borrowed_meaning canonical).class list.old.items ready }
    ensures { IfOk result (λ next. Appends (borrowed_meaning canonical.entry).class list.old.items ready ((borrowed_meaning canonical.entry).full c) list.new.items next) }
{
    let mut next = ready;
    for d in canonical.full_list(c) {
        next = push_own(canonical, list, next, d)?;
    }
    Ok(next)
}

/// The same, by one read where that tells enough.
#[inline(always)]
#[tactic(auto, using(crate::proofs::readings::DecomposingLemmas::low_itself, crate::proofs::readings::DecomposingLemmas::low_starter))]
fn push_decomposed(
    canonical: CanonicalBorrowed<'_>,
    list: &mut SmallVec<char, 64>,
    ready: usize,
    c: char,
) -> Result<usize, AllocError>
    requires { HasMarksFrom (borrowed_meaning canonical).class list.old.items ready }
    ensures { IfOk result (λ next. Appends (borrowed_meaning canonical.entry).class list.old.items ready ((borrowed_meaning canonical.entry).full c) list.new.items next) }
{
    canonical.keep_promise();
    if c < '\u{a0}' {
        return push_classed(canonical, list, ready, c, 0);
    }
    match canonical.reading(c) {
        Reading::Itself(class) => push_classed(canonical, list, ready, c, class),
        Reading::Two(first, second) => push_two(canonical, list, ready, first, second),
        Reading::Three(_, _, _) => push_full_list(canonical, list, ready, c),
        Reading::Other => push_full_list(canonical, list, ready, c),
    }
}

/// Appends the decomposed list of the characters that an iterator gives to a list that has none. Fails only if memory
/// is refused.
fn fill<I: Iterator<Item = char> + Drop>(
    canonical: CanonicalBorrowed<'_>,
    chars: I,
    list: &mut SmallVec<char, 64>,
) -> Result<(), AllocError>
    requires can { I.can_next chars }
    requires finite { IsFinite (I.remaining chars) }
    requires empty { list.old.items ≡ [] }
    ensures list { OnOk result ((cs : List ℕ) → Spells I.next_gives chars cs → list.new.items ≡ decomposed (borrowed_meaning canonical.entry) cs) }
    ensures characters { OnOk result (scalars list.new.items ≡ true) }
{
    let mut ready = 0;
    for c in chars {
        ready = push_decomposed(canonical, list, ready, c)?;
    }
    close(canonical, list, ready)?;
    Ok(())
}

/// Makes a list the decomposed one of the characters that an iterator gives, whatever it held. Fails only if memory is
/// refused, and then the list has no character.
pub(crate) fn decompose_into<I: Iterator<Item = char> + Drop>(
    canonical: CanonicalBorrowed<'_>,
    chars: I,
    list: &mut SmallVec<char, 64>,
) -> Result<(), AllocError>
    requires can { I.can_next chars }
    requires finite { IsFinite (I.remaining chars) }
    ensures list { OnOk result ((cs : List ℕ) → Spells I.next_gives chars cs → list.new.items ≡ decomposed (borrowed_meaning canonical.entry) cs) }
    ensures characters { scalars list.new.items ≡ true }
    ensures none { OnErr result (list.new.items ≡ []) }
{
    list.clear();
    if let Err(error) = fill(canonical, chars, list) {
        list.clear();
        return Err(error);
    }
    Ok(())
}
