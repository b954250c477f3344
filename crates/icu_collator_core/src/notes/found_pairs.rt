//! What is to be noted of characters that stand together, of which the first begins recorded texts or the second has recorded prefixes,
//! or both are low: found once for all.

ghost use Rattle.std.specs.Prelude.{◌≡◌, ◌∷◌, ℕ, All, List, [], IfOk, None, OnOk, Some, false, is_some, true};
ghost use Rattle.icu_collator_core.specs.ElementLists.{unpacked};
ghost use Rattle.icu_collator_core.specs.Elements.{elements_of_list};
ghost use Rattle.icu_collator_core.specs.Pairs.{ArePairNotes, IsClosedPair, IsComposedApart, IsPair, IsPairApart, IsPairNote};
ghost use Rattle.icu_collator_core.specs.ReadSources.{canonical_by, weights_by};
ghost use Rattle.icu_collator_core.specs.ReadTexts.{longer_by};
ghost use Rattle.icu_collator_core.specs.ReadWords.{AreSaidBy, table_word};
ghost use Rattle.icu_collator_core.specs.Weights.{Weights};
ghost use Rattle.icu_collator_core.specs.declared.reading.suffixes.LongerText.{LongerText};

use super::boundaries::is_boundary;
use super::flat_note::{BEFORE_BOUNDARY, FlatNote};
use super::flat_notes::{FLAT_END, is_kept_apart};
use super::pages::NotePage;
use super::pairs::{PairNote, PairNotes};
use crate::reading::checked_words::checked_word;
use crate::reading::lists::list_elements;
use crate::reading::prefixes::is_told_alone;
use crate::reading::suffixes::is_last;
use crate::sound::{SoundTables, is_own_list};
use crate::table_words::counting_words::CountingWord;
use icu_char16trie::{Char16Trie, TrieResult};
use smallvec::SmallVec;
use std::alloc::{AllocError, Global};

/// How many pairs are tried at the most, so that no tables take long.
const MOST_TRIED: usize = 100_000;

/// As many looks at recorded prefixes count as a pair that is tried.
const LOOKS_A_TRY: usize = 16;

/// The low characters end before this one: the Latin alphabets are among them.
const LOW_END: u32 = 0x250;

/// How many low characters are tried at the most with each low one, whether texts that begin with that go on with them or not.
const MOST_LOW: usize = 16;

impl CountingWord<'_> {
    /// Whether no text that begins with the character of the word and this one goes on.
    fn ends_with(self, second: char) -> bool
        ensures { result ≡ true → (cs : List ℕ) → longer_by (table_word self.entry) (second ∷ cs) ≡ longer_by (table_word self.entry) (second ∷ []) }
    {
        let Some(trie) = self.suffixes() else {
            return true;
        };
        let mut cursor = trie.iter();
        let answer = cursor.next(second);
        is_last(answer)
    }

    /// Whether the character of the word and another are a recorded text.
    fn begins_with(self, second: char) -> bool
        ensures text { result ≡ true → (text : LongerText) × (longer_by (table_word self.entry) (second ∷ []) ≡ Some text) × (text.behind ≡ 1) }
        ensures recorded { result ≡ true → (weights : Weights) (c : ℕ) → AreSaidBy weights (table_word self.entry) c
            → is_some (weights.recorded [] (c ∷ second ∷ [])) ≡ true }
    {
        match self.longer_text(&[second], 0) {
            Some(_text) => true,
            None => false,
        }
    }
}

/// Whether anything may stand after two characters, of which the second is a starter: they are a recorded text, no text begins
/// with them, and the first is read so wherever it stands.
fn is_closed(sound: &SoundTables<'_>, first: char, second: char) -> bool
    ensures { result ≡ true → IsClosedPair sound.now first second }
{
    if is_kept_apart(sound, first) {
        return false;
    }
    let word = checked_word(sound, first);
    if !word.is_unprefixed() {
        return false;
    }
    if !word.begins_with(second) {
        return false;
    }
    word.ends_with(second)
}

/// Whether recorded texts go on with the character of a code.
fn goes_on(trie: &Char16Trie<'_>, code: u32) -> bool {
    match char::from_u32(code) {
        Some(c) => {
            let mut cursor = trie.iter();
            !matches!(cursor.next(c), TrieResult::NoMatch)
        }
        None => false,
    }
}

/// Whether with the character of a code a prefix is recorded that ends with this one.
fn is_behind(sound: &SoundTables<'_>, last: char, code: u32) -> bool {
    match char::from_u32(code) {
        Some(c) => checked_word(sound, c).has_prefix_with(last),
        None => false,
    }
}

/// Whether a character is no digit.
fn is_uncounted(sound: &SoundTables<'_>, c: char) -> bool
    ensures { result ≡ true → (weights_by None sound.now).digit c ≡ None }
{
    checked_word(sound, c).digit().is_none()
}

/// Whether two characters, of which the second is its own full list, are no digits, the first is a boundary, and they tell alone which
/// recorded prefixes count.
fn is_apart(sound: &SoundTables<'_>, first: char, second: char) -> bool
    ensures { result ≡ true → IsPairApart sound.now first second }
{
    if !is_own_list(sound.canonical(), second) {
        return false;
    }
    if !is_uncounted(sound, first) {
        return false;
    }
    if !is_uncounted(sound, second) {
        return false;
    }
    if !is_boundary(sound, first) {
        return false;
    }
    is_told_alone(sound, &[first, second])
}

/// The same of three, of which the third is a starter that is its own full list.
fn is_composed_apart(sound: &SoundTables<'_>, first: char, mark: char, second: char) -> bool
    ensures { result ≡ true → IsComposedApart sound.now first mark second }
{
    if !is_own_list(sound.canonical(), second) {
        return false;
    }
    if !sound.canonical().is_starter(second) {
        return false;
    }
    if !is_uncounted(sound, first) {
        return false;
    }
    if !is_uncounted(sound, mark) {
        return false;
    }
    if !is_uncounted(sound, second) {
        return false;
    }
    if !is_boundary(sound, first) {
        return false;
    }
    is_told_alone(sound, &[first, mark, second])
}

/// What may stand after two characters: 0 where anything may after the second, a starter, else 256.
fn trail_of(sound: &SoundTables<'_>, head: char, second: char) -> u16
    requires { IsPairApart sound.now head second }
    ensures { (items : List ℕ) → unpacked items ≡ elements_of_list (canonical_by sound.now) (weights_by None sound.now) false (head ∷ second ∷ [])
        → (first : ℕ) → (canonical_by sound.now).full first ≡ head ∷ [] → IsPair sound.now first second items result }
{
    if !sound.canonical().is_starter(second) {
        return BEFORE_BOUNDARY;
    }
    if is_closed(sound, head, second) {
        return 0;
    }
    BEFORE_BOUNDARY
}

/// Appends what is to be noted of a character whose full list is one, and another, if anything is. Fails only if memory is
/// refused.
fn push_own(
    alloc: Global,
    sound: &SoundTables<'_>,
    first: char,
    head: char,
    second: char,
    pairs: &mut Vec<PairNote>,
) -> Result<(), AllocError>
    requires full { (canonical_by sound.now).full first ≡ head ∷ [] }
    requires noted { All (IsPairNote sound.now) pairs.old.items }
    ensures { OnOk result (All (IsPairNote sound.now) pairs.new.items) }
{
    if !is_apart(sound, head, second) {
        return Ok(());
    }
    let mut list = SmallVec::new(alloc);
    list.push(head)?;
    list.push(second)?;
    let elements = list_elements(alloc, sound, None, list)?;
    let trail = trail_of(sound, head, second);
    match PairNote::of(first, second, elements.as_slice(), trail) {
        Some(pair) => {
            pairs.push(pair)?;
            Ok(())
        }
        None => Ok(()),
    }
}

/// The same of a character whose full list is two, and another.
fn push_composed(
    alloc: Global,
    sound: &SoundTables<'_>,
    first: char,
    head: char,
    mark: char,
    second: char,
    pairs: &mut Vec<PairNote>,
) -> Result<(), AllocError>
    requires full { (canonical_by sound.now).full first ≡ head ∷ mark ∷ [] }
    requires noted { All (IsPairNote sound.now) pairs.old.items }
    ensures { OnOk result (All (IsPairNote sound.now) pairs.new.items) }
{
    if !is_composed_apart(sound, head, mark, second) {
        return Ok(());
    }
    let mut list = SmallVec::new(alloc);
    list.push(head)?;
    list.push(mark)?;
    list.push(second)?;
    let elements = list_elements(alloc, sound, None, list)?;
    match PairNote::of(first, second, elements.as_slice(), BEFORE_BOUNDARY) {
        Some(pair) => {
            pairs.push(pair)?;
            Ok(())
        }
        None => Ok(()),
    }
}

/// Appends what is to be noted of two characters, if anything is. Fails only if memory is refused.
fn push_note(
    alloc: Global,
    sound: &SoundTables<'_>,
    first: char,
    second: char,
    pairs: &mut Vec<PairNote>,
) -> Result<(), AllocError>
    requires { All (IsPairNote sound.now) pairs.old.items }
    ensures { OnOk result (All (IsPairNote sound.now) pairs.new.items) }
{
    let mut list = sound.canonical().full_list(first);
    let Some(head) = list.next() else {
        return Ok(());
    };
    let Some(mark) = list.next() else {
        push_own(alloc, sound, first, head, second, pairs)?;
        return Ok(());
    };
    if list.next().is_some() {
        return Ok(());
    }
    push_composed(alloc, sound, first, head, mark, second, pairs)?;
    Ok(())
}

/// Appends what is to be noted of a character and that of a code, if it is one. Fails only if memory is refused.
fn push_pair(
    alloc: Global,
    sound: &SoundTables<'_>,
    first: char,
    code: u32,
    pairs: &mut Vec<PairNote>,
) -> Result<(), AllocError>
    requires { All (IsPairNote sound.now) pairs.old.items }
    ensures { OnOk result (All (IsPairNote sound.now) pairs.new.items) }
{
    match char::from_u32(code) {
        Some(second) => {
            push_note(alloc, sound, first, second, pairs)?;
            Ok(())
        }
        None => Ok(()),
    }
}

/// Appends what is to be noted of a character with each of those with which texts that begin with it go on. Fails only if memory
/// is refused.
fn push_joined(
    alloc: Global,
    sound: &SoundTables<'_>,
    first: char,
    trie: &Char16Trie<'_>,
    seconds: &[u32],
    pairs: &mut Vec<PairNote>,
) -> Result<(), AllocError>
    requires { All (IsPairNote sound.now) pairs.old.items }
    ensures { OnOk result (All (IsPairNote sound.now) pairs.new.items) }
{
    for code in seconds {
        if goes_on(trie, *code) {
            push_pair(alloc, sound, first, *code, pairs)?;
        }
    }
    Ok(())
}

/// Appends what is to be noted of a character with each of some others and with each that joins it, and answers how many were tried.
/// Fails only if memory is refused.
fn push_pairs(
    alloc: Global,
    sound: &SoundTables<'_>,
    first: char,
    seconds: &[u32],
    others: &[u32],
    pairs: &mut Vec<PairNote>,
) -> Result<usize, AllocError>
    requires { All (IsPairNote sound.now) pairs.old.items }
    ensures { OnOk result (All (IsPairNote sound.now) pairs.new.items) }
{
    for code in others {
        push_pair(alloc, sound, first, *code, pairs)?;
    }
    match checked_word(sound, first).suffixes() {
        Some(trie) => {
            push_joined(alloc, sound, first, &trie, seconds, pairs)?;
            Ok(seconds.len().saturating_add(others.len()))
        }
        None => Ok(others.len()),
    }
}

/// Those of some characters with which prefixes are recorded, and so many of the low ones, the first. Fails only if memory is
/// refused.
fn prefixed_or_low(
    alloc: Global,
    sound: &SoundTables<'_>,
    codes: &[u32],
    low: usize,
) -> Result<Vec<u32>, AllocError> {
    let mut chosen = Vec::new(alloc);
    for code in codes {
        if *code < LOW_END && chosen.len() < low {
            chosen.push(*code)?;
        } else if let Some(c) = char::from_u32(*code) {
            if !checked_word(sound, c).is_unprefixed() {
                chosen.push(*code)?;
            }
        }
    }
    Ok(chosen)
}

/// Whether a code is from U+0800 on.
fn is_any_high(codes: &[u32]) -> bool {
    for code in codes {
        if *code >= FLAT_END {
            return true;
        }
    }
    false
}

/// Those that are tried with the character of a code: these, or these with low ones.
fn tried_with<'o>(code: u32, prefixed: &'o [u32], with_low: &'o [u32]) -> &'o [u32] {
    if code < LOW_END { with_low } else { prefixed }
}

/// What is noted of the character of a code: of a low one, or in pages.
fn noted<'n>(flat: &'n [FlatNote], pages: &'n [NotePage], code: u32) -> Option<&'n FlatNote> {
    let code = code as usize;
    match flat.get(code) {
        Some(note) => Some(note),
        None => pages.get(code / 64)?.get(code % 64),
    }
}

/// Appends what is to be noted of a character with those of others that have a recorded prefix which ends with it. Fails only if memory
/// is refused.
fn push_behind(
    alloc: Global,
    sound: &SoundTables<'_>,
    first: char,
    others: &[u32],
    pairs: &mut Vec<PairNote>,
) -> Result<(), AllocError>
    requires { All (IsPairNote sound.now) pairs.old.items }
    ensures { OnOk result (All (IsPairNote sound.now) pairs.new.items) }
{
    for code in others {
        if is_behind(sound, first, *code) {
            push_pair(alloc, sound, first, *code, pairs)?;
        }
    }
    Ok(())
}

/// Appends what is to be noted of the character of a code with others, where anything is noted of it alone, and answers how many were
/// tried. Fails only if memory is refused.
fn push_of(
    alloc: Global,
    sound: &SoundTables<'_>,
    code: u32,
    note: Option<&FlatNote>,
    seconds: &[u32],
    others: &[u32],
    pairs: &mut Vec<PairNote>,
) -> Result<usize, AllocError>
    requires { All (IsPairNote sound.now) pairs.old.items }
    ensures { OnOk result (All (IsPairNote sound.now) pairs.new.items) }
{
    let Some(note) = note else {
        return Ok(0);
    };
    let Some(first) = char::from_u32(code) else {
        return Ok(0);
    };
    if note.asks_boundary() {
        let tried = push_pairs(alloc, sound, first, seconds, others, pairs)?;
        return Ok(tried);
    }
    push_behind(alloc, sound, first, others, pairs)?;
    Ok(others.len() / LOOKS_A_TRY)
}

/// The notes of pairs whose second characters are unsafe by what is recorded, and whose first have a note after which a boundary has to
/// follow, or end a prefix that is recorded with the second; as far as not too many are tried. Fails only if memory is refused.
pub(crate) fn pair_notes(
    alloc: Global,
    sound: &SoundTables<'_>,
    flat: &[FlatNote],
    pages: &[NotePage],
) -> Result<PairNotes, AllocError>
    ensures { IfOk result (λ notes. ArePairNotes sound.now notes) }
{
    let seconds = sound.unsafe_characters();
    let prefixed = prefixed_or_low(alloc, sound, seconds, 0)?;
    let with_low = prefixed_or_low(alloc, sound, seconds, MOST_LOW)?;
    let mut pairs = Vec::new(alloc);
    let mut tried = 0usize;
    for code in 0..0x1_0000 {
        if tried >= MOST_TRIED {
            break;
        }
        let note = noted(flat, pages, code);
        let others = tried_with(code, prefixed.as_slice(), with_low.as_slice());
        let more = push_of(alloc, sound, code, note, seconds, others, &mut pairs)?;
        tried = tried.saturating_add(more);
    }
    let are_high_prefixed = is_any_high(&prefixed);
    let notes = PairNotes::placed(alloc, pairs.as_slice(), are_high_prefixed)?;
    Ok(notes)
}
