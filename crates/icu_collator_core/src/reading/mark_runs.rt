//! Long runs of marks, read by the classes of the marks: what a text takes out of a run stands first among what is left of
//! its class, so that nothing is moved, and marks that can't join are passed over a class at a time.

ghost use Rattle.std.specs.Prelude.{◌≡◌, ◌+◌, ◌<◌, ◌≤◌, ◌∷◌, ◌++◌, ◌==◌, ◌&&◌, ℕ, List, [], Option, OnOk, IfOk, IfSome, IsTrue, MatchOption, drop, false, is_some, length, not, slice_index, slice_index_or, slice_set, take, true};
ghost use lib.Utf8.{scalars};
ghost use Rattle.icu_char16trie.specs.Cursors.{trie_units};
ghost use Rattle.icu_normalizer_core.specs.BorrowedMeaning.{borrowed_meaning};
ghost use Rattle.icu_collator_core.specs.ElementLists.{unpacked};
ghost use Rattle.icu_collator_core.specs.Elements.{Placed, characters_of, is_before_accent, placed, reading};
ghost use Rattle.icu_collator_core.specs.JoinedTexts.{has_suffixes};
ghost use Rattle.icu_collator_core.specs.MarkRuns.{HasJoinedClass, HasLeft, HasMetClass, HasReadFirst, HavePushed, are_of_class, are_of_classes, ends_run, is_class_of_marks, marks_left};
ghost use Rattle.icu_collator_core.specs.ReadSources.{canonical_by, weights_by};
ghost use Rattle.icu_collator_core.specs.ReadSteps.{IsRead};
ghost use Rattle.icu_collator_core.specs.ReadTexts.{suffix_units};
ghost use Rattle.icu_collator_core.specs.ReadWords.{table_word};
ghost use Rattle.icu_collator_core.specs.TableSettings.{has_bit};

use super::accents::{is_accent, is_accent_at};
use super::checked_words::checked_word;
use crate::sound::SoundTables;
use crate::table_words::counting_words::CountingWord;
use crate::table_words::defaults::special_primary;
use crate::tables::CollationTables;
use icu_char16trie::{Char16Trie, Char16TrieIterator};
use icu_collator_types::elements::CollationElement;
use icu_normalizer_core::canonical::CanonicalBorrowed;
use smallvec::SmallVec;
use std::alloc::AllocError;

/// How many marks after another make a run long.
const MANY: usize = 32;

/// What is left of marks of one class that follow one another.
#[derive(Clone, Copy, Debug)]
pub(crate) struct ClassMarks<'l> {
    /// Their class.
    class: u8,
    /// The marks.
    marks: &'l [char],
}

/// A text that marks of a run may join yet.
#[derive(Clone, Copy, Debug)]
struct MarkedText<'t> {
    /// After what the text has after its first character.
    cursor: Char16TrieIterator<'t>,
    /// The text's word; `None` where it is a character alone.
    word: Option<u32>,
    /// The highest class among the marks left between.
    highest: u8,
}

/// Whether a long run of marks begins at an index of a list.
pub(crate) fn begins_long_run(canonical: CanonicalBorrowed<'_>, list: &[char], index: usize) -> bool
    requires inside { index < length list.now }
    ensures { IsTrue result → not ((borrowed_meaning canonical.entry).class (slice_index list.now index) == 0) ≡ true }
{
    if list.len() - index <= MANY {
        return false;
    }
    for i in 0..MANY {
        if canonical.class(list[index + MANY - i]) == 0 {
            return false;
        }
    }
    canonical.class(list[index]) != 0
}

/// Where the marks of a class end that stand in a list from an index on.
fn class_end(canonical: CanonicalBorrowed<'_>, list: &[char], index: usize, class: u8) -> usize
    requires inside { index ≤ length list.now }
    requires characters { scalars list.now ≡ true }
    ensures begins { index ≤ result }
    ensures within { result ≤ length list.now }
    ensures onward { index < length list.now → (borrowed_meaning canonical.entry).class (slice_index list.now index) ≡ class → index < result }
    ensures marks { are_of_class (borrowed_meaning canonical.entry).class class (drop index (take result list.now)) ≡ true }
{
    for i in index..list.len() {
        if canonical.class(list[i]) != class {
            return i;
        }
    }
    list.len()
}

/// The marks of a class that stand in a list from an index on, up to another index.
fn class_marks(list: &[char], start: usize, end: usize, class: u8) -> ClassMarks<'_>
    requires order { start ≤ end }
    requires inside { end ≤ length list.now }
    ensures class { result.class ≡ class }
    ensures marks { result.marks.now ≡ drop start (take end list.now) }
{
    ClassMarks {
        class,
        marks: &list[start..end],
    }
}

/// Appends the marks that stand in a list from an index on, up to the next starter, class by class; answers where that
/// starter stands. Fails only if memory is refused.
fn gather<'l>(
    canonical: CanonicalBorrowed<'_>,
    list: &'l [char],
    index: usize,
    classes: &mut Vec<ClassMarks<'l>>,
) -> Result<usize, AllocError>
    requires inside { index ≤ length list.now }
    requires characters { scalars list.now ≡ true }
    requires none { classes.old.items ≡ [] }
    ensures begins { IfOk result (λ end. index ≤ end) }
    ensures within { IfOk result (λ end. end ≤ length list.now) }
    ensures left { IfOk result (λ end. marks_left classes.new.items ≡ drop index (take end list.now)) }
    ensures marks { OnOk result (are_of_classes (borrowed_meaning canonical.entry).class classes.new.items ≡ true) }
    ensures ended { IfOk result (λ end. ends_run (borrowed_meaning canonical.entry).class (drop end (placed list.now)) ≡ true) }
{
    let mut end = index;
    'gathering: while end < list.len() {
        let class = canonical.class(list[end]);
        if class == 0 {
            return Ok(end);
        }
        let next = class_end(canonical, list, end, class);
        classes.push(class_marks(list, end, next, class))?;
        end = next;
    }
    Ok(end)
}

/// What is left of the class at an index.
fn class_at<'l>(classes: &[ClassMarks<'l>], i: usize) -> ClassMarks<'l>
    requires { i < length classes.now }
    ensures { result ≡ slice_index_or classes.now i result }
{
    classes[i]
}

/// Leaves other marks of the class at an index.
fn put_class<'l>(classes: &mut [ClassMarks<'l>], i: usize, left: ClassMarks<'l>)
    requires { i < length classes.old }
    ensures { classes.new ≡ slice_set classes.old i left.entry }
{
    classes[i] = left;
}

impl<'l> ClassMarks<'l> {
    /// The first of the marks, and what is left without it; `None` where none is left.
    fn split_first(self) -> Option<(char, ClassMarks<'l>)>
        ensures class { IfSome result (λ split. split.1.class ≡ self.entry.class) }
        ensures marks { MatchOption result (self.entry.marks.now ≡ []) (λ split. self.entry.marks.now ≡ split.0 ∷ split.1.marks.now) }
    {
        let (first, rest) = self.marks.split_first()?;
        let left = ClassMarks {
            class: self.class,
            marks: rest,
        };
        Some((*first, left))
    }

    /// What is left without so many of the first marks.
    fn without(self, count: usize) -> ClassMarks<'l>
        requires { count ≤ length self.marks.now }
        ensures class { result.class ≡ self.entry.class }
        ensures marks { result.marks.now ≡ drop count self.entry.marks.now }
    {
        ClassMarks {
            class: self.class,
            marks: &self.marks[count..],
        }
    }
}

/// The first mark that is left; `None` where none is.
fn first_left(classes: &[ClassMarks<'_>]) -> Option<char>
    ensures { MatchOption result (marks_left classes.now ≡ []) (λ c. marks_left classes.now ≡ c ∷ drop 1 (marks_left classes.now)) }
{
    for i in 0..classes.len() {
        let left = class_at(classes, i);
        if let Some((first, _rest)) = left.split_first() {
            return Some(first);
        }
    }
    None
}

/// Takes the first mark that is left; `None` where none is.
fn take_first(classes: &mut [ClassMarks<'_>]) -> Option<char>
    ensures taken { MatchOption result (marks_left classes.old ≡ []) (λ c. marks_left classes.old ≡ c ∷ marks_left classes.new) }
    ensures marks { (class : ℕ → ℕ) → are_of_classes class classes.old ≡ true → are_of_classes class classes.new ≡ true }
{
    for i in 0..classes.len() {
        let left = class_at(classes, i);
        if let Some((first, rest)) = left.split_first() {
            put_class(classes, i, rest);
            return Some(first);
        }
    }
    None
}

impl MarkedText<'_> {
    /// Marks of this class, which is above the highest among the marks left between, join in turn, up to the first that
    /// doesn't; answers how many did.
    fn join_class(&mut self, entry: CountingWord<'_>, class: u8, marks: &[char]) -> usize
        requires above { self.old.highest < class }
        ensures within { result ≤ length marks.now }
        ensures joined { HasJoinedClass (table_word entry.entry) class marks.now self.old result self.new }
    {
        for i in 0..marks.len() {
            let Some(word) = entry.join(&mut self.cursor, marks[i]) else {
                self.highest = class;
                return i;
            };
            self.word = Some(word);
        }
        marks.len()
    }

    /// Reads the marks that are left of a class, and answers what is left of them then.
    fn meets_class<'l>(&mut self, entry: CountingWord<'_>, left: ClassMarks<'l>) -> ClassMarks<'l>
        ensures met { HasMetClass (table_word entry.entry) left.entry self.old result self.new }
        ensures marks { (class : ℕ → ℕ) → is_class_of_marks class left.entry ≡ true → is_class_of_marks class result ≡ true }
        ensures fewer { length result.marks.now ≤ length left.entry.marks.now }
    {
        if left.class <= self.highest {
            return left;
        }
        let count = self.join_class(entry, left.class, left.marks);
        left.without(count)
    }
}

/// The word of the text that begins with the character of a word and that marks of a run join, which are taken out of
/// it; `None` where none does. The trie has what may stand after the character.
fn join_classes(
    entry: CountingWord<'_>,
    trie: &Char16Trie<'_>,
    classes: &mut [ClassMarks<'_>],
) -> Option<u32>
    requires trie { trie_units trie.now ≡ suffix_units (table_word entry) }
    requires suffixes { has_suffixes (table_word entry) ≡ true }
    ensures left { HasLeft (table_word entry.entry) classes.old classes.new result }
    ensures marks { (class : ℕ → ℕ) → are_of_classes class classes.old ≡ true → are_of_classes class classes.new ≡ true }
    ensures fewer { length (marks_left classes.new) ≤ length (marks_left classes.old) }
{
    let mut text = MarkedText {
        cursor: trie.iter(),
        word: None,
        highest: 0,
    };
    for i in 0..classes.len() {
        let left = class_at(classes, i);
        let later = text.meets_class(entry, left);
        put_class(classes, i, later);
    }
    text.word
}

/// The same, where the character may begin no longer text.
fn joined_word(entry: CountingWord<'_>, classes: &mut [ClassMarks<'_>]) -> Option<u32>
    ensures left { HasLeft (table_word entry.entry) classes.old classes.new result }
    ensures marks { (class : ℕ → ℕ) → are_of_classes class classes.old ≡ true → are_of_classes class classes.new ≡ true }
    ensures fewer { length (marks_left classes.new) ≤ length (marks_left classes.old) }
{
    match entry.suffixes() {
        Some(trie) => join_classes(entry, &trie, classes),
        None => None,
    }
}

/// Whether an accent stands before what is left of a run, and of a list after it.
fn is_before_accent(classes: &[ClassMarks<'_>], list: &[char], end: usize) -> bool
    requires { end ≤ length list.now }
    ensures { (here : List Placed) → characters_of here ≡ marks_left classes.now → result ≡ is_before_accent (here ++ drop end (placed list.now)) }
{
    match first_left(classes) {
        Some(mark) => is_accent(mark),
        None => is_accent_at(list, end),
    }
}

/// Whether a character is a dot above that is dropped, by what is left of a run, and of a list after it.
fn is_dropped(
    tables: &CollationTables<'_>,
    c: char,
    classes: &[ClassMarks<'_>],
    list: &[char],
    end: usize,
) -> bool
    requires { end ≤ length list.now }
    ensures { (here : List Placed) → characters_of here ≡ marks_left classes.now
        → result ≡ (has_bit 6 tables.now.metadata.bits && (c == 0x307) && is_before_accent (here ++ drop end (placed list.now))) }
{
    tables.metadata.lithuanian_dot_above() && c == '\u{307}' && is_before_accent(classes, list, end)
}

/// Appends the elements of the text that begins with the character of a word and that marks of a run join, which are
/// taken out of it. Fails only if memory is refused.
fn push_joined(
    entry: CountingWord<'_>,
    c: char,
    classes: &mut [ClassMarks<'_>],
    ready: &mut SmallVec<CollationElement, 32>,
) -> Result<(), AllocError>
    ensures pushed { OnOk result (HavePushed (table_word entry.entry) c classes.old classes.new ready.old.items ready.new.items) }
    ensures marks { (class : ℕ → ℕ) → are_of_classes class classes.old ≡ true → are_of_classes class classes.new ≡ true }
    ensures fewer { length (marks_left classes.new) ≤ length (marks_left classes.old) }
{
    match joined_word(entry, classes) {
        Some(word) => entry.push_spelled(c, word, ready)?,
        None => entry.push_alone(c, ready)?,
    }
    Ok(())
}

/// Reads a mark that stands before what is left of a run, and takes the marks that join it out of that: appends its
/// elements. Fails only if memory is refused.
fn read_mark(
    sound: &SoundTables<'_>,
    c: char,
    classes: &mut [ClassMarks<'_>],
    list: &[char],
    end: usize,
    ready: &mut SmallVec<CollationElement, 32>,
) -> Result<(), AllocError>
    requires inside { end ≤ length list.now }
    requires characters { scalars list.now ≡ true }
    requires mark { not ((canonical_by sound.now).class c == 0) ≡ true }
    requires marks { are_of_classes (canonical_by sound.now).class classes.old ≡ true }
    requires ended { ends_run (canonical_by sound.now).class (drop end (placed list.now)) ≡ true }
    ensures read { OnOk result ((numeric : Option ℕ) (p : Placed) (here : List Placed) → p.character ≡ c → characters_of here ≡ marks_left classes.old
        → HasReadFirst (reading (canonical_by sound.now) (weights_by numeric sound.now) (is_some numeric) p (here ++ drop end (placed list.now))) (drop end (placed list.now)) classes.new ready.old.items ready.new.items) }
    ensures marks { are_of_classes (canonical_by sound.now).class classes.new ≡ true }
    ensures fewer { length (marks_left classes.new) ≤ length (marks_left classes.old) }
{
    sound.keep_promise();
    match special_primary(c as u32) {
        Some(primary) => {
            ready.push(CollationElement::new_from_primary(primary))?;
            Ok(())
        }
        None => {
            if is_dropped(sound.tables(), c, classes, list, end) {
                return Ok(());
            }
            let entry = checked_word(sound, c);
            push_joined(entry, c, classes, ready)?;
            Ok(())
        }
    }
}

/// Reads what is left of a run, which stands in a list between two indices: appends the elements. Fails only if memory
/// is refused.
fn read_gathered(
    sound: &SoundTables<'_>,
    list: &[char],
    index: usize,
    end: usize,
    classes: &mut [ClassMarks<'_>],
    ready: &mut SmallVec<CollationElement, 32>,
) -> Result<(), AllocError>
    requires order { index ≤ end }
    requires inside { end ≤ length list.now }
    requires characters { scalars list.now ≡ true }
    requires left { marks_left classes.old ≡ drop index (take end list.now) }
    requires marks { are_of_classes (canonical_by sound.now).class classes.old ≡ true }
    requires ended { ends_run (canonical_by sound.now).class (drop end (placed list.now)) ≡ true }
    ensures { OnOk result ((numeric : Option ℕ)
        → IsRead (canonical_by sound.now) (weights_by numeric sound.now) (is_some numeric) list.now index (unpacked ready.old.items) list.now end (unpacked ready.new.items)) }
{
    for _mark in index..end {
        let Some(c) = take_first(classes) else {
            return Ok(());
        };
        read_mark(sound, c, classes, list, end, ready)?;
    }
    Ok(())
}

/// Reads the marks that stand in a list from an index on, up to the next starter: appends their elements, and answers where
/// that starter stands. Takes time in proportion to the run, with as many classes as it has. Fails only if memory is
/// refused.
pub(crate) fn read_marks(
    sound: &SoundTables<'_>,
    list: &[char],
    index: usize,
    ready: &mut SmallVec<CollationElement, 32>,
) -> Result<usize, AllocError>
    requires inside { index < length list.now }
    requires characters { scalars list.now ≡ true }
    requires mark { not ((canonical_by sound.now).class (slice_index list.now index) == 0) ≡ true }
    ensures read { IfOk result (λ next. (numeric : Option ℕ)
        → IsRead (canonical_by sound.now) (weights_by numeric sound.now) (is_some numeric) list.now index (unpacked ready.old.items) list.now next (unpacked ready.new.items)) }
    ensures onward { IfOk result (λ next. index < next) }
    ensures within { IfOk result (λ next. next ≤ length list.now) }
{
    let mut classes = Vec::new(*ready.allocator());
    let end = gather(sound.canonical(), list, index, &mut classes)?;
    read_gathered(sound, list, index, end, &mut classes, ready)?;
    Ok(end)
}
