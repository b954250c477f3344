//! Full lists that stand outside the tables, are too long, begin with a mark or aren't what mapping steps leave.

ghost use Rattle.std.specs.Prelude.{◌≡◌, [], ◌∷◌, true, false, MatchBool, MatchOption};
ghost use Rattle.icu_normalizer_core.specs.Canonical.{IsFree};
ghost use Rattle.icu_normalizer_core.specs.CanonicalFaults.{NoneOffends, IsLeastOffender, HasBadList, OffendsList, begins_with_mark};
ghost use Rattle.icu_normalizer_core.specs.CanonicalLists.{AreTriples};
ghost use Rattle.icu_normalizer_core.specs.CanonicalMeaning.{lists_of, meaning};
ghost use Rattle.icu_normalizer_core.specs.CanonicalWords.{is_inside};
ghost use Rattle.icu_normalizer_core.specs.Plain.{Tells};
ghost use Rattle.icu_normalizer_core.specs.Settled.{left_items, AreStarts, IsDone, IsLeftOf, LeavesOther};
ghost use Rattle.icu_normalizer_core.specs.Triples.{IsUnlisted};

use super::full_start::full_start;
use super::left::Left;
use super::marks::class_of;
use super::settle::listed_left;
use super::told::first_refused_of;
use crate::built_in::built_in_step;
use crate::canonical::canonical_words::{Words, is_list_word, states_list};
use crate::canonical::tables::CanonicalTables;
use icu_packed_vector::PackedVec;

/// Whether the word names no index outside the lists.
pub(super) fn is_inside(tables: &CanonicalTables<'_>, word: u32) -> bool
    ensures { result ≡ is_inside tables.now.scalars16 tables.now.scalars24 word }
{
    tables.words().is_inside(word)
}

impl Words<'_> {
    /// Whether a word names no index outside the lists.
    #[tactic(auto, unfolding(crate::specs::CanonicalWords::is_inside))]
    pub(crate) fn is_inside(self, word: u32) -> bool
        ensures { result ≡ is_inside self.entry.scalars16.now self.entry.scalars24.now word }
    {
        if !is_list_word(word) {
            return true;
        }
        let offset = (word / 0x1_0000) as usize - 1;
        let count = (word % 16) as usize;
        let in_16 = self.scalars16.len();
        if offset < in_16 {
            offset + (count + 2) <= in_16
        } else {
            let index = offset - in_16;
            index + (count + 1) <= self.scalars24.len()
        }
    }
}

/// Whether the first of the characters is a mark.
pub(crate) fn begins_with_mark(tables: &CanonicalTables<'_>, left: &Left) -> bool
    ensures { result ≡ begins_with_mark (meaning tables.now) (left_items left.now) }
{
    left.count > 0 && class_of(tables, left.characters[0]) != 0
}

/// Whether the characters are the first nine of what steps leave, where they end.
fn is_left(steps: &PackedVec<'_, u32>, settled: &[Option<Left>], c: u32, full: &Left) -> bool
    requires triples { AreTriples steps.now }
    requires starts { AreStarts steps.now settled.now }
    requires done { IsDone steps.now settled.now }
    requires free { IsFree c }
    ensures { MatchBool result (IsLeftOf steps.now (c ∷ []) full.now) (LeavesOther steps.now (c ∷ []) full.now) }
{
    match listed_left(steps, settled, c) {
        Some(left) => left.is(full),
        None => true,
    }
}

/// Whether nothing is wrong with the full list of a character without a built-in mapping.
fn has_good_list(tables: &CanonicalTables<'_>, settled: &[Option<Left>], c: char) -> bool
    requires triples { AreTriples tables.now.steps }
    requires starts { AreStarts tables.now.steps settled.now }
    requires done { IsDone tables.now.steps settled.now }
    requires free { IsFree c }
    ensures { MatchBool result (HasBadList (lists_of tables.now) c → ⊥) (HasBadList (lists_of tables.now) c) }
{
    let word = tables.word(c);
    if !is_inside(tables, word) {
        return false;
    }
    let full = full_start(tables, c);
    if full.count > 8 {
        return false;
    }
    if states_list(word) && begins_with_mark(tables, &full) {
        return false;
    }
    is_left(&tables.steps, settled, c as u32, &full)
}

/// Whether a triple can be the character's, which is neither below the first triple's nor above the last's.
fn may_have_triple(steps: &PackedVec<'_, u32>, c: u32) -> bool
    requires { AreTriples steps.now }
    ensures { result ≡ false → IsUnlisted steps.now c }
{
    let count = steps.len() / 3;
    if count == 0 || c < steps.at(0) || steps.at(3 * (count - 1)) < c {
        return false;
    }
    true
}

/// Whether nothing is wrong with the full list of a character, where mappings are triples.
fn is_good(tables: &CanonicalTables<'_>, settled: &[Option<Left>], c: char) -> bool
    requires triples { AreTriples tables.now.steps }
    requires starts { AreStarts tables.now.steps settled.now }
    requires done { IsDone tables.now.steps settled.now }
    ensures good { result ≡ true → OffendsList (lists_of tables.now) c → ⊥ }
    ensures bad { result ≡ false → OffendsList (lists_of tables.now) c }
{
    // Of most characters: the word says nothing, and no triple can be theirs.
    if tables.word(c) == 0 && !may_have_triple(&tables.steps, c as u32) {
        return true;
    }
    match built_in_step(c as u32) {
        Some(_) => true,
        None => has_good_list(tables, settled, c),
    }
}

/// The least character with a bad full list, `None` where there is none.
pub(super) fn first_bad_list(
    tables: &CanonicalTables<'_>,
    settled: &[Option<Left>],
    told: &[u32],
) -> Option<char>
    requires triples { AreTriples tables.now.steps }
    requires tells { Tells (lists_of tables.now) told.now }
    requires starts { AreStarts tables.now.steps settled.now }
    requires done { IsDone tables.now.steps settled.now }
    ensures { MatchOption result (NoneOffends (OffendsList (lists_of tables.now))) (IsLeastOffender (OffendsList (lists_of tables.now))) }
{
    first_refused_of(told, |c| is_good(tables, settled, c))
}
