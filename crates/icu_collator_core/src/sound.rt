//! Tables that were checked, with the canonical data that they are read with: what the reading of texts stands on.

ghost use Rattle.std.specs.Prelude.{◌≡◌, ◌↔◌, [], ◌∷◌, ℕ, List, IsTrue, MatchOption, MatchResult};
ghost use Rattle.icu_normalizer_core.specs.BorrowedMeaning.{borrowed_meaning, borrowed_tables};
ghost use Rattle.icu_normalizer_core.specs.CanonicalMeaning.{meaning};
ghost use Rattle.icu_collator_core.specs.Acceptance.{IsAccepted, IsRefusal};
ghost use Rattle.icu_collator_core.specs.PlainCharacters.{IsOwnBeginning};
ghost use Rattle.icu_collator_core.specs.TableMeaning.{weights_of};
ghost use Rattle.icu_collator_core.specs.UnsafeWords.{AreUnsafeByRecords};
ghost use Rattle.icu_collator_core.specs.UnsafeCharacters.{IsUnsafe, IsUnsafeItself};

use crate::check::TableFault;
use crate::check::faults::judge;
use crate::tables::CollationTables;
use crate::unsafe_characters::{holds, unsafe_by_records};
use icu_normalizer_core::canonical::{CanonicalBorrowed, CanonicalData, Reading};
use std::alloc::Global;
use std::marker::Model;

/// Tables that pass every check, with their canonical data, seen as the tables of both.
#[derive(Debug)]
pub(crate) struct SoundTables<'a> {
    canonical: CanonicalData<'a>,
    tables: CollationTables<'a>,
    /// the characters that are unsafe by what is recorded.
    unsafe_characters: Vec<u32>,
}

// (let go of as one, and not part by part, so that what owns one is proved sooner)
impl Drop for SoundTables<'_> {
    fn drop(self) {
        let SoundTables {
            canonical: _,
            tables: _,
            unsafe_characters: _,
        } = self;
    }
}

impl<'a> Model for SoundTables<'a> {
    ghost use Rattle.icu_normalizer_core.specs.CanonicalMeaning.{meaning};
    ghost use Rattle.icu_collator_core.specs.Acceptance.{CollationSource, IsAccepted};
    ghost use Rattle.icu_collator_core.specs.TableMeaning.{weights_of};
    ghost use Rattle.icu_collator_core.specs.UnsafeWords.{AreUnsafeByRecords};

    ghost Value = { CollationSource };

    ghost view = { λ inside. record { canonical = inside.canonical; tables = inside.tables } };

    ghost invariant = { λ inside. IsAccepted (meaning inside.canonical) inside.tables
        × AreUnsafeByRecords (weights_of (meaning inside.canonical) inside.tables) inside.unsafe_characters.items };
}

/// The characters that tables make unsafe, where they pass every check; else what they are refused for.
fn judge_unsafe(
    alloc: Global,
    canonical: CanonicalBorrowed<'_>,
    tables: &CollationTables<'_>,
) -> Result<Vec<u32>, TableFault>
    ensures { MatchResult result
        (λ unsafe_characters. IsAccepted (borrowed_meaning canonical.entry) tables.now × AreUnsafeByRecords (weights_of (borrowed_meaning canonical.entry) tables.now) unsafe_characters.items)
        (IsRefusal (borrowed_meaning canonical.entry) tables.now) }
{
    judge(alloc, canonical, tables)?;
    let characters = unsafe_by_records(alloc, canonical, tables)?;
    Ok(characters)
}

/// The first character of a full list.
fn first_of_full(canonical: CanonicalBorrowed<'_>, c: char) -> Option<char>
    ensures { MatchOption result ((borrowed_meaning canonical.entry).full c ≡ []) (λ first. (rest : List ℕ) × ((borrowed_meaning canonical.entry).full c ≡ first ∷ rest)) }
{
    let mut list = canonical.full_list(c);
    list.next()
}

/// Whether one read tells that a character is its own full list.
pub(crate) fn is_own_list(canonical: CanonicalBorrowed<'_>, c: char) -> bool
    ensures { IsTrue result → (borrowed_meaning canonical.entry).full c ≡ c ∷ [] }
{
    match canonical.reading(c) {
        Reading::Itself(_class) => true,
        _ => false,
    }
}

impl<'a> SoundTables<'a> {
    /// Tables with canonical data, if they pass every check with these; the first fault otherwise. Want of memory can come
    /// with any tables. Reads the words of all characters.
    pub(crate) fn try_new(
        alloc: Global,
        canonical: CanonicalData<'a>,
        tables: CollationTables<'a>,
    ) -> Result<SoundTables<'a>, TableFault>
        ensures { MatchResult result
            (λ sound. (sound ≡ record { canonical = canonical.entry; tables = tables.entry }) × IsAccepted (meaning canonical.entry) tables.entry)
            (IsRefusal (meaning canonical.entry) tables.entry) }
    {
        match judge_unsafe(alloc, canonical.as_borrowed(), &tables) {
            Ok(unsafe_characters) => Ok(SoundTables {
                canonical,
                tables,
                unsafe_characters,
            }),
            Err(fault) => Err(fault),
        }
    }

    /// The canonical data that `try_new` was given. No memory is taken.
    pub(crate) fn canonical(&self) -> CanonicalBorrowed<'_>
        ensures { borrowed_tables result ≡ self.now.canonical }
    {
        self.canonical.as_borrowed()
    }

    /// The tables that `try_new` was given. No memory is taken.
    pub(crate) fn tables(&self) -> &CollationTables<'a>
        ensures { result.now ≡ self.now.tables }
    {
        &self.tables
    }

    /// Sound tables pass every check with their canonical data.
    ///
    /// It computes nothing: its contract is what every holder of sound tables knows.
    pub(crate) fn keep_promise(&self)
        ensures { IsAccepted (meaning self.now.canonical) self.now.tables }
    {
        let _tables = &self.tables;
    }

    /// The characters that are unsafe by what is recorded, rising.
    pub(crate) fn unsafe_characters(&self) -> &[u32] {
        self.unsafe_characters.as_slice()
    }

    /// Whether a character is its own full list, and reading may begin at it, by the tables alone.
    pub(crate) fn find_own_beginning(&self, c: char) -> bool
        ensures { IsTrue result → IsOwnBeginning (meaning self.now.canonical) (weights_of (meaning self.now.canonical) self.now.tables) c }
    {
        if !is_own_list(self.canonical(), c) {
            return false;
        }
        !self.is_unsafe_itself(c)
    }

    /// Whether no reading of a text may begin at a character: it is a mark, stands second or later in a recorded text or
    /// has a recorded prefix, or its full list begins with such a character. No memory is taken.
    pub(crate) fn is_unsafe(&self, c: char) -> bool
        ensures { IsTrue result ↔ IsUnsafe (meaning self.now.canonical) (weights_of (meaning self.now.canonical) self.now.tables) c }
    {
        if self.is_unsafe_itself(c) {
            return true;
        }
        match first_of_full(self.canonical(), c) {
            Some(first) => self.is_unsafe_itself(first),
            None => false,
        }
    }

    /// Whether a character is a mark, or unsafe by what is recorded.
    pub(crate) fn is_unsafe_itself(&self, c: char) -> bool
        ensures { IsTrue result ↔ IsUnsafeItself (meaning self.now.canonical) (weights_of (meaning self.now.canonical) self.now.tables) c }
    {
        if !self.canonical().is_starter(c) {
            return true;
        }
        holds(self.unsafe_characters.as_slice(), c)
    }
}
