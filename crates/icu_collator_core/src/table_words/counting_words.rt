//! The word that counts for a character.

ghost use Rattle.std.specs.Prelude.{◌≡◌, Option};
ghost use Rattle.icu_normalizer_core.specs.BorrowedMeaning.{borrowed_meaning};
ghost use Rattle.icu_collator_core.specs.ReadWords.{AreSaidBy, table_word};
ghost use Rattle.icu_collator_core.specs.TableMeaning.{counting_word, diacritic, secondary_word, tailored_word, weights_of, word_in};

use crate::table_words::fields::word_at;
use crate::tables::{CollationData, CollationTables};
use icu_normalizer_core::built_in::is_jamo;
use icu_normalizer_core::canonical::CanonicalBorrowed;
use icu_packed_vector::PackedVec;

/// The word by which a tailoring leaves a character to the root.
pub(crate) const FALLBACK: u32 = 0xc0;

/// A word, and the data in whose lists it names indices.
#[derive(Clone, Copy, Debug)]
pub(crate) struct CountingWord<'t> {
    /// The word.
    pub(crate) word: u32,
    /// The data.
    pub(crate) source: &'t CollationData<'t>,
}

/// The word that data have for a character.
fn word_in<'t>(source: &'t CollationData<'_>, c: char) -> CountingWord<'t>
    ensures { table_word result ≡ word_in source.now c }
{
    CountingWord {
        word: source.trie.get(c),
        source,
    }
}

/// The word of the tailoring, unless it leaves the character to the root.
fn tailored_word<'t>(tables: &'t CollationTables<'_>, c: char) -> CountingWord<'t>
    ensures { table_word result ≡ tailored_word tables.now c }
{
    let Some(tailoring) = &tables.tailoring else {
        return word_in(&tables.root, c);
    };
    let entry = word_in(tailoring, c);
    if entry.word == FALLBACK {
        word_in(&tables.root, c)
    } else {
        entry
    }
}

/// The secondary that the table of diacritics has for a mark.
fn diacritic(
    canonical: CanonicalBorrowed<'_>,
    secondaries: &PackedVec<'_, u16>,
    c: char,
) -> Option<u16>
    ensures { result ≡ diacritic (borrowed_meaning canonical.entry) secondaries.now c }
{
    let code = c as u32;
    if code < 0x300 {
        return None;
    }
    let secondary = secondaries.get((code - 0x300) as usize);
    if secondary.is_none() || canonical.is_starter(c) {
        return None;
    }
    secondary
}

/// The word of an element with this secondary, the common tertiary and no primary.
pub(crate) fn secondary_word(secondary: u16) -> u32
    ensures { result ≡ secondary_word secondary }
{
    ((secondary as u32) << 16) + 0x05c2
}

/// The word that counts for a character: that of a mark's secondary in the table of diacritics, that of a jamo in
/// its table, else that of the tailoring or the root.
#[tactic(auto, unfolding(crate::specs::TableMeaning::counting_word))]
fn found_word<'t>(
    canonical: CanonicalBorrowed<'_>,
    tables: &'t CollationTables<'_>,
    c: char,
) -> CountingWord<'t>
    ensures { table_word result ≡ counting_word (borrowed_meaning canonical.entry) tables.now c }
{
    let code = c as u32;
    if let Some(secondary) = diacritic(canonical, &tables.diacritics.secondaries, c) {
        return CountingWord {
            word: secondary_word(secondary),
            source: &tables.root,
        };
    }
    if is_jamo(code) {
        return CountingWord {
            word: word_at(&tables.jamo.ce32s, (code - 0x1100) as usize),
            source: &tables.root,
        };
    }
    tailored_word(tables, c)
}

/// The word that counts for a character, by which the tables' weights say all that they say of it.
pub(crate) fn counting_word<'t>(
    canonical: CanonicalBorrowed<'_>,
    tables: &'t CollationTables<'_>,
    c: char,
) -> CountingWord<'t>
    ensures word { table_word result ≡ counting_word (borrowed_meaning canonical.entry) tables.now c }
    ensures said { AreSaidBy (weights_of (borrowed_meaning canonical.entry) tables.now) (table_word result) c }
{
    found_word(canonical, tables, c)
}
