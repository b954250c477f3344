//! What the words of characters record: of the character alone, and with suffixes.

ghost use Rattle.std.specs.Prelude.{◌≡◌, ◌^◌, ◌<◌, ◌↔◌, [], IsTrue, IfOk, is_some};
ghost use Rattle.icu_normalizer_core.specs.BorrowedMeaning.{borrowed_meaning};
ghost use Rattle.icu_collator_types.specs.declared.elements.word_tags.Tag.TheVariants.{Contraction};
ghost use Rattle.icu_collator_types.specs.ElementWords.{has_tag};
ghost use Rattle.icu_collator_core.specs.ContextFaults.{entry_in};
ghost use Rattle.icu_collator_core.specs.ContextRules.{KeysPass, is_recorded_by, is_recorded_shorter};
ghost use Rattle.icu_collator_core.specs.Pools.{index_of, trie_of, unprefixed_word};
ghost use Rattle.icu_collator_core.specs.TableMeaning.{pools_of, recorded_by};
ghost use Rattle.icu_collator_core.specs.TextFolds.{says_elements};

use super::walks::{TextTest, keys_pass};
use crate::check_weights::has_other_elements;
use crate::table_words::contexts::{units_of, word_of};
use crate::table_words::lone_words::lone_word;
use crate::table_words::word_elements::has_elements;
use crate::tables::{CollationData, CollationSpecialPrimaries};
use icu_char16trie::{Char16Trie, CursorPlace, TrieResult};
use icu_normalizer_core::canonical::CanonicalBorrowed;
use std::alloc::{AllocError, Global};

/// Whether a character is recorded alone, by its word.
pub(super) fn is_recorded_alone(
    special: &CollationSpecialPrimaries<'_>,
    source: &CollationData<'_>,
    c: char,
    word: u32,
) -> bool
    ensures { result ≡ is_some (recorded_by (entry_in source.now word) c [] []) }
{
    has_other_elements(special, source, c as u32, lone_word(source, word))
}

/// Whether an answer has a word that says elements.
fn says_elements(source: &CollationData<'_>, answer: TrieResult) -> bool
    ensures { result ≡ says_elements (pools_of source.now) answer }
{
    match word_of(answer) {
        Some(word) => has_elements(source, word),
        None => false,
    }
}

/// What is known of the characters so far of a text that stands after a character.
#[derive(Clone, Copy)]
pub(super) struct Recorded {
    /// Where a cursor stands that was given them.
    place: CursorPlace,
    /// They are recorded after the character, or there are none.
    is_recorded: bool,
    /// They don't end in a mark, or are recorded without it.
    is_kept: bool,
}

/// The test for texts that end in no mark or are recorded without it.
#[derive(Drop)]
struct RecordTest<'t, 'd, 'a> {
    canonical: CanonicalBorrowed<'d>,
    source: &'d CollationData<'a>,
    trie: &'d Char16Trie<'t>,
}

impl<'t, 'd, 'a> TextTest for RecordTest<'t, 'd, 'a> {
    ghost use Rattle.icu_char16trie.specs.Cursors.{trie_units};
    ghost use Rattle.icu_normalizer_core.specs.BorrowedMeaning.{borrowed_meaning};
    ghost use Rattle.icu_collator_core.specs.TableMeaning.{pools_of};
    ghost use Rattle.icu_collator_core.specs.TextFolds.{is_kept, recorded_with};

    type Folded = Recorded;

    ghost onward = { λ records. recorded_with (borrowed_meaning records.canonical) (pools_of records.source.now) (trie_units records.trie.now) };

    ghost test = { λ _ recorded. is_kept recorded };

    fn fold_character(&self, recorded: Recorded, c: char) -> Recorded {
        let mut cursor = self.trie.iter_from(recorded.place);
        let answer = cursor.next(c);
        Recorded {
            place: cursor.place(),
            is_recorded: says_elements(self.source, answer),
            is_kept: self.canonical.is_starter(c) || recorded.is_recorded,
        }
    }

    fn passes(&self, recorded: Recorded) -> bool {
        recorded.is_kept
    }

    fn is_same(&self, one: Recorded, other: Recorded) -> bool {
        one.is_recorded == other.is_recorded
            && one.is_kept == other.is_kept
            && one.place.is_same(other.place)
    }
}

/// Whether each key of the context that the word of a character names where no prefix counts is recorded after it without
/// its last mark, if it has two characters or more and ends in one. Fails only if memory is refused.
pub(super) fn are_recorded_shorter(
    alloc: Global,
    canonical: CanonicalBorrowed<'_>,
    source: &CollationData<'_>,
    c: char,
    word: u32,
    index: usize,
) -> Result<bool, AllocError>
    requires tagged { IsTrue (has_tag Contraction (unprefixed_word (pools_of source.now) word)) }
    requires named { index ≡ index_of (unprefixed_word (pools_of source.now) word) }
    requires index { index < 2 ^ 32 }
    ensures { IfOk result (λ all. IsTrue all ↔ KeysPass (is_recorded_shorter (borrowed_meaning canonical.entry) (is_recorded_by (entry_in source.now word)) c) (trie_of source.now.contexts index)) }
{
    let trie = Char16Trie::new(units_of(&source.contexts, index));
    let start = Recorded {
        place: trie.iter().place(),
        is_recorded: true,
        is_kept: true,
    };
    let test = RecordTest {
        canonical,
        source,
        trie: &trie,
    };
    let all = keys_pass(alloc, &source.contexts, index, &test, start)?;
    Ok(all)
}
