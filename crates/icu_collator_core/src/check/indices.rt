//! Words of characters that name what is not in the lists.

ghost use Rattle.std.specs.Prelude.{◌≡◌, ◌↔◌, IsTrue, IfOk, MatchOption};
ghost use Rattle.icu_collator_core.specs.TableFaults.{AllPassIn, HasIndices, IsFirstRefused};
ghost use Rattle.icu_collator_core.specs.TableMeaning.{pools_of};
ghost use Rattle.icu_collator_core.specs.WordForms.{ValuesPass};
ghost use Rattle.icu_collator_core.specs.WordIndices.{has_list, has_items, has_digit_word, has_context, IsContractionInside, IsUnprefixedInside, IsPrefixInside, IsInside};

use super::layers::Layer;
use super::refused_characters::{CharacterTest, first_refused};
use super::runs::behind_unrecorded;
use super::values::{ValueTest, values_pass};
use crate::table_words::contexts::default_of;
use crate::table_words::fields::{has_tag, index_of, length_of, word_at};
use crate::tables::{CollationData, CollationTables};
use icu_collator_types::elements::Tag;
use std::alloc::{AllocError, Global};

/// Whether a word with this tag names a part of a list of this length, not empty.
fn has_list(tag: Tag, len: usize, word: u32) -> bool
    ensures { result ≡ has_list tag len word }
{
    let index = index_of(word);
    let count = length_of(word);
    !has_tag(word, tag) || (count >= 1 && index + count <= len)
}

/// Whether the words or elements that an expansion or an offset names are in the lists.
fn has_items(source: &CollationData<'_>, word: u32) -> bool
    ensures { result ≡ has_items (pools_of source.now) word }
{
    has_list(Tag::Expansion32, source.ce32s.len(), word)
        && has_list(Tag::Expansion, source.ces.len(), word)
        && (!has_tag(word, Tag::Offset) || index_of(word) < source.ces.len())
}

/// Whether the word of a digit is in the list, and what it names.
fn has_digit_word(source: &CollationData<'_>, word: u32) -> bool
    ensures { result ≡ has_digit_word (pools_of source.now) word }
{
    if !has_tag(word, Tag::Digit) {
        return true;
    }
    let index = index_of(word);
    index < source.ce32s.len() && has_items(source, word_at(&source.ce32s, index))
}

/// Whether the default of a context is in the list, and one unit after it.
fn has_context(source: &CollationData<'_>, word: u32) -> bool
    ensures { result ≡ has_context (pools_of source.now) word }
{
    index_of(word) + 2 < source.contexts.len()
}

/// The test for words that name what is in the lists.
#[derive(Drop)]
struct WordsInside<'d, 'a> {
    source: &'d CollationData<'a>,
}

impl<'d, 'a> ValueTest for WordsInside<'d, 'a> {
    ghost use Rattle.icu_collator_core.specs.TableMeaning.{pools_of};
    ghost use Rattle.icu_collator_core.specs.WordIndices.{has_items};

    ghost test = { λ words. has_items (pools_of words.source.now) };

    fn passes(&self, word: u32) -> bool {
        has_items(self.source, word)
    }
}

/// Whether the values of the context that a word names are such words.
fn are_values_inside(
    alloc: Global,
    source: &CollationData<'_>,
    word: u32,
) -> Result<bool, AllocError>
    ensures { IfOk result (λ all. IsTrue all ↔ ValuesPass (pools_of source.now) (has_items (pools_of source.now)) word) }
{
    let test = WordsInside { source };
    let all = values_pass(alloc, &source.contexts, index_of(word), &test)?;
    Ok(all)
}

/// Whether the context of a contraction is in the list, and what the words in it name.
fn is_contraction_inside(
    alloc: Global,
    source: &CollationData<'_>,
    word: u32,
) -> Result<bool, AllocError>
    ensures { IfOk result (λ yes. IsTrue yes ↔ IsContractionInside (pools_of source.now) word) }
{
    if !has_tag(word, Tag::Contraction) {
        return Ok(true);
    }
    let default = default_of(source, word);
    if !has_context(source, word) || !has_items(source, default) {
        return Ok(false);
    }
    let all = are_values_inside(alloc, source, word)?;
    Ok(all)
}

/// The same where no prefix counts.
fn is_unprefixed_inside(
    alloc: Global,
    source: &CollationData<'_>,
    word: u32,
) -> Result<bool, AllocError>
    ensures { IfOk result (λ yes. IsTrue yes ↔ IsUnprefixedInside (pools_of source.now) word) }
{
    if !has_items(source, word) || !has_digit_word(source, word) {
        return Ok(false);
    }
    let yes = is_contraction_inside(alloc, source, word)?;
    Ok(yes)
}

/// Whether the context of a prefix is in the list, and what the words in it name.
fn is_prefix_inside(
    alloc: Global,
    source: &CollationData<'_>,
    word: u32,
) -> Result<bool, AllocError>
    ensures { IfOk result (λ yes. IsTrue yes ↔ IsPrefixInside (pools_of source.now) word) }
{
    if !has_tag(word, Tag::Prefix) {
        return Ok(true);
    }
    if !has_context(source, word) {
        return Ok(false);
    }
    let default = default_of(source, word);
    let unprefixed = is_unprefixed_inside(alloc, source, default)?;
    if !unprefixed {
        return Ok(false);
    }
    let all = are_values_inside(alloc, source, word)?;
    Ok(all)
}

/// Whether all that a word of a character names is in the lists.
fn is_inside(alloc: Global, source: &CollationData<'_>, word: u32) -> Result<bool, AllocError>
    ensures { IfOk result (λ yes. IsTrue yes ↔ IsInside (pools_of source.now) word) }
{
    let unprefixed = is_unprefixed_inside(alloc, source, word)?;
    if !unprefixed {
        return Ok(false);
    }
    let prefixed = is_prefix_inside(alloc, source, word)?;
    Ok(prefixed)
}

/// The test for words that name what is in the lists.
#[derive(Drop)]
struct IndexTest;

impl CharacterTest for IndexTest {
    ghost use Rattle.icu_collator_core.specs.TableFaults.{HasIndices};

    ghost Passes = { λ _ layer source c. HasIndices layer source c };

    fn passes(
        &self,
        alloc: Global,
        _layer: Layer,
        source: &CollationData<'_>,
        c: char,
    ) -> Result<bool, AllocError> {
        let word = source.trie.get(c);
        let yes = is_inside(alloc, source, word)?;
        Ok(yes)
    }

    fn next_code(&self, layer: Layer, source: &CollationData<'_>, code: u32) -> u32 {
        behind_unrecorded(layer, source, code)
    }
}

/// The first character whose word names what is not in the lists, `None` where there is none. Fails only if memory is
/// refused.
pub(crate) fn first_index_fault(
    alloc: Global,
    tables: &CollationTables<'_>,
) -> Result<Option<char>, AllocError>
    ensures { IfOk result (λ found. MatchOption found (AllPassIn tables.now HasIndices) (IsFirstRefused tables.now HasIndices)) }
{
    let test = IndexTest;
    let found = first_refused(alloc, tables, &test)?;
    Ok(found)
}
