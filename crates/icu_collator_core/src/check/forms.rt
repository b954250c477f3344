//! Words of characters that have none of the forms.

ghost use Rattle.std.specs.Prelude.{◌≡◌, ◌+◌, ◌^◌, ◌<◌, ◌↔◌, IsTrue, IfOk, MatchOption};
ghost use Rattle.std.specs.List.{list_all};
ghost use Rattle.icu_normalizer_core.specs.CanonicalWords.{items_at};
ghost use Rattle.icu_collator_core.specs.TableFaults.{AllPassIn, HasWord, IsFirstRefused};
ghost use Rattle.icu_collator_core.specs.TableMeaning.{pools_of};
ghost use Rattle.icu_collator_core.specs.WordForms.{states_element, is_list_of_words, is_other_own, is_own_word, is_digit_word, is_fallback, ValuesPass, IsContraction, IsUnprefixedWord, IsPrefixed, IsWord, states_primary, keeps_special};

use super::layers::{FALLBACK_CE32, Layer, is_fallback};
use super::refused_characters::{CharacterTest, first_refused};
use super::runs::behind_unrecorded;
use super::values::{ValueTest, values_pass};
use crate::table_words::contexts::default_of;
use crate::table_words::defaults::special_primary;
use crate::table_words::fields::{
    digit_value, has_form, index_of, length_of, states_element, word_at,
};
use crate::tables::{CollationData, CollationTables};
use icu_collator_types::elements::{CollationElement, CollationElement32, Tag};
use icu_packed_vector::PackedVec;
use std::alloc::{AllocError, Global};

/// Whether all words of a list from an index on state elements, so many of them, or as many as there are.
fn all_state_elements(ce32s: &PackedVec<'_, u32>, index: usize, count: usize) -> bool
    requires { index + count < 2 ^ 32 }
    ensures { result ≡ list_all states_element (items_at ce32s.now index count) }
{
    for i in index..index + count {
        match ce32s.get(i) {
            Some(word) => {
                if !states_element(word) {
                    return false;
                }
            }
            None => {
                return true;
            }
        }
    }
    true
}

/// Whether a word names a list of words that state elements.
fn is_list_of_words(source: &CollationData<'_>, word: u32) -> bool
    ensures { result ≡ is_list_of_words (pools_of source.now) word }
{
    if !has_form(word, Tag::Expansion32) {
        return false;
    }
    all_state_elements(&source.ce32s, index_of(word), length_of(word))
}

/// Whether a word names other elements.
fn is_other_own(word: u32) -> bool
    ensures { result ≡ is_other_own word }
{
    has_form(word, Tag::Expansion) || has_form(word, Tag::Offset) || has_form(word, Tag::Implicit)
}

/// Whether what a word says needs no look at other characters, and it is no digit's.
fn is_own_word(source: &CollationData<'_>, word: u32) -> bool
    ensures { result ≡ is_own_word (pools_of source.now) word }
{
    states_element(word) || is_list_of_words(source, word) || is_other_own(word)
}

/// Whether a word is a digit's, up to 9.
fn is_digit_word(source: &CollationData<'_>, word: u32) -> bool
    ensures { result ≡ is_digit_word (pools_of source.now) word }
{
    if !has_form(word, Tag::Digit) {
        return false;
    }
    digit_value(word) <= 9 && is_own_word(source, word_at(&source.ce32s, index_of(word)))
}

/// The test for words that need no look at other characters.
#[derive(Drop)]
struct OwnWords<'d, 'a> {
    source: &'d CollationData<'a>,
}

impl<'d, 'a> ValueTest for OwnWords<'d, 'a> {
    ghost use Rattle.icu_collator_core.specs.TableMeaning.{pools_of};
    ghost use Rattle.icu_collator_core.specs.WordForms.{is_own_word};

    ghost test = { λ words. is_own_word (pools_of words.source.now) };

    fn passes(&self, word: u32) -> bool {
        is_own_word(self.source, word)
    }
}

/// Whether the values of the context that a word names are such words.
fn gives_own_words(alloc: Global, source: &CollationData<'_>, word: u32) -> Result<bool, AllocError>
    ensures { IfOk result (λ all. IsTrue all ↔ ValuesPass (pools_of source.now) (is_own_word (pools_of source.now)) word) }
{
    let test = OwnWords { source };
    let all = values_pass(alloc, &source.contexts, index_of(word), &test)?;
    Ok(all)
}

/// Whether a word is that of a context of what follows.
fn is_contraction(alloc: Global, source: &CollationData<'_>, word: u32) -> Result<bool, AllocError>
    ensures { IfOk result (λ yes. IsTrue yes ↔ IsContraction (pools_of source.now) word) }
{
    if !has_form(word, Tag::Contraction) {
        return Ok(false);
    }
    let default = default_of(source, word);
    if !is_own_word(source, default) {
        return Ok(false);
    }
    let all = gives_own_words(alloc, source, word)?;
    Ok(all)
}

/// Whether a word may stand where no prefix counts.
fn is_unprefixed(alloc: Global, source: &CollationData<'_>, word: u32) -> Result<bool, AllocError>
    ensures { IfOk result (λ yes. IsTrue yes ↔ IsUnprefixedWord (pools_of source.now) word) }
{
    if is_own_word(source, word) {
        return Ok(true);
    }
    let yes = is_contraction(alloc, source, word)?;
    Ok(yes)
}

/// Whether a word is that of a context of what stands before.
fn is_prefixed(alloc: Global, source: &CollationData<'_>, word: u32) -> Result<bool, AllocError>
    ensures { IfOk result (λ yes. IsTrue yes ↔ IsPrefixed (pools_of source.now) word) }
{
    if !has_form(word, Tag::Prefix) {
        return Ok(false);
    }
    let default = default_of(source, word);
    let unprefixed = is_unprefixed(alloc, source, default)?;
    if !unprefixed {
        return Ok(false);
    }
    let all = gives_own_words(alloc, source, word)?;
    Ok(all)
}

/// Whether a word has one of the forms.
fn is_word(
    alloc: Global,
    layer: Layer,
    source: &CollationData<'_>,
    word: u32,
) -> Result<bool, AllocError>
    ensures { IfOk result (λ yes. IsTrue yes ↔ IsWord layer (pools_of source.now) word) }
{
    if is_fallback(layer, word) || is_digit_word(source, word) {
        return Ok(true);
    }
    let unprefixed = is_unprefixed(alloc, source, word)?;
    if unprefixed {
        return Ok(true);
    }
    let prefixed = is_prefixed(alloc, source, word)?;
    Ok(prefixed)
}

/// Whether a word states one element, with this primary and common weights.
fn states_primary(primary: u32, word: u32) -> bool
    ensures { result ≡ states_primary primary word }
{
    match CollationElement32::new(word).to_ce_self_contained() {
        Some(element) => element == CollationElement::new_from_primary(primary),
        None => false,
    }
}

/// Whether a word fits the character where it is U+FFFE, U+FFFD or U+FFFF.
fn keeps_special(c: char, word: u32) -> bool
    ensures { result ≡ keeps_special c word }
{
    match special_primary(c as u32) {
        Some(primary) => {
            word == FALLBACK_CE32 || has_form(word, Tag::Implicit) || states_primary(primary, word)
        }
        None => true,
    }
}

/// The test for words of one of the forms.
#[derive(Drop)]
struct WordTest;

impl CharacterTest for WordTest {
    ghost use Rattle.icu_collator_core.specs.TableFaults.{HasWord};

    ghost Passes = { λ _ layer source c. HasWord layer source c };

    fn passes(
        &self,
        alloc: Global,
        layer: Layer,
        source: &CollationData<'_>,
        c: char,
    ) -> Result<bool, AllocError> {
        let word = source.trie.get(c);
        if !keeps_special(c, word) {
            return Ok(false);
        }
        let yes = is_word(alloc, layer, source, word)?;
        Ok(yes)
    }

    fn next_code(&self, layer: Layer, source: &CollationData<'_>, code: u32) -> u32 {
        behind_unrecorded(layer, source, code)
    }
}

/// The first character with a word of none of the forms, `None` where each has one. Fails only if memory is refused.
pub(crate) fn first_word_fault(
    alloc: Global,
    tables: &CollationTables<'_>,
) -> Result<Option<char>, AllocError>
    ensures { IfOk result (λ found. MatchOption found (AllPassIn tables.now HasWord) (IsFirstRefused tables.now HasWord)) }
{
    let test = WordTest;
    let found = first_refused(alloc, tables, &test)?;
    Ok(found)
}
