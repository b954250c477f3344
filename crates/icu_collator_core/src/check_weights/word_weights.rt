//! Whether what a word says of a character keeps the rules.

ghost use Rattle.std.specs.Prelude.{◌≡◌, ◌+◌, ◌<◌, ◌^◌, ◌∷◌, [], Some, None, true, filter_map, fold, map, option_map};
ghost use Rattle.icu_normalizer_core.specs.CanonicalWords.{items_at};
ghost use Rattle.icu_collator_core.specs.ContextFaults.{are_others};
ghost use Rattle.icu_collator_core.specs.Pools.{element_of, elements_of_word, stated_element};
ghost use Rattle.icu_collator_core.specs.SpelledTests.{nothing_read, with_bits, with_word};
ghost use Rattle.icu_collator_core.specs.TableMeaning.{is_primary_alone, own_primary, pools_of};
ghost use Rattle.icu_collator_core.specs.WeightFaults.{are_sound_spelled, is_sound_word};

use super::own::{is_own_element, own_primary};
use super::spelled::{Spelled, is_sound_lone};
use super::unpacked_elements::stated_element;
use crate::table_words::fields::{entry_at, has_tag, index_of, length_of};
use crate::table_words::offsets::is_sound_offset;
use crate::tables::{CollationData, CollationSpecialPrimaries};
use icu_collator_types::elements::Tag;
use icu_packed_vector::PackedVec;

/// What is known of the elements that the words of an expansion state.
fn read_words(
    special: &CollationSpecialPrimaries<'_>,
    ce32s: &PackedVec<'_, u32>,
    own: Option<u32>,
    index: usize,
    count: usize,
) -> Spelled
    requires { index + count < 2 ^ 32 }
    ensures { result ≡ fold (with_word special.now own) nothing_read (items_at ce32s.now index count) }
{
    let mut seen = Spelled::new();
    for i in 0..count {
        seen = seen.with_word(special, own, ce32s.get(index + i));
    }
    seen
}

/// Whether the words of an expansion state elements that keep the rules, or the one that the character has by itself.
#[tactic(auto, using(crate::proofs::weights::SpelledLemmas::words_read))]
fn are_sound_words(
    special: &CollationSpecialPrimaries<'_>,
    ce32s: &PackedVec<'_, u32>,
    own: Option<u32>,
    index: usize,
    count: usize,
) -> bool
    requires { index + count < 2 ^ 32 }
    ensures { result ≡ are_sound_spelled special.now own (filter_map stated_element (items_at ce32s.now index count)) }
{
    read_words(special, ce32s, own, index, count).passes()
}

/// What is known of the elements of an expansion.
fn read_elements(
    special: &CollationSpecialPrimaries<'_>,
    ces: &PackedVec<'_, u64>,
    own: Option<u32>,
    index: usize,
    count: usize,
) -> Spelled
    requires { index + count < 2 ^ 32 }
    ensures { result ≡ fold (with_bits special.now own) nothing_read (items_at ces.now index count) }
{
    let mut seen = Spelled::new();
    for i in 0..count {
        seen = seen.with_bits(special, own, ces.get(index + i));
    }
    seen
}

/// Whether the elements of an expansion keep the rules, or are the one that the character has by itself.
#[tactic(auto, using(crate::proofs::weights::SpelledLemmas::elements_read))]
fn are_sound_elements(
    special: &CollationSpecialPrimaries<'_>,
    ces: &PackedVec<'_, u64>,
    own: Option<u32>,
    index: usize,
    count: usize,
) -> bool
    requires { index + count < 2 ^ 32 }
    ensures { result ≡ are_sound_spelled special.now own (map element_of (items_at ces.now index count)) }
{
    read_elements(special, ces, own, index, count).passes()
}

/// The same of the element that a word states, if it states one.
fn is_sound_stated(special: &CollationSpecialPrimaries<'_>, own: Option<u32>, word: u32) -> bool
    ensures { result ≡ elim (option_map (λ e. e ∷ []) (stated_element word)) [ Some es ↦ are_sound_spelled special.now own es | None ↦ true ] }
{
    match stated_element(word) {
        Some(element) => is_sound_lone(special, own, element),
        None => true,
    }
}

/// Whether what a word says of a character keeps the rules, or is the element that the character has by itself; the
/// primary of that one is given where it may stand.
#[tactic(auto, unfolding(crate::specs::Pools::elements_of_word, crate::specs::WeightFaults::is_sound_word))]
pub(crate) fn is_sound_word(
    special: &CollationSpecialPrimaries<'_>,
    source: &CollationData<'_>,
    own: Option<u32>,
    c: u32,
    word: u32,
) -> bool
    requires { c < 0x110000 }
    ensures { result ≡ is_sound_word special.now (pools_of source.now) own c word }
{
    let index = index_of(word);
    if has_tag(word, Tag::Offset) {
        is_sound_offset(special, entry_at(&source.ces, index), c)
    } else if has_tag(word, Tag::Expansion32) {
        are_sound_words(special, &source.ce32s, own, index, length_of(word))
    } else if has_tag(word, Tag::Expansion) {
        are_sound_elements(special, &source.ces, own, index, length_of(word))
    } else {
        is_sound_stated(special, own, word)
    }
}

/// Whether the words of an expansion state the element alone that a character has by itself.
#[tactic(auto, using(crate::proofs::weights::SpelledLemmas::own_word_read))]
fn are_own_words(
    special: &CollationSpecialPrimaries<'_>,
    ce32s: &PackedVec<'_, u32>,
    c: u32,
    index: usize,
    count: usize,
) -> bool
    requires { index + count < 2 ^ 32 }
    ensures { result ≡ is_primary_alone (own_primary c) (filter_map stated_element (items_at ce32s.now index count)) }
{
    read_words(special, ce32s, Some(own_primary(c)), index, count).is_own()
}

/// Whether the elements of an expansion are that one alone.
#[tactic(auto, using(crate::proofs::weights::SpelledLemmas::own_elements_read))]
fn are_own_elements(
    special: &CollationSpecialPrimaries<'_>,
    ces: &PackedVec<'_, u64>,
    c: u32,
    index: usize,
    count: usize,
) -> bool
    requires { index + count < 2 ^ 32 }
    ensures { result ≡ is_primary_alone (own_primary c) (map element_of (items_at ces.now index count)) }
{
    read_elements(special, ces, Some(own_primary(c)), index, count).is_own()
}

/// Whether a word states an element other than that one.
#[tactic(auto, unfolding(crate::specs::WeightFaults::is_primary_element))]
fn states_other(c: u32, word: u32) -> bool
    ensures { result ≡ are_others c (option_map (λ e. e ∷ []) (stated_element word)) }
{
    match stated_element(word) {
        Some(element) => !is_own_element(Some(own_primary(c)), element),
        None => false,
    }
}

/// Whether a word says elements other than the one alone that a character has by itself.
#[tactic(auto, unfolding(crate::specs::Pools::elements_of_word))]
pub(crate) fn has_other_elements(
    special: &CollationSpecialPrimaries<'_>,
    source: &CollationData<'_>,
    c: u32,
    word: u32,
) -> bool
    ensures { result ≡ are_others c (elements_of_word (pools_of source.now) word) }
{
    let index = index_of(word);
    if word == 0 {
        true
    } else if has_tag(word, Tag::Expansion32) {
        !are_own_words(special, &source.ce32s, c, index, length_of(word))
    } else if has_tag(word, Tag::Expansion) {
        !are_own_elements(special, &source.ces, c, index, length_of(word))
    } else {
        states_other(c, word)
    }
}
