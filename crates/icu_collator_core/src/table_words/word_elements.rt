//! The elements of words, appended to a list.

ghost use Rattle.std.specs.Prelude.{◌≡◌, ◌+◌, ◌<◌, ◌^◌, ◌∷◌, [], Some, IfOk, IfSome, OnOk, filter_map, map, is_some, option_map, slice_get};
ghost use Rattle.std.specs.Option.{option_and_then, option_to_list, unwrap_or};
ghost use Rattle.icu_normalizer_core.specs.CanonicalWords.{items_at};
ghost use Rattle.icu_collator_core.specs.ElementLists.{AddsElements};
ghost use Rattle.icu_collator_core.specs.Pools.{Pools, element_of, elements_of_word, stated_element};
ghost use Rattle.icu_collator_core.specs.TableMeaning.{pools_of};

use crate::table_words::fields::{has_tag, index_of, length_of};
use crate::tables::CollationData;
use icu_collator_types::elements::{CollationElement, CollationElement32, Tag};
use icu_packed_vector::PackedVec;
use smallvec::SmallVec;
use std::alloc::AllocError;

/// The element that a word states by itself, if it states one.
#[inline]
pub(crate) fn stated_by(word: u32) -> Option<CollationElement>
    ensures stated { option_map element_of result ≡ stated_element word }
    ensures elements { IfSome result (λ bits. (pools : Pools) → elements_of_word pools word ≡ Some (element_of bits ∷ [])) }
{
    if word == 0 {
        None
    } else {
        CollationElement32::new(word).to_ce_self_contained()
    }
}

/// The element that the word at an index states, if there is a word that states one.
fn stated_at(ce32s: &PackedVec<'_, u32>, index: usize) -> Option<CollationElement>
    ensures { option_map element_of result ≡ option_and_then stated_element (slice_get ce32s.now index) }
{
    match ce32s.get(index) {
        Some(word) => stated_by(word),
        None => None,
    }
}

/// Appends the elements that the words of a part of a list state. Fails only if memory is refused.
fn push_stated(
    ce32s: &PackedVec<'_, u32>,
    index: usize,
    count: usize,
    elements: &mut SmallVec<CollationElement, 32>,
) -> Result<(), AllocError>
    requires { index + count < 2 ^ 32 }
    ensures { OnOk result (AddsElements elements.old.items (filter_map stated_element (items_at ce32s.now index count)) elements.new.items) }
{
    for i in 0..count {
        if let Some(element) = stated_at(ce32s, index + i) {
            elements.push(element)?;
        }
    }
    Ok(())
}

/// Appends the elements of a part of a list. Fails only if memory is refused.
fn push_unpacked(
    ces: &PackedVec<'_, u64>,
    index: usize,
    count: usize,
    elements: &mut SmallVec<CollationElement, 32>,
) -> Result<(), AllocError>
    requires { index + count < 2 ^ 32 }
    ensures { OnOk result (AddsElements elements.old.items (map element_of (items_at ces.now index count)) elements.new.items) }
{
    for i in 0..count {
        if let Some(bits) = ces.get(index + i) {
            elements.push(CollationElement::new(bits))?;
        }
    }
    Ok(())
}

/// Appends the element that a word states, and says whether it states one. Fails only if memory is refused.
fn push_one(word: u32, elements: &mut SmallVec<CollationElement, 32>) -> Result<bool, AllocError>
    ensures found { IfOk result (λ found. found ≡ is_some (stated_element word)) }
    ensures elements { OnOk result (AddsElements elements.old.items (option_to_list (stated_element word)) elements.new.items) }
{
    match stated_by(word) {
        Some(element) => {
            elements.push(element)?;
            Ok(true)
        }
        None => Ok(false),
    }
}

/// Whether a word has elements, be it none: whether it needs no look at other characters.
#[tactic(auto, unfolding(crate::specs::Pools::elements_of_word))]
pub(crate) fn has_elements(source: &CollationData<'_>, word: u32) -> bool
    ensures { result ≡ is_some (elements_of_word (pools_of source.now) word) }
{
    word == 0
        || has_tag(word, Tag::Expansion32)
        || has_tag(word, Tag::Expansion)
        || stated_by(word).is_some()
}

/// Appends the elements of a word that needs no look at other characters, and says whether it is one; of another word
/// nothing. Fails only if memory is refused.
#[tactic(auto, unfolding(crate::specs::Pools::elements_of_word))]
pub(crate) fn push_elements(
    source: &CollationData<'_>,
    word: u32,
    elements: &mut SmallVec<CollationElement, 32>,
) -> Result<bool, AllocError>
    ensures found { IfOk result (λ found. found ≡ is_some (elements_of_word (pools_of source.now) word)) }
    ensures elements { OnOk result (AddsElements elements.old.items (unwrap_or (elements_of_word (pools_of source.now) word) []) elements.new.items) }
{
    if word == 0 {
        return Ok(true);
    }
    if has_tag(word, Tag::Expansion32) {
        push_stated(&source.ce32s, index_of(word), length_of(word), elements)?;
        return Ok(true);
    }
    if has_tag(word, Tag::Expansion) {
        push_unpacked(&source.ces, index_of(word), length_of(word), elements)?;
        return Ok(true);
    }
    let found = push_one(word, elements)?;
    Ok(found)
}
