//! The fields of words, and what stands at indices of lists.

ghost use Rattle.std.specs.Prelude.{◌≡◌, ◌^◌, ◌<◌, slice_index};
ghost use Rattle.icu_collator_types.specs.ElementWords.{has_tag, is_special};
ghost use Rattle.icu_collator_core.specs.Pools.{digit_value, index_of, length_of};
ghost use Rattle.icu_collator_core.specs.WordForms.{has_form, states_element};

use icu_collator_types::elements::Tag;
use icu_packed_vector::PackedVec;

/// Whether a word is more than the bytes of an element.
pub(crate) fn is_special(word: u32) -> bool
    ensures { result ≡ is_special word }
{
    word & 0xff >= 0xc0
}

/// Whether a word has a tag.
pub(crate) fn has_tag(word: u32, tag: Tag) -> bool
    ensures { result ≡ has_tag tag word }
{
    is_special(word) && word & 0xf == tag as u32
}

/// Whether a word has a tag, and its low byte is the tag's alone.
pub(crate) fn has_form(word: u32, tag: Tag) -> bool
    ensures { result ≡ has_form tag word }
{
    word & 0xff <= 0xcf && has_tag(word, tag)
}

/// The index that a word names.
pub(crate) fn index_of(word: u32) -> usize
    ensures index { result ≡ index_of word }
    ensures bound { result < 2 ^ 19 }
{
    (word >> 13) as usize
}

/// The length of the list that an expansion names.
pub(crate) fn length_of(word: u32) -> usize
    ensures length { result ≡ length_of word }
    ensures bound { result < 2 ^ 5 }
{
    ((word >> 8) & 0x1f) as usize
}

/// The value of a digit.
pub(crate) fn digit_value(word: u32) -> u32
    ensures { result ≡ digit_value word }
{
    (word >> 8) & 0xf
}

/// The word at an index of a list, 0 past the end.
pub(crate) fn word_at(ce32s: &PackedVec<'_, u32>, index: usize) -> u32
    ensures { result ≡ slice_index ce32s.now index }
{
    match ce32s.get(index) {
        Some(word) => word,
        None => 0,
    }
}

/// The unit at an index of a list, 0 past the end.
pub(crate) fn unit_at(contexts: &PackedVec<'_, u16>, index: usize) -> u16
    ensures { result ≡ slice_index contexts.now index }
{
    match contexts.get(index) {
        Some(unit) => unit,
        None => 0,
    }
}

/// The entry at an index, 0 past the end.
pub(crate) fn entry_at(ces: &PackedVec<'_, u64>, index: usize) -> u64
    ensures { result ≡ slice_index ces.now index }
{
    match ces.get(index) {
        Some(entry) => entry,
        None => 0,
    }
}

/// Whether a word states an element, or none.
pub(crate) fn states_element(word: u32) -> bool
    ensures { result ≡ states_element word }
{
    !is_special(word) || has_form(word, Tag::LongPrimary) || has_form(word, Tag::LongSecondary)
}
