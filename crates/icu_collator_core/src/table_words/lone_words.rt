//! The word where nothing stands before or after a character.

ghost use Rattle.std.specs.Prelude.{◌≡◌};
ghost use Rattle.icu_collator_core.specs.Pools.{lone_word, unprefixed_word};
ghost use Rattle.icu_collator_core.specs.TableMeaning.{pools_of};

use super::contexts::default_of;
use super::fields::{has_tag, index_of, word_at};
use crate::tables::CollationData;
use icu_collator_types::elements::Tag;

/// The word where no prefix counts.
#[tactic(auto, unfolding(crate::specs::Pools::unprefixed_word))]
pub(crate) fn unprefixed_word(source: &CollationData<'_>, word: u32) -> u32
    ensures { result ≡ unprefixed_word (pools_of source.now) word }
{
    if has_tag(word, Tag::Prefix) {
        default_of(source, word)
    } else {
        word
    }
}

/// The word where nothing stands before or after, and not read as a digit.
#[tactic(auto, unfolding(crate::specs::Pools::lone_word))]
pub(crate) fn lone_word(source: &CollationData<'_>, word: u32) -> u32
    ensures { result ≡ lone_word (pools_of source.now) word }
{
    let unprefixed = unprefixed_word(source, word);
    if has_tag(unprefixed, Tag::Contraction) {
        default_of(source, unprefixed)
    } else if has_tag(unprefixed, Tag::Digit) {
        word_at(&source.ce32s, index_of(unprefixed))
    } else {
        unprefixed
    }
}
