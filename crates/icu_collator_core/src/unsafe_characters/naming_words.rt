//! The characters that the words of characters make unsafe.

ghost use Rattle.std.specs.Prelude.{◌≡◌, IsTrue, OnOk};
ghost use Rattle.icu_collator_types.specs.ElementWords.{has_tag};
ghost use Rattle.icu_collator_core.specs.ReadWords.{table_word};
ghost use Rattle.icu_collator_core.specs.TableMeaning.{pools_of};
ghost use Rattle.icu_collator_core.specs.UnsafeWords.{ContextMakesUnsafe, WordMakesUnsafe, names_context};
ghost use Rattle.icu_collator_core.specs.WeightLists.{Grows};

use super::context_texts::{Side, gather_context};
use crate::table_words::counting_words::CountingWord;
use crate::table_words::fields::has_tag;
use crate::table_words::lone_words::unprefixed_word;
use crate::tables::CollationData;
use icu_collator_types::elements::Tag;
use std::alloc::{AllocError, Global};

/// The characters that the context that a word names makes unsafe, where the word has a tag.
fn gather_where(
    alloc: Global,
    characters: &mut Vec<u32>,
    source: &CollationData<'_>,
    tag: Tag,
    side: Side,
    word: u32,
) -> Result<(), AllocError>
    ensures { OnOk result (Grows (λ d. IsTrue (has_tag tag word) × ContextMakesUnsafe (pools_of source.now) side word d) characters.old.items characters.new.items) }
{
    if !has_tag(word, tag) {
        return Ok(());
    }
    gather_context(alloc, characters, source, side, word)?;
    Ok(())
}

/// The characters that the word of a character makes unsafe.
pub(super) fn gather_by_word(
    alloc: Global,
    characters: &mut Vec<u32>,
    entry: CountingWord<'_>,
    c: char,
) -> Result<(), AllocError>
    ensures { OnOk result (Grows (WordMakesUnsafe (table_word entry.entry) c) characters.old.items characters.new.items) }
{
    let source = entry.source;
    let unprefixed = unprefixed_word(source, entry.word);
    gather_where(
        alloc,
        characters,
        source,
        Tag::Contraction,
        Side::Behind,
        unprefixed,
    )?;
    gather_where(
        alloc,
        characters,
        source,
        Tag::Prefix,
        Side::Before(c),
        entry.word,
    )?;
    Ok(())
}

/// Whether a word names a context.
pub(super) fn names_context(word: u32) -> bool
    ensures { result ≡ names_context word }
{
    has_tag(word, Tag::Contraction) || has_tag(word, Tag::Prefix)
}
