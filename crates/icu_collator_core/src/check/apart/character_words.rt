//! The words of all characters, with those in their contexts, in a list.

ghost use Rattle.std.specs.Prelude.{◌≡◌, ◌<◌, ◌≤◌, ℕ, ℤ, ⊤, IsTrue, IfOk, OnOk};
ghost use Rattle.std.specs.Char.{IsScalar};
ghost use Rattle.std.specs.Int.{cast_unsigned, w32};
ghost use Rattle.std.specs.List.{Contains};
ghost use Rattle.icu_collator_types.specs.ElementWords.{has_tag};
ghost use Rattle.icu_collator_core.specs.PrefixFaults.{HasValue, IsAmong, IsWordIn};
ghost use Rattle.icu_collator_core.specs.TableMeaning.{pools_of, word_at};
ghost use Rattle.icu_collator_core.specs.WeightLists.{Grows, IsDiacriticWord, IsWordOfData, Lists};

use crate::check::runs::behind_run;
use crate::check::values::values_of;
use crate::table_words::counting_words::secondary_word;
use crate::table_words::fields::{has_tag, index_of};
use crate::table_words::lone_words::{lone_word, unprefixed_word};
use crate::tables::{CollationData, CollationTables};
use icu_collator_types::elements::Tag;
use std::alloc::{AllocError, Global};

/// One word more, unless the last one is the same.
pub(super) fn gather_word(words: &mut Vec<u32>, word: u32) -> Result<(), AllocError>
    ensures { OnOk result (Grows (λ one. one ≡ word) words.old.items words.new.items) }
{
    let count = words.len();
    if count > 0 && words[count - 1] == word {
        return Ok(());
    }
    words.push(word)?;
    Ok(())
}

/// The values of a list, as words.
fn gather_listed(words: &mut Vec<u32>, list: &Vec<((), i32)>) -> Result<(), AllocError>
    ensures { OnOk result (Grows (λ word. (entry : ⊤ × ℤ) × Contains list.now.items entry × (cast_unsigned w32 entry.1 ≡ word)) words.old.items words.new.items) }
{
    for index in 0..list.len() {
        let value = list[index].1;
        gather_word(words, value.cast_unsigned())?;
    }
    Ok(())
}

/// The values of the context that a word names. Where its units break the grammar of unit tries, there are none.
fn gather_values(
    alloc: Global,
    words: &mut Vec<u32>,
    source: &CollationData<'_>,
    word: u32,
) -> Result<(), AllocError>
    ensures { OnOk result (Grows (HasValue (pools_of source.now) word) words.old.items words.new.items) }
{
    let found = values_of(alloc, &source.contexts, index_of(word))?;
    match found {
        Some(list) => {
            gather_listed(words, &list)?;
            Ok(())
        }
        None => Ok(()),
    }
}

/// The same where the word has a tag.
fn gather_where(
    alloc: Global,
    words: &mut Vec<u32>,
    source: &CollationData<'_>,
    tag: Tag,
    word: u32,
) -> Result<(), AllocError>
    ensures { OnOk result (Grows (λ one. IsTrue (has_tag tag word) × HasValue (pools_of source.now) word one) words.old.items words.new.items) }
{
    if !has_tag(word, tag) {
        return Ok(());
    }
    gather_values(alloc, words, source, word)?;
    Ok(())
}

/// The word of a character by itself, and those in its contexts.
fn gather_among(
    alloc: Global,
    words: &mut Vec<u32>,
    source: &CollationData<'_>,
    word: u32,
) -> Result<(), AllocError>
    ensures { OnOk result (Grows (IsAmong (pools_of source.now) word) words.old.items words.new.items) }
{
    let lone = lone_word(source, word);
    let unprefixed = unprefixed_word(source, word);
    gather_word(words, lone)?;
    gather_where(alloc, words, source, Tag::Contraction, unprefixed)?;
    gather_where(alloc, words, source, Tag::Prefix, word)?;
    Ok(())
}

/// The words of the character of a code, if it is one.
fn gather_at(
    alloc: Global,
    words: &mut Vec<u32>,
    source: &CollationData<'_>,
    code: u32,
) -> Result<(), AllocError>
    ensures { OnOk result (Grows (IsWordIn source.now code) words.old.items words.new.items) }
{
    let Some(c) = char::from_u32(code) else {
        return Ok(());
    };
    gather_among(alloc, words, source, source.trie.get(c))?;
    Ok(())
}

/// Where a walk over all codes goes on after this one: where it is a character, after those that have its word.
fn next_code(source: &CollationData<'_>, code: u32) -> u32
    requires { code < 0x11_0000 }
    ensures onward { code < result }
    ensures bound { result ≤ 0x11_0000 }
    ensures gathered { (c : ℕ) → code < c → c < result → IsScalar code × (word_at source.now c ≡ word_at source.now code) }
{
    if char::from_u32(code).is_some() {
        behind_run(source, code)
    } else {
        code + 1
    }
}

/// The words of all characters.
pub(super) fn words_of(alloc: Global, source: &CollationData<'_>) -> Result<Vec<u32>, AllocError>
    ensures { IfOk result (λ words. Lists (IsWordOfData source.now) words.items) }
{
    let mut words = Vec::new(alloc);
    let mut code = 0;
    while code < 0x11_0000 {
        gather_at(alloc, &mut words, source, code)?;
        code = next_code(source, code);
    }
    Ok(words)
}

/// The words of marks by the table of diacritics.
pub(super) fn gather_diacritics(
    words: &mut Vec<u32>,
    tables: &CollationTables<'_>,
) -> Result<(), AllocError>
    ensures { OnOk result (Grows (IsDiacriticWord tables.now) words.old.items words.new.items) }
{
    let secondaries = &tables.diacritics.secondaries;
    for index in 0..secondaries.len() {
        gather_word(words, secondary_word(secondaries.at(index)))?;
    }
    Ok(())
}

/// The words of jamo.
pub(super) fn gather_jamo(
    words: &mut Vec<u32>,
    tables: &CollationTables<'_>,
) -> Result<(), AllocError>
    ensures { OnOk result (Grows (Contains tables.now.jamo.ce32s) words.old.items words.new.items) }
{
    let ce32s = &tables.jamo.ce32s;
    for index in 0..ce32s.len() {
        gather_word(words, ce32s.at(index))?;
    }
    Ok(())
}
