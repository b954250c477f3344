//! The characters that any word that counts makes unsafe.

ghost use Rattle.std.specs.Prelude.{◌≡◌, ◌<◌, ◌≤◌, ℕ, OnOk, false};
ghost use Rattle.icu_normalizer_core.specs.BorrowedMeaning.{borrowed_meaning};
ghost use Rattle.icu_collator_core.specs.TableMeaning.{word_at};
ghost use Rattle.icu_collator_core.specs.UnsafeWords.{IsUnsafeIn, IsUnsafeInTailoring, MakesUnsafeIn, names_context};
ghost use Rattle.icu_collator_core.specs.WeightLists.{Grows};

use super::naming_words::{gather_by_word, names_context};
use crate::check::runs::behind_run;
use crate::table_words::counting_words::counting_word;
use crate::tables::{CollationData, CollationTables};
use icu_normalizer_core::canonical::CanonicalBorrowed;
use std::alloc::{AllocError, Global};

/// The characters that the character of a code makes unsafe, if it is one and its word in these data names a context.
fn gather_at(
    alloc: Global,
    characters: &mut Vec<u32>,
    canonical: CanonicalBorrowed<'_>,
    tables: &CollationTables<'_>,
    source: &CollationData<'_>,
    code: u32,
) -> Result<(), AllocError>
    ensures { OnOk result (Grows (MakesUnsafeIn (borrowed_meaning canonical.entry) tables.now source.now code) characters.old.items characters.new.items) }
{
    let Some(c) = char::from_u32(code) else {
        return Ok(());
    };
    if !names_context(source.trie.get(c)) {
        return Ok(());
    }
    let entry = counting_word(canonical, tables, c);
    gather_by_word(alloc, characters, entry, c)?;
    Ok(())
}

/// Where a walk over all codes goes on after this one: where its word names no context, after those that have the same.
fn next_code(source: &CollationData<'_>, code: u32) -> u32
    requires { code < 0x11_0000 }
    ensures onward { code < result }
    ensures bound { result ≤ 0x11_0000 }
    ensures none { (c : ℕ) → code < c → c < result → names_context (word_at source.now c) ≡ false }
{
    if names_context(source.trie.get32(code)) {
        code + 1
    } else {
        behind_run(source, code)
    }
}

/// The characters that those make unsafe whose words in these data name contexts, by the words that count.
pub(super) fn gather_in(
    alloc: Global,
    characters: &mut Vec<u32>,
    canonical: CanonicalBorrowed<'_>,
    tables: &CollationTables<'_>,
    source: &CollationData<'_>,
) -> Result<(), AllocError>
    ensures { OnOk result (Grows (IsUnsafeIn (borrowed_meaning canonical.entry) tables.now source.now) characters.old.items characters.new.items) }
{
    let mut code = 0;
    while code < 0x11_0000 {
        gather_at(alloc, characters, canonical, tables, source, code)?;
        code = next_code(source, code);
    }
    Ok(())
}

/// The same for the tailoring, if there is one.
pub(super) fn gather_in_tailoring(
    alloc: Global,
    characters: &mut Vec<u32>,
    canonical: CanonicalBorrowed<'_>,
    tables: &CollationTables<'_>,
) -> Result<(), AllocError>
    ensures { OnOk result (Grows (IsUnsafeInTailoring (borrowed_meaning canonical.entry) tables.now) characters.old.items characters.new.items) }
{
    let Some(source) = &tables.tailoring else {
        return Ok(());
    };
    gather_in(alloc, characters, canonical, tables, source)?;
    Ok(())
}
