//! The first fault of tables, of all kinds.

ghost use Rattle.std.specs.Prelude.{IfOk, MatchOption, MatchResult};
ghost use Rattle.icu_normalizer_core.specs.BorrowedMeaning.{borrowed_meaning};
ghost use Rattle.icu_collator_core.specs.Acceptance.{HaveSoundWords, IsAccepted, IsFirstFault, IsRefusal};

use super::TableFault;
use super::apart::are_weights_apart;
use super::context_rules::first_context_fault;
use super::forms::first_word_fault;
use super::indices::first_index_fault;
use super::refused_characters::first_trie_fault;
use super::weights::first_weight_fault;
use crate::check_weights::{
    are_sound_diacritics, are_sound_special_primaries, has_sound_reordering, jamo_fault,
};
use crate::tables::CollationTables;
use icu_normalizer_core::canonical::CanonicalBorrowed;
use std::alloc::{AllocError, Global};

/// The first fault of the word of a character, `None` where there is none. Fails only if memory is refused.
fn first_character_fault(
    alloc: Global,
    canonical: CanonicalBorrowed<'_>,
    tables: &CollationTables<'_>,
) -> Result<Option<TableFault>, AllocError>
    ensures { IfOk result (λ found. MatchOption found (HaveSoundWords (borrowed_meaning canonical.entry) tables.now) (IsFirstFault (borrowed_meaning canonical.entry) tables.now)) }
{
    if let Some(c) = first_trie_fault(alloc, tables)? {
        return Ok(Some(TableFault::Trie(c)));
    }
    if let Some(c) = first_word_fault(alloc, tables)? {
        return Ok(Some(TableFault::Word(c)));
    }
    if let Some(c) = first_index_fault(alloc, tables)? {
        return Ok(Some(TableFault::Index(c)));
    }
    if let Some(c) = first_context_fault(alloc, canonical, tables)? {
        return Ok(Some(TableFault::Context(c)));
    }
    if let Some(c) = first_weight_fault(alloc, tables)? {
        return Ok(Some(TableFault::Weight(c)));
    }
    Ok(None)
}

/// What tables are to be refused for, `None` where they pass every check. Fails only if memory is refused.
fn first_fault(
    alloc: Global,
    canonical: CanonicalBorrowed<'_>,
    tables: &CollationTables<'_>,
) -> Result<Option<TableFault>, AllocError>
    ensures { IfOk result (λ found. MatchOption found (IsAccepted (borrowed_meaning canonical.entry) tables.now) (IsFirstFault (borrowed_meaning canonical.entry) tables.now)) }
{
    if let Some(fault) = first_character_fault(alloc, canonical, tables)? {
        return Ok(Some(fault));
    }
    if !are_weights_apart(alloc, tables)? {
        return Ok(Some(TableFault::PrefixOfWeight));
    }
    if !are_sound_diacritics(tables) {
        return Ok(Some(TableFault::Diacritics));
    }
    if let Some(index) = jamo_fault(tables) {
        return Ok(Some(TableFault::Jamo(index)));
    }
    if !has_sound_reordering(tables) {
        return Ok(Some(TableFault::Reordering));
    }
    if !are_sound_special_primaries(&tables.special_primaries) {
        return Ok(Some(TableFault::SpecialPrimaries));
    }
    Ok(None)
}

/// Nothing of tables that pass every check; else what they are refused for.
pub(crate) fn judge(
    alloc: Global,
    canonical: CanonicalBorrowed<'_>,
    tables: &CollationTables<'_>,
) -> Result<(), TableFault>
    ensures { MatchResult result (λ _. IsAccepted (borrowed_meaning canonical.entry) tables.now) (IsRefusal (borrowed_meaning canonical.entry) tables.now) }
{
    match first_fault(alloc, canonical, tables)? {
        None => Ok(()),
        Some(fault) => Err(fault),
    }
}
