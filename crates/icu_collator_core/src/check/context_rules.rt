//! The rules on contexts, and the first character whose word breaks one.

ghost use Rattle.std.specs.Prelude.{◌≡◌, ◌↔◌, IsTrue, IfOk, MatchOption};
ghost use Rattle.icu_normalizer_core.specs.BorrowedMeaning.{borrowed_meaning};
ghost use Rattle.icu_collator_core.specs.ContextFaults.{HasContexts, KeepsPrefixRules, KeepsSuffixRules, entry_in, keeps_digit_rule};
ghost use Rattle.icu_collator_core.specs.ContextRules.{KeepsContextRules, is_recorded_by, may_be_digit, may_have_prefix};
ghost use Rattle.icu_collator_core.specs.Pools.{unprefixed_word};
ghost use Rattle.icu_collator_core.specs.TableFaults.{AllPassIn, IsFirstRefused};
ghost use Rattle.icu_collator_core.specs.TableMeaning.{pools_of, weights_of};

use super::digits::is_digit;
use super::flags::are_flags_true;
use super::layers::Layer;
use super::prefixes::are_prefixes;
use super::records::is_recorded_alone;
use super::refused_characters::{CharacterTest, first_refused};
use super::runs::behind_unrecorded;
use super::suffixes::are_suffixes;
use crate::table_words::fields::{has_tag, index_of};
use crate::table_words::lone_words::unprefixed_word;
use crate::tables::{CollationData, CollationTables};
use icu_collator_types::elements::Tag;
use icu_normalizer_core::built_in::is_jamo;
use icu_normalizer_core::canonical::CanonicalBorrowed;
use std::alloc::{AllocError, Global};

/// Whether a character may be a digit, by its word.
fn may_be_digit(
    canonical: CanonicalBorrowed<'_>,
    tables: &CollationTables<'_>,
    source: &CollationData<'_>,
    c: char,
    word: u32,
) -> bool
    ensures { result ≡ may_be_digit (borrowed_meaning canonical.entry) (is_recorded_by (entry_in source.now word)) c }
{
    canonical.is_starter(c)
        && !is_jamo(c as u32)
        && is_recorded_alone(&tables.special_primaries, source, c, word)
}

/// Whether a character may have prefixes, by its word.
fn may_have_prefix(
    canonical: CanonicalBorrowed<'_>,
    tables: &CollationTables<'_>,
    source: &CollationData<'_>,
    c: char,
    word: u32,
) -> bool
    ensures { result ≡ may_have_prefix (borrowed_meaning canonical.entry) (weights_of (borrowed_meaning canonical.entry) tables.now).digit (is_recorded_by (entry_in source.now word)) c }
{
    canonical.is_starter(c)
        && !is_digit(canonical, tables, c)
        && !is_jamo(c as u32)
        && is_recorded_alone(&tables.special_primaries, source, c, word)
}

/// Whether a character is no digit by its word, or may be one.
fn keeps_digit_rule(
    canonical: CanonicalBorrowed<'_>,
    tables: &CollationTables<'_>,
    source: &CollationData<'_>,
    c: char,
    word: u32,
) -> bool
    ensures { result ≡ keeps_digit_rule (borrowed_meaning canonical.entry) (entry_in source.now word) c }
{
    !has_tag(word, Tag::Digit) || may_be_digit(canonical, tables, source, c, word)
}

/// Whether a character has no prefixes by its word, or may have them and they are prefixes.
fn keeps_prefix_rules(
    alloc: Global,
    canonical: CanonicalBorrowed<'_>,
    tables: &CollationTables<'_>,
    source: &CollationData<'_>,
    c: char,
    word: u32,
) -> Result<bool, AllocError>
    ensures { IfOk result (λ yes. IsTrue yes ↔ KeepsPrefixRules (borrowed_meaning canonical.entry) (weights_of (borrowed_meaning canonical.entry) tables.now).digit (entry_in source.now word) c) }
{
    if !has_tag(word, Tag::Prefix) {
        return Ok(true);
    }
    if !may_have_prefix(canonical, tables, source, c, word) {
        return Ok(false);
    }
    let all = are_prefixes(alloc, canonical, tables, &source.contexts, index_of(word))?;
    Ok(all)
}

/// Whether a character has no suffixes by its word where no prefix counts, or what stands after it are suffixes, of
/// which the flags of that word are true.
fn keeps_suffix_rules(
    alloc: Global,
    canonical: CanonicalBorrowed<'_>,
    source: &CollationData<'_>,
    c: char,
    word: u32,
    unprefixed: u32,
) -> Result<bool, AllocError>
    requires { unprefixed ≡ unprefixed_word (pools_of source.now) word }
    ensures { IfOk result (λ yes. IsTrue yes ↔ KeepsSuffixRules (borrowed_meaning canonical.entry) (entry_in source.now word) c unprefixed) }
{
    if !has_tag(unprefixed, Tag::Contraction) {
        return Ok(true);
    }
    let index = index_of(unprefixed);
    let suffixes = are_suffixes(alloc, canonical, source, c, word, index)?;
    if !suffixes {
        return Ok(false);
    }
    let flags = are_flags_true(alloc, canonical, &source.contexts, index, unprefixed)?;
    Ok(flags)
}

/// Whether the word of a character keeps the rules on contexts.
fn keeps_context_rules(
    alloc: Global,
    canonical: CanonicalBorrowed<'_>,
    tables: &CollationTables<'_>,
    source: &CollationData<'_>,
    c: char,
    word: u32,
) -> Result<bool, AllocError>
    ensures { IfOk result (λ yes. IsTrue yes ↔ KeepsContextRules (borrowed_meaning canonical.entry) (weights_of (borrowed_meaning canonical.entry) tables.now).digit (entry_in source.now word) c) }
{
    if !keeps_digit_rule(canonical, tables, source, c, word) {
        return Ok(false);
    }
    let prefixes = keeps_prefix_rules(alloc, canonical, tables, source, c, word)?;
    if !prefixes {
        return Ok(false);
    }
    let unprefixed = unprefixed_word(source, word);
    let suffixes = keeps_suffix_rules(alloc, canonical, source, c, word, unprefixed)?;
    Ok(suffixes)
}

/// The test for characters whose words keep the rules on contexts.
#[derive(Drop)]
struct ContextTest<'d, 'a> {
    canonical: CanonicalBorrowed<'d>,
    tables: &'d CollationTables<'a>,
}

impl<'d, 'a> CharacterTest for ContextTest<'d, 'a> {
    ghost use Rattle.icu_normalizer_core.specs.BorrowedMeaning.{borrowed_meaning};
    ghost use Rattle.icu_collator_core.specs.ContextFaults.{HasContexts};

    ghost Passes = { λ contexts layer source c. HasContexts (borrowed_meaning contexts.canonical) contexts.tables.now layer source c };

    fn passes(
        &self,
        alloc: Global,
        _layer: Layer,
        source: &CollationData<'_>,
        c: char,
    ) -> Result<bool, AllocError> {
        let word = source.trie.get(c);
        let yes = keeps_context_rules(alloc, self.canonical, self.tables, source, c, word)?;
        Ok(yes)
    }

    fn next_code(&self, layer: Layer, source: &CollationData<'_>, code: u32) -> u32 {
        behind_unrecorded(layer, source, code)
    }
}

/// The first character whose word breaks a rule on contexts, `None` where there is none. Fails only if memory is
/// refused.
pub(crate) fn first_context_fault(
    alloc: Global,
    canonical: CanonicalBorrowed<'_>,
    tables: &CollationTables<'_>,
) -> Result<Option<char>, AllocError>
    ensures { IfOk result (λ found. MatchOption found (AllPassIn tables.now (HasContexts (borrowed_meaning canonical.entry) tables.now)) (IsFirstRefused tables.now (HasContexts (borrowed_meaning canonical.entry) tables.now))) }
{
    let test = ContextTest { canonical, tables };
    let found = first_refused(alloc, tables, &test)?;
    Ok(found)
}
