//! The compatibility tables of what is given, over canonical tables.

ghost use Rattle.std.specs.Prelude.{◌≡◌, ◌≤◌, ◌⊎◌, [], true, false, nat_eq, IfOk, IfErr, OnOk, All};
ghost use Rattle.std.specs.Char.{IsScalar};
ghost use Rattle.std.specs.Set.{distinct_count};
ghost use Rattle.icu_codepointtrie.specs.Blocks.{different_blocks, upper_blocks};
ghost use Rattle.icu_codepointtrie.specs.BuiltTries.{IsTrieOf};
ghost use Rattle.icu_normalizer_core.specs.declared.builder.given.CanonicalDataBuildError.TheVariants.{Rules, Memory};
ghost use Rattle.icu_normalizer_core.specs.BuiltMaps.{HasPlainWords};
ghost use Rattle.icu_normalizer_core.specs.CanonicalFaults.{IsAccepted};
ghost use Rattle.icu_normalizer_core.specs.CanonicalMaps.{AreMeaning};
ghost use Rattle.icu_normalizer_core.specs.CanonicalMeaning.{lists_of, meaning};
ghost use Rattle.icu_normalizer_core.specs.CompatibilityMaps.{AreAcceptedOver, AreApart, AreMeaningOf, HaveOneCompatibility, KeepAllRulesWithin, all_named};
ghost use Rattle.icu_normalizer_core.specs.CompatibilityMeaning.{nfkd_lists};
ghost use Rattle.icu_normalizer_core.specs.GivenCompatibilities.{IsOfCharacters};
ghost use Rattle.icu_normalizer_core.specs.GivenMaps.{IsOfScalars};
ghost use Rattle.icu_normalizer_core.specs.Named.{block_count, narrow_block, wide_block};
ghost use Rattle.icu_normalizer_core.specs.SettledMappings.{AreFullWords, AreOthersUnnamed, IsSound, KeepOneMapping, LacksWords, steps_in};

use super::compatibility_words::CompatibilityWords;
use super::given::{CanonicalDataBuildError, GivenClass, GivenCompatibility, GivenMapping};
use super::mappings::{Mappings, are_on_starters, first_indices};
use super::names::all_characters_of;
use super::one_mapping::{are_apart, have_one_compatibility};
use super::trie::trie_of;
use crate::canonical::tables::CanonicalTables;
use crate::compatibility::NfkdTables;
use crate::compatibility::check::first_fault;
use icu_packed_vector::PackedVec;
use std::alloc::{AllocError, Global};

/// Words as tables. Fails only if memory is refused.
fn packed(alloc: Global, made: &CompatibilityWords) -> Result<NfkdTables<'static>, AllocError>
    requires wide { different_blocks (λ n. n) 512 made.now.words.values ≤ 800 }
    requires narrow { upper_blocks (λ n. n) made.now.words.values ≤ 12000 }
    ensures trie { IfOk result (λ tables. IsTrieOf made.now.words tables.trie) }
    ensures scalars16 { IfOk result (λ tables. tables.scalars16 ≡ []) }
    ensures scalars24 { IfOk result (λ tables. tables.scalars24 ≡ made.now.scalars24.items) }
{
    let trie = trie_of(&made.words)?;
    let scalars16 = PackedVec::from_slice(alloc, &[])?;
    let scalars24 = PackedVec::from_slice(alloc, made.scalars24.as_slice())?;
    Ok(NfkdTables {
        trie,
        scalars16,
        scalars24,
    })
}

/// The tables of the words of characters. `Rules` where steps from one don't end or leave more than eight characters, or
/// what they leave takes more slots than words name.
fn word_tables(
    alloc: Global,
    over: Mappings<'_>,
    named: &[char],
) -> Result<NfkdTables<'static>, CanonicalDataBuildError>
    requires sound { IsSound over }
    requires scalars { All IsScalar named.now }
    requires wide { block_count wide_block named.now ≤ 719 }
    requires narrow { block_count narrow_block named.now ≤ 11019 }
    requires others { AreOthersUnnamed (steps_in over) (meaning over.tables.now).class named.now }
    ensures built { IfOk result (λ made. AreFullWords (steps_in over.entry) (meaning over.entry.tables.now).class (nfkd_lists made)) }
    ensures plain { IfOk result (λ made. HasPlainWords made.trie) }
    ensures refused { IfErr result (λ e. (e ≡ Memory) ⊎ ((e ≡ Rules) × LacksWords (steps_in over.entry) named.entry.now)) }
{
    let indices = first_indices(alloc, over.given)?;
    let settled = over.settle(alloc, &indices)?;
    let made = match over.full_words(alloc, &indices, settled.as_slice(), named) {
        Ok(made) => made,
        Err(error) => return Err(error),
    };
    let tables = packed(alloc, &made)?;
    Ok(tables)
}

/// Whether each character that is given has one mapping, of one kind, and stands on a starter, what is built in aside.
/// Fails only if memory is refused.
fn keep_mapping_rule(
    alloc: Global,
    mappings: &[GivenMapping],
    given: &[GivenCompatibility],
    tables: &CanonicalTables<'_>,
) -> Result<bool, AllocError>
    ensures kept { IfOk result (λ kept. kept ≡ true → KeepOneMapping mappings.now (meaning tables.now).class given.now) }
    ensures broken { IfOk result (λ kept. kept ≡ false → KeepOneMapping mappings.now (meaning tables.now).class given.now → ⊥) }
{
    if !have_one_compatibility(alloc, given)? {
        return Ok(false);
    }
    if !are_apart(alloc, mappings, given)? {
        return Ok(false);
    }
    Ok(are_on_starters(tables, given))
}

/// The compatibility tables of maps, over canonical tables that mean the same maps; they pass every check. `Rules` only
/// where the maps break the rules.
pub(super) fn compatibility_tables(
    alloc: Global,
    limit: usize,
    classes: &[GivenClass],
    mappings: &[GivenMapping],
    given: &[GivenCompatibility],
    tables: &CanonicalTables<'_>,
) -> Result<NfkdTables<'static>, CanonicalDataBuildError>
    requires accepted { IsAccepted (lists_of tables.now) }
    requires means { AreMeaning (record { classes = classes.now; mappings = mappings.now }) (meaning tables.now) }
    requires classes { All (λ g. IsScalar g.character) classes.now }
    requires mappings { All IsOfScalars mappings.now }
    requires given { All IsOfCharacters given.now }
    ensures means { IfOk result (λ made. AreMeaningOf (record { canonical = record { classes = classes.now; mappings = mappings.now }; compatibilities = given.now }) (nfkd_lists made)) }
    ensures accepted { IfOk result (λ made. AreAcceptedOver (record { classes = classes.now; mappings = mappings.now }) (nfkd_lists made)) }
    ensures plain { IfOk result (λ made. HasPlainWords made.trie) }
    ensures few { OnOk result (distinct_count nat_eq (all_named (record { canonical = record { classes = classes.now; mappings = mappings.now }; compatibilities = given.now })) ≤ limit) }
    ensures one_mapping { OnOk result (HaveOneCompatibility given.now) }
    ensures apart { OnOk result (AreApart (record { canonical = record { classes = classes.now; mappings = mappings.now }; compatibilities = given.now })) }
    ensures refused { IfErr result (λ e. (e ≡ Memory) ⊎ ((e ≡ Rules) × (KeepAllRulesWithin limit (record { canonical = record { classes = classes.now; mappings = mappings.now }; compatibilities = given.now }) → ⊥))) }
{
    let characters = match all_characters_of(alloc, limit, classes, mappings, given) {
        Ok(characters) => characters,
        Err(error) => return Err(error),
    };
    let kept = keep_mapping_rule(alloc, mappings, given, tables)?;
    if !kept {
        return Err(CanonicalDataBuildError::Rules);
    }
    let made = match word_tables(alloc, Mappings { tables, given }, characters.as_slice()) {
        Ok(made) => made,
        Err(error) => return Err(error),
    };
    match first_fault(tables, made.words()) {
        None => Ok(made),
        Some(_) => Err(CanonicalDataBuildError::Rules),
    }
}
