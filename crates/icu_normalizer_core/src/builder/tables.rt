//! The tables of what is given.

ghost use Rattle.std.specs.Prelude.{◌≡◌, ◌≤◌, ◌<◌, ◌⊎◌, nat_eq, IfOk, IfErr, OnOk, All};
ghost use Rattle.std.specs.Char.{IsScalar};
ghost use Rattle.std.specs.Set.{distinct_count};
ghost use Rattle.icu_normalizer_core.specs.declared.builder.given.CanonicalDataBuildError.TheVariants.{Rules, Memory};
ghost use Rattle.icu_normalizer_core.specs.BuiltMaps.{AreBuiltOf, AreStepsOf, ArePairsOf, HasPlainWords, IsWordTrieOf};
ghost use Rattle.icu_normalizer_core.specs.CanonicalMaps.{HaveOneMapping, KeepRulesWithin, named};
ghost use Rattle.icu_normalizer_core.specs.CanonicalMeaning.{lists_of};
ghost use Rattle.icu_normalizer_core.specs.CharacterWords.{AreListWords, AreStarters, HasNamed, class_with};
ghost use Rattle.icu_normalizer_core.specs.GivenMaps.{IsOfScalars};
ghost use Rattle.icu_normalizer_core.specs.Named.{block_count, narrow_block, wide_block};

use super::built_words::{are_classes, are_starters};
use super::classes::Classes;
use super::full_lists::full_lists;
use super::given::{CanonicalDataBuildError, GivenClass, GivenMapping};
use super::list_words::ListWords;
use super::names::characters_of;
use super::one_mapping::have_one_mapping;
use super::pairs::pairs;
use super::steps::steps;
use super::trie::{trie_of, words_of};
use crate::canonical::tables::CanonicalTables;
use icu_codepointtrie::CodePointTrie;
use icu_packed_vector::PackedVec;
use std::alloc::{AllocError, Global};

/// The mappings that aren't built in, packed. Fails only if memory is refused.
fn packed_steps(
    alloc: Global,
    mappings: &[GivenMapping],
) -> Result<PackedVec<'static, u32>, AllocError>
    requires { All IsOfScalars mappings.now }
    ensures { IfOk result (AreStepsOf mappings.now) }
{
    let triples = steps(alloc, mappings)?;
    let packed = PackedVec::from_slice(alloc, triples.as_slice())?;
    Ok(packed)
}

/// The composed pairs that aren't built in, packed. Fails only if memory is refused.
fn packed_pairs(
    alloc: Global,
    mappings: &[GivenMapping],
) -> Result<PackedVec<'static, u64>, AllocError>
    requires { All IsOfScalars mappings.now }
    ensures { IfOk result (ArePairsOf mappings.now) }
{
    let pairs = pairs(alloc, mappings)?;
    let packed = PackedVec::from_slice(alloc, pairs.as_slice())?;
    Ok(packed)
}

/// The trie of the words of characters. Fails only if memory is refused.
fn word_trie(
    alloc: Global,
    classes: &Classes<'_>,
    mappings: &[GivenMapping],
    steps: &PackedVec<'_, u32>,
    lists: &ListWords,
    characters: &[char],
) -> Result<CodePointTrie<'static, u32>, AllocError>
    requires scalars { All IsScalar characters.now }
    requires named { HasNamed classes.now.given.now mappings.now characters.now }
    requires wide { block_count wide_block characters.now ≤ 717 }
    requires narrow { block_count narrow_block characters.now ≤ 11017 }
    requires bound { All (λ c. class_with classes.now.given.now c < 255) characters.now }
    requires steps { AreStepsOf mappings.now steps.now }
    requires starters { AreStarters classes.now.given.now steps.now }
    requires lists { AreListWords steps.now lists.now }
    ensures words { IfOk result (IsWordTrieOf classes.now.given.now steps.now lists.now.scalars24.items) }
    ensures plain { IfOk result HasPlainWords }
{
    let words = words_of(alloc, classes, steps, lists, characters)?;
    let trie = trie_of(&words)?;
    Ok(trie)
}

/// The tables of mappings, words of full lists, and classes. Fails only if memory is refused.
#[tactic(auto, using(crate::proofs::building::BuiltTableLemmas::put_together))]
fn packed_tables(
    alloc: Global,
    classes: &Classes<'_>,
    mappings: &[GivenMapping],
    steps: PackedVec<'static, u32>,
    lists: &ListWords,
    characters: &[char],
) -> Result<CanonicalTables<'static>, AllocError>
    requires mappings { All IsOfScalars mappings.now }
    requires scalars { All IsScalar characters.now }
    requires named { HasNamed classes.now.given.now mappings.now characters.now }
    requires wide { block_count wide_block characters.now ≤ 717 }
    requires narrow { block_count narrow_block characters.now ≤ 11017 }
    requires bound { All (λ c. class_with classes.now.given.now c < 255) characters.now }
    requires steps { AreStepsOf mappings.now steps }
    requires starters { AreStarters classes.now.given.now steps }
    requires lists { AreListWords steps lists.now }
    ensures built { IfOk result (λ tables. AreBuiltOf (record { classes = classes.now.given.now; mappings = mappings.now }) (lists_of tables)) }
    ensures plain { IfOk result (λ tables. HasPlainWords tables.trie) }
    ensures steps { IfOk result (λ tables. AreStepsOf mappings.now tables.steps) }
{
    let trie = word_trie(alloc, classes, mappings, &steps, lists, characters)?;
    let scalars16 = PackedVec::from_slice(alloc, &[])?;
    let scalars24 = PackedVec::from_slice(alloc, lists.scalars24.as_slice())?;
    let pairs = packed_pairs(alloc, mappings)?;
    Ok(CanonicalTables {
        trie,
        scalars16,
        scalars24,
        steps,
        pairs,
    })
}

/// The tables of classes, which are to be looked up, and mappings, not yet checked. `Rules` only where they break the
/// rules.
fn tables_over(
    alloc: Global,
    limit: usize,
    classes: &Classes<'_>,
    mappings: &[GivenMapping],
) -> Result<CanonicalTables<'static>, CanonicalDataBuildError>
    requires { All IsOfScalars mappings.now }
    ensures built { IfOk result (λ tables. AreBuiltOf (record { classes = classes.now.given.now; mappings = mappings.now }) (lists_of tables)) }
    ensures plain { IfOk result (λ tables. HasPlainWords tables.trie) }
    ensures steps { IfOk result (λ tables. AreStepsOf mappings.now tables.steps) }
    ensures few { OnOk result (distinct_count nat_eq (named (record { classes = classes.now.given.now; mappings = mappings.now })) ≤ limit) }
    ensures one_mapping { OnOk result (HaveOneMapping mappings.now) }
    ensures refused { IfErr result (λ e. (e ≡ Memory) ⊎ ((e ≡ Rules) × (KeepRulesWithin limit (record { classes = classes.now.given.now; mappings = mappings.now }) → ⊥))) }
{
    let characters = match characters_of(alloc, limit, classes.given, mappings) {
        Ok(characters) => characters,
        Err(error) => return Err(error),
    };
    if !are_classes(classes, characters.as_slice()) {
        return Err(CanonicalDataBuildError::Rules);
    }
    if !have_one_mapping(alloc, mappings)? {
        return Err(CanonicalDataBuildError::Rules);
    }
    let steps = packed_steps(alloc, mappings)?;
    if !are_starters(classes, &steps) {
        return Err(CanonicalDataBuildError::Rules);
    }
    let lists = match full_lists(alloc, &steps) {
        Ok(lists) => lists,
        Err(error) => return Err(error),
    };
    let tables = packed_tables(alloc, classes, mappings, steps, &lists, &characters)?;
    Ok(tables)
}

/// The tables of classes and mappings, not yet checked. `Rules` only where they break the rules.
pub(super) fn tables(
    alloc: Global,
    limit: usize,
    classes: &[GivenClass],
    mappings: &[GivenMapping],
) -> Result<CanonicalTables<'static>, CanonicalDataBuildError>
    requires { All IsOfScalars mappings.now }
    ensures built { IfOk result (λ tables. AreBuiltOf (record { classes = classes.now; mappings = mappings.now }) (lists_of tables)) }
    ensures plain { IfOk result (λ tables. HasPlainWords tables.trie) }
    ensures steps { IfOk result (λ tables. AreStepsOf mappings.now tables.steps) }
    ensures few { OnOk result (distinct_count nat_eq (named (record { classes = classes.now; mappings = mappings.now })) ≤ limit) }
    ensures one_mapping { OnOk result (HaveOneMapping mappings.now) }
    ensures refused { IfErr result (λ e. (e ≡ Memory) ⊎ ((e ≡ Rules) × (KeepRulesWithin limit (record { classes = classes.now; mappings = mappings.now }) → ⊥))) }
{
    let classes = Classes::new(alloc, classes)?;
    tables_over(alloc, limit, &classes, mappings)
}
