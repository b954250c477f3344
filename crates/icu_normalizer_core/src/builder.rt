//! Canonical tables made of classes and mappings that are given one by one: what is given, and the parts of the tables.

ghost use Rattle.std.specs.Prelude.{◌≡◌, ◌++◌, ◌∷◌, ◌&&◌, ◌⊎◌, ◌≤◌, [], nat_eq, All, OnOk, OnErr, IfOk, IfErr};
ghost use Rattle.std.specs.Char.{IsScalar};
ghost use Rattle.std.specs.Option.{is_some};
ghost use Rattle.std.specs.Set.{distinct_count};
ghost use Rattle.icu_normalizer_core.specs.declared.builder.given.CanonicalDataBuildError.TheVariants.{Rules, Memory};
ghost use Rattle.icu_normalizer_core.specs.BuiltMaps.{AreStepsOf, HasPlainWords};
ghost use Rattle.icu_normalizer_core.specs.CanonicalFaults.{IsAccepted};
ghost use Rattle.icu_normalizer_core.specs.CanonicalMaps.{AreMeaning, HaveOneMapping, KeepRulesWithin, named};
ghost use Rattle.icu_normalizer_core.specs.CanonicalMeaning.{lists_of, meaning};
ghost use Rattle.icu_normalizer_core.specs.CompatibilityMaps.{AreAcceptedOver, AreApart, AreMeaningOf, BuilderMaps, HaveOneCompatibility, IsGivenTo, KeepAllRulesWithin, all_named, maps_in};
ghost use Rattle.icu_normalizer_core.specs.CompatibilityMeaning.{nfkd_lists};
ghost use Rattle.icu_normalizer_core.specs.Plain.{Tells};

mod built_words;
mod classes;
mod compatibility_tables;
mod compatibility_words;
mod full_list_words;
mod full_lists;
mod given;
mod in_order;
mod list_words;
mod mappings;
mod names;
mod numbers;
mod one_mapping;
mod pairs;
mod settle;
mod steps;
mod tables;
mod trie;

use crate::canonical::check::first_fault;
use crate::canonical::check::told::told;
use crate::canonical::{CanonicalData, CanonicalTables};
use crate::compatibility::NfkdTables;
use compatibility_tables::compatibility_tables;
pub use given::{CanonicalDataBuildError, GivenClass, GivenCompatibility, GivenMapping};
use std::alloc::{AllocError, Global};
use std::marker::Model;
use tables::tables;

/// How many different characters a builder takes that is told no other limit.
const STANDARD_LIMIT: usize = 150;

/// Tables in the making, seen as the classes and mappings that were given, and how many different characters they may
/// name. The builder keeps its allocator.
#[derive(Debug)]
pub struct CanonicalDataBuilder {
    alloc: Global,
    limit: usize,
    classes: Vec<GivenClass>,
    mappings: Vec<GivenMapping>,
    compatibilities: Vec<GivenCompatibility>,
}

// (let go of as one, and not part by part, so that what owns one is proved sooner)
impl Drop for CanonicalDataBuilder {
    fn drop(self) {
        let CanonicalDataBuilder {
            alloc: _,
            limit: _,
            classes: _,
            mappings: _,
            compatibilities: _,
        } = self;
    }
}

impl Model for CanonicalDataBuilder {
    ghost use Rattle.std.specs.Prelude.{All};
    ghost use Rattle.icu_normalizer_core.specs.CompatibilityMaps.{BuilderMaps};
    ghost use Rattle.icu_normalizer_core.specs.GivenCompatibilities.{IsOfCharacters};
    ghost use Rattle.icu_normalizer_core.specs.GivenMaps.{AreOfScalars};

    ghost Value = { BuilderMaps };

    ghost view = { λ inside. record { limit = inside.limit; canonical = record { classes = inside.classes.items; mappings = inside.mappings.items }; compatibilities = inside.compatibilities.items } };

    ghost invariant = { λ inside. AreOfScalars (record { classes = inside.classes.items; mappings = inside.mappings.items }) × All IsOfCharacters inside.compatibilities.items };
}

impl CanonicalDataBuilder {
    /// Nothing is given yet. The builder takes at most 150 different characters.
    pub fn new(alloc: Global) -> CanonicalDataBuilder
        ensures limit { result.limit ≡ 150 }
        ensures classes { result.canonical.classes ≡ [] }
        ensures mappings { result.canonical.mappings ≡ [] }
        ensures compatibilities { result.compatibilities ≡ [] }
    {
        CanonicalDataBuilder::new_within(alloc, STANDARD_LIMIT)
    }

    /// Nothing is given yet. The builder takes at most so many different characters.
    pub fn new_within(alloc: Global, limit: usize) -> CanonicalDataBuilder
        ensures limit { result.limit ≡ limit }
        ensures classes { result.canonical.classes ≡ [] }
        ensures mappings { result.canonical.mappings ≡ [] }
        ensures compatibilities { result.compatibilities ≡ [] }
    {
        CanonicalDataBuilder {
            alloc,
            limit,
            classes: Vec::new(alloc),
            mappings: Vec::new(alloc),
            compatibilities: Vec::new(alloc),
        }
    }

    /// Gives a character its canonical combining class. Of the classes that are given for a character the first counts,
    /// and the others say nothing. Nothing is refused here unless memory is, and then nothing changes.
    pub fn class(&mut self, c: char, class: u8) -> Result<(), AllocError>
        ensures classes { OnOk result (self.new.canonical.classes ≡ self.old.canonical.classes ++ record { character = c; class = class } ∷ []) }
        ensures mappings { self.new.canonical.mappings ≡ self.old.canonical.mappings }
        ensures compatibilities { self.new.compatibilities ≡ self.old.compatibilities }
        ensures limit { self.new.limit ≡ self.old.limit }
        ensures refused { OnErr result (self.new ≡ self.old) }
    {
        self.classes.push(GivenClass {
            character: c,
            class,
        })?;
        Ok(())
    }

    /// Gives a character its canonical mapping, to one character or to two, and whether the two compose to it; one
    /// alone never does. The same mapping again says nothing new; another one breaks C1, and then nothing is built.
    /// Nothing is refused here unless memory is, and then nothing changes.
    pub fn map(
        &mut self,
        c: char,
        first: char,
        second: Option<char>,
        is_composed: bool,
    ) -> Result<(), AllocError>
        ensures mappings { OnOk result (self.new.canonical.mappings ≡ self.old.canonical.mappings ++ record { character = c; first = first; second = second; is_composed = is_composed && is_some second } ∷ []) }
        ensures classes { self.new.canonical.classes ≡ self.old.canonical.classes }
        ensures compatibilities { self.new.compatibilities ≡ self.old.compatibilities }
        ensures limit { self.new.limit ≡ self.old.limit }
        ensures refused { OnErr result (self.new ≡ self.old) }
    {
        self.mappings.push(GivenMapping {
            character: c,
            first,
            second,
            is_composed: is_composed && second.is_some(),
        })?;
        Ok(())
    }

    /// Gives a character its compatibility mapping, to `first` and the others after it (docs/RECORDS.md, `kmap`). The
    /// same mapping again says nothing new; another one breaks C1, and then no compatibility tables are built. Nothing is
    /// refused here unless memory is, and then nothing changes.
    pub fn kmap(&mut self, c: char, first: char, others: &[char]) -> Result<(), AllocError>
        ensures compatibilities { OnOk result (IsGivenTo self.old.compatibilities c (first ∷ others.now) self.new.compatibilities) }
        ensures canonical { self.new.canonical ≡ self.old.canonical }
        ensures limit { self.new.limit ≡ self.old.limit }
        ensures refused { OnErr result (self.new ≡ self.old) }
    {
        let mapping = listed(self.alloc, first, others)?;
        self.compatibilities.push(GivenCompatibility {
            character: c,
            mapping,
        })?;
        Ok(())
    }

    /// The tables of what was given, with what is built in; the builder stays as it is. The two uppermost bits of each
    /// word are 0, and the mappings of the tables are those that were given but the built-in ones. `Rules` comes only
    /// where what was given breaks a rule (docs/RECORDS.md, C1 to C9), names more different characters than the builder
    /// takes, or lacks room in tables, as 150 characters never do; what is given again as it was counts once, and of
    /// several classes of a character the first is asked alone. Want of memory can come with anything that was given.
    pub fn build(&self) -> Result<CanonicalTables<'static>, CanonicalDataBuildError>
        ensures means { IfOk result (λ tables. AreMeaning self.now.canonical (meaning tables)) }
        ensures accepted { IfOk result (λ tables. IsAccepted (lists_of tables)) }
        ensures plain { IfOk result (λ tables. HasPlainWords tables.trie) }
        ensures steps { IfOk result (λ tables. AreStepsOf self.now.canonical.mappings tables.steps) }
        ensures few { OnOk result (distinct_count nat_eq (named self.now.canonical) ≤ self.now.limit) }
        ensures one_mapping { OnOk result (HaveOneMapping self.now.canonical.mappings) }
        ensures refused { IfErr result (λ e. (e ≡ Memory) ⊎ ((e ≡ Rules) × (KeepRulesWithin self.now.limit self.now.canonical → ⊥))) }
    {
        match self.build_told() {
            Ok((tables, _)) => Ok(tables),
            Err(error) => Err(error),
        }
    }

    /// These tables, and a list of the code points of which they say something.
    #[tactic(auto, using(crate::proofs::building::BuiltMapLemmas::built_meaning, crate::proofs::building::BuiltTableLemmas::fault_breaks))]
    fn build_told(&self) -> Result<(CanonicalTables<'static>, Vec<u32>), CanonicalDataBuildError>
        ensures means { IfOk result (λ made. AreMeaning self.now.canonical (meaning made.0)) }
        ensures accepted { IfOk result (λ made. IsAccepted (lists_of made.0)) }
        ensures tells { IfOk result (λ made. Tells (lists_of made.0) made.1.items) }
        ensures plain { IfOk result (λ made. HasPlainWords made.0.trie) }
        ensures steps { IfOk result (λ made. AreStepsOf self.now.canonical.mappings made.0.steps) }
        ensures few { OnOk result (distinct_count nat_eq (named self.now.canonical) ≤ self.now.limit) }
        ensures one_mapping { OnOk result (HaveOneMapping self.now.canonical.mappings) }
        ensures refused { IfErr result (λ e. (e ≡ Memory) ⊎ ((e ≡ Rules) × (KeepRulesWithin self.now.limit self.now.canonical → ⊥))) }
    {
        let tables = match tables(
            self.alloc,
            self.limit,
            self.classes.as_slice(),
            self.mappings.as_slice(),
        ) {
            Ok(tables) => tables,
            Err(error) => return Err(error),
        };
        let told = told(self.alloc, &tables)?;
        match first_fault(self.alloc, &tables, &told)? {
            None => Ok((tables, told)),
            Some(_) => Err(CanonicalDataBuildError::Rules),
        }
    }

    /// Canonical data of the tables that `build` gives, which it has checked. The errors are those of `build`.
    pub fn build_data(&self) -> Result<CanonicalData<'static>, CanonicalDataBuildError>
        ensures means { IfOk result (λ made. AreMeaning self.now.canonical (meaning made)) }
        ensures accepted { IfOk result (λ made. IsAccepted (lists_of made)) }
        ensures plain { IfOk result (λ made. HasPlainWords made.trie) }
        ensures steps { IfOk result (λ made. AreStepsOf self.now.canonical.mappings made.steps) }
        ensures few { OnOk result (distinct_count nat_eq (named self.now.canonical) ≤ self.now.limit) }
        ensures one_mapping { OnOk result (HaveOneMapping self.now.canonical.mappings) }
        ensures refused { IfErr result (λ e. (e ≡ Memory) ⊎ ((e ≡ Rules) × (KeepRulesWithin self.now.limit self.now.canonical → ⊥))) }
    {
        match self.build_told() {
            Ok((tables, told)) => Ok(CanonicalData::of_accepted(self.alloc, tables, &told)?),
            Err(error) => Err(error),
        }
    }

    /// The compatibility tables of what was given, with what is built in; the builder stays as it is. Over canonical
    /// tables that mean what was given they pass every check (`CompatibilityData::try_new`). The two uppermost bits of
    /// each word are 0. `Rules` comes only where what was given breaks a rule (docs/RECORDS.md, C1 to C9), names more
    /// different characters than the builder takes, or lacks room in tables, as 150 characters never do; what is given
    /// again as it was counts once. Want of memory can come with anything that was given.
    pub fn build_nfkd(&self) -> Result<NfkdTables<'static>, CanonicalDataBuildError>
        ensures means { IfOk result (λ made. AreMeaningOf (maps_in self.now) (nfkd_lists made)) }
        ensures accepted { IfOk result (λ made. AreAcceptedOver self.now.canonical (nfkd_lists made)) }
        ensures plain { IfOk result (λ made. HasPlainWords made.trie) }
        ensures few { OnOk result (distinct_count nat_eq (all_named (maps_in self.now)) ≤ self.now.limit) }
        ensures one_mapping { OnOk result (HaveOneCompatibility self.now.compatibilities) }
        ensures apart { OnOk result (AreApart (maps_in self.now)) }
        ensures refused { IfErr result (λ e. (e ≡ Memory) ⊎ ((e ≡ Rules) × (KeepAllRulesWithin self.now.limit (maps_in self.now) → ⊥))) }
    {
        let tables = match self.build() {
            Ok(tables) => tables,
            Err(error) => return Err(error),
        };
        compatibility_tables(
            self.alloc,
            self.limit,
            self.classes.as_slice(),
            self.mappings.as_slice(),
            self.compatibilities.as_slice(),
            &tables,
        )
    }
}

/// A list of characters, one or more.
fn listed(alloc: Global, first: char, others: &[char]) -> Result<Vec<char>, AllocError>
    ensures items { IfOk result (λ list. list.items ≡ first ∷ others.now) }
    ensures scalars { IfOk result (λ list. All IsScalar list.items) }
{
    let mut list = Vec::new(alloc);
    list.push(first)?;
    for c in others {
        list.push(*c)?;
    }
    Ok(list)
}
