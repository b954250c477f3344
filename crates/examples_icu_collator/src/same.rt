//! The laws of sameness applied to two tables that say the same in other lines, and to one of which a record has changed.

ghost use Rattle.std.specs.Char.{IsScalar};
ghost use Rattle.std.specs.Prelude.{◌≡◌, ℕ, true, All, List};
ghost use Rattle.icu_normalizer_core.specs.Canonical.{decomposed};
ghost use Rattle.icu_collator_types.specs.declared.elements.Element.{Element};
ghost use Rattle.icu_collator_types.specs.declared.options.Strength.{Strength};
ghost use Rattle.icu_collator_core.specs.Elements.{elements_of_list};
ghost use Rattle.icu_normalizer_core.specs.Sameness.{AreSameCanonical};
ghost use Rattle.icu_collator_core.specs.Sameness.{AreSameLeads, AreSameOf, AreSameWeights};
ghost use Rattle.icu_collator.specs.KeyBytes.{key_bytes, key_of_text};
ghost use Rattle.icu_collator.specs.Levels.{Levels, levels_of, levels_of_text};
ghost use Rattle.icu_collator.specs.Order.{collation_order};
ghost use Rattle.icu_collator_core.specs.SameSettings.{AreSameSettings};
ghost use Rattle.examples_icu_collator.specs.Letters.{acute_composed, numeric_options};
ghost use Rattle.examples_icu_collator.specs.SameTables.{changed_collation, other_collation, ranged_collation, ReachesNoB};

use icu_collator::laws::same::{
    same_data_have_same_keys, same_data_have_same_levels, same_data_order_alike,
    same_levels_have_same_keys, same_settings_have_same_levels, unchanged_texts_have_same_keys,
    unchanged_texts_have_same_levels, unchanged_texts_order_alike,
};
use icu_collator_core::laws::same::{
    same_characters_have_same_decomposed_lists, same_mappings_have_same_decomposed_lists,
    same_readings_have_same_elements, same_weights_have_same_elements,
};

// The tables say the same of each character, so the laws speak of them.
#[tactic(auto, using(crate::proofs::SameTablesLemmas::same_characters, crate::proofs::SameTablesLemmas::same_weights, crate::proofs::SameTablesLemmas::same_settings, crate::proofs::SameTablesLemmas::same_leads))]
fn tables_are_the_same()
    ensures characters { AreSameCanonical other_collation.canonical ranged_collation.canonical }
    ensures weights { AreSameWeights other_collation.weights ranged_collation.weights }
    ensures settings { AreSameSettings other_collation ranged_collation }
    ensures leads { AreSameLeads other_collation.weights ranged_collation.weights }
{}

// So each text of scalar values has one decomposed list under both, and each list the same elements.
fn lists_are_the_same()
    ensures lists { (text : List ℕ) → All IsScalar text
        → decomposed other_collation.canonical text ≡ decomposed ranged_collation.canonical text }
    ensures elements { (list : List ℕ) → All IsScalar list
        → elements_of_list other_collation.canonical other_collation.weights true list
        ≡ elements_of_list ranged_collation.canonical ranged_collation.weights true list }
{
    same_characters_have_same_decomposed_lists();
    same_weights_have_same_elements();
}

// A text has the same levels and the same key under both, and two texts compare alike.
fn answers_are_the_same()
    ensures levels { (strength : Strength) (text : List ℕ) → All IsScalar text
        → levels_of_text other_collation (numeric_options strength) text ≡ levels_of_text ranged_collation (numeric_options strength) text }
    ensures keys { (strength : Strength) (text : List ℕ) → All IsScalar text
        → key_of_text other_collation (numeric_options strength) text ≡ key_of_text ranged_collation (numeric_options strength) text }
    ensures order { (strength : Strength) (x y : List ℕ) → All IsScalar x → All IsScalar y
        → collation_order other_collation (numeric_options strength) x y ≡ collation_order ranged_collation (numeric_options strength) x y }
{
    same_data_have_same_levels();
    same_data_have_same_keys();
    same_data_order_alike();
}

// Elements have the same levels under both, and levels the same key.
fn levels_are_the_same()
    ensures levels { (strength : Strength) (elements : List Element) (list : List ℕ)
        → levels_of other_collation (numeric_options strength) elements list ≡ levels_of ranged_collation (numeric_options strength) elements list }
    ensures keys { (strength : Strength) (levels : Levels)
        → key_bytes other_collation (numeric_options strength) levels ≡ key_bytes ranged_collation (numeric_options strength) levels }
{
    same_settings_have_same_levels();
    same_levels_have_same_keys();
}

// Where the record of "b" has changed, the same is said of a text that reaches no "b", as of an accented "a".
fn texts_without_b_are_unchanged()
    ensures said { (text : List ℕ) → ReachesNoB text → AreSameOf ranged_collation changed_collation text }
    ensures accented { ReachesNoB acute_composed }
{}

// So such a text has the lists that it had.
fn lists_without_b_stay()
    ensures lists { (text : List ℕ) → All IsScalar text
        → decomposed ranged_collation.canonical text ≡ decomposed changed_collation.canonical text }
    ensures elements { (text : List ℕ) → ReachesNoB text → All IsScalar text
        → elements_of_list ranged_collation.canonical ranged_collation.weights true (decomposed ranged_collation.canonical text)
        ≡ elements_of_list changed_collation.canonical changed_collation.weights true (decomposed changed_collation.canonical text) }
{
    same_mappings_have_same_decomposed_lists();
    same_readings_have_same_elements();
}

// It has the levels and the key that it had, and compares as it did with another such text.
fn answers_without_b_stay()
    ensures levels { (strength : Strength) (text : List ℕ) → ReachesNoB text → All IsScalar text
        → levels_of_text ranged_collation (numeric_options strength) text ≡ levels_of_text changed_collation (numeric_options strength) text }
    ensures keys { (strength : Strength) (text : List ℕ) → ReachesNoB text → All IsScalar text
        → key_of_text ranged_collation (numeric_options strength) text ≡ key_of_text changed_collation (numeric_options strength) text }
    ensures order { (strength : Strength) (x y : List ℕ) → ReachesNoB x → ReachesNoB y → All IsScalar x → All IsScalar y
        → collation_order ranged_collation (numeric_options strength) x y ≡ collation_order changed_collation (numeric_options strength) x y }
{
    unchanged_texts_have_same_levels();
    unchanged_texts_have_same_keys();
    unchanged_texts_order_alike();
}

#[test]
fn ok_same_characters_have_same_decomposed_lists() {
    tables_are_the_same();
    lists_are_the_same();
}

#[test]
fn ok_same_data_have_same_keys() {
    answers_are_the_same();
}

#[test]
fn ok_same_levels_have_same_keys() {
    levels_are_the_same();
}

#[test]
fn ok_same_readings_have_same_elements() {
    texts_without_b_are_unchanged();
    lists_without_b_stay();
}

#[test]
fn ok_unchanged_texts_order_alike() {
    answers_without_b_stay();
}
