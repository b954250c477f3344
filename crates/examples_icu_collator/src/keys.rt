//! The laws of keys applied to texts over written tables.

ghost use Rattle.std.specs.Char.{IsScalar};
ghost use Rattle.std.specs.Cmp.Lexicographic.{slice_cmp};
ghost use Rattle.std.specs.Ordering.{nat_cmp};
ghost use Rattle.std.specs.Prelude.{◌≡◌, ℕ, All, List, [], ◌∷◌, true};
ghost use Rattle.std.specs.declared.cmp.Ordering.TheVariants.{Less};
ghost use Rattle.icu_normalizer_core.specs.Canonical.{decomposed};
ghost use Rattle.icu_collator_types.specs.declared.options.Strength.{Strength};
ghost use Rattle.icu_collator_types.specs.declared.options.Strength.TheVariants.{Primary, Tertiary, Identical};
ghost use Rattle.icu_collator_core.specs.Defaults.{primary_element};
ghost use Rattle.icu_collator_core.specs.Elements.{elements_of_list};
ghost use Rattle.icu_collator_core.specs.SoundElements.{IsSoundSequence};
ghost use Rattle.icu_collator_core.specs.WeightRules.{AreSoundWeights};
ghost use Rattle.icu_normalizer.specs.Equivalence.{IsEquivalent};
ghost use Rattle.icu_collator.specs.KeyBytes.{key_bytes, key_of_text};
ghost use Rattle.examples_icu_collator.specs.Letters.{letters, digits_collation, ideographs_collation, plain_options, numeric_options, acute_composed, dot_composed, cote_with_acute, cote_with_circumflex};
ghost use Rattle.icu_collator.specs.Levels.{levels_of, levels_of_text};
ghost use Rattle.icu_collator.specs.SoundCollation.{AreSoundLevels, IsSoundCollation};

use icu_collator::laws::keys::{
    equal_keys_are_of_equal_texts, equal_keys_at_identical_are_of_equivalent_texts,
    keys_order_as_levels, keys_order_as_texts, texts_have_sound_levels,
};
use icu_collator::laws::{equal_lists_are_equivalent, equivalent_texts_are_equal};
use icu_collator_core::laws::texts::{ranges_have_sound_primaries, texts_have_sound_elements};

// The records meet what the laws ask for, so the laws speak of them.
#[tactic(auto, using(crate::proofs::KeyExamples::digits_sound))]
fn rules_are_kept()
    ensures { IsSoundCollation digits_collation }
{}

// So do they with a range of ideographs beside them.
fn rules_are_kept_with_a_range()
    ensures { AreSoundWeights ideographs_collation.weights }
{
    ranges_have_sound_primaries();
}

// An acute composed with the letter and a dot below are a dot below composed with it and an acute.
fn spellings_are_equivalent()
    ensures { IsEquivalent letters dot_composed acute_composed }
{
    equal_lists_are_equivalent();
}

// The key of "cote" with an acute at its end is below that with a circumflex; and that of "a2" below that of "a10".
fn keys_are_in_order()
    ensures accents { slice_cmp nat_cmp (key_of_text digits_collation (plain_options Tertiary) cote_with_acute) (key_of_text digits_collation (plain_options Tertiary) cote_with_circumflex) ≡ Less }
    ensures numbers { slice_cmp nat_cmp (key_of_text digits_collation (numeric_options Primary) (0x61 ∷ 0x32 ∷ [])) (key_of_text digits_collation (numeric_options Primary) (0x61 ∷ 0x31 ∷ 0x30 ∷ [])) ≡ Less }
{
    keys_order_as_texts();
}

// The spellings compare equal at every strength, so they have one key; and texts that don't have two.
fn keys_are_equal()
    ensures spellings { (strength : Strength)
        → key_of_text digits_collation (plain_options strength) dot_composed ≡ key_of_text digits_collation (plain_options strength) acute_composed }
    ensures accents { key_of_text digits_collation (plain_options Tertiary) cote_with_acute ≡ key_of_text digits_collation (plain_options Tertiary) cote_with_circumflex → ⊥ }
{
    spellings_are_equivalent();
    equivalent_texts_are_equal();
    equal_keys_are_of_equal_texts();
}

// At the highest strength the spellings have one key since they are equivalent.
fn keys_are_equal_at_identical()
    ensures { key_of_text digits_collation (numeric_options Identical) dot_composed ≡ key_of_text digits_collation (numeric_options Identical) acute_composed }
{
    spellings_are_equivalent();
    equal_keys_at_identical_are_of_equivalent_texts();
}

// The key of the elements of "a" and "b" is below that of the element of "b".
fn keys_of_elements_are_in_order()
    ensures { slice_cmp nat_cmp
        (key_bytes digits_collation (plain_options Tertiary) (levels_of digits_collation (plain_options Tertiary) (primary_element 0x2a100000 ∷ primary_element 0x2a200000 ∷ []) (0x61 ∷ 0x62 ∷ [])))
        (key_bytes digits_collation (plain_options Tertiary) (levels_of digits_collation (plain_options Tertiary) (primary_element 0x2a200000 ∷ []) (0x62 ∷ [])))
        ≡ Less }
{
    keys_order_as_levels();
}

// So the laws of levels speak of every text under these records.
fn levels_are_sound()
    ensures { (strength : Strength) (text : List ℕ) → All IsScalar text
        → AreSoundLevels digits_collation (numeric_options strength) (levels_of_text digits_collation (numeric_options strength) text) }
{
    texts_have_sound_levels();
}

// Every text has a sequence of single elements and whole numbers under these records.
#[tactic(auto, using(crate::proofs::KeyExamples::digits_weights_sound, crate::proofs::LettersLemmas::letters_is_decomposing))]
fn elements_are_sound()
    ensures { (text : List ℕ) → All IsScalar text
        → IsSoundSequence digits_collation.weights true (elements_of_list letters digits_collation.weights true (decomposed letters text)) }
{
    texts_have_sound_elements();
}

#[test]
fn ok_keys_order_as_texts() {
    rules_are_kept();
    keys_are_in_order();
}

#[test]
fn ok_equal_keys_are_of_equal_texts() {
    keys_are_equal();
}

#[test]
fn ok_equal_keys_at_identical_are_of_equivalent_texts() {
    keys_are_equal_at_identical();
}

#[test]
fn ok_keys_order_as_levels() {
    keys_of_elements_are_in_order();
}

#[test]
fn ok_texts_have_sound_levels() {
    levels_are_sound();
}

#[test]
fn ok_texts_have_sound_elements() {
    elements_are_sound();
}

#[test]
fn ok_ranges_have_sound_primaries() {
    rules_are_kept_with_a_range();
}
