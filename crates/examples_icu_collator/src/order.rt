//! The laws applied to texts over written tables.

ghost use Rattle.std.specs.Prelude.{◌≡◌, ℕ, List, [], ◌∷◌, IsTrue};
ghost use Rattle.std.specs.declared.cmp.Ordering.TheVariants.{Less, Equal, Greater};
ghost use Rattle.icu_collator_types.specs.declared.options.ResolvedCollatorOptions.{ResolvedCollatorOptions};
ghost use Rattle.icu_collator_types.specs.declared.options.Strength.{Strength};
ghost use Rattle.icu_collator_types.specs.declared.options.Strength.TheVariants.{Tertiary, Identical};
ghost use Rattle.icu_collator_types.specs.Options.{is_at_least};
ghost use Rattle.icu_normalizer_core.specs.Canonical.{IsCanonical, composed, decomposed};
ghost use Rattle.icu_normalizer.specs.Equivalence.{IsEquivalent};
ghost use Rattle.examples_icu_collator.specs.Letters.{letters, letters_collation, digits_collation, plain_options, numeric_options, acute_composed, dot_composed, acute_before_dot, dot_before_acute, cote_with_acute, cote_with_circumflex};
ghost use Rattle.icu_collator.specs.Levels.{levels_of_text};
ghost use Rattle.icu_collator.specs.Order.{collation_order};

use icu_collator::laws::{
    equal_at_identical_is_equivalence, equal_composed_lists_are_equivalent,
    equal_lists_are_equivalent, equivalent_texts_are_equal, normal_forms_stay,
    normalising_first_keeps_order, normalising_keeps_levels, order_is_total,
    raised_strength_keeps_order,
};

// The records meet what canonical data promise, so the laws speak of them.
#[tactic(auto, using(crate::proofs::LetterPairsLemmas::letters_is_canonical))]
fn letters_are_canonical()
    ensures { IsCanonical letters }
{}

// "a" is below "b" at every strength, and "b" below "c", since they are at the lowest.
fn letters_are_in_order()
    ensures first { (strength : Strength) → collation_order letters_collation (plain_options strength) (0x61 ∷ []) (0x62 ∷ []) ≡ Less }
    ensures second { (strength : Strength) → collation_order letters_collation (plain_options strength) (0x62 ∷ []) (0x63 ∷ []) ≡ Less }
{
    raised_strength_keeps_order();
}

// Accents that differ at Tertiary differ in the same way at every strength above.
fn accents_are_in_order()
    ensures { (strength : Strength) → IsTrue (is_at_least strength Tertiary)
        → collation_order letters_collation (plain_options strength) cote_with_acute cote_with_circumflex ≡ Less }
{
    raised_strength_keeps_order();
}

// "a2" is above "a10" at every strength, and with numeric ordering below it.
fn numbers_are_in_order()
    ensures by_letters { (strength : Strength)
        → collation_order digits_collation (plain_options strength) (0x61 ∷ 0x32 ∷ []) (0x61 ∷ 0x31 ∷ 0x30 ∷ []) ≡ Greater }
    ensures by_value { (strength : Strength)
        → collation_order digits_collation (numeric_options strength) (0x61 ∷ 0x32 ∷ []) (0x61 ∷ 0x31 ∷ 0x30 ∷ []) ≡ Less }
{
    raised_strength_keeps_order();
}

// The other way round the accents are above, and "a" is below "c" by way of "b".
fn order_is_kept()
    ensures turned { (strength : Strength) → IsTrue (is_at_least strength Tertiary)
        → collation_order letters_collation (plain_options strength) cote_with_circumflex cote_with_acute ≡ Greater }
    ensures joined { (strength : Strength) → collation_order letters_collation (plain_options strength) (0x61 ∷ []) (0x63 ∷ []) ≡ Less }
{
    accents_are_in_order();
    letters_are_in_order();
    order_is_total();
}

// An acute composed with the letter and a dot below are a dot below composed with it and an acute.
fn spellings_are_equivalent()
    ensures { IsEquivalent letters dot_composed acute_composed }
{
    equal_lists_are_equivalent();
}

// So they have one composed list; and marks in another order that have it are equivalent to them.
fn composed_spellings_are_equivalent()
    ensures one_list { composed letters acute_composed ≡ composed letters dot_composed }
    ensures marks { IsEquivalent letters acute_before_dot dot_composed }
{
    spellings_are_equivalent();
    equal_composed_lists_are_equivalent();
}

// The spellings compare equal, whatever is asked for, and so alike to any third text.
fn spellings_are_equal()
    ensures equal { (options : ResolvedCollatorOptions) → collation_order letters_collation options dot_composed acute_composed ≡ Equal }
    ensures alike { (options : ResolvedCollatorOptions) (text : List ℕ)
        → collation_order letters_collation options dot_composed text ≡ collation_order letters_collation options acute_composed text }
{
    spellings_are_equivalent();
    equivalent_texts_are_equal();
    order_is_total();
}

// At the highest strength the spellings are equal since they are equivalent, and texts that aren't equal there aren't.
fn equal_at_identical()
    ensures spellings { (options : ResolvedCollatorOptions) → options.strength ≡ Identical
        → collation_order letters_collation options dot_composed acute_composed ≡ Equal }
    ensures accents { IsEquivalent letters cote_with_acute cote_with_circumflex → ⊥ }
{
    spellings_are_equivalent();
    accents_are_in_order();
    equal_at_identical_is_equivalence();
}

// The normal forms of the one spelling's normal forms are those of the other spelling.
fn normal_forms_of_spellings()
    ensures decomposed_twice { decomposed letters (decomposed letters acute_composed) ≡ decomposed letters dot_composed }
    ensures decomposed_then_composed { composed letters (decomposed letters acute_composed) ≡ dot_composed }
    ensures composed_then_decomposed { decomposed letters (composed letters acute_composed) ≡ dot_before_acute }
    ensures composed_twice { composed letters (composed letters acute_composed) ≡ composed letters dot_composed }
{
    normal_forms_stay();
}

// A spelling has the levels of its normal forms, which are other spellings.
fn levels_of_spellings()
    ensures decomposed { (options : ResolvedCollatorOptions)
        → levels_of_text letters_collation options dot_before_acute ≡ levels_of_text letters_collation options acute_composed }
    ensures composed { (options : ResolvedCollatorOptions)
        → levels_of_text letters_collation options dot_composed ≡ levels_of_text letters_collation options acute_composed }
{
    normalising_keeps_levels();
}

// A normal form of a spelling compares as the spelling does.
fn order_of_spellings()
    ensures decomposed_left { (options : ResolvedCollatorOptions)
        → collation_order letters_collation options dot_before_acute cote_with_acute ≡ collation_order letters_collation options acute_composed cote_with_acute }
    ensures decomposed_right { (options : ResolvedCollatorOptions)
        → collation_order letters_collation options cote_with_acute dot_before_acute ≡ collation_order letters_collation options cote_with_acute acute_composed }
    ensures composed_left { (options : ResolvedCollatorOptions)
        → collation_order letters_collation options dot_composed cote_with_acute ≡ collation_order letters_collation options acute_composed cote_with_acute }
    ensures composed_right { (options : ResolvedCollatorOptions)
        → collation_order letters_collation options cote_with_acute dot_composed ≡ collation_order letters_collation options cote_with_acute acute_composed }
{
    normalising_first_keeps_order();
}

#[test]
fn ok_order_is_total() {
    order_is_kept();
}

#[test]
fn ok_raised_strength_keeps_order() {
    letters_are_in_order();
    accents_are_in_order();
    numbers_are_in_order();
}

#[test]
fn ok_equal_lists_are_equivalent() {
    letters_are_canonical();
    spellings_are_equivalent();
}

#[test]
fn ok_equal_composed_lists_are_equivalent() {
    composed_spellings_are_equivalent();
}

#[test]
fn ok_normal_forms_stay() {
    normal_forms_of_spellings();
}

#[test]
fn ok_equivalent_texts_are_equal() {
    spellings_are_equal();
}

#[test]
fn ok_equal_at_identical_is_equivalence() {
    equal_at_identical();
}

#[test]
fn ok_normalising_keeps_levels() {
    levels_of_spellings();
}

#[test]
fn ok_normalising_first_keeps_order() {
    order_of_spellings();
}
