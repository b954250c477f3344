//! The laws of levels applied to elements over written tables.

ghost use Rattle.std.specs.Prelude.{◌≡◌};
ghost use Rattle.std.specs.declared.cmp.Ordering.TheVariants.{Greater, Less};
ghost use Rattle.icu_collator_types.specs.declared.options.Strength.TheVariants.{Primary, Secondary, Tertiary, Identical};
ghost use Rattle.icu_collator.specs.KeyBytes.{key_bytes};
ghost use Rattle.examples_icu_collator.specs.Letters.{digits_collation, plain_options, numeric_options};
ghost use Rattle.examples_icu_collator.specs.LetterLevels.{case_options, shifted_options, levels_of_a, levels_of_b, levels_of_capital_a, levels_of_a_acute, levels_of_a_circumflex, levels_of_a_space_c, levels_of_ac, levels_of_7, levels_of_07};
ghost use Rattle.icu_collator.specs.LevelOrders.{keys_order};

use icu_collator::laws::levels::{
    cases_decide, characters_decide, equal_levels_have_equal_keys, primaries_decide,
    quaternaries_decide, secondaries_decide, tertiaries_decide,
};

// The key of "a" is below that of "b".
fn letters_decide()
    ensures { keys_order digits_collation (plain_options Primary) (levels_of_a (plain_options Primary)) (levels_of_b (plain_options Primary)) ≡ Less }
{
    primaries_decide();
}

// The key of "a" with an acute is below that with a circumflex.
fn accents_decide()
    ensures { keys_order digits_collation (plain_options Secondary) (levels_of_a_acute (plain_options Secondary)) (levels_of_a_circumflex (plain_options Secondary)) ≡ Less }
{
    secondaries_decide();
}

// With a level of case the key of "a" is below that of "A" ahead of the third strength.
fn cases_of_a_decide()
    ensures { keys_order digits_collation case_options (levels_of_a case_options) (levels_of_capital_a case_options) ≡ Less }
{
    cases_decide();
}

// At the third strength the key of "a" is below that of "A".
fn capital_decides()
    ensures { keys_order digits_collation (plain_options Tertiary) (levels_of_a (plain_options Tertiary)) (levels_of_capital_a (plain_options Tertiary)) ≡ Less }
{
    tertiaries_decide();
}

// With spaces shifted the key of "a c" is below that of "ac".
fn space_decides()
    ensures { keys_order digits_collation shifted_options (levels_of_a_space_c shifted_options) (levels_of_ac shifted_options) ≡ Less }
{
    quaternaries_decide();
}

// "7" and "07" are one number, so their characters decide, and the key of "7" is above.
fn zero_decides()
    ensures { keys_order digits_collation (numeric_options Identical) (levels_of_7 (numeric_options Identical)) (levels_of_07 (numeric_options Identical)) ≡ Greater }
{
    characters_decide();
}

// At the third strength "7" and "07" have one key.
fn sevens_have_one_key()
    ensures { key_bytes digits_collation (numeric_options Tertiary) (levels_of_7 (numeric_options Tertiary)) ≡ key_bytes digits_collation (numeric_options Tertiary) (levels_of_07 (numeric_options Tertiary)) }
{
    equal_levels_have_equal_keys();
}

#[test]
fn ok_primaries_decide() {
    letters_decide();
}

#[test]
fn ok_secondaries_decide() {
    accents_decide();
}

#[test]
fn ok_cases_decide() {
    cases_of_a_decide();
}

#[test]
fn ok_tertiaries_decide() {
    capital_decides();
}

#[test]
fn ok_quaternaries_decide() {
    space_decides();
}

#[test]
fn ok_characters_decide() {
    zero_decides();
}

#[test]
fn ok_equal_levels_have_equal_keys() {
    sevens_have_one_key();
}
