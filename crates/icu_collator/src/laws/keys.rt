//! Laws of keys: for all data that keep the rules, and all texts, keys compare as the texts do.
//! Each function's contract is the law, and its body is empty.

ghost use Rattle.std.specs.Char.{IsScalar};
ghost use Rattle.std.specs.Cmp.Lexicographic.{slice_cmp};
ghost use Rattle.std.specs.Ordering.{nat_cmp};
ghost use Rattle.std.specs.Prelude.{◌≡◌, ℕ, ◌↔◌, All, List, true};
ghost use Rattle.std.specs.declared.cmp.Ordering.TheVariants.{Equal};
ghost use Rattle.icu_normalizer_core.specs.Canonical.{IsDecomposing};
ghost use Rattle.icu_collator_types.specs.declared.options.ResolvedCollatorOptions.{ResolvedCollatorOptions};
ghost use Rattle.icu_collator_types.specs.declared.options.Strength.TheVariants.{Identical};
ghost use Rattle.icu_collator_core.specs.Collation.{Collation};
ghost use Rattle.icu_normalizer.specs.Equivalence.{IsEquivalent};
ghost use Rattle.icu_collator.specs.KeyBytes.{key_of_text};
ghost use Rattle.icu_collator.specs.LevelOrders.{keys_order};
ghost use Rattle.icu_collator.specs.Levels.{Levels, levels_of_text};
ghost use Rattle.icu_collator.specs.Order.{collation_order, levels_order};
ghost use Rattle.icu_collator.specs.Settings.{has_plain_leads};
ghost use Rattle.icu_collator.specs.SoundCollation.{AreSoundLevels, IsSoundCollation};

/// The keys of two texts compare, byte by byte, as the texts do, with every option, over all collation
/// data that keep the rules on canonical data (UAX 15), weights and settings (`docs/RECORDS.md`). With
/// numeric ordering the lead byte of numbers must not be compressible.
pub fn keys_order_as_texts()
    ensures { (collation : Collation) (options : ResolvedCollatorOptions) (a b : List ℕ)
        → IsDecomposing collation.canonical → IsSoundCollation collation
        → has_plain_leads collation options ≡ true → All IsScalar a → All IsScalar b
        → slice_cmp nat_cmp (key_of_text collation options a) (key_of_text collation options b) ≡ collation_order collation options a b }
{}

/// Under the same premises two texts have the same key exactly if they compare equal.
pub fn equal_keys_are_of_equal_texts()
    ensures { (collation : Collation) (options : ResolvedCollatorOptions) (a b : List ℕ)
        → IsDecomposing collation.canonical → IsSoundCollation collation
        → has_plain_leads collation options ≡ true → All IsScalar a → All IsScalar b
        → (key_of_text collation options a ≡ key_of_text collation options b) ↔ (collation_order collation options a b ≡ Equal) }
{}

/// Under the same premises, and at strength `Identical`, two texts have the same key exactly if they are
/// canonically equivalent.
pub fn equal_keys_at_identical_are_of_equivalent_texts()
    ensures { (collation : Collation) (options : ResolvedCollatorOptions) (a b : List ℕ)
        → IsDecomposing collation.canonical → IsSoundCollation collation
        → has_plain_leads collation options ≡ true → options.strength ≡ Identical → All IsScalar a → All IsScalar b
        → (key_of_text collation options a ≡ key_of_text collation options b) ↔ IsEquivalent collation.canonical a b }
{}

/// Every text of scalar values has sound levels, so each law of levels speaks of texts: the weights and
/// settings must keep the rules (`docs/RECORDS.md`), and the canonical data decompose.
pub fn texts_have_sound_levels()
    ensures { (collation : Collation) (options : ResolvedCollatorOptions) (text : List ℕ)
        → IsDecomposing collation.canonical → IsSoundCollation collation → All IsScalar text
        → AreSoundLevels collation options (levels_of_text collation options text) }
{}

/// The keys of sound levels compare, byte by byte, as the levels do: those of elements that are single
/// ones, recorded or default, and, with numeric ordering, whole numbers, one after another, and of the
/// scalar values they were read from.
pub fn keys_order_as_levels()
    ensures { (collation : Collation) (options : ResolvedCollatorOptions) (a b : Levels)
        → IsSoundCollation collation → AreSoundLevels collation options a → AreSoundLevels collation options b
        → has_plain_leads collation options ≡ true
        → keys_order collation options a b ≡ levels_order options a b }
{}
