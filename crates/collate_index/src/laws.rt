//! Laws of how names compare, and of reloads: the functions do nothing, and their contracts are the laws.

ghost use Rattle.std.specs.Char.{IsScalar};
ghost use Rattle.std.specs.Cmp.{IsTotalOrder};
ghost use Rattle.std.specs.Cmp.Lexicographic.{slice_cmp};
ghost use Rattle.std.specs.Ordering.{nat_cmp};
ghost use Rattle.std.specs.List.{Contains};
ghost use Rattle.std.specs.Prelude.{◌≡◌, ℕ, ◌↔◌, ◌∷◌, ◌++◌, All, List};
ghost use Rattle.std.specs.declared.cmp.Ordering.TheVariants.{Equal};
ghost use Rattle.icu_normalizer_core.specs.Canonical.{IsDecomposing};
ghost use Rattle.icu_normalizer_core.specs.Decoding.{utf8_chars};
ghost use Rattle.icu_collator_types.specs.declared.options.CollatorOptions.{CollatorOptions};
ghost use Rattle.icu_collator_types.specs.declared.options.CollatorPreferences.{CollatorPreferences};
ghost use Rattle.icu_collator_types.specs.declared.options.ResolvedCollatorOptions.{ResolvedCollatorOptions};
ghost use Rattle.icu_collator_core.specs.Collation.{Collation};
ghost use Rattle.icu_collator.specs.KeyBytes.{key_of_text};
ghost use Rattle.icu_collator.specs.SoundCollation.{IsSoundCollation};
ghost use Rattle.collate_lines.specs.Record.{Record};
ghost use Rattle.collate_rules.specs.Accepted.{AreAccepted};
ghost use Rattle.collate_rules.specs.Meaning.{collation_of};
ghost use Rattle.collate_index.specs.Catalogue.{AreDistinct, Catalogue, asked_of, opened, reloaded, with_names};
ghost use Rattle.collate_index.specs.Meaning.{Meaning, name_order, order_by};

/// Names compare as a total preorder, whatever data and options say: turning two names round turns the answer round,
/// "below" and "equal" are transitive, and names that are equal compare alike to any third.
#[tactic(auto, using(crate::proofs::order::NameOrderLemmas::name_order_total, crate::proofs::order::NameOrderLemmas::order_total))]
pub fn names_are_in_total_order()
    ensures characters { (collation : Collation) (options : ResolvedCollatorOptions) → IsTotalOrder (name_order collation options) }
    ensures bytes { (m : Meaning) → IsTotalOrder (order_by m) }
{}

/// Over data that keep the rules on canonical data, weights and settings, names compare as the bytes of their sort keys do,
/// with every option: also where numbers are read and their lead byte is compressible (docs/DECISIONS.md, "Index").
#[tactic(auto, using(crate::proofs::order::NameOrderLemmas::keys_order_as_names))]
pub fn keys_order_as_names()
    ensures { (collation : Collation) (options : ResolvedCollatorOptions) (a b : List ℕ)
        → IsDecomposing collation.canonical → IsSoundCollation collation → All IsScalar a → All IsScalar b
        → slice_cmp nat_cmp (key_of_text collation options a) (key_of_text collation options b) ≡ name_order collation options a b }
{}

/// Under the same premises two names have one sort key exactly if they compare as equal.
#[tactic(auto, using(crate::proofs::order::NameOrderLemmas::equal_keys_of_names))]
pub fn equal_keys_are_of_equal_names()
    ensures { (collation : Collation) (options : ResolvedCollatorOptions) (a b : List ℕ)
        → IsDecomposing collation.canonical → IsSoundCollation collation → All IsScalar a → All IsScalar b
        → (key_of_text collation options a ≡ key_of_text collation options b) ↔ (name_order collation options a b ≡ Equal) }
{}

/// Names in UTF-8, damaged or not, compare under accepted records as the sort keys of their characters do, with every option
/// (docs/RECORDS.md).
#[tactic(auto, using(crate::proofs::order::NameOrderLemmas::keys_order_in_index))]
pub fn keys_order_as_names_of_records()
    ensures { (m : Meaning) (a b : List ℕ) → AreAccepted m.records
        → slice_cmp nat_cmp (key_of_text (collation_of m.records) m.options (utf8_chars a)) (key_of_text (collation_of m.records) m.options (utf8_chars b)) ≡ order_by m a b }
{}

/// A reloaded index is, to its callers, the one that is built anew: opened over the new records, within the same limits, by the
/// same preferences and options, its names added in their order of arrival, each of them new. So it replies as that one does.
pub fn reloaded_as_built_anew()
    ensures same { (lines : List Record) (preferences : CollatorPreferences) (options : CollatorOptions) (s : Catalogue)
        → s.asked ≡ asked_of options preferences
        → reloaded lines s ≡ with_names s.arrivals (opened (record { limits = s.limits; lines = lines }) preferences options) }
    ensures new { (s : Catalogue) (before behind : List (List ℕ)) (name : List ℕ)
        → AreDistinct s.arrivals → s.arrivals ≡ before ++ name ∷ behind → ¬ Contains before name }
{}
