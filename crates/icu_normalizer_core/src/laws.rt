//! Laws of canonical data, over the definitions in `specs/`.

ghost use Rattle.std.specs.Prelude.{◌≡◌, ℕ, List, All};
ghost use Rattle.std.specs.Char.{IsScalar};
ghost use Rattle.icu_normalizer_core.specs.Canonical.{Canonical, IsCanonical, composed};
ghost use Rattle.icu_normalizer_core.specs.CanonicalLists.{CanonicalLists, canonical_of};
ghost use Rattle.icu_normalizer_core.specs.CanonicalFaults.{IsAccepted};
ghost use Rattle.icu_normalizer_core.specs.Sameness.{AreSameComposing};

/// What accepted tables mean keeps both promises of canonical data.
pub fn accepted_tables_are_canonical()
    ensures { (lists : CanonicalLists) → IsAccepted lists → IsCanonical (canonical_of lists) }
{}

/// Canonical data that say the same of each scalar value, and of what two compose to, give a text of scalar values one
/// composed list.
pub fn same_characters_have_same_composed_lists()
    ensures { (a b : Canonical) (text : List ℕ) → AreSameComposing a b → IsCanonical b → All IsScalar text
        → composed a text ≡ composed b text }
{}
