//! Laws of sameness: data in two forms, as records and as tables, that say the same of scalar values
//! give each text of scalar values the same lists; data that say the same of the characters that a text
//! reaches, as before and after a change of others, give that text the same lists. Each function's
//! contract is the law, and its body is empty.

ghost use Rattle.std.specs.Char.{IsScalar};
ghost use Rattle.std.specs.Prelude.{◌≡◌, ℕ, All, Bool, List};
ghost use Rattle.icu_normalizer_core.specs.Canonical.{Canonical, IsDecomposing, Reaches, decomposed};
ghost use Rattle.icu_collator_core.specs.Weights.{Weights};
ghost use Rattle.icu_collator_core.specs.Elements.{elements_of_list};
ghost use Rattle.icu_normalizer_core.specs.Sameness.{AreSameCanonical};
ghost use Rattle.icu_collator_core.specs.Sameness.{AreSameMappings, AreSameReadings, AreSameWeights};

/// Canonical data that say the same of each scalar value give a text one decomposed list.
pub fn same_characters_have_same_decomposed_lists()
    ensures { (a b : Canonical) (text : List ℕ)
        → AreSameCanonical a b → IsDecomposing b → All IsScalar text
        → decomposed a text ≡ decomposed b text }
{}

/// Canonical data and weights that say the same of scalar values give a list the same elements.
pub fn same_weights_have_same_elements()
    ensures { (a b : Canonical) (v w : Weights) (numeric : Bool) (list : List ℕ)
        → AreSameCanonical a b → AreSameWeights v w → All IsScalar list
        → elements_of_list a v numeric list ≡ elements_of_list b w numeric list }
{}

/// Canonical data that give each character that a text reaches one class and one mapping give the text
/// one decomposed list.
pub fn same_mappings_have_same_decomposed_lists()
    ensures { (a b : Canonical) (text : List ℕ)
        → IsDecomposing a → IsDecomposing b → AreSameMappings (Reaches a.step text) a b → All IsScalar text
        → decomposed a text ≡ decomposed b text }
{}

/// Where weights say the same of these characters too, the text has the same elements.
pub fn same_readings_have_same_elements()
    ensures { (a b : Canonical) (v w : Weights) (numeric : Bool) (text : List ℕ)
        → IsDecomposing a → IsDecomposing b → AreSameMappings (Reaches a.step text) a b
        → AreSameReadings (Reaches a.step text) v w → All IsScalar text
        → elements_of_list a v numeric (decomposed a text) ≡ elements_of_list b w numeric (decomposed b text) }
{}
