//! Laws of texts: what elements a text has, and of ranges: that their primaries keep the rules. Each
//! function's contract is the law, and its body is empty.

ghost use Rattle.std.specs.Char.{IsScalar};
ghost use Rattle.std.specs.Prelude.{◌≡◌, ℕ, true, All, Bool, List};
ghost use Rattle.icu_normalizer_core.specs.Canonical.{Canonical, IsDecomposing, decomposed};
ghost use Rattle.icu_collator_types.specs.declared.elements.Element.{Element};
ghost use Rattle.icu_collator_core.specs.Weights.{Range, Weights};
ghost use Rattle.icu_collator_core.specs.Defaults.{range_primary};
ghost use Rattle.icu_collator_core.specs.Elements.{elements_of_list};
ghost use Rattle.icu_collator_core.specs.WeightRules.{AreSoundWeights, is_beside_ranged, is_of_other_lead, is_sound_range, is_sound_ranged};
ghost use Rattle.icu_collator_core.specs.SoundElements.{IsSoundSequence};

/// The elements of every text of scalar values are single elements, recorded or default, and with
/// numeric ordering, whole numbers, one after another: no record, range or number is read in part.
/// The weights must keep the rules of `docs/RECORDS.md`, and the canonical data must decompose (UAX 15).
#[tactic(auto, using(crate::proofs::readings::SoundElementsLemmas::text_elements_sound))]
pub fn texts_have_sound_elements()
    ensures { (canonical : Canonical) (weights : Weights) (numeric : Bool) (text : List ℕ)
        → IsDecomposing canonical → AreSoundWeights weights → All IsScalar text
        → IsSoundSequence weights numeric (elements_of_list canonical weights numeric (decomposed canonical text)) }
{}

/// Where a range keeps rule V6 (`WeightRules`), the primaries of its characters keep what sound weights
/// ask of them, and an element with another lead byte keeps what they ask of elements beside a range.
#[tactic(auto, using(crate::proofs::weights::RangePrimaryLemmas::range_primary_sound, crate::proofs::weights::RangePrimaryLemmas::other_lead_beside))]
pub fn ranges_have_sound_primaries()
    ensures sound { (weights : Weights) (range : Range) (c : ℕ)
        → is_sound_range weights range ≡ true
        → is_sound_ranged weights (range_primary weights.is_compressible range c) ≡ true }
    ensures beside { (weights : Weights) (range : Range) (c : ℕ) (e : Element)
        → is_sound_range weights range ≡ true → is_of_other_lead range e ≡ true
        → is_beside_ranged (range_primary weights.is_compressible range c) e ≡ true }
{}
