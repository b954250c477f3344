//! Laws of comparing texts from where they first differ: what two characters there decide at once, and from where reading
//! may begin. Each function's contract is the law, and its body is empty.

ghost use Rattle.std.specs.Char.{IsScalar};
ghost use Rattle.std.specs.List.{Contains};
ghost use Rattle.std.specs.Ordering.{nat_cmp};
ghost use Rattle.std.specs.Prelude.{◌≡◌, ◌≢◌, ◌==◌, ◌&&◌, ◌∷◌, ◌++◌, ℕ, Bool, false, All, List, drop, Option, Some, None};
ghost use Rattle.std.specs.declared.cmp.Ordering.TheVariants.{Less, Equal, Greater};
ghost use Rattle.icu_normalizer_core.specs.Canonical.{Canonical, IsDecomposing};
ghost use Rattle.icu_collator_types.specs.declared.elements.Element.{Element};
ghost use Rattle.icu_collator_types.specs.declared.options.ResolvedCollatorOptions.{ResolvedCollatorOptions};
ghost use Rattle.icu_collator_types.specs.Options.{is_numeric, is_shifted};
ghost use Rattle.icu_collator_core.specs.Acceptance.{CollationSource};
ghost use Rattle.icu_collator_core.specs.Collation.{Collation};
ghost use Rattle.icu_collator_core.specs.Pools.{element_of};
ghost use Rattle.icu_collator_core.specs.ReadSources.{IsAloneAnywhere};
ghost use Rattle.icu_collator_core.specs.Weights.{Weights};
ghost use Rattle.icu_collator_core.specs.Boundaries.{IsApart, IsBoundary};
ghost use Rattle.icu_collator.specs.Boundaries.{CountsWhole, GoesOn, IsOwnBoundary, IsPassage, IsPlain, reordered_primary};
ghost use Rattle.icu_collator.specs.Fronts.{IsPlaceToBegin, PartAt};
ghost use Rattle.icu_collator.specs.Collators.{source_collation};
ghost use Rattle.icu_collator.specs.NumbersInTexts.{is_digit};
ghost use Rattle.icu_collator.specs.Order.{collation_order};

/// A front that two texts have in common may be left out, if both go on with the same three boundaries: three, since a
/// recorded prefix has up to three characters. This holds at every strength, where secondaries aren't read backward, and
/// either nothing is shifted, or the first of the three is plain and has a primary weight. Where nothing is shifted it is
/// enough that the first goes on with no number, and that no dot above is dropped before it.
pub fn common_front_may_be_skipped()
    ensures unshifted { (collation : Collation) (options : ResolvedCollatorOptions) (a b c : ℕ) (x p q : List ℕ)
        → IsDecomposing collation.canonical → collation.backward ≡ false
        → IsOwnBoundary collation.canonical collation.weights a → IsOwnBoundary collation.canonical collation.weights b
        → IsOwnBoundary collation.canonical collation.weights c
        → All IsScalar (x ++ a ∷ b ∷ c ∷ p) → All IsScalar (x ++ a ∷ b ∷ c ∷ q)
        → is_shifted options.alternate_handling ≡ false → IsApart collation.weights (is_numeric options.numeric) a
        → collation_order collation options (x ++ a ∷ b ∷ c ∷ p) (x ++ a ∷ b ∷ c ∷ q) ≡ collation_order collation options (a ∷ b ∷ c ∷ p) (a ∷ b ∷ c ∷ q) }
    ensures primary { (collation : Collation) (options : ResolvedCollatorOptions) (a b c : ℕ) (x p q : List ℕ)
        → IsDecomposing collation.canonical → collation.backward ≡ false
        → IsOwnBoundary collation.canonical collation.weights a → IsOwnBoundary collation.canonical collation.weights b
        → IsOwnBoundary collation.canonical collation.weights c
        → All IsScalar (x ++ a ∷ b ∷ c ∷ p) → All IsScalar (x ++ a ∷ b ∷ c ∷ q)
        → (bits : ℕ) → IsPlain collation a bits → ((element_of bits).primary == 0) ≡ false
        → collation_order collation options (x ++ a ∷ b ∷ c ∷ p) (x ++ a ∷ b ∷ c ∷ q) ≡ collation_order collation options (a ∷ b ∷ c ∷ p) (a ∷ b ∷ c ∷ q) }
{}

/// Let two texts go on with two plain characters after a common front, whatever that is. Where the elements of the two
/// count whole and their primaries differ as reordering has them, these decide, at every strength and with every option,
/// and nothing that stands after them counts.
pub fn plain_characters_decide()
    ensures { (collation : Collation) (options : ResolvedCollatorOptions) (common : List ℕ) (a b : ℕ) (xs ys : List ℕ) (bits other : ℕ)
        → IsDecomposing collation.canonical → All IsScalar (common ++ a ∷ xs) → All IsScalar (common ++ b ∷ ys)
        → IsPlain collation a bits → IsPlain collation b other → CountsWhole collation options bits → CountsWhole collation options other
        → nat_cmp (reordered_primary collation bits) (reordered_primary collation other) ≢ Equal
        → collation_order collation options (common ++ a ∷ xs) (common ++ b ∷ ys) ≡ nat_cmp (reordered_primary collation bits) (reordered_primary collation other) }
{}

/// A text is below one that goes on with a plain character whose element counts whole, whatever the text is, at every
/// strength and with every option.
pub fn beginnings_come_first()
    ensures below { (collation : Collation) (options : ResolvedCollatorOptions) (common : List ℕ) (c : ℕ) (xs : List ℕ) (bits : ℕ)
        → IsDecomposing collation.canonical → All IsScalar (common ++ c ∷ xs) → IsPlain collation c bits → CountsWhole collation options bits
        → collation_order collation options common (common ++ c ∷ xs) ≡ Less }
    ensures above { (collation : Collation) (options : ResolvedCollatorOptions) (common : List ℕ) (c : ℕ) (xs : List ℕ) (bits : ℕ)
        → IsDecomposing collation.canonical → All IsScalar (common ++ c ∷ xs) → IsPlain collation c bits → CountsWhole collation options bits
        → collation_order collation options (common ++ c ∷ xs) common ≡ Greater }
{}

/// Where two texts first differ: the characters there decide as `plain_characters_decide` and `beginnings_come_first` say,
/// and texts that don't differ are equal.
pub fn first_differences_decide()
    ensures characters { (collation : Collation) (options : ResolvedCollatorOptions) → IsDecomposing collation.canonical
        → (a b : List ℕ) (common : ℕ) → All IsScalar a → All IsScalar b
        → (x y bits other : ℕ) → PartAt a b common (Some x) (Some y)
        → IsPlain collation x bits → IsPlain collation y other → CountsWhole collation options bits → CountsWhole collation options other
        → nat_cmp (reordered_primary collation bits) (reordered_primary collation other) ≢ Equal
        → collation_order collation options a b ≡ nat_cmp (reordered_primary collation bits) (reordered_primary collation other) }
    ensures left_ends { (collation : Collation) (options : ResolvedCollatorOptions) → IsDecomposing collation.canonical
        → (a b : List ℕ) (common : ℕ) → All IsScalar a → All IsScalar b
        → (y other : ℕ) → PartAt a b common None (Some y) → IsPlain collation y other → CountsWhole collation options other
        → collation_order collation options a b ≡ Less }
    ensures right_ends { (collation : Collation) (options : ResolvedCollatorOptions) → IsDecomposing collation.canonical
        → (a b : List ℕ) (common : ℕ) → All IsScalar a → All IsScalar b
        → (x bits : ℕ) → PartAt a b common (Some x) None → IsPlain collation x bits → CountsWhole collation options bits
        → collation_order collation options a b ≡ Greater }
    ensures both_end { (collation : Collation) (options : ResolvedCollatorOptions) → IsDecomposing collation.canonical
        → (a b : List ℕ) (common : ℕ) → All IsScalar a → All IsScalar b
        → PartAt a b common None None → collation_order collation options a b ≡ Equal }
{}

/// Texts compare as what stands from an index on, where that is a place to begin within what they have in common, and
/// secondaries aren't read backward.
pub fn texts_compare_from_a_place()
    ensures { (collation : Collation) (options : ResolvedCollatorOptions) → IsDecomposing collation.canonical
        → (a b : List ℕ) (common : ℕ) → All IsScalar a → All IsScalar b
        → (index : ℕ) (left right : Option ℕ) → collation.backward ≡ false → PartAt a b common left right
        → IsPlaceToBegin (IsPassage collation options) (GoesOn collation.canonical collation.weights) a common index
        → collation_order collation options a b ≡ collation_order collation options (drop index a) (drop index b) }
{}

/// A starter is a boundary if no recorded text holds it after its first character, and no prefix is recorded with it.
pub fn safe_starters_are_boundaries()
    ensures { (canonical : Canonical) (weights : Weights) (d : ℕ) → canonical.class d ≡ 0
        → ((prefix : List ℕ) (first : ℕ) (later : List ℕ) (es : List Element) → weights.recorded prefix (first ∷ later) ≡ Some es → Contains later d → ⊥)
        → ((nearest : ℕ) (further later : List ℕ) (es : List Element) → weights.recorded (nearest ∷ further) (d ∷ later) ≡ Some es → ⊥)
        → IsBoundary canonical weights d }
{}

/// Before a starter other than U+0303 no dot above is dropped: it stands apart, unless it is a digit that counts.
pub fn starters_stand_apart()
    ensures { (canonical : Canonical) (weights : Weights) (numeric : Bool) (c : ℕ)
        → IsDecomposing canonical → canonical.class c ≡ 0 → (c == 0x303) ≡ false → (numeric && is_digit weights c) ≡ false
        → IsApart weights numeric c }
{}

/// A character is plain if its full list begins with a boundary that is read alone by the tables, other than U+0303.
pub fn characters_read_alone_are_plain()
    ensures { (source : CollationSource) (c bits first : ℕ) (others : List ℕ) → IsDecomposing (source_collation source).canonical
        → (source_collation source).canonical.full c ≡ first ∷ others
        → IsBoundary (source_collation source).canonical (source_collation source).weights first → (first == 0x303) ≡ false
        → IsAloneAnywhere source first bits → IsPlain (source_collation source) c bits }
{}

/// A text is equal to itself, with any data and any option.
#[tactic(auto, using(crate::proofs::boundaries::CommonFrontLemmas::equal_itself))]
pub fn a_text_is_equal_to_itself()
    ensures { (collation : Collation) (options : ResolvedCollatorOptions) (a : List ℕ) → collation_order collation options a a ≡ Equal }
{}
