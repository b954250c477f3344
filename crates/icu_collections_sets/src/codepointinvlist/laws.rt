//! Laws of inversion lists.
ghost use Rattle.std.specs.Prelude.{◌≡◌, ℕ, ◌<◌, List};
ghost use Rattle.icu_collections_sets.specs.CodePoints.{IsInversionList, holds};

/// Two inversion lists that hold the same code points are the same list. So sets are equal, and
/// hash equally, by their code points.
#[tactic(auto, using(crate::proofs::sets::UniqueListLemmas::same_list))]
pub fn same_code_points_same_list()
    ensures { (first second : List ℕ) → IsInversionList first → IsInversionList second
        → ((c : ℕ) → c < 0x110000 → holds first c ≡ holds second c) → first ≡ second }
{}
