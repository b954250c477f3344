//! A law of lists merged: the function does nothing, and its contract is the law.

ghost use Rattle.std.specs.Prelude.{◌≡◌, ℕ, Bool, List, map};
ghost use Rattle.std.specs.Cmp.{IsTotalOrder};
ghost use Rattle.collate_lists.specs.Names.{TextOrder, in_order};
ghost use Rattle.collate_merge.specs.Merged.{merged};

/// Lists that were put in order one by one, and then merged, are all their values in order, under any order that is a
/// total preorder: equal ones stand by their lists, and then as they stood.
#[tactic(auto, using(crate::proofs::SortedPartLemmas::parts_merged))]
pub fn sorted_parts_merge_to_the_whole()
    ensures { (order : TextOrder) (unique : Bool) (parts : List (List (List ℕ))) → IsTotalOrder order
        → merged unique order (map (in_order order) parts) ≡ merged unique order parts }
{}
