//! The order of what two lists of elements give at a level, with no list of it.

ghost use Rattle.std.specs.Cmp.Lexicographic.{slice_cmp};
ghost use Rattle.std.specs.Ordering.{nat_cmp};
ghost use Rattle.std.specs.Prelude.{◌≡◌, ◌<◌, ◌≤◌, ◌∷◌, ℕ, [], IfSome, MatchOption, Option, drop, filter_map, length};
ghost use Rattle.icu_collator.specs.LevelLists.{counted_list, counted_of};
ghost use Rattle.icu_collator.specs.Shifted.{Counted};
ghost use Rattle.icu_collator.specs.declared.levels.counted_elements.CountedElement.{CountedElement};

use super::counted_elements::{CountedElement, counted_element};
use icu_collator_types::elements::CollationElement;
use std::cmp::Ordering;

/// What the elements from an index on give first, and the index after it.
#[inline]
fn next_given<F: Fn(CountedElement) -> Option<u32>>(
    elements: &[CollationElement],
    variable_end: u32,
    from: usize,
    given: &F,
) -> Option<(u32, usize)>
    requires callable { F.IsAlwaysCallable given.now }
    requires within { from ≤ length elements.now }
    ensures first { (at : Counted → Option ℕ) → ((e : CountedElement) (w : Option ℕ) → F.post given.now e w → w ≡ at (counted_of e))
        → MatchOption result (filter_map at (counted_list variable_end (drop from elements.now)) ≡ [])
        (λ next. filter_map at (counted_list variable_end (drop from elements.now))
        ≡ next.0 ∷ filter_map at (counted_list variable_end (drop next.1 elements.now))) }
    ensures past { IfSome result (λ next. from < next.1) }
    ensures behind { IfSome result (λ next. next.1 ≤ length elements.now) }
{
    for index in from..elements.len() {
        if let Some(weight) = given(counted_element(elements[index], variable_end)) {
            return Some((weight, index + 1));
        }
    }
    None
}

/// The order of what two lists of elements give: the first difference decides, and a list that ends is below one that goes on.
pub(crate) fn order_given<F: Fn(CountedElement) -> Option<u32>>(
    left: &[CollationElement],
    left_end: u32,
    right: &[CollationElement],
    right_end: u32,
    given: F,
) -> Ordering
    requires { F.IsAlwaysCallable given }
    ensures { (at : Counted → Option ℕ) → ((e : CountedElement) (w : Option ℕ) → F.post given e w → w ≡ at (counted_of e))
        → result ≡ slice_cmp nat_cmp (filter_map at (counted_list left_end left.now)) (filter_map at (counted_list right_end right.now)) }
{
    let mut left_index = 0;
    let mut right_index = 0;
    'weights: while let Some((weight, left_behind)) = next_given(
        left, left_end, left_index, &given,
    ) {
        let Some((other, right_behind)) = next_given(right, right_end, right_index, &given) else {
            return Ordering::Greater;
        };
        if weight != other {
            return weight.cmp(&other);
        }
        left_index = left_behind;
        right_index = right_behind;
    }
    match next_given(right, right_end, right_index, &given) {
        Some(_) => Ordering::Less,
        None => Ordering::Equal,
    }
}
