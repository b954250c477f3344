//! Indices in a list of characters that are in order.

ghost use Rattle.std.specs.Prelude.{◌≡◌, ℕ, ◌+◌, ◌<◌, ◌≤◌, ◌∷◌, ◌++◌, true, take, drop, length, ltb};
ghost use Rattle.std.specs.List.{list_all};
ghost use Rattle.icu_normalizer_core.specs.FormData.{form_meaning};
ghost use Rattle.icu_normalizer.specs.Marks.{stands_to};

use icu_normalizer_core::decomposition::FormData;

/// The index after the last character that is of no class above this one.
pub(super) fn index_for(basis: FormData<'_>, list: &[char], class: u8) -> usize
    ensures within { result ≤ length list.now }
    ensures above { list_all (λ d. ltb class ((form_meaning basis.entry).class d)) (drop result list.now) ≡ true }
    ensures behind { (last : ℕ) → stands_to (form_meaning basis.entry).class 0 last (take result list.now) ≡ true → last ≤ class }
{
    let mut index = list.len();
    while index > 0 {
        if basis.class(list[index - 1]) <= class {
            return index;
        }
        index -= 1;
    }
    0
}

/// Puts a character at an index among the first `count` of a list, and those after it by one further on.
pub(super) fn insert_at(list: &mut [char; 64], index: usize, count: usize, c: char)
    requires within { index ≤ count }
    requires room { count < 64 }
    ensures { take (count + 1) list.new ≡ take index list.old ++ c ∷ drop index (take count list.old) }
{
    list.copy_within(index..count, index + 1);
    list[index] = c;
}

/// The class of the last of some characters, once one of this class was put at an index among them.
pub(super) fn last_class(index: usize, count: usize, class: u8, last: u8) -> u8
    ensures behind { index ≡ count → result ≡ class }
    ensures among { index < count → result ≡ last }
{
    if index == count { class } else { last }
}
