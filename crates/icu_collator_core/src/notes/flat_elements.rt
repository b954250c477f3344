//! Elements in an array.

ghost use Rattle.std.specs.Prelude.{◌≡◌, ◌++◌, ◌∷◌, [], length, take, true};

use icu_collator_types::elements::CollationElement;
use std::marker::Model;

/// Elements of a text in an array, at most so many; seen as the list of them. No memory is taken.
#[derive(Drop)]
pub struct FlatElements<const N: usize> {
    array: [CollationElement; N],
    count: usize,
}

impl<const N: usize> Model for FlatElements<N> {
    ghost use Rattle.std.specs.Prelude.{◌≤◌, take};
    ghost use Rattle.icu_collator_core.specs.FlatLists.{FlatList};

    ghost Value = { FlatList };

    ghost view = { λ inside. record { items = take inside.count inside.array } };

    ghost invariant = { λ inside. inside.count ≤ N };
}

impl<const N: usize> FlatElements<N> {
    /// A list of no elements.
    pub fn new() -> Self
        ensures { result.items ≡ [] }
    {
        FlatElements {
            array: [CollationElement::new(0); N],
            count: 0,
        }
    }

    /// The elements.
    pub fn as_slice(&self) -> &[CollationElement]
        ensures { result.now ≡ self.now.items }
    {
        &self.array[..self.count]
    }

    /// How many elements there are.
    #[inline(always)]
    pub(crate) fn len(&self) -> usize
        ensures { result ≡ length self.now.items }
    {
        self.as_slice().len()
    }

    /// Appends an element, if there is room.
    #[inline(always)]
    pub(crate) fn push(&mut self, element: CollationElement) -> bool
        ensures { result ≡ true → self.new.items ≡ self.old.items ++ element ∷ [] }
    {
        let count = self.count;
        if count < N {
            self.array[count] = element;
            self.count = count + 1;
            true
        } else {
            false
        }
    }

    /// Leaves the first elements, at most so many, and appends others, if there is room; where there isn't, some of them.
    pub(crate) fn replace_from(&mut self, count: usize, more: &[CollationElement]) -> bool
        ensures { result ≡ true → self.new.items ≡ take count self.old.items ++ more.now }
    {
        let kept = count.min(self.count);
        self.count = kept;
        for element in more {
            if !self.push(*element) {
                return false;
            }
        }
        true
    }
}
