//! The iterator over a packed vector.
ghost use Rattle.std.specs.Prelude.{◌≡◌, ℕ, ◌<◌, ◌≤◌, length, [], ◌∷◌, ◌++◌, MatchOption, All};
ghost use Rattle.std.specs.Iterator.{YieldsFirst, YieldsLast, item_count};
ghost use Rattle.icu_packed_vector.specs.Items.{items_of, AreItems};

use super::item::PackedItem;
use std::iter::FusedIterator;
use std::marker::{Model, PhantomData};

/// The items of a packed vector in order, from both ends, seen as the list of those that are left.
#[derive(Drop)]
pub struct PackedIter<'a, T: PackedItem> {
    rest: &'a [u8],
    item: PhantomData<T>,
}

impl<'a, T: PackedItem> Model for PackedIter<'a, T> {
    ghost use Rattle.std.specs.Prelude.{List};
    ghost use Rattle.icu_packed_vector.specs.Items.{items_of, AreItems};

    ghost Value = { List T };

    ghost view = { λ inside. items_of T.WIDTH T.meaning inside.rest.now };

    ghost invariant = { λ inside. AreItems T.WIDTH T.is_encoding inside.rest.now };
}

impl<'a, T: PackedItem> PackedIter<'a, T> {
    /// The items of these bytes, each of which is a value of the type.
    pub(super) fn new(bytes: &'a [u8]) -> PackedIter<'a, T>
        requires { AreItems T.WIDTH T.is_encoding bytes.now }
        ensures items { result ≡ items_of T.WIDTH T.meaning bytes.now }
        ensures values { All T.is_value result }
    {
        PackedIter {
            rest: bytes,
            item: PhantomData,
        }
    }
}

/// The first item and the bytes of the others, or `None` of no bytes.
fn split_first<T: PackedItem>(bytes: &[u8]) -> Option<(T, &[u8])>
    requires { AreItems T.WIDTH T.is_encoding bytes.now }
    ensures { MatchOption result (items_of T.WIDTH T.meaning bytes.now ≡ [])
        (λ split. (items_of T.WIDTH T.meaning bytes.now ≡ split.0 ∷ items_of T.WIDTH T.meaning split.1.now)
        × AreItems T.WIDTH T.is_encoding split.1.now) }
{
    if bytes.is_empty() {
        return None;
    }
    let (first, rest) = bytes.split_at(T::WIDTH);
    Some((T::read(first), rest))
}

/// The bytes of all items but the last, and the last, or `None` of no bytes.
fn split_last<T: PackedItem>(bytes: &[u8]) -> Option<(&[u8], T)>
    requires { AreItems T.WIDTH T.is_encoding bytes.now }
    ensures { MatchOption result (items_of T.WIDTH T.meaning bytes.now ≡ [])
        (λ split. (items_of T.WIDTH T.meaning bytes.now ≡ items_of T.WIDTH T.meaning split.0.now ++ split.1 ∷ [])
        × AreItems T.WIDTH T.is_encoding split.0.now) }
{
    if bytes.is_empty() {
        return None;
    }
    let (rest, last) = bytes.split_at(bytes.len() - T::WIDTH);
    Some((rest, T::read(last)))
}

impl<T: PackedItem> Iterator for PackedIter<'_, T> {
    type Item = T;

    ghost next_gives = { YieldsFirst (λ rest. rest) };

    ghost remaining = { item_count (λ rest. rest) };

    fn next(&mut self) -> Option<T> {
        let (item, rest) = split_first::<T>(self.rest)?;
        self.rest = rest;
        Some(item)
    }
}

impl<T: PackedItem> DoubleEndedIterator for PackedIter<'_, T> {
    ghost next_back_gives = { YieldsLast (λ rest. rest) };

    fn next_back(&mut self) -> Option<T> {
        let (rest, item) = split_last::<T>(self.rest)?;
        self.rest = rest;
        Some(item)
    }
}

impl<T: PackedItem> FusedIterator for PackedIter<'_, T> {}

impl<T: PackedItem> ExactSizeIterator for PackedIter<'_, T> {
    fn len(&self) -> usize {
        self.rest.len() / T::WIDTH
    }
}
