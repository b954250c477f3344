//! Vectors of numbers or characters in packed bytes, borrowed or owned. A packed vector is a list
//! of its items, the same whether its bytes are borrowed or owned. `PackedVec::from_slice` makes
//! one, and `get` reads it.
#![tactic(auto)]

ghost use Rattle.std.specs.Prelude.{◌≡◌, ℕ, ◌+◌, ◌*◌, ◌/◌, ◌%◌, ◌<◌, ◌≤◌, ◌↔◌, IsTrue, length, slice_get, slice_index_or, slice_range, IfOk, IfSome, MatchResult, SomeIff, All};
ghost use Rattle.icu_packed_vector.specs.Items.{items_of, item_bytes, AreItems, IsRefused};
ghost use Rattle.std.specs.Cmp.Lexicographic.{pointwise, lists_per, lists_equiv};

use std::alloc::{AllocError, Global};
use std::fmt;
use std::marker::{Model, PhantomData};
use std::ops::Range;
use thiserror::Error;

mod item;
mod iter;

pub use item::PackedItem;
pub use iter::PackedIter;

/// Why bytes are refused as a packed vector.
#[derive(Clone, Copy, Debug, PartialEq, Eq, Error)]
pub enum PackedVecError {
    /// The bytes end within an item.
    #[error("the bytes end within an item")]
    OddLength,
    /// The item at this index is the first that isn't a value of the type.
    #[error("item {0} isn't a value of its type")]
    BadValue(usize),
}

/// Items in packed bytes, borrowed or owned.
pub struct PackedVec<'a, T: PackedItem> {
    bytes: Bytes<'a>,
    item: PhantomData<T>,
}

// (a vector is let go of as one, and not part by part, so that who owns it is proved sooner)
impl<T: PackedItem> Drop for PackedVec<'_, T> {
    fn drop(self) {
        let PackedVec { bytes: _, item: _ } = self;
    }
}

/// Where the bytes are.
#[derive(Drop)]
enum Bytes<'a> {
    Borrowed(&'a [u8]),
    Owned(Vec<u8>),
}

impl<'a, T: PackedItem> Model for PackedVec<'a, T> {
    ghost use Rattle.std.specs.Prelude.{List};
    ghost use Rattle.icu_packed_vector.specs.Items.{items_of, AreItems};
    ghost use Rattle.icu_packed_vector.specs.Stored.{bytes_of};

    ghost Value = { List T };

    ghost view = { λ inside. items_of T.WIDTH T.meaning (bytes_of inside.bytes) };

    ghost invariant = { λ inside. AreItems T.WIDTH T.is_encoding (bytes_of inside.bytes) };
}

/// The item at an index of whole items.
#[inline]
fn read_at<T: PackedItem>(bytes: &[u8], index: usize) -> T
    requires items { AreItems T.WIDTH T.is_encoding bytes.now }
    requires index { index < length bytes.now / T.WIDTH }
    ensures meaning { result ≡ T.meaning (item_bytes T.WIDTH bytes.now index) }
    ensures value { T.is_value result }
{
    let start = index * T::WIDTH;
    T::read(&bytes[start..start + T::WIDTH])
}

/// Whether the bytes at an index mean an item.
fn is_item_at<T: PackedItem>(bytes: &[u8], index: usize) -> bool
    requires { index < length bytes.now / T.WIDTH }
    ensures { IsTrue result ↔ T.is_encoding (item_bytes T.WIDTH bytes.now index) }
{
    let start = index * T::WIDTH;
    T::is_item(&bytes[start..start + T::WIDTH])
}

/// The bytes of a range of indices of whole items.
fn bytes_between<T: PackedItem>(bytes: &[u8], range: Range<usize>) -> &[u8]
    requires items { AreItems T.WIDTH T.is_encoding bytes.now }
    requires start { range.start ≤ range.end }
    requires end { range.end ≤ length bytes.now / T.WIDTH }
    ensures items { AreItems T.WIDTH T.is_encoding result.now }
    ensures part { items_of T.WIDTH T.meaning result.now ≡ slice_range (items_of T.WIDTH T.meaning bytes.now) range.start range.end }
{
    &bytes[range.start * T::WIDTH..range.end * T::WIDTH]
}

impl<'a, T: PackedItem> PackedVec<'a, T> {
    /// The items that these bytes mean, borrowed. Refused as `OddLength` where the bytes end within
    /// an item, else as `BadValue` of the first index whose bytes aren't a value of the type, such as
    /// the three bytes of a surrogate.
    pub fn try_from_bytes(bytes: &'a [u8]) -> Result<PackedVec<'a, T>, PackedVecError>
        ensures { MatchResult result
            (λ items. AreItems T.WIDTH T.is_encoding bytes.now × (items ≡ items_of T.WIDTH T.meaning bytes.now))
            (IsRefused T.WIDTH T.is_encoding bytes.now) }
    {
        if bytes.len() % T::WIDTH != 0 {
            return Err(PackedVecError::OddLength);
        }
        for index in 0..bytes.len() / T::WIDTH {
            if !is_item_at::<T>(bytes, index) {
                return Err(PackedVecError::BadValue(index));
            }
        }
        Ok(PackedVec {
            bytes: Bytes::Borrowed(bytes),
            item: PhantomData,
        })
    }

    /// The bytes of the items.
    #[inline]
    fn as_bytes(&self) -> &[u8]
        ensures items { AreItems T.WIDTH T.is_encoding result.now }
        ensures same { self.now ≡ items_of T.WIDTH T.meaning result.now }
        ensures count { length self.now ≡ length result.now / T.WIDTH }
    {
        match &self.bytes {
            Bytes::Borrowed(bytes) => bytes,
            Bytes::Owned(bytes) => bytes.as_slice(),
        }
    }

    /// The number of items.
    #[inline]
    pub fn len(&self) -> usize
        ensures { result ≡ length self.now }
    {
        self.as_bytes().len() / T::WIDTH
    }

    /// Whether there are no items.
    pub fn is_empty(&self) -> bool
        ensures { IsTrue result ↔ (length self.now ≡ 0) }
    {
        self.len() == 0
    }

    /// The item at an index, which is a value of the type, or `None` past the end.
    #[inline]
    pub fn get(&self, index: usize) -> Option<T>
        ensures item { result ≡ slice_get self.now index }
        ensures value { IfSome result T.is_value }
    {
        let bytes = self.as_bytes();
        if index < bytes.len() / T::WIDTH {
            Some(read_at(bytes, index))
        } else {
            None
        }
    }

    /// The item at an index before the end, as a slice is indexed, for callers who know by `len` that
    /// the index is one; `get` answers at every index. It takes no memory.
    #[inline]
    pub fn at(&self, index: usize) -> T
        requires { index < length self.now }
        ensures item { (fallback : T) → result ≡ slice_index_or self.now index fallback }
        ensures value { T.is_value result }
    {
        read_at(self.as_bytes(), index)
    }

    /// The items in order, from both ends. Each is a value of the type.
    pub fn iter(&self) -> PackedIter<'_, T>
        ensures items { result ≡ self.now }
        ensures values { All T.is_value self.now }
    {
        PackedIter::new(self.as_bytes())
    }

    /// The items of a range of indices, borrowed, or `None` where the range falls or ends past the
    /// last item.
    pub fn subslice(&self, range: Range<usize>) -> Option<PackedVec<'_, T>>
        ensures { SomeIff result ((range.start ≤ range.end) × (range.end ≤ length self.now)) (slice_range self.now range.start range.end) }
    {
        if range.start > range.end || range.end > self.len() {
            return None;
        }
        let part = bytes_between::<T>(self.as_bytes(), range);
        Some(PackedVec {
            bytes: Bytes::Borrowed(part),
            item: PhantomData,
        })
    }

    /// The same items in bytes of their own. Fails only when out of memory; then the vector is
    /// dropped.
    pub fn into_owned(self, alloc: Global) -> Result<PackedVec<'static, T>, AllocError>
        ensures { IfOk result (λ items. items ≡ self.entry) }
    {
        let PackedVec { bytes, item: _item } = self;
        let bytes = match bytes {
            Bytes::Borrowed(bytes) => Vec::from_slice(alloc, bytes)?,
            Bytes::Owned(bytes) => bytes,
        };
        Ok(PackedVec {
            bytes: Bytes::Owned(bytes),
            item: PhantomData,
        })
    }

    /// The same items: borrowed bytes are borrowed again, others copied. Fails only when out of
    /// memory.
    pub fn clone(&self, alloc: Global) -> Result<PackedVec<'a, T>, AllocError>
        ensures { IfOk result (λ items. items ≡ self.now) }
    {
        let bytes = match &self.bytes {
            Bytes::Borrowed(bytes) => Bytes::Borrowed(bytes),
            Bytes::Owned(bytes) => Bytes::Owned(Vec::from_slice(alloc, bytes.as_slice())?),
        };
        Ok(PackedVec {
            bytes,
            item: PhantomData,
        })
    }
}

impl<T: PackedItem> PackedVec<'static, T> {
    /// The items of a slice, in bytes of their own. Fails only when out of memory.
    pub fn from_slice(alloc: Global, items: &[T]) -> Result<PackedVec<'static, T>, AllocError>
        ensures { IfOk result (λ packed. packed ≡ items.now) }
    {
        let mut bytes = Vec::new(alloc);
        for item in items {
            item.write(&mut bytes)?;
        }
        Ok(PackedVec {
            bytes: Bytes::Owned(bytes),
            item: PhantomData,
        })
    }
}

impl<T: PackedItem + fmt::Debug> fmt::Debug for PackedVec<'_, T> {
    fn fmt<W: fmt::Write>(&self, f: &mut fmt::Formatter<W>) -> fmt::Result {
        let mut list = f.debug_list();
        for item in self.iter() {
            list.entry(&item);
        }
        list.finish()
    }
}

impl<T: PackedItem> PartialEq for PackedVec<'_, T> {
    ghost eq = { pointwise T.PartialEq.eq };

    ghost laws = { lists_per T.PartialEq.laws };

    fn eq(&self, other: &Self) -> bool {
        let mut others = other.iter();
        for item in self.iter() {
            let Some(other) = others.next() else {
                return false;
            };
            if item != other {
                return false;
            }
        }
        others.next().is_none()
    }
}

impl<T: PackedItem> Eq for PackedVec<'_, T> {
    ghost laws = { lists_equiv T.Eq.laws };
}
