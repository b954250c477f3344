//! Fronts of lists of bytes: the first bytes of a list as one number, by which most lists compare.

ghost use Rattle.std.specs.Prelude.{◌≡◌, ◌≢◌, ◌+◌, ℕ, List, min, slice_index};
ghost use Rattle.std.specs.Cmp.Lexicographic.{slice_cmp};
ghost use Rattle.std.specs.Ordering.{nat_cmp};
ghost use Rattle.std.specs.declared.cmp.Ordering.TheVariants.{Equal};
ghost use Rattle.collate_lists.specs.Fronts.{IsFrontOf};

use std::cmp::Ordering;
use std::marker::Model;

/// The front of a list of bytes: its first eight as a number, the first of them counting most. Zeros stand for those that
/// a shorter list misses. Only `compare` reads it, and counts. A contract sees the number.
#[derive(Clone, Copy)]
pub struct Front {
    value: u64,
}

impl Model for Front {
    ghost Value = { ℕ };

    ghost view = { λ inside. inside.value };

    ghost inverse = { λ value. record { value = value } };
}

impl Front {
    /// The front of a list of bytes.
    pub fn new(bytes: &[u8]) -> Front
        ensures { IsFrontOf result bytes.now }
    {
        let value = u64::from_be_bytes([
            byte_at(bytes, 0),
            byte_at(bytes, 1),
            byte_at(bytes, 2),
            byte_at(bytes, 3),
            byte_at(bytes, 4),
            byte_at(bytes, 5),
            byte_at(bytes, 6),
            byte_at(bytes, 7),
        ]);
        Front { value }
    }

    /// How two fronts compare. Where they differ, the lists whose fronts they are compare so, and the count goes up by
    /// one; where they are the same, nothing is known of the lists, and nothing is counted.
    pub fn compare(&self, other: &Front, count: &mut usize) -> Ordering
        ensures told { (bytes others : List ℕ) → IsFrontOf self.now bytes → IsFrontOf other.now others → result ≢ Equal → slice_cmp nat_cmp bytes others ≡ result }
        ensures counted { result ≢ Equal → count.new ≡ min (count.old + 1) usize.MAX }
        ensures silent { result ≡ Equal → count.new ≡ count.old }
    {
        match self.value.cmp(&other.value) {
            Ordering::Equal => Ordering::Equal,
            ordering => {
                *count = count.saturating_add(1);
                ordering
            }
        }
    }
}

/// A byte of a list, and zero past its end.
fn byte_at(bytes: &[u8], index: usize) -> u8
    ensures { result ≡ slice_index bytes.now index }
{
    if index < bytes.len() { bytes[index] } else { 0 }
}
