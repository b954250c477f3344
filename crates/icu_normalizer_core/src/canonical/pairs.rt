//! The composed pairs of tables: numbers in rising order.

ghost use Rattle.std.specs.Prelude.{◌≡◌, ◌/◌, ◌<◌, ◌^◌, ◌↔◌, IsTrue, length, slice_index};
ghost use Rattle.icu_normalizer_core.specs.CanonicalLists.{ArePairs, listed_pair};

use super::packing::CODE_LIMIT;
use super::search::first_past;
use icu_packed_vector::PackedVec;

/// What two characters compose to by the pairs.
pub(super) fn listed_pair(pairs: &PackedVec<'_, u64>, first: u32, second: u32) -> Option<char>
    requires pairs { ArePairs pairs.now }
    requires first { first < 2 ^ 21 }
    requires second { second < 2 ^ 21 }
    ensures { result ≡ listed_pair pairs.now first second }
{
    let key = ((first as u64) << 21) + second as u64;
    let count = pairs.len();
    let index = first_past(
        count,
        |i|
            requires { i < length pairs.now }
            ensures { IsTrue result ↔ (slice_index pairs.entry.now i / 2 ^ 21 < key) }
        { pairs.at(i) >> 21 < key },
    );
    if index == count {
        return None;
    }
    let pair = pairs.at(index);
    if pair >> 21 == key {
        Some(char::from_u32((pair % CODE_LIMIT) as u32).unwrap())
    } else {
        None
    }
}
