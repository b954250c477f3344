//! How keys compare, from either end of an order.

ghost use Rattle.std.specs.Prelude.{◌≡◌};
ghost use Rattle.collate_keyed_lines.specs.KeyedLines.{turned};
ghost use Rattle.collate_lists.specs.Names.{is_equal, is_greater};
ghost use Rattle.collate_merge.specs.KeyOrder.{byte_order};

use collate_keyed_lines::direction::Direction;
use std::cmp::Ordering;

/// How two keys compare where the greater may stand first.
fn compare(direction: Direction, key: &[u8], other: &[u8]) -> Ordering
    ensures { result ≡ turned direction byte_order key.now other.now }
{
    match direction {
        Direction::Ascending => key.cmp(other),
        Direction::Descending => other.cmp(key),
    }
}

/// Whether a key is above another.
pub fn is_above(direction: Direction, key: &[u8], other: &[u8]) -> bool
    ensures { result ≡ is_greater (turned direction byte_order key.now other.now) }
{
    match compare(direction, key, other) {
        Ordering::Greater => true,
        Ordering::Less | Ordering::Equal => false,
    }
}

/// Whether a key is the same as another.
pub fn is_same(direction: Direction, key: &[u8], other: &[u8]) -> bool
    ensures { result ≡ is_equal (turned direction byte_order key.now other.now) }
{
    match compare(direction, key, other) {
        Ordering::Equal => true,
        Ordering::Less | Ordering::Greater => false,
    }
}
