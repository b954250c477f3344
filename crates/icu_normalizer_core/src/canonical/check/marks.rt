//! Marks of a list, put in order by their classes.

ghost use Rattle.std.specs.Prelude.{◌≡◌, ◌+◌, ◌++◌, ◌<◌, length, slice_index, take, drop};
ghost use Rattle.icu_normalizer_core.specs.Canonical.{marks_in_order, put_in_order};
ghost use Rattle.icu_normalizer_core.specs.CanonicalMeaning.{meaning};
ghost use Rattle.icu_normalizer_core.specs.Marks.{is_mark_below};

use crate::canonical::canonical_words::{PLAIN_WORD, class_of_word};
use crate::canonical::tables::CanonicalTables;

/// The class of the character of a number.
#[tactic(auto, unfolding(crate::specs::CanonicalLists::canonical_of))]
pub(super) fn class_of(tables: &CanonicalTables<'_>, c: u32) -> u8
    ensures { result ≡ (meaning tables.now).class c }
{
    class_of_word(c, tables.trie.get32(c) & PLAIN_WORD)
}

/// Sorts each run of marks by class, stably.
pub(super) fn put_marks_in_order(tables: &CanonicalTables<'_>, list: &mut [u32])
    ensures { list.new ≡ marks_in_order (meaning tables.now).class list.old }
{
    let mut index = list.len();
    while index > 0 {
        index -= 1;
        put_mark_in_order(tables, list, index);
    }
}

/// Puts a character of a list in its place among the marks after it, which are in order.
fn put_mark_in_order(tables: &CanonicalTables<'_>, list: &mut [u32], at: usize)
    requires { at < length list.old }
    ensures { list.new ≡ take at list.old ++ put_in_order (meaning tables.now).class (slice_index list.old at) (drop (at + 1) list.old) }
{
    let character = list[at];
    let class = class_of(tables, character);
    let mut index = at;
    while index + 1 < list.len() {
        let next = list[index + 1];
        if !is_mark_below(class_of(tables, next), class) {
            break;
        }
        list[index] = next;
        index += 1;
    }
    list[index] = character;
}

/// Whether a class is that of a mark, and below the other.
fn is_mark_below(class: u8, other: u8) -> bool
    ensures { result ≡ is_mark_below class other }
{
    0 < class && class < other
}
