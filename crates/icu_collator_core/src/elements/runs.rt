//! Characters of a list that are read alone, one after another.

ghost use Rattle.std.specs.Prelude.{◌≡◌, ◌<◌, ◌≤◌, ℕ, Option, true, IfOk, is_some, length};
ghost use lib.Utf8.{scalars};
ghost use Rattle.smallvec.specs.SmallVec.{small_vec_len};
ghost use Rattle.icu_collator_core.specs.ElementLists.{unpacked};
ghost use Rattle.icu_collator_core.specs.ReadSources.{canonical_by, weights_by};
ghost use Rattle.icu_collator_core.specs.ReadSteps.{IsRead};

use crate::checked::CheckedTables;
use crate::reading::next::read_next;
use icu_collator_types::elements::CollationElement;
use smallvec::SmallVec;
use std::alloc::AllocError;

/// How many characters that are read alone are read at once.
const RUN: usize = 32;

/// Reads the characters from an index of a list on up to the first that isn't read alone, at the most up to another index:
/// appends an element for each, and answers where what is left begins. Fails only if memory is refused.
pub(crate) fn push_alone(
    checked: &CheckedTables<'_>,
    list: &[char],
    index: usize,
    end: usize,
    elements: &mut SmallVec<CollationElement, 32>,
) -> Result<usize, AllocError>
    requires order { index ≤ end }
    requires inside { end ≤ length list.now }
    requires characters { scalars list.now ≡ true }
    ensures read { IfOk result (λ next. (numeric : Option ℕ)
        → IsRead (canonical_by checked.now) (weights_by numeric checked.now) (is_some numeric) list.now index (unpacked elements.old.items) list.now next (unpacked elements.new.items)) }
    ensures begins { IfOk result (λ next. index ≤ next) }
    ensures within { IfOk result (λ next. next ≤ end) }
{
    checked.keep_promise();
    for i in index..end {
        match checked.alone_element(list[i]) {
            Some(element) => elements.push(element)?,
            None => return Ok(i),
        }
    }
    Ok(end)
}

/// Reads the characters from an index of a list on that are read alone, 32 at the most, or, where there is none, the next
/// character, with what is read with it: appends their elements, and answers where what is left begins. Fails only if
/// memory is refused.
pub(crate) fn read_run(
    checked: &CheckedTables<'_>,
    numeric: Option<u8>,
    list: &mut SmallVec<char, 64>,
    index: usize,
    ready: &mut SmallVec<CollationElement, 32>,
) -> Result<usize, AllocError>
    requires inside { index < small_vec_len list.old }
    requires characters { scalars list.old.items ≡ true }
    ensures read { IfOk result (λ next. IsRead (canonical_by checked.now) (weights_by numeric checked.now) (is_some numeric) list.old.items index (unpacked ready.old.items) list.new.items next (unpacked ready.new.items)) }
    ensures kept { scalars list.new.items ≡ true }
    ensures same_length { small_vec_len list.new ≡ small_vec_len list.old }
    ensures onward { IfOk result (λ next. index < next) }
    ensures within { IfOk result (λ next. next ≤ small_vec_len list.old) }
{
    let count = (list.len() - index).min(RUN);
    let next = push_alone(checked, list, index, index + count, ready)?;
    if next > index {
        return Ok(next);
    }
    let after = read_next(checked.sound(), numeric, list, next, ready)?;
    Ok(after)
}
