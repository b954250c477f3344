//! The elements of a whole text, as one list.

ghost use Rattle.std.specs.Prelude.{◌≡◌, ◌<◌, ◌≤◌, ℕ, List, [], true, IfOk, OnOk, is_some};
ghost use Rattle.std.specs.Iterator.{IsFinite};
ghost use lib.Utf8.{scalars};
ghost use Rattle.smallvec.specs.SmallVec.{small_vec_len};
ghost use Rattle.icu_normalizer_core.specs.BorrowedMeaning.{borrowed_meaning};
ghost use Rattle.icu_normalizer_core.specs.Canonical.{decomposed};
ghost use Rattle.icu_normalizer_core.specs.Iter.{Spells};
ghost use Rattle.icu_collator_core.specs.ElementLists.{unpacked};
ghost use Rattle.icu_collator_core.specs.Elements.{elements_of_list};
ghost use Rattle.icu_collator_core.specs.ReadSources.{canonical_by, weights_by};
ghost use Rattle.icu_collator_core.specs.ReadSteps.{IsRead};

use super::runs::push_alone;
use crate::checked::CheckedTables;
use crate::reading::decomposing::decompose_into;
use crate::reading::next::read_next;
use icu_collator_types::elements::CollationElement;
use icu_normalizer_core::canonical::CanonicalBorrowed;
use smallvec::SmallVec;
use std::alloc::{AllocError, Global};

/// The decomposed list of the characters that an iterator gives. Fails only if memory is refused.
pub fn decomposed_list<I: Iterator<Item = char> + Drop>(
    alloc: Global,
    canonical: CanonicalBorrowed<'_>,
    chars: I,
) -> Result<SmallVec<char, 64>, AllocError>
    requires can { I.can_next chars }
    requires finite { IsFinite (I.remaining chars) }
    ensures list { IfOk result (λ list. (cs : List ℕ) → Spells I.next_gives chars cs → list.items ≡ decomposed (borrowed_meaning canonical.entry) cs) }
    ensures characters { IfOk result (λ list. scalars list.items ≡ true) }
{
    let mut list = SmallVec::new(alloc);
    decompose_into(canonical, chars, &mut list)?;
    Ok(list)
}

/// Reads the characters from an index of a list on that are read alone, and then the next one, with what is read with it:
/// appends their elements, and answers where what is left begins. Fails only if memory is refused.
fn push_next(
    checked: &CheckedTables<'_>,
    numeric: Option<u8>,
    list: &mut SmallVec<char, 64>,
    index: usize,
    elements: &mut SmallVec<CollationElement, 32>,
) -> Result<usize, AllocError>
    requires inside { index < small_vec_len list.old }
    requires characters { scalars list.old.items ≡ true }
    ensures read { IfOk result (λ next. IsRead (canonical_by checked.now) (weights_by numeric checked.now) (is_some numeric) list.old.items index (unpacked elements.old.items) list.new.items next (unpacked elements.new.items)) }
    ensures kept { scalars list.new.items ≡ true }
    ensures same_length { small_vec_len list.new ≡ small_vec_len list.old }
    ensures onward { IfOk result (λ next. index < next) }
    ensures within { IfOk result (λ next. next ≤ small_vec_len list.old) }
{
    let end = list.len();
    let next = push_alone(checked, list, index, end, elements)?;
    if next == end {
        return Ok(next);
    }
    let after = read_next(checked.sound(), numeric, list, next, elements)?;
    Ok(after)
}

/// Appends the elements of a decomposed list, whose marks may change places. Fails only if memory is refused.
pub(crate) fn push_all(
    checked: &CheckedTables<'_>,
    numeric: Option<u8>,
    list: &mut SmallVec<char, 64>,
    elements: &mut SmallVec<CollationElement, 32>,
) -> Result<(), AllocError>
    requires characters { scalars list.old.items ≡ true }
    requires empty { elements.old.items ≡ [] }
    ensures { OnOk result (unpacked elements.new.items ≡ elements_of_list (canonical_by checked.now) (weights_by numeric checked.now) (is_some numeric) list.old.items) }
{
    let mut index = 0;
    'reading: while index < list.len() {
        index = push_next(checked, numeric, list, index, elements)?;
    }
    Ok(())
}

/// The elements of a decomposed list, by these tables. Where a lead byte is given, digits that stand together are read as
/// a number, whose primaries have this lead byte. Fails only if memory is refused.
pub fn list_elements(
    alloc: Global,
    checked: &CheckedTables<'_>,
    numeric: Option<u8>,
    mut list: SmallVec<char, 64>,
) -> Result<SmallVec<CollationElement, 32>, AllocError>
    requires { scalars list.items ≡ true }
    ensures { IfOk result (λ elements. unpacked elements.items ≡ elements_of_list (canonical_by checked.now) (weights_by numeric checked.now) (is_some numeric) list.items) }
{
    let mut elements = SmallVec::new(alloc);
    push_all(checked, numeric, &mut list, &mut elements)?;
    Ok(elements)
}
