//! The primary level of a key.

ghost use Rattle.std.specs.Prelude.{◌≡◌, ◌<◌, ◌≤◌, ◌+◌, ◌/◌, ◌^◌, ◌++◌, ℕ, length, IfOk, None, OnOk, Option, Some, option_map};
ghost use Rattle.icu_collator_core.specs.TableSettings.{is_compressible_in};
ghost use Rattle.icu_collator.specs.Collators.{source_collation};
ghost use Rattle.icu_collator.specs.KeyBytes.{primary_code, primary_level, primary_run, run_end, was_compressible};
ghost use Rattle.icu_collator.specs.KeyCodes.{AddsPrimary, IsRun, IsWrittenOn, IsWrittenUpTo};
ghost use Rattle.icu_collator.specs.LevelLists.{counted_list, primaries_by};
ghost use Rattle.icu_collator.specs.PlainPrimaries.{IsWrittenWhole};

use super::buffer::KeyBytes;
use super::buffer::short_primaries::is_short;
use super::weights::{write_primary_bytes, write_primary_rest};
use crate::levels::counted_elements::counted_element;
use crate::levels::weights::{own_primary_at, reordered};
use icu_collator_core::checked::CheckedTables;
use icu_collator_types::elements::CollationElement;
use std::alloc::AllocError;

/// The lead byte of a primary.
#[inline(always)]
fn lead_of(primary: u32) -> u8
    ensures { result ≡ primary / 2 ^ 24 }
{
    (primary >> 24) as u8
}

/// Appends what ends a run of primaries with one lead before a primary with another. Fails only if memory is refused.
#[inline(never)]
fn write_run_end(before: u8, lead: u8, key: &mut KeyBytes) -> Result<(), AllocError>
    ensures { OnOk result (key.new.items ≡ key.old.items ++ run_end before lead) }
{
    if before < lead {
        key.push(0xff)?;
        return Ok(());
    }
    if lead == 0x02 {
        return Ok(());
    }
    key.push(0x03)?;
    Ok(())
}

/// Appends a primary after no run, or after one of primaries with a compressible lead. Fails only if memory is refused.
#[inline(always)]
fn write_primary(run: Option<u8>, primary: u32, key: &mut KeyBytes) -> Result<(), AllocError>
    ensures { OnOk result (key.new.items ≡ key.old.items ++ primary_code run primary) }
{
    let lead = lead_of(primary);
    let Some(before) = run else {
        write_primary_bytes(primary, key)?;
        return Ok(());
    };
    if lead == before {
        write_primary_rest(primary, key)?;
        return Ok(());
    }
    write_run_end(before, lead, key)?;
    write_primary_bytes(primary, key)?;
    Ok(())
}

/// No lead byte.
const NO_LEAD: u16 = 0x100;

/// Whether a lead byte is compressible.
#[inline(always)]
fn is_compressible(checked: &CheckedTables<'_>, lead: u8) -> bool
    ensures { result ≡ is_compressible_in checked.now.tables.special_primaries.last_primaries lead }
{
    checked.is_compressible(lead)
}

/// A lead byte, where it isn't compressible and no primary is reordered; else none.
#[inline(always)]
fn plain_lead(checked: &CheckedTables<'_>, lead: u8) -> u16
    ensures { result < 256 → IsWrittenWhole checked.now result }
{
    if is_compressible(checked, lead) {
        return NO_LEAD;
    }
    match &checked.tables().reordering {
        Some(_) => NO_LEAD,
        None => u16::from(lead),
    }
}

/// The lead of the run after a primary: it is asked whether the primary's own lead is compressible, and not that of the one
/// that stands in its place.
#[inline(always)]
fn run_after(checked: &CheckedTables<'_>, primary: u32, in_place: u32) -> Option<u8>
    requires { in_place ≡ (source_collation checked.now).reordered primary }
    ensures next { (run : Option ℕ) → result ≡ primary_run (was_compressible (source_collation checked.now)) run in_place }
    ensures goes_on { IsRun (was_compressible (source_collation checked.now)) result }
{
    checked.keep_promise();
    let own = lead_of(primary);
    let lead = lead_of(in_place);
    if is_compressible(checked, own) {
        Some(lead)
    } else {
        None
    }
}

/// Appends what an element gives, if it has a primary that counts; answers the lead of the run then. Fails only if memory
/// is refused.
#[inline(always)]
fn write_given(
    checked: &CheckedTables<'_>,
    run: Option<u8>,
    primary: Option<u32>,
    key: &mut KeyBytes,
) -> Result<Option<u8>, AllocError>
    requires { IsRun (was_compressible (source_collation checked.now)) run }
    ensures { IfOk result (λ now. AddsPrimary (was_compressible (source_collation checked.now)) (option_map (source_collation checked.now).reordered primary) run key.old.items now key.new.items) }
{
    let Some(primary) = primary else {
        return Ok(run);
    };
    let in_place = reordered(checked.tables(), primary);
    write_primary(run, in_place, key)?;
    Ok(run_after(checked, primary, in_place))
}

/// Whether the element at an index has a short primary with the lead of the one before it.
#[inline(always)]
fn is_alike(elements: &[CollationElement], index: usize) -> bool {
    if index == 0 || index >= elements.len() {
        return false;
    }
    let lead = lead_of(elements[index - 1].primary());
    is_short(elements[index].primary(), u16::from(lead))
}

/// Whether the element at an index can be written by its short primary after the one before it, with the same lead, where there
/// is room.
#[inline(always)]
fn goes_on_alike(
    checked: &CheckedTables<'_>,
    elements: &[CollationElement],
    index: usize,
    has_room: bool,
) -> bool {
    is_alike(elements, index) && has_room && checked.tables().reordering.is_none()
}

/// Appends what the element at an index gives after a run; answers the lead of the run then. Fails only if memory is
/// refused.
#[inline(always)]
fn write_one(
    checked: &CheckedTables<'_>,
    elements: &[CollationElement],
    variable_end: u32,
    index: usize,
    run: Option<u8>,
    key: &mut KeyBytes,
) -> Result<Option<u8>, AllocError>
    requires run { IsRun (was_compressible (source_collation checked.now)) run }
    requires inside { index < length elements.now }
    ensures { IfOk result (λ now. IsWrittenOn (source_collation checked.now) variable_end elements.now run index key.old.items now (index + 1) key.new.items) }
{
    let primary = own_primary_at(counted_element(elements[index], variable_end));
    let now = write_given(checked, run, primary, key)?;
    Ok(now)
}

/// Elements whose primaries were written.
#[derive(Clone, Copy)]
struct Written {
    /// The index after them.
    behind: usize,
    /// The lead of the run there, if one goes on.
    run: Option<u8>,
}

/// Appends what the elements from an index on give after a run: that of the first, and of those after it up to one that can be
/// written by a short primary with the lead of the one before it. Fails only if memory is refused.
#[inline(never)]
fn write_changing(
    checked: &CheckedTables<'_>,
    elements: &[CollationElement],
    variable_end: u32,
    from: usize,
    before: Option<u8>,
    key: &mut KeyBytes,
) -> Result<Written, AllocError>
    requires run { IsRun (was_compressible (source_collation checked.now)) before }
    requires inside { from < length elements.now }
    ensures onward { IfOk result (λ written. from < written.behind) }
    ensures level { IfOk result (λ written. IsWrittenOn (source_collation checked.now) variable_end elements.now before from key.old.items written.run written.behind key.new.items) }
{
    let mut run = before;
    for index in from..elements.len() {
        run = write_one(checked, elements, variable_end, index, run, key)?;
        let behind = index + 1;
        if goes_on_alike(checked, elements, behind, key.has_room()) {
            return Ok(Written { behind, run });
        }
    }
    Ok(Written {
        behind: elements.len(),
        run,
    })
}

/// The lead byte of the element at an index.
#[inline(always)]
fn lead_at(elements: &[CollationElement], index: usize) -> u8 {
    match elements.get(index) {
        Some(element) => lead_of(element.primary()),
        None => 0,
    }
}

/// Appends the short primaries of the elements from an index on that have the lead of the first, after no run, where that lead isn't
/// compressible and no primary is reordered, as long as there is room without memory; answers the index after them.
#[inline(always)]
fn write_plain(
    checked: &CheckedTables<'_>,
    elements: &[CollationElement],
    variable_end: u32,
    from: usize,
    key: &mut KeyBytes,
) -> usize
    requires { from ≤ length elements.now }
    ensures { IsWrittenUpTo (source_collation checked.now) variable_end elements.now None from key.old.items result key.new.items }
{
    checked.keep_promise();
    let plain = plain_lead(checked, lead_at(elements, from));
    key.put_short_primaries(elements, variable_end, from, plain, 0)
}

/// Appends the short primaries of the elements from an index on that have the lead of the run before them, without it, where no
/// primary is reordered, as long as there is room without memory; answers the index after them.
#[inline(always)]
fn write_in_run(
    checked: &CheckedTables<'_>,
    elements: &[CollationElement],
    variable_end: u32,
    from: usize,
    lead: u8,
    key: &mut KeyBytes,
) -> usize
    requires run { IsRun (was_compressible (source_collation checked.now)) (Some lead) }
    requires within { from ≤ length elements.now }
    ensures { IsWrittenUpTo (source_collation checked.now) variable_end elements.now (Some lead) from key.old.items result key.new.items }
{
    checked.keep_promise();
    match &checked.tables().reordering {
        Some(_) => from,
        None => {
            let own = u16::from(lead);
            key.put_short_primaries(elements, variable_end, from, own, 1)
        }
    }
}

/// The same after any run.
#[inline(always)]
fn write_alike(
    checked: &CheckedTables<'_>,
    elements: &[CollationElement],
    variable_end: u32,
    from: usize,
    run: Option<u8>,
    key: &mut KeyBytes,
) -> usize
    requires run { IsRun (was_compressible (source_collation checked.now)) run }
    requires within { from ≤ length elements.now }
    ensures { IsWrittenUpTo (source_collation checked.now) variable_end elements.now run from key.old.items result key.new.items }
{
    match run {
        None => write_plain(checked, elements, variable_end, from, key),
        Some(lead) => write_in_run(checked, elements, variable_end, from, lead, key),
    }
}

/// Appends the primary level. Fails only if memory is refused.
#[inline(always)]
pub(super) fn write_primaries(
    checked: &CheckedTables<'_>,
    elements: &[CollationElement],
    variable_end: u32,
    key: &mut KeyBytes,
) -> Result<(), AllocError>
    ensures { OnOk result (key.new.items ≡ key.old.items
        ++ primary_level (source_collation checked.now) (primaries_by (source_collation checked.now) (counted_list variable_end elements.now))) }
{
    let mut run: Option<u8> = None;
    let mut index = 0;
    'elements: while index < elements.len() {
        let behind = write_alike(checked, elements, variable_end, index, run, key);
        if behind >= elements.len() {
            return Ok(());
        }
        let written = write_changing(checked, elements, variable_end, behind, run, key)?;
        run = written.run;
        index = written.behind;
    }
    Ok(())
}
