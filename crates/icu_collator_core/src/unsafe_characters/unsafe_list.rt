//! The list of the characters that are unsafe by what is recorded.

ghost use Rattle.std.specs.Prelude.{◌↔◌, IsTrue, IfOk};
ghost use Rattle.std.specs.List.{Contains};
ghost use Rattle.std.specs.List.Sorted.{IsStrictlyIncreasing};
ghost use Rattle.icu_normalizer_core.specs.BorrowedMeaning.{borrowed_meaning};
ghost use Rattle.icu_collator_core.specs.Acceptance.{IsAccepted};
ghost use Rattle.icu_collator_core.specs.TableMeaning.{weights_of};
ghost use Rattle.icu_collator_core.specs.UnsafeWords.{AreUnsafeByRecords};
ghost use Rattle.icu_collator_core.specs.UnsafeCharacters.{IsUnsafeByRecords};
ghost use Rattle.icu_collator_core.specs.WeightLists.{Lists};

use super::walk::{gather_in, gather_in_tailoring};
use crate::tables::CollationTables;
use icu_normalizer_core::canonical::CanonicalBorrowed;
use std::alloc::{AllocError, Global};

/// The characters that are unsafe by what is recorded, in any order.
fn gather(
    alloc: Global,
    canonical: CanonicalBorrowed<'_>,
    tables: &CollationTables<'_>,
) -> Result<Vec<u32>, AllocError>
    requires { IsAccepted (borrowed_meaning canonical) tables.now }
    ensures { IfOk result (λ characters. Lists (IsUnsafeByRecords (weights_of (borrowed_meaning canonical.entry) tables.now)) characters.items) }
{
    let mut characters = Vec::new(alloc);
    gather_in(alloc, &mut characters, canonical, tables, &tables.root)?;
    gather_in_tailoring(alloc, &mut characters, canonical, tables)?;
    Ok(characters)
}

/// The characters that are unsafe by what is recorded, rising.
pub(crate) fn unsafe_by_records(
    alloc: Global,
    canonical: CanonicalBorrowed<'_>,
    tables: &CollationTables<'_>,
) -> Result<Vec<u32>, AllocError>
    requires { IsAccepted (borrowed_meaning canonical) tables.now }
    ensures { IfOk result (λ characters. AreUnsafeByRecords (weights_of (borrowed_meaning canonical.entry) tables.now) characters.items) }
{
    let mut characters = gather(alloc, canonical, tables)?;
    characters.sort()?;
    characters.dedup();
    Ok(characters)
}

/// Whether rising numbers hold a character.
pub(crate) fn holds(characters: &[u32], c: char) -> bool
    requires { IsStrictlyIncreasing characters.now }
    ensures { IsTrue result ↔ Contains characters.now c }
{
    characters.binary_search(&(c as u32)).is_ok()
}
