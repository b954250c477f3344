//! The index: putting names into it and taking one out, looking for names, listing them, and putting other records into it.
ghost use Rattle.std.specs.Prelude.{◌≡◌, ◌≢◌, ◌↔◌, ◌∷◌, [], length, slice_get, IfOk, IfSome, IsTrue, MatchBool};
ghost use Rattle.std.specs.Bool.{OnFalse, OnTrue};
ghost use Rattle.std.specs.List.{Contains};
ghost use Rattle.std.specs.Option.{option_copied};
ghost use Rattle.collate_index.specs.Catalogue.{opened_by, order_of, reloaded, sorted_names, without_name};
ghost use Rattle.collate_index.specs.Names.{equal_names, names_between};
ghost use Rattle.collate_lines.specs.Limits.{standard};
ghost use Rattle.collate_lines.specs.Lines.{records_of};
ghost use Rattle.collate_records.specs.Files.{IsAccepted};

use collate_index::index::{AddError, Index};
use collate_records::records::Records;
use icu_collator_types::options::{CollatorOptions, CollatorPreferences};
use std::alloc::{AllocError, Global};

/// Preferences that ask for nothing.
const PREFERENCES: CollatorPreferences<'static> = CollatorPreferences {
    locale: "",
    collation_type: None,
    case_first: None,
    numeric_ordering: None,
};

/// An index with no names over a records file; `None` where the file breaks a rule, or memory is refused.
pub fn index_by_file(
    alloc: Global,
    file: &[u8],
    preferences: &CollatorPreferences<'_>,
    options: &CollatorOptions,
) -> Option<Index>
    ensures accepted { IfSome result (λ _. IsAccepted file.now) }
    ensures opened { IfSome result (λ index. index ≡ opened_by standard file.now preferences.now options.now) }
{
    let records = Records::read(alloc, file).ok()?;
    Index::new(alloc, records, preferences, options).ok()
}

/// An index of two names, which are not the same bytes.
pub fn index_of_two(
    alloc: Global,
    records: Records,
    first: &[u8],
    second: &[u8],
) -> Result<Index, AddError>
    ensures arrived { IfOk result (λ index. index.arrivals ≡ first.now ∷ second.now ∷ []) }
    ensures distinct { IfOk result (λ index. first.now ≢ second.now) }
{
    let mut index = Index::new(alloc, records, &PREFERENCES, &CollatorOptions::default())?;
    index.add(first)?;
    index.add(second)?;
    Ok(index)
}

/// How many names of the index compare as equal to a name.
pub fn count_equal(index: &Index, name: &[u8]) -> Result<usize, AllocError>
    ensures { IfOk result (λ count. count ≡ length (equal_names (order_of index.now) name.now (sorted_names index.now))) }
{
    let found = index.find(name)?;
    Ok(found.names.end - found.names.start)
}

/// How many names of the index stand from one name to another.
pub fn count_between(index: &Index, first: &[u8], last: &[u8]) -> Result<usize, AllocError>
    ensures { IfOk result (λ count. count ≡ length (names_between (order_of index.now) first.now last.now (sorted_names index.now))) }
{
    let ranks = index.between(first, last)?;
    Ok(ranks.end - ranks.start)
}

/// Takes a name out of the index; whether it was there. It takes no memory.
pub fn take_out(index: &mut Index, name: &[u8]) -> bool
    ensures present { IsTrue result ↔ Contains index.old.arrivals name.now }
    ensures taken { OnTrue result (index.new ≡ without_name name.now index.old) }
    ensures unchanged { OnFalse result (index.new ≡ index.old) }
{
    index.remove(name).is_ok()
}

/// Puts a records file in the place of the index's own, the names as they are, and tells whether it was taken.
pub fn adopt(index: &mut Index, file: &[u8]) -> bool
    ensures { MatchBool result (index.new ≡ reloaded (records_of file.now) index.old) (index.new ≡ index.old) }
{
    index.reload(file).is_ok()
}

/// The first name in order. It takes no memory.
pub fn first_name(index: &Index) -> Option<&[u8]>
    ensures { option_copied result ≡ slice_get (sorted_names index.now) 0 }
{
    index.list().next()
}
