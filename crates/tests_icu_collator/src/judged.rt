//! What tables are refused for.

use crate::tables::canonical;
use icu_collator_core::check::TableFault;
use icu_collator_core::checked::CheckedTables;
use icu_collator_core::tables::CollationTables;
use std::alloc::Global;

/// Whether tables are refused for this, or accepted where it is none.
fn are_judged(alloc: Global, tables: CollationTables<'_>, expected: Option<TableFault>) -> bool {
    let Some(canonical) = canonical(alloc) else {
        return false;
    };
    match CheckedTables::try_new(alloc, canonical, tables) {
        Ok(_) => expected.is_none(),
        Err(fault) => expected == Some(fault),
    }
}

/// The same; `false` where there are none.
pub fn judged(
    alloc: Global,
    tables: Option<CollationTables<'_>>,
    expected: Option<TableFault>,
) -> bool {
    match tables {
        Some(tables) => are_judged(alloc, tables, expected),
        None => false,
    }
}
