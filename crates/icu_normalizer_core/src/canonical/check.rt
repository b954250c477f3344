//! The check of canonical tables: a function for each kind of fault, which names its least character.

ghost use Rattle.std.specs.Prelude.{IfOk, MatchOption};
ghost use Rattle.icu_normalizer_core.specs.CanonicalFaults.{IsAccepted, IsFirstFault};
ghost use Rattle.icu_normalizer_core.specs.CanonicalMeaning.{lists_of};
ghost use Rattle.icu_normalizer_core.specs.Plain.{Tells};

pub(crate) mod built_in;
mod forms;
pub(crate) mod full_lists;
pub(crate) mod full_start;
mod least_refused;
pub(crate) mod left;
mod loops;
mod marks;
mod own;
mod pairs;
pub(crate) mod settle;
pub(super) mod steady;
pub(crate) mod told;
mod values;

use super::tables::{CanonicalFault, CanonicalTables};
use built_in::first_built_in_fault;
use forms::are_triples;
use full_lists::first_bad_list;
use loops::first_loop;
use pairs::first_bad_pair;
use settle::settle;
use std::alloc::{AllocError, Global};
use values::first_bad_value;

/// What the tables are to be refused for, `None` where they pass every check; `told` is a list of the code points of
/// which they say something (`told::told`). Fails only if memory is refused.
pub(crate) fn first_fault(
    alloc: Global,
    tables: &CanonicalTables<'_>,
    told: &[u32],
) -> Result<Option<CanonicalFault>, AllocError>
    requires { Tells (lists_of tables.now) told.now }
    ensures { IfOk result (λ fault. MatchOption fault (IsAccepted (lists_of tables.now)) (IsFirstFault (lists_of tables.now))) }
{
    if let Some(c) = first_bad_value(tables, told) {
        return Ok(Some(CanonicalFault::BadValue(c)));
    }
    if !are_triples(&tables.steps) {
        return Ok(Some(CanonicalFault::BadList('\0')));
    }
    let settled = settle(alloc, &tables.steps)?;
    if let Some(c) = first_bad_list(tables, &settled, told) {
        return Ok(Some(CanonicalFault::BadList(c)));
    }
    if let Some(c) = first_loop(tables, &settled) {
        return Ok(Some(CanonicalFault::Loop(c)));
    }
    if let Some(c) = first_built_in_fault(tables, told) {
        return Ok(Some(CanonicalFault::BuiltIn(c)));
    }
    if let Some(c) = first_bad_pair(tables) {
        return Ok(Some(CanonicalFault::BadPair(c)));
    }
    Ok(None)
}
