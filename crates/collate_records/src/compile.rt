//! Records, compiled to tables from which normalisers and collators answer.

ghost use Rattle.std.specs.Prelude.{IfOk};
ghost use Rattle.collate_compile.specs.Compiled.{HaveTrieType};
ghost use Rattle.collate_records.specs.CompiledOf.{IsCompiledOf};

use crate::compatibility_data::compatibility_data;
use crate::records::Records;
use collate_compile::provider::Provider;
use collate_compile::tables::compile_tables;
use icu_codepointtrie::TrieType;
use std::alloc::{AllocError, Global};

/// The tables of a records file, with collation tries of this type: a small one takes less memory, a fast one less time a
/// look-up. They pass every check, and say what the file says (docs/RECORDS.md): of characters, of weights and of settings.
/// `AllocError` where memory is refused, and for nothing else.
pub fn compile(
    alloc: Global,
    records: &Records,
    trie_type: TrieType,
) -> Result<Provider, AllocError>
    ensures compiled { IfOk result (IsCompiledOf records.now.lines) }
    ensures trie_type { IfOk result (λ provided. HaveTrieType trie_type provided.collation) }
{
    let canonical = records.copied_tables(alloc)?;
    let compatibility = compatibility_data(alloc, records.lines(), records.limits().code_points)?;
    let collation = compile_tables(alloc, records.lines(), &records.canonical(), trie_type)?;
    Ok(Provider::of_tables(canonical, compatibility, collation))
}
