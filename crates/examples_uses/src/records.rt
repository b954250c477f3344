//! Records files: reading one, and asking what it says.
ghost use Rattle.std.specs.Prelude.{◌≡◌, ◌↔◌, [], IsTrue, MatchResult};
ghost use Rattle.collate_records.specs.Files.{IsAccepted, Refuses};
ghost use Rattle.collate_lines.specs.Lines.{records_of};
ghost use Rattle.collate_rules.specs.Meaning.{class_of, step_of};

use collate_records::records::Records;
use collate_records::rule::RecordsError;
use icu_normalizer_core::properties::Decomposed;
use std::alloc::Global;

/// The combining class of a character, by a records file.
pub fn class_by_file(alloc: Global, file: &[u8], character: char) -> Result<u8, RecordsError>
    ensures { MatchResult result
        (λ class. IsAccepted file.now × (class ≡ class_of (records_of file.now) character))
        (Refuses file.now) }
{
    let records = Records::read(alloc, file)?;
    Ok(records.class(character))
}

/// Whether a character has no canonical mapping. It takes no memory.
pub fn stands_alone(records: &Records, character: char) -> bool
    ensures { IsTrue result ↔ (step_of records.now.lines character ≡ []) }
{
    matches!(records.mapping(character), Decomposed::Default)
}
