//! What a reload of records asks of each name: whether its key is made anew, and the key.

ghost use Rattle.std.specs.Bool.{OnFalse, OnTrue};
ghost use Rattle.std.specs.Prelude.{◌≡◌, ◌+◌, ◌<◌, All, IfOk, IsTrue, MatchBool, None, OnErr, OnOk, Some, if◌then◌else◌, length};
ghost use Rattle.icu_normalizer_core.specs.Decoding.{utf8_chars};
ghost use Rattle.icu_collator.specs.CollatorAnswers.{key_by};
ghost use Rattle.collate_laws.specs.OverRecords.{IsCollatorOf};
ghost use Rattle.collate_laws.specs.Unchanged.{ReachesUnchanged};
ghost use Rattle.collate_name_list.specs.StoredNames.{rekeyed};
ghost use Rattle.collate_index.specs.Catalogue.{meaning_in, preferences_of, reloaded};
ghost use Rattle.collate_index.specs.Keys.{IsKeyed, catalogue};
ghost use Rattle.collate_index.specs.Reloads.{AreKeysMade, IsTouched, error_of};
ghost use Rattle.collate_index.specs.declared.reload.ReloadError.TheVariants.{Memory};

use crate::asked::Asked;
use crate::changes::Changes;
use collate_lines::rule::{RecordFault, RecordsError};
use collate_name_list::index_key::IndexKey;
use collate_name_list::name_list::NameList;
use collate_records::records::Records;
use icu_collator::{Collator, CollatorBorrowed};
use icu_normalizer_core::decoding::decode_utf8;
use std::alloc::{AllocError, Global};
use thiserror::Error;

/// Why records aren't reloaded.
#[derive(Clone, Copy, Debug, PartialEq, Eq, Error)]
pub enum ReloadError {
    /// The new file is refused for this fault, its first.
    #[error("{0}")]
    Record(RecordFault),
    /// Memory was refused.
    #[error("out of memory")]
    Memory,
}

impl From<RecordsError> for ReloadError {
    ghost from_gives = { λ refused error. error ≡ error_of refused };

    fn from(refused: RecordsError) -> ReloadError {
        match refused {
            RecordsError::Fault(fault) => ReloadError::Record(fault),
            RecordsError::Memory => ReloadError::Memory,
        }
    }
}

impl From<AllocError> for ReloadError {
    ghost from_gives = { λ _ error. error ≡ Memory };

    fn from(_: AllocError) -> ReloadError {
        ReloadError::Memory
    }
}

/// Whether a name reaches a changed character.
///
/// Errors: `AllocError` where memory is refused.
fn is_touched(changes: &mut Changes<'_>, name: &[u8]) -> Result<bool, AllocError>
    ensures same { changes.new ≡ changes.old }
    ensures touched { IfOk result (λ is. MatchBool is (IsTouched changes.old.before changes.old.after name.now) (ReachesUnchanged changes.old.before changes.old.after (utf8_chars name.now))) }
{
    for c in decode_utf8(name) {
        if changes.reaches_changed(c)? {
            return Ok(true);
        }
    }
    Ok(false)
}

/// Whether the key of a name is made anew: a setting changed, or the name reaches a changed character.
///
/// Errors: `AllocError` where memory is refused.
fn is_due(changes: &mut Changes<'_>, is_set_alike: bool, name: &[u8]) -> Result<bool, AllocError>
    ensures same { changes.new ≡ changes.old }
    ensures due { IfOk result (λ is. OnTrue is (IsTrue is_set_alike → IsTouched changes.old.before changes.old.after name.now)) }
    ensures other { IfOk result (λ is. OnFalse is (IsTrue is_set_alike × ReachesUnchanged changes.old.before changes.old.after (utf8_chars name.now))) }
{
    if is_set_alike {
        is_touched(changes, name)
    } else {
        Ok(true)
    }
}

/// The new key of a name, made where it is due, and counted.
fn renewed(
    alloc: Global,
    collator: &CollatorBorrowed<'_>,
    name: &[u8],
    is_due: bool,
    made: &mut usize,
) -> Result<Option<IndexKey>, AllocError>
    requires { made.old < usize.MAX }
    ensures key { IfOk result (λ renewed. renewed ≡ (if is_due then Some (key_by collator.now (utf8_chars name.now)) else None)) }
    ensures made { OnOk result (made.new ≡ (if is_due then made.old + 1 else made.old)) }
{
    if is_due {
        let key = IndexKey::make(alloc, collator, name, made)?;
        Ok(Some(key))
    } else {
        Ok(None)
    }
}

/// Gives names their new keys, if any was made: else their order is left as it is. An error if memory is refused; the names
/// then have their old keys.
pub(crate) fn renew(
    names: &mut NameList,
    keys: Vec<Option<IndexKey>>,
    made: usize,
) -> Result<(), AllocError>
    requires count { length keys.items ≡ length names.old }
    requires kept { made ≡ 0 → rekeyed keys.items names.old ≡ names.old }
    ensures rekeyed { OnOk result (names.new ≡ rekeyed keys.items names.old) }
    ensures unchanged { OnErr result (names.new ≡ names.old) }
{
    if made == 0 {
        return Ok(());
    }
    let mut comparisons = 0;
    names.rekey(keys, &mut comparisons)
}

/// The new keys of names by other records and a collator of these, as the names arrived; none for a name whose key stays.
/// The count goes up by one for each key that is made; where none is, all names keep theirs.
pub(crate) fn keys_by(
    alloc: Global,
    before: &Records,
    names: &NameList,
    asked: &Asked,
    records: &Records,
    collator: &Collator<'static>,
    made: &mut usize,
) -> Result<Vec<Option<IndexKey>>, AllocError>
    requires collator { IsCollatorOf records.now.lines asked.now.options (preferences_of asked.now) collator.now }
    requires keyed { All (IsKeyed (meaning_in (catalogue before.now asked.now names.now))) names.now }
    requires none { made.old ≡ 0 }
    ensures count { IfOk result (λ keys. length keys.items ≡ length names.now) }
    ensures keyed { IfOk result (λ keys. All (IsKeyed (meaning_in (reloaded records.now.lines (catalogue before.now asked.now names.now)))) (rekeyed keys.items names.now)) }
    ensures kept { IfOk result (λ keys. made.new ≡ 0 → rekeyed keys.items names.now ≡ names.now) }
    ensures made { OnOk result (AreKeysMade (catalogue before.now asked.now names.now) records.now.lines made.new) }
{
    before.keep_rules();
    records.keep_rules();
    let is_set_alike = before.settings_equal(records);
    let lent = collator.as_borrowed();
    let mut changes = Changes::new(alloc, before, records)?;
    let mut keys = Vec::with_capacity(alloc, names.len())?;
    for (name, own) in names.arrived() {
        let _ = own;
        let is_due = is_due(&mut changes, is_set_alike, name)?;
        let key = renewed(alloc, &lent, name, is_due, made)?;
        keys.push(key)?;
    }
    Ok(keys)
}
