//! The records that an order comes from: of a file, or of one put over a root.

use crate::faults::RunFault;
use crate::request::{OrderChoice, Source};
use collate_join::{JoinError, Joined, Origin, join};
use collate_lines::limits::Limits;
use collate_records::records::Records;
use collate_records::rule::RecordsError;
use collate_sort::order::LineOrder;
use std::alloc::Global;
use std::fs::File;
use std::io::Read;
use std::rt::Files;

/// The limits within which records files are read.
const LIMITS: Limits = Limits::UNICODE;

/// What a records file holds, but no more than one byte past the limit: a file that is longer is refused by that byte.
fn file_bytes<'w>(rt: &impl Files, alloc: Global, path: &'w str) -> Result<Vec<u8>, RunFault<'w>> {
    let most = (LIMITS.bytes as u64).saturating_add(1);
    let mut bytes = Vec::new(alloc);
    match File::open(rt, path) {
        Ok(file) => match file.take(most).read_to_end(&mut bytes) {
            Ok(_) => Ok(bytes),
            Err(error) => Err(RunFault::Unreadable(path, error)),
        },
        Err(error) => Err(RunFault::Unreadable(path, error)),
    }
}

/// Why records were refused, where each line is one of the file of this path.
fn refusal<'w>(error: RecordsError, path: &'w str) -> RunFault<'w> {
    match error {
        RecordsError::Fault(fault) => RunFault::Refused(fault.line, fault.rule, path),
        RecordsError::Memory => RunFault::Memory,
    }
}

/// Why the records of a join were refused, by the file that has the line.
fn joined_refusal<'w>(
    error: RecordsError,
    joined: &Joined,
    root: &'w str,
    file: &'w str,
) -> RunFault<'w> {
    match error {
        RecordsError::Fault(fault) => match joined.origin(fault.line) {
            Origin::Root(line) => RunFault::Refused(line, fault.rule, root),
            Origin::Tailoring(line) => RunFault::Refused(line, fault.rule, file),
        },
        RecordsError::Memory => RunFault::Memory,
    }
}

/// The records of a file that is put over a root.
fn records_over<'w>(
    rt: &impl Files,
    alloc: Global,
    root: &'w str,
    file: &'w str,
) -> Result<Records, RunFault<'w>> {
    let root_bytes = file_bytes(rt, alloc, root)?;
    let bytes = file_bytes(rt, alloc, file)?;
    let joined = match join(alloc, &root_bytes, &bytes) {
        Ok(joined) => joined,
        Err(JoinError::NoSuchRecord(line)) => return Err(RunFault::Without(line, file)),
        Err(JoinError::Memory) => return Err(RunFault::Memory),
    };
    match Records::read_within(alloc, joined.bytes(), LIMITS) {
        Ok(records) => Ok(records),
        Err(error) => Err(joined_refusal(error, &joined, root, file)),
    }
}

/// The records that a source gives.
fn records_of<'w>(
    rt: &impl Files,
    alloc: Global,
    source: Source<'w>,
) -> Result<Records, RunFault<'w>> {
    match source {
        Source::Records(path) => {
            let bytes = file_bytes(rt, alloc, path)?;
            match Records::read_within(alloc, &bytes, LIMITS) {
                Ok(records) => Ok(records),
                Err(error) => Err(refusal(error, path)),
            }
        }
        Source::Over { root, file } => records_over(rt, alloc, root, file),
    }
}

/// The order that is asked for, by the records of its files.
///
/// Errors: a file can't be read, its records are refused, or memory is.
pub fn order_of<'w>(
    rt: &impl Files,
    alloc: Global,
    choice: &OrderChoice<'w>,
) -> Result<LineOrder, RunFault<'w>> {
    let records = match records_of(rt, alloc, choice.source) {
        Ok(records) => records,
        Err(fault) => return Err(fault),
    };
    let order = LineOrder::new(
        alloc,
        records,
        &choice.preferences,
        &choice.options,
        choice.direction,
    )?;
    Ok(order)
}
