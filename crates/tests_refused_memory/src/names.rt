//! An index: its calls, and the names that each leaves.

use crate::asked_texts::{MARKED, NO_RECORDS, OTHER_RECORDS, RECORDS};
use crate::told::made;
use collate_index::index::{AddError, Index, ReloadError};
use collate_records::records::Records;
use collate_records::rule::RecordsError;
use icu_collator_types::options::{CollatorOptions, CollatorPreferences, Strength};
use std::alloc::{AllocError, Global};
use std::fmt::Debug;

const OPTIONS: CollatorOptions = CollatorOptions {
    strength: Some(Strength::Identical),
    alternate_handling: None,
    max_variable: None,
    case_level: None,
};

/// Prints the names of an index, and what a call of it answered.
fn print_names<T: Debug, E: Debug>(
    rt: &HostRuntime,
    index: &Index,
    name: &str,
    answer: &Result<T, E>,
) {
    let _ = print!(rt; "{name} |");
    for name in index.list() {
        let _ = print!(rt; " {name:?}");
    }
    let _ = println!(rt; " | {answer:?}");
}

/// Adds a name, and answers whether memory was granted.
fn added(rt: &HostRuntime, index: &mut Index, name: &str) -> bool {
    let answer = index.add(name.as_bytes());
    print_names(rt, index, "add", &answer);
    !matches!(answer, Err(AddError::Memory))
}

/// Finds a name, and answers whether memory was granted.
fn found(rt: &HostRuntime, index: &Index, name: &str) -> bool {
    let answer = index.find(name.as_bytes()).map(|found| found.names);
    print_names(rt, index, "find", &answer);
    answer.is_ok()
}

/// Looks for names between two, and answers whether memory was granted.
fn between(rt: &HostRuntime, index: &Index, first: &str, last: &str) -> bool {
    let answer = index.between(first.as_bytes(), last.as_bytes());
    print_names(rt, index, "between", &answer);
    answer.is_ok()
}

/// Loads other records, and answers whether memory was granted.
fn reloaded(rt: &HostRuntime, index: &mut Index, file: &[u8]) -> bool {
    let answer = index.reload(file);
    print_names(rt, index, "reload", &answer);
    !matches!(answer, Err(ReloadError::Memory))
}

/// Removes a name, which takes no memory.
fn remove(rt: &HostRuntime, index: &mut Index, name: &str) {
    let answer = index.remove(name.as_bytes());
    print_names(rt, index, "remove", &answer);
}

/// Adds names.
fn add_all(rt: &HostRuntime, index: &mut Index, names: &[&str]) {
    for name in names {
        for _ in 0..2 {
            if added(rt, index, name) {
                break;
            }
        }
    }
}

/// Asks an index for names.
fn ask(rt: &HostRuntime, index: &Index) {
    for name in ["ch", MARKED] {
        for _ in 0..2 {
            if found(rt, index, name) {
                break;
            }
        }
    }
    for _ in 0..2 {
        if between(rt, index, "a", "cl") {
            break;
        }
    }
}

/// Loads a file into an index.
fn load(rt: &HostRuntime, index: &mut Index, file: &[u8]) {
    for _ in 0..2 {
        if reloaded(rt, index, file) {
            break;
        }
    }
}

/// Makes the calls of an index.
fn use_index(rt: &HostRuntime, index: &mut Index) {
    let names = ["ch", "cl", "ab", "b", "ab", "\u{e1}b", "l", "t"];
    add_all(rt, index, &names);
    ask(rt, index);
    remove(rt, index, "cl");
    load(rt, index, OTHER_RECORDS);
    ask(rt, index);
    load(rt, index, NO_RECORDS);
    add_all(rt, index, &["cl", "a"]);
}

/// An index over records that are read for it.
fn opened(alloc: Global) -> Result<Index, RecordsError> {
    let records = Records::read(alloc, RECORDS)?;
    match Index::new(alloc, records, &CollatorPreferences::default(), &OPTIONS) {
        Ok(index) => Ok(index),
        Err(AllocError) => Err(RecordsError::Memory),
    }
}

/// Opens an index, and prints what its calls answer and leave.
pub fn tell_names(rt: &HostRuntime) {
    if let Some(mut index) = made(rt, "Index::new", || opened(rt.alloc())) {
        use_index(rt, &mut index);
    }
}
