//! A sink that takes some calls and fails from then on, through each call that writes a key.

ghost use Rattle.std.specs.Prelude.{◌≡◌, ◌++◌, ⊤, drop, length};
ghost use Rattle.std.proofs.Common.{◌∙◌, ap, sym};
ghost use Rattle.std.proofs.Math.Seq.{drop-append_seam};
ghost use Rattle.std.proofs.lemmas.List.{append-nil};
ghost use Rattle.icu_normalizer.specs.Sinks.{AddsPrefix};

use crate::calls::{KEY, LETTERS};
use icu_codepointtrie::TrieType;
use icu_collator::options::CollatorOptions;
use icu_collator::{CollationKeySink, Collator, CollatorBorrowed, CollatorPreferences, KeyError};
use samples_icu_collator::compiled::checked_tables;
use std::alloc::Global;

/// Why a sink takes no more.
#[derive(Clone, Copy, Debug, PartialEq, Eq)]
enum Failure {
    /// Its calls are used up.
    Full,
    /// Memory was refused to it.
    Memory,
}

/// A sink that takes so many calls more.
#[derive(Drop)]
struct Failing {
    left: usize,
    bytes: Vec<u8>,
}

impl Failing {
    /// Counts a call, if one is left.
    fn count(&mut self) -> Result<(), Failure>
        ensures { self.new.bytes ≡ self.old.bytes }
    {
        if self.left == 0 {
            return Err(Failure::Full);
        }
        self.left -= 1;
        Ok(())
    }
}

impl CollationKeySink for Failing {
    type Error = Failure;

    type State = ();

    type Output = ();

    ghost is_start = { λ _. ⊤ };

    ghost has_taken = { λ first bytes now _. now.bytes.items ≡ first.bytes.items ++ bytes };

    ghost has_written = { λ first key now _. now.bytes.items ≡ first.bytes.items ++ key };

    ghost has_failed = { λ first key now _. AddsPrefix first.bytes.items key now.bytes.items };

    ghost read_back = { λ first now _. drop (length first.bytes.items) now.bytes.items };

    ghost starts = { λ _ _. tt };

    ghost begins = { λ sink _ _. sym (append-nil sink.bytes.items) };

    ghost keeps = { λ first key now _ written. ap (drop (length first.bytes.items)) written ∙ drop-append_seam first.bytes.items key };

    fn write(&mut self, _state: &mut (), bytes: &[u8]) -> Result<(), Failure> {
        self.count()?;
        match self.bytes.extend_from_slice(bytes) {
            Ok(()) => Ok(()),
            Err(_) => Err(Failure::Memory),
        }
    }

    fn finish(&mut self, _state: ()) -> Result<(), Failure> {
        self.count()
    }
}

/// A call that writes the key of a text.
#[derive(Clone, Copy)]
enum KeyCall {
    /// `write_sort_key_to`.
    Text,
    /// `write_sort_key_utf8_to`.
    Bytes,
    /// `write_sort_key_utf16_to`.
    Units,
}

/// Writes the key of the first letter.
fn write_key(
    collator: &CollatorBorrowed<'_>,
    alloc: Global,
    call: KeyCall,
    sink: &mut Failing,
) -> Result<(), KeyError<Failure>> {
    match call {
        KeyCall::Text => collator.write_sort_key_to(alloc, "a", sink),
        KeyCall::Bytes => collator.write_sort_key_utf8_to(alloc, b"a", sink),
        KeyCall::Units => collator.write_sort_key_utf16_to(alloc, &[0x61], sink),
    }
}

/// Whether a sink with so many calls left, and a byte in it, is told the whole key: then it holds that after the byte. Where
/// it fails, its failure is told, and it holds the byte and a first part of the key. `None` where anything else came.
fn is_written(
    collator: &CollatorBorrowed<'_>,
    alloc: Global,
    call: KeyCall,
    left: usize,
) -> Option<bool> {
    let mut bytes = Vec::new(alloc);
    bytes.push(9).ok()?;
    let mut sink = Failing { left, bytes };
    let outcome = write_key(collator, alloc, call, &mut sink);
    let written = sink.bytes.as_slice().strip_prefix(&[9])?;
    match outcome {
        Ok(()) if written == KEY.as_slice() => Some(true),
        Err(KeyError::Sink(Failure::Full)) if KEY.starts_with(written) => Some(false),
        _ => None,
    }
}

/// How many calls of the sink have to succeed before a call that writes a key does.
fn calls_needed(collator: &CollatorBorrowed<'_>, alloc: Global, call: KeyCall) -> Option<usize> {
    for left in 0..100 {
        if is_written(collator, alloc, call, left)? {
            return Some(left);
        }
    }
    None
}

/// A collator of the two letters, which owns its tables.
fn letters(alloc: Global) -> Option<Collator<'static>> {
    let tables = checked_tables(alloc, LETTERS, TrieType::Small)?;
    let preferences = CollatorPreferences::default();
    Some(Collator::from_tables(tables, preferences, CollatorOptions::default()))
}

/// Whether a call that writes a key fails while its sink does, and not from then on.
fn fails_with_its_sink(alloc: Global, call: KeyCall) -> bool {
    match letters(alloc) {
        Some(collator) => {
            matches!(calls_needed(&collator.as_borrowed(), alloc, call), Some(needed) if needed > 0)
        }
        None => false,
    }
}

#[test]
fn keys_of_texts_fail_with_their_sink(rt: HostRuntime) {
    assert!(rt; fails_with_its_sink(rt.alloc(), KeyCall::Text));
}

#[test]
fn keys_of_bytes_fail_with_their_sink(rt: HostRuntime) {
    assert!(rt; fails_with_its_sink(rt.alloc(), KeyCall::Bytes));
}

#[test]
fn keys_of_units_fail_with_their_sink(rt: HostRuntime) {
    assert!(rt; fails_with_its_sink(rt.alloc(), KeyCall::Units));
}
