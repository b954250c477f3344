//! From lines to entries: what is recorded of the texts that begin with one character.

ghost use Rattle.std.specs.Prelude.{◌≡◌, ◌^◌, ◌<◌, cond, map, None, IfOk, IfSome};
ghost use Rattle.icu_normalizer_core.specs.BorrowedMeaning.{borrowed_meaning};
ghost use Rattle.icu_normalizer_core.specs.Sameness.{AreSameCanonical};
ghost use Rattle.collate_lines.specs.Record.{said};
ghost use Rattle.collate_rules.specs.Accepted.{AreAccepted};
ghost use Rattle.collate_rules.specs.Meaning.{canonical_of, is_compressible_in, span_of};
ghost use Rattle.collate_words.specs.Entries.{saying_of};
ghost use Rattle.collate_words.specs.Fits.{IsFit};
ghost use Rattle.collate_compile.specs.Beginnings.{IsWithinLines};
ghost use Rattle.collate_compile.specs.LineSayings.{IsSayingOf, offset_bits, offset_of};

use crate::flags::flags_of;
use crate::gather::{prefixes_in, suffixes_in};
use crate::noted_lines::NotedLines;
use collate_lines::record::Range;
use collate_words::entry::Entry;
use icu_normalizer_core::canonical::CanonicalBorrowed;
use std::alloc::{AllocError, Global};

/// What moves the primary of a range to its characters, 64 bits: the primary (32 bits), the first character (24), whether
/// the lead is compressible (1), the step (7).
pub(crate) fn offset_bits(noted: &NotedLines<'_>, range: Range) -> u64
    ensures { result ≡ offset_bits (is_compressible_in (map said noted.now.lines.now)) (span_of range) }
{
    let lead = (range.primary >> 24) as u8;
    let flag: u64 = if noted.is_compressible(lead) { 0x80 } else { 0 };
    (u64::from(range.primary) << 32)
        + (u64::from(range.first as u32) << 8)
        + flag
        + u64::from(range.step)
}

/// The same of the range that holds a character.
fn offset_of(noted: &NotedLines<'_>, c: char) -> Option<u64>
    ensures { result ≡ offset_of (map said noted.now.lines.now) c }
{
    match noted.range_of(c) {
        Some(range) => Some(offset_bits(noted, range)),
        None => None,
    }
}

/// The same, where a character isn't recorded by itself.
fn offset_unless(noted: &NotedLines<'_>, is_recorded: bool, c: char) -> Option<u64>
    ensures offset { result ≡ cond is_recorded None (offset_of (map said noted.now.lines.now) c) }
    ensures small { IfSome result (λ bits. bits < 2 ^ 64) }
{
    if is_recorded {
        return None;
    }
    offset_of(noted, c)
}

/// What accepted lines record of the texts that begin with a character.
///
/// Errors: `AllocError` where memory is refused.
pub(crate) fn entry_of<'a>(
    alloc: Global,
    noted: &NotedLines<'a>,
    character: char,
    canonical: &CanonicalBorrowed<'_>,
) -> Result<Entry<'a>, AllocError>
    requires accepted { AreAccepted (map said noted.now.lines.now) }
    requires canonical { AreSameCanonical (borrowed_meaning canonical.now) (canonical_of (map said noted.now.lines.now)) }
    ensures says { IfOk result (λ entry. IsSayingOf (map said noted.now.lines.now) character (saying_of entry)) }
    ensures fit { IfOk result (λ entry. IsFit (saying_of entry)) }
    ensures few { IfOk result (λ entry. IsWithinLines (map said noted.now.lines.now) character (saying_of entry)) }
{
    let own = noted.alone(character);
    let offset = offset_unless(noted, own.is_some(), character);
    let digit = noted.digit_of(character);
    let suffixes = suffixes_in(alloc, noted.own(character), character)?;
    let prefixes = prefixes_in(alloc, noted.own(character), character)?;
    let flags = flags_of(canonical, suffixes.as_slice());
    Ok(Entry {
        own,
        offset,
        digit,
        suffixes,
        prefixes,
        flags,
    })
}
