//! Normal forms of bytes and units.

use crate::calls::{Ask, Kind};
use crate::damaged::Row;
use crate::encoded::{EncodedCall, Encoding, NormalizesUnits, are_bytes, are_units};
use crate::given::gives_given;
use crate::sinks::writes_of;
use icu_normalizer::composing::ComposingNormalizerBorrowed;
use icu_normalizer::decomposing::DecomposingNormalizerBorrowed;
use std::alloc::Global;

impl NormalizesUnits<u8> for DecomposingNormalizerBorrowed<'_> {
    fn wanted<'r>(&self, (_, decomposed, _): Row<'r, u8>) -> &'r [u8] {
        decomposed
    }

    fn makes(&self, alloc: Global, text: &[u8], want: &[u8]) -> bool {
        are_bytes(self.normalize_utf8(alloc, text), want)
    }

    fn writes(&self, alloc: Global, text: &[u8], want: &[u8]) -> Option<usize> {
        writes_of(
            alloc,
            want,
            |sink| self.normalize_utf8_to(alloc, text, sink),
        )
    }

    fn is_form(&self, _alloc: Global, text: &[u8]) -> Option<bool> {
        Some(self.is_normalized_utf8(text))
    }

    fn parts<'t>(&self, _alloc: Global, text: &'t [u8]) -> Option<(&'t [u8], &'t [u8])> {
        let (prefix, rest) = self.split_normalized_utf8(text);
        Some((prefix.as_bytes(), rest))
    }
}

impl NormalizesUnits<u16> for DecomposingNormalizerBorrowed<'_> {
    fn wanted<'r>(&self, (_, decomposed, _): Row<'r, u16>) -> &'r [u16] {
        decomposed
    }

    fn makes(&self, alloc: Global, text: &[u16], want: &[u16]) -> bool {
        are_units(self.normalize_utf16(alloc, text), want)
    }

    fn writes(&self, alloc: Global, text: &[u16], want: &[u16]) -> Option<usize> {
        writes_of(
            alloc,
            want,
            |sink| self.normalize_utf16_to(alloc, text, sink),
        )
    }

    fn is_form(&self, _alloc: Global, text: &[u16]) -> Option<bool> {
        Some(self.is_normalized_utf16(text))
    }

    fn parts<'t>(&self, _alloc: Global, text: &'t [u16]) -> Option<(&'t [u16], &'t [u16])> {
        Some(self.split_normalized_utf16(text))
    }
}

impl NormalizesUnits<u8> for ComposingNormalizerBorrowed<'_> {
    fn wanted<'r>(&self, (_, _, composed): Row<'r, u8>) -> &'r [u8] {
        composed
    }

    fn makes(&self, alloc: Global, text: &[u8], want: &[u8]) -> bool {
        are_bytes(self.normalize_utf8(alloc, text), want)
    }

    fn writes(&self, alloc: Global, text: &[u8], want: &[u8]) -> Option<usize> {
        writes_of(
            alloc,
            want,
            |sink| self.normalize_utf8_to(alloc, text, sink),
        )
    }

    fn is_form(&self, alloc: Global, text: &[u8]) -> Option<bool> {
        self.is_normalized_utf8(alloc, text).ok()
    }

    fn parts<'t>(&self, alloc: Global, text: &'t [u8]) -> Option<(&'t [u8], &'t [u8])> {
        let (prefix, rest) = self.split_normalized_utf8(alloc, text).ok()?;
        Some((prefix.as_bytes(), rest))
    }
}

impl NormalizesUnits<u16> for ComposingNormalizerBorrowed<'_> {
    fn wanted<'r>(&self, (_, _, composed): Row<'r, u16>) -> &'r [u16] {
        composed
    }

    fn makes(&self, alloc: Global, text: &[u16], want: &[u16]) -> bool {
        are_units(self.normalize_utf16(alloc, text), want)
    }

    fn writes(&self, alloc: Global, text: &[u16], want: &[u16]) -> Option<usize> {
        writes_of(
            alloc,
            want,
            |sink| self.normalize_utf16_to(alloc, text, sink),
        )
    }

    fn is_form(&self, alloc: Global, text: &[u16]) -> Option<bool> {
        self.is_normalized_utf16(alloc, text).ok()
    }

    fn parts<'t>(&self, alloc: Global, text: &'t [u16]) -> Option<(&'t [u16], &'t [u16])> {
        self.split_normalized_utf16(alloc, text).ok()
    }
}

/// Whether a call gives the NFD and NFC of all rows in an encoding.
fn has_rows(alloc: Global, encoding: Encoding, call: EncodedCall) -> bool {
    gives_given(alloc, Kind::Canonical, Ask::Encoded(encoding, call))
}

/// Whether one gives the NFKD and NFKC, which are the same: no character of the rows has a compatibility mapping.
fn has_compatible_rows(alloc: Global, encoding: Encoding, call: EncodedCall) -> bool {
    gives_given(alloc, Kind::Compatibility, Ask::Encoded(encoding, call))
}

#[test]
fn ok_normalize_utf8(rt: HostRuntime) {
    assert!(rt; has_rows(rt.alloc(), Encoding::Utf8, EncodedCall::Normalize));
}

#[test]
fn ok_normalize_utf8_to(rt: HostRuntime) {
    assert!(rt; has_rows(rt.alloc(), Encoding::Utf8, EncodedCall::Write));
}

#[test]
fn ok_is_normalized_utf8(rt: HostRuntime) {
    assert!(rt; has_rows(rt.alloc(), Encoding::Utf8, EncodedCall::IsNormalized));
}

#[test]
fn ok_split_normalized_utf8(rt: HostRuntime) {
    assert!(rt; has_rows(rt.alloc(), Encoding::Utf8, EncodedCall::SplitNormalized));
}

#[test]
fn ok_normalize_utf16(rt: HostRuntime) {
    assert!(rt; has_rows(rt.alloc(), Encoding::Utf16, EncodedCall::Normalize));
}

#[test]
fn ok_normalize_utf16_to(rt: HostRuntime) {
    assert!(rt; has_rows(rt.alloc(), Encoding::Utf16, EncodedCall::Write));
}

#[test]
fn ok_is_normalized_utf16(rt: HostRuntime) {
    assert!(rt; has_rows(rt.alloc(), Encoding::Utf16, EncodedCall::IsNormalized));
}

#[test]
fn ok_split_normalized_utf16(rt: HostRuntime) {
    assert!(rt; has_rows(rt.alloc(), Encoding::Utf16, EncodedCall::SplitNormalized));
}

#[test]
fn compatible_forms_of_bytes(rt: HostRuntime) {
    assert!(rt; has_compatible_rows(rt.alloc(), Encoding::Utf8, EncodedCall::Normalize));
}

#[test]
fn compatible_forms_of_units(rt: HostRuntime) {
    assert!(rt; has_compatible_rows(rt.alloc(), Encoding::Utf16, EncodedCall::Normalize));
}
