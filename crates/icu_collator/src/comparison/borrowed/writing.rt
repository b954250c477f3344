//! The calls that write sort keys.

ghost use Rattle.std.specs.Prelude.{IfErr, IfOk};
ghost use Rattle.icu_normalizer_core.specs.Decoding.{utf16_chars, utf8_chars};

use super::CollatorBorrowed;
use crate::encodings::{Utf8Text, Utf16Text};
use crate::key_bytes::write_text_key;
use crate::sinks::{CollationKeySink, KeyError};
use std::alloc::Global;

impl<'d> CollatorBorrowed<'d> {
    ghost use Rattle.icu_collator.specs.Collators.{borrowed_collation, borrowed_options};
    ghost use Rattle.icu_collator.specs.KeyBytes.{key_of_text};
    ghost use Rattle.icu_collator.specs.Sinks.{IsRefusedKey};

    /// Writes the sort key of a text to a sink: bytes that order as `compare` orders texts. The error is the sink's, or
    /// `KeyError::Memory`, and then the sink is as it was: a key is made whole before any of it is handed over.
    pub fn write_sort_key_to<S: CollationKeySink>(
        &self,
        alloc: Global,
        text: &str,
        sink: &mut S,
    ) -> Result<S::Output, KeyError<S::Error>>
        ensures written { IfOk result (λ output. S.has_written sink.old (key_of_text (borrowed_collation self.now) (borrowed_options self.now) (utf8_chars text.now)) sink.new output) }
        ensures refused { IfErr result (λ error. IsRefusedKey S.has_failed sink.old (key_of_text (borrowed_collation self.now) (borrowed_options self.now) (utf8_chars text.now)) sink.new error) }
    {
        match self.write_sort_key_utf8_to(alloc, text.as_bytes(), sink) {
            Ok(output) => Ok(output),
            Err(error) => Err(error),
        }
    }

    /// The same of a text in UTF-8. Bytes that are no character count as U+FFFD, one for each maximal subpart, as
    /// `decode_utf8` reads them.
    pub fn write_sort_key_utf8_to<S: CollationKeySink>(
        &self,
        alloc: Global,
        text: &[u8],
        sink: &mut S,
    ) -> Result<S::Output, KeyError<S::Error>>
        ensures written { IfOk result (λ output. S.has_written sink.old (key_of_text (borrowed_collation self.now) (borrowed_options self.now) (utf8_chars text.now)) sink.new output) }
        ensures refused { IfErr result (λ error. IsRefusedKey S.has_failed sink.old (key_of_text (borrowed_collation self.now) (borrowed_options self.now) (utf8_chars text.now)) sink.new error) }
    {
        let text = Utf8Text { bytes: text };
        match write_text_key(alloc, self.tables, &self.options, text, sink) {
            Ok(output) => Ok(output),
            Err(error) => Err(error),
        }
    }

    /// The same of a text in UTF-16. A surrogate without its partner counts as U+FFFD.
    pub fn write_sort_key_utf16_to<S: CollationKeySink>(
        &self,
        alloc: Global,
        text: &[u16],
        sink: &mut S,
    ) -> Result<S::Output, KeyError<S::Error>>
        ensures written { IfOk result (λ output. S.has_written sink.old (key_of_text (borrowed_collation self.now) (borrowed_options self.now) (utf16_chars text.now)) sink.new output) }
        ensures refused { IfErr result (λ error. IsRefusedKey S.has_failed sink.old (key_of_text (borrowed_collation self.now) (borrowed_options self.now) (utf16_chars text.now)) sink.new error) }
    {
        let text = Utf16Text { units: text };
        match write_text_key(alloc, self.tables, &self.options, text, sink) {
            Ok(output) => Ok(output),
            Err(error) => Err(error),
        }
    }
}
