//! What normalisers are asked, a line each: `nfc ENCODING TEXT`, the composed form of a text, and `nfd ENCODING TEXT`, the
//! decomposed one. In `text` it is what `normalize` answers, in `utf8` and `utf16` what a sink is given.

use crate::asked_texts::{bytes, shown, units};
use crate::both::{Both, held_both, print_answers};
use icu_normalizer::composing::{ComposingNormalizer, ComposingNormalizerBorrowed};
use icu_normalizer::decomposing::{DecomposingNormalizer, DecomposingNormalizerBorrowed};
use samples_icu_collator::held::HeldCollation;
use std::alloc::Global;

/// Units in hexadecimal.
fn shown_units(alloc: Global, units: &[u16]) -> Option<String> {
    let mut bytes = Vec::new(alloc);
    for unit in units {
        bytes.extend_from_slice(&unit.to_be_bytes()).ok()?;
    }
    shown(alloc, &bytes)
}

/// The composed form of a text in an encoding.
fn composed(
    form: &ComposingNormalizerBorrowed<'_>,
    alloc: Global,
    encoding: &str,
    text: &[u8],
) -> Option<String> {
    match encoding {
        "text" => composed_text(form, alloc, text),
        "utf8" => composed_bytes(form, alloc, text),
        "utf16" => composed_units(form, alloc, text),
        _ => None,
    }
}

/// The composed form of a text that has to be UTF-8.
fn composed_text(
    form: &ComposingNormalizerBorrowed<'_>,
    alloc: Global,
    text: &[u8],
) -> Option<String> {
    let normal = form.normalize(alloc, str::from_utf8(text).ok()?).ok()?;
    shown(alloc, normal.as_bytes())
}

/// The composed form of bytes.
fn composed_bytes(
    form: &ComposingNormalizerBorrowed<'_>,
    alloc: Global,
    text: &[u8],
) -> Option<String> {
    let mut sink = String::new(alloc);
    form.normalize_utf8_to(alloc, text, &mut sink).ok()?;
    shown(alloc, sink.as_bytes())
}

/// The composed form of units.
fn composed_units(
    form: &ComposingNormalizerBorrowed<'_>,
    alloc: Global,
    text: &[u8],
) -> Option<String> {
    let (text, mut sink) = (units(alloc, text)?, Vec::new(alloc));
    form.normalize_utf16_to(alloc, &text, &mut sink).ok()?;
    shown_units(alloc, &sink)
}

/// The decomposed form of a text in an encoding.
fn decomposed(
    form: &DecomposingNormalizerBorrowed<'_>,
    alloc: Global,
    encoding: &str,
    text: &[u8],
) -> Option<String> {
    match encoding {
        "text" => decomposed_text(form, alloc, text),
        "utf8" => decomposed_bytes(form, alloc, text),
        "utf16" => decomposed_units(form, alloc, text),
        _ => None,
    }
}

/// The decomposed form of a text that has to be UTF-8.
fn decomposed_text(
    form: &DecomposingNormalizerBorrowed<'_>,
    alloc: Global,
    text: &[u8],
) -> Option<String> {
    let normal = form.normalize(alloc, str::from_utf8(text).ok()?).ok()?;
    shown(alloc, normal.as_bytes())
}

/// The decomposed form of bytes.
fn decomposed_bytes(
    form: &DecomposingNormalizerBorrowed<'_>,
    alloc: Global,
    text: &[u8],
) -> Option<String> {
    let mut sink = String::new(alloc);
    form.normalize_utf8_to(alloc, text, &mut sink).ok()?;
    shown(alloc, sink.as_bytes())
}

/// The decomposed form of units.
fn decomposed_units(
    form: &DecomposingNormalizerBorrowed<'_>,
    alloc: Global,
    text: &[u8],
) -> Option<String> {
    let (text, mut sink) = (units(alloc, text)?, Vec::new(alloc));
    form.normalize_utf16_to(alloc, &text, &mut sink).ok()?;
    shown_units(alloc, &sink)
}

/// The composed form by a provider's tables.
fn composed_over(
    alloc: Global,
    held: &HeldCollation<'_>,
    encoding: &str,
    text: &[u8],
) -> Option<String> {
    match ComposingNormalizer::try_new_nfc_unstable(alloc, held) {
        Ok(form) => composed(&form.as_borrowed(), alloc, encoding, text),
        Err(_) => None,
    }
}

/// The decomposed form by a provider's tables.
fn decomposed_over(
    alloc: Global,
    held: &HeldCollation<'_>,
    encoding: &str,
    text: &[u8],
) -> Option<String> {
    match DecomposingNormalizer::try_new_nfd_unstable(alloc, held) {
        Ok(form) => decomposed(&form.as_borrowed(), alloc, encoding, text),
        Err(_) => None,
    }
}

/// The answer to a question.
fn answer(alloc: Global, held: &HeldCollation<'_>, line: &str) -> Option<String> {
    let (form, words) = line.split_once(' ')?;
    let (encoding, text) = words.split_once(' ')?;
    let text = bytes(alloc, text)?;
    match form {
        "nfc" => composed_over(alloc, held, encoding, &text),
        "nfd" => decomposed_over(alloc, held, encoding, &text),
        _ => None,
    }
}

/// Prints the answer to a question.
fn answer_line(rt: &HostRuntime, both: &Both, line: &str) -> Option<()> {
    let fast = answer(rt.alloc(), &both.fast, line)?;
    let small = answer(rt.alloc(), &both.small, line)?;
    print_answers(rt, line, fast.as_str(), small.as_str())
}

/// Prints the answers to questions.
fn answer_lines(rt: &HostRuntime, both: &Both, lines: &str) -> Option<()> {
    for line in lines.lines() {
        answer_line(rt, both, line)?;
    }
    Some(())
}

/// Asks normalisers over the tables of records what these lines do; `None` where one asks nothing, the records are refused, or
/// memory is.
pub fn ask_normalisers(rt: &HostRuntime, records: &str, lines: &str) -> Option<()> {
    match held_both(rt.alloc(), records) {
        Some(both) => answer_lines(rt, &both, lines),
        None => None,
    }
}
