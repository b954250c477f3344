//! What normalisers answer of many texts.

use super::line_texts::{Text, byte_lines, known_lines, unit_lines, units};
use super::task::{Question, Task};
use icu_normalizer::composing::{ComposingNormalizer, ComposingNormalizerBorrowed};
use icu_normalizer::decomposing::{DecomposingNormalizer, DecomposingNormalizerBorrowed};
use icu_normalizer::uts46::Uts46Mapper;
use icu_normalizer_core::provider::{
    DataError, NormalizerProvider, load_canonical_data, load_compatibility_data,
};
use std::alloc::{AllocError, Global};
use std::borrow::{CowSlice, CowStr};

/// A normaliser.
#[derive(Clone, Copy)]
enum Form<'d> {
    /// To NFC or NFKC.
    Composed(ComposingNormalizerBorrowed<'d>),
    /// To NFD or NFKD.
    Decomposed(DecomposingNormalizerBorrowed<'d>),
}

/// How many bytes a form has, if it came. It is printed if `shows` says so.
fn number_of_bytes(
    rt: &HostRuntime,
    form: Result<CowStr<'_>, AllocError>,
    shows: bool,
) -> Option<usize> {
    let form = form.ok()?;
    if shows {
        println!(rt; "{}", form.as_str()).ok()?;
    }
    Some(form.as_str().len())
}

/// How many units a form has, if it came. They are printed, as a list of numbers, if `shows` says so.
fn number_of_units(
    rt: &HostRuntime,
    form: Result<CowSlice<'_, u16>, AllocError>,
    shows: bool,
) -> Option<usize> {
    let form = form.ok()?;
    if shows {
        println!(rt; "{:?}", form.as_slice()).ok()?;
    }
    Some(form.as_slice().len())
}

/// Prints two parts of a text with a bar between them: known UTF-8 as it is, bytes and units as lists of numbers.
fn print_parts(rt: &HostRuntime, parts: (Text<'_>, Text<'_>)) -> Option<()> {
    match parts {
        (Text::Known(prefix), Text::Known(rest)) => println!(rt; "{prefix}|{rest}").ok(),
        (Text::Bytes(prefix), Text::Bytes(rest)) => println!(rt; "{prefix:?}|{rest:?}").ok(),
        (Text::Units(prefix), Text::Units(rest)) => println!(rt; "{prefix:?}|{rest:?}").ok(),
        _ => None,
    }
}

impl Form<'_> {
    /// How many bytes or units the form of a text has. It is printed if `shows` says so.
    fn number(self, rt: &HostRuntime, text: Text<'_>, shows: bool) -> Option<usize> {
        let alloc = rt.alloc();
        match (self, text) {
            (Form::Composed(form), Text::Known(text)) => {
                number_of_bytes(rt, form.normalize(alloc, text), shows)
            }
            (Form::Composed(form), Text::Bytes(text)) => {
                number_of_bytes(rt, form.normalize_utf8(alloc, text), shows)
            }
            (Form::Composed(form), Text::Units(text)) => {
                number_of_units(rt, form.normalize_utf16(alloc, text), shows)
            }
            (Form::Decomposed(form), Text::Known(text)) => {
                number_of_bytes(rt, form.normalize(alloc, text), shows)
            }
            (Form::Decomposed(form), Text::Bytes(text)) => {
                number_of_bytes(rt, form.normalize_utf8(alloc, text), shows)
            }
            (Form::Decomposed(form), Text::Units(text)) => {
                number_of_units(rt, form.normalize_utf16(alloc, text), shows)
            }
        }
    }

    /// Whether a text is its own form.
    fn is_own(self, alloc: Global, text: Text<'_>) -> Option<bool> {
        match (self, text) {
            (Form::Composed(form), Text::Known(text)) => form.is_normalized(alloc, text).ok(),
            (Form::Composed(form), Text::Bytes(text)) => form.is_normalized_utf8(alloc, text).ok(),
            (Form::Composed(form), Text::Units(text)) => form.is_normalized_utf16(alloc, text).ok(),
            (Form::Decomposed(form), Text::Known(text)) => Some(form.is_normalized(text)),
            (Form::Decomposed(form), Text::Bytes(text)) => Some(form.is_normalized_utf8(text)),
            (Form::Decomposed(form), Text::Units(text)) => Some(form.is_normalized_utf16(text)),
        }
    }

    /// The two parts that a text of known UTF-8 is split in.
    fn known_parts<'t>(self, alloc: Global, text: &'t str) -> Option<(Text<'t>, Text<'t>)> {
        let (prefix, rest) = match self {
            Form::Composed(form) => form.split_normalized(alloc, text).ok()?,
            Form::Decomposed(form) => form.split_normalized(text),
        };
        Some((Text::Known(prefix), Text::Known(rest)))
    }

    /// The same of bytes.
    fn byte_parts<'t>(self, alloc: Global, text: &'t [u8]) -> Option<(Text<'t>, Text<'t>)> {
        let (prefix, rest) = match self {
            Form::Composed(form) => form.split_normalized_utf8(alloc, text).ok()?,
            Form::Decomposed(form) => form.split_normalized_utf8(text),
        };
        Some((Text::Bytes(prefix.as_bytes()), Text::Bytes(rest)))
    }

    /// The same of units.
    fn unit_parts<'t>(self, alloc: Global, text: &'t [u16]) -> Option<(Text<'t>, Text<'t>)> {
        let (prefix, rest) = match self {
            Form::Composed(form) => form.split_normalized_utf16(alloc, text).ok()?,
            Form::Decomposed(form) => form.split_normalized_utf16(text),
        };
        Some((Text::Units(prefix), Text::Units(rest)))
    }

    /// Prints the two parts that a text is split in.
    fn show_parts(self, rt: &HostRuntime, text: Text<'_>) -> Option<()> {
        let alloc = rt.alloc();
        let parts = match text {
            Text::Known(text) => self.known_parts(alloc, text)?,
            Text::Bytes(text) => self.byte_parts(alloc, text)?,
            Text::Units(text) => self.unit_parts(alloc, text)?,
        };
        print_parts(rt, parts)
    }

    /// What is asked of a text: how many bytes or units its form has, or 1 where it is its own form, or is split.
    fn answer(self, rt: &HostRuntime, text: Text<'_>, task: &Task<'_>) -> Option<usize> {
        match task.question {
            Question::Form => self.number(rt, text, task.shows),
            Question::IsForm => {
                let is_own = self.is_own(rt.alloc(), text)?;
                if task.shows {
                    println!(rt; "{is_own}").ok()?;
                }
                Some(usize::from(is_own))
            }
            Question::Parts => {
                self.show_parts(rt, text)?;
                Some(1)
            }
        }
    }

    /// The sum of the answers over the texts.
    fn sum(self, rt: &HostRuntime, texts: &[Text<'_>], task: &Task<'_>) -> Option<usize> {
        let mut sum: usize = 0;
        for text in texts {
            sum = sum.wrapping_add(self.answer(rt, *text, task)?);
        }
        Some(sum)
    }

    /// The same, round by round.
    fn sum_rounds(self, rt: &HostRuntime, texts: &[Text<'_>], task: &Task<'_>) -> Option<usize> {
        let mut sum: usize = 0;
        for _round in 0..task.rounds {
            sum = sum.wrapping_add(self.sum(rt, texts, task)?);
        }
        Some(sum)
    }

    /// The same over the lines of a file, in the encoding that the task names.
    fn sum_lines(self, rt: &HostRuntime, file: &[u8], task: &Task<'_>) -> Option<usize> {
        let alloc = rt.alloc();
        match task.encoding {
            "" => self.sum_rounds(rt, &known_lines(alloc, file)?, task),
            "utf8" => self.sum_rounds(rt, &byte_lines(alloc, file)?, task),
            "utf16" => {
                let units = units(alloc, file)?;
                self.sum_rounds(rt, &unit_lines(alloc, &units)?, task)
            }
            _ => None,
        }
    }
}

/// What does a task over the lines of a file.
pub trait Worker {
    /// What the task comes to; `None` where there is no such task, or memory is refused.
    fn work(&self, rt: &HostRuntime, file: &[u8], task: &Task<'_>) -> Option<usize>;
}

impl Worker for ComposingNormalizer<'_> {
    fn work(&self, rt: &HostRuntime, file: &[u8], task: &Task<'_>) -> Option<usize> {
        Form::Composed(self.as_borrowed()).sum_lines(rt, file, task)
    }
}

impl Worker for DecomposingNormalizer<'_> {
    fn work(&self, rt: &HostRuntime, file: &[u8], task: &Task<'_>) -> Option<usize> {
        Form::Decomposed(self.as_borrowed()).sum_lines(rt, file, task)
    }
}

/// What a task comes to by a worker, if it could be made.
fn work_by<W: Worker + Drop>(
    rt: &HostRuntime,
    made: Result<W, DataError>,
    file: &[u8],
    task: &Task<'_>,
) -> Option<usize> {
    match made {
        Ok(worker) => worker.work(rt, file, task),
        Err(_) => None,
    }
}

/// What a task comes to over the lines of a file, by the data of a provider; `None` where there is no such form or encoding,
/// or it can't be made.
pub fn run_form<P: NormalizerProvider>(
    rt: &HostRuntime,
    provider: &P,
    file: &[u8],
    task: &Task<'_>,
) -> Option<usize> {
    let alloc = rt.alloc();
    match task.form {
        "nfc" => {
            let made = ComposingNormalizer::try_new_nfc_unstable(alloc, provider);
            work_by(rt, made, file, task)
        }
        "nfkc" => {
            let made = ComposingNormalizer::try_new_nfkc_unstable(alloc, provider);
            work_by(rt, made, file, task)
        }
        "nfd" => {
            let made = DecomposingNormalizer::try_new_nfd_unstable(alloc, provider);
            work_by(rt, made, file, task)
        }
        "nfkd" => {
            let made = DecomposingNormalizer::try_new_nfkd_unstable(alloc, provider);
            work_by(rt, made, file, task)
        }
        "uts46" => work_by(rt, Uts46Mapper::try_new(alloc, provider), file, task),
        _ => None,
    }
}

/// Whether data were loaded.
fn is_loaded<D: Drop>(data: Result<D, DataError>) -> bool {
    data.is_ok()
}

/// Loads and checks the canonical data as many times as asked for, those of compatibility too if it is asked, and says how
/// many times.
pub fn load<P: NormalizerProvider>(
    alloc: Global,
    provider: &P,
    with_compatibility: bool,
    rounds: u32,
) -> Option<usize> {
    for _round in 0..rounds {
        let is_loaded = if with_compatibility {
            is_loaded(load_compatibility_data(alloc, provider))
        } else {
            is_loaded(load_canonical_data(alloc, provider))
        };
        if !is_loaded {
            return None;
        }
    }
    Some(rounds as usize)
}
