//! Where a text has to be changed to be in NFC.

ghost use Rattle.std.specs.Prelude.{◌≡◌, ◌<◌, ◌≤◌, ◌++◌, length, IfOk};
ghost use Rattle.icu_normalizer_core.specs.Canonical.{composed};
ghost use Rattle.icu_normalizer_core.specs.FormData.{form_meaning};
ghost use Rattle.icu_normalizer.specs.Clusters.{IsFound};
ghost use Rattle.icu_normalizer.specs.FormNotes.{AreLow};
ghost use Rattle.icu_normalizer.specs.TextCuts.{IsTextCut, IsTextSplit};
ghost use Rattle.icu_normalizer.specs.Texts.{IsAtEnd, IsUndamaged};

use super::cluster_form::ClusterForm;
use super::lone_mark::{LoneMark, lone_mark};
use super::mostly_unchanged::pass_low;
use crate::form_notes::FormNote;
use crate::text_sources::Text;
use icu_normalizer_core::decomposition::FormData;
use std::alloc::{AllocError, Global};

/// What is found of the first cluster of a text.
pub(super) enum Found<T> {
    /// It is undamaged and its own NFC; this stands after it.
    Own(T),
    /// The text has to be changed from here on, which is the last character below U+0300 at or before the first change.
    Changed(T),
}

/// What has to be changed for a text to be in NFC, from the last character below U+0300 at or before the first change
/// on: nothing where the text is undamaged and its own NFC. A damaged part is a change.
pub(super) fn rest_to_change<T: Text>(
    alloc: Global,
    basis: FormData<'_>,
    low: &[FormNote],
    text: T,
) -> Result<T, AllocError>
    requires { AreLow (form_meaning basis) low.now }
    ensures { IfOk result (λ rest. IsTextCut T.encode (composed (form_meaning basis.entry)) 0x300 (T.spelled text) (T.spelled rest)) }
{
    let mut left = pass_low(basis, text);
    'clusters: while !left.is_at_end() {
        match first_found(alloc, basis, low, left) {
            Ok(Found::Own(rest)) => left = pass_low(basis, rest),
            Ok(Found::Changed(rest)) => return Ok(rest),
            Err(error) => return Err(error),
        }
    }
    Ok(left)
}

/// A text in two parts: the prefix and the NFC of the rest are together the NFC of the text.
pub(super) fn split<T: Text>(
    alloc: Global,
    basis: FormData<'_>,
    low: &[FormNote],
    text: T,
) -> Result<(T, T), AllocError>
    requires { AreLow (form_meaning basis) low.now }
    ensures { IfOk result (λ parts. IsTextSplit T.encode (composed (form_meaning basis.entry)) 0x300 (T.spelled text) (T.spelled parts.0) (T.spelled parts.1)) }
{
    match rest_to_change(alloc, basis, low, text) {
        Ok(rest) => Ok(text.split_before(rest)),
        Err(error) => Err(error),
    }
}

/// A text in two parts, of which the first stays as it stands. It takes no memory.
pub(super) fn split_low<T: Text>(basis: FormData<'_>, text: T) -> (T, T)
    ensures undamaged { IsUndamaged T.encode (T.spelled result.0) }
    ensures stays { T.encode (composed (form_meaning basis.entry) (T.spelled text).characters) ≡ (T.spelled result.0).units ++ T.encode (composed (form_meaning basis.entry) (T.spelled result.1).characters) }
    ensures fewer { length (T.spelled result.1).characters ≤ length (T.spelled text).characters }
{
    text.split_before(pass_low(basis, text))
}

/// What is found of the first cluster of a text. Memory is taken for long runs of marks alone.
#[inline]
fn first_found<T: Text>(
    alloc: Global,
    basis: FormData<'_>,
    low: &[FormNote],
    text: T,
) -> Result<Found<T>, AllocError>
    requires some { IsAtEnd (T.spelled text) → ⊥ }
    requires notes { AreLow (form_meaning basis) low.now }
    ensures { IfOk result (λ found. IsFound T.encode (composed (form_meaning basis.entry)) T.spelled (T.spelled text) found) }
{
    text.keep_promise();
    let Some(lone) = lone_mark(basis, low, text) else {
        return read_cluster(alloc, basis, text);
    };
    match lone.0 {
        LoneMark::Apart(_, _) => Ok(Found::Own(lone.1)),
        LoneMark::Joined(_) => Ok(Found::Changed(text)),
        LoneMark::Changed(_, _) => Ok(Found::Changed(text)),
    }
}

/// The same of any cluster, which is read beside its NFC.
fn read_cluster<T: Text>(
    alloc: Global,
    basis: FormData<'_>,
    text: T,
) -> Result<Found<T>, AllocError>
    requires { IsAtEnd (T.spelled text) → ⊥ }
    ensures { IfOk result (λ found. IsFound T.encode (composed (form_meaning basis.entry)) T.spelled (T.spelled text) found) }
{
    basis.keep_promise();
    text.keep_promise();
    let mut form = ClusterForm::new(alloc, basis);
    let Ok(_behind) = form.begin(basis, text) else {
        return Err(AllocError);
    };
    let mut rest = text;
    let mut ahead = text;
    'chars: loop {
        let Ok(next) = form.next() else {
            return Err(AllocError);
        };
        let Some(composed) = next else {
            return Ok(Found::Own(ahead));
        };
        let Some(read) = ahead.split_char() else {
            return Ok(Found::Changed(rest));
        };
        let first = read.0;
        let Some(c) = first else {
            return Ok(Found::Changed(rest));
        };
        rest = later_rest(c, ahead, rest);
        if composed != c {
            return Ok(Found::Changed(rest));
        }
        ahead = read.1;
    }
}

/// Where a text may be cut once `c` was read at `here`: a character below U+0300 composes with nothing before it.
#[inline]
fn later_rest<T: Text>(c: char, here: T, rest: T) -> T
    ensures low { c < 0x300 → T.spelled result ≡ T.spelled here }
    ensures high { 0x300 ≤ c → T.spelled result ≡ T.spelled rest }
{
    if c < '\u{300}' { here } else { rest }
}
