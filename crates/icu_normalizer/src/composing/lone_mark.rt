//! Clusters of a character and one mark, which are composed without a list and without memory.

ghost use Rattle.std.specs.Prelude.{◌≡◌, ◌<◌, ◌≤◌, [], ◌∷◌, ◌++◌, length, IfSome, IsTrue, OnOk, OnErr};
ghost use Rattle.std.specs.List.{AllByRecursion};
ghost use Rattle.icu_normalizer_core.specs.Canonical.{composed, composing};
ghost use Rattle.icu_normalizer_core.specs.FormData.{form_meaning};
ghost use Rattle.icu_normalizer.specs.FormNotes.{AreLow};
ghost use Rattle.icu_normalizer.specs.LoneMarks.{IsLoneMark, IsMade, IsMark, IsSteadyUpTo, lone_form};
ghost use Rattle.icu_normalizer.specs.Sinks.{AddsPrefix, EndsByFailure};
ghost use Rattle.icu_normalizer.specs.Texts.{BeginsWith};

use super::clusters::next_of_cluster;
use crate::form_notes::{FormNote, form_note};
use crate::sinks::NormError;
use crate::text_sources::{Text, WriteTo};
use icu_normalizer_core::canonical::Reading;
use icu_normalizer_core::decomposition::FormData;

/// What composing makes of a character and the mark after it.
#[derive(Clone, Copy, Debug)]
pub(super) enum LoneMark {
    /// They compose to this character.
    Joined(char),
    /// They stay as they stand.
    Apart(char, char),
    /// They become these two.
    Changed(char, char),
}

/// What composing makes of the first cluster of a text, and what stands after it, where the cluster is a steady
/// character and one mark and that is known; `None` says nothing.
#[inline]
pub(super) fn lone_mark<T: Text>(
    basis: FormData<'_>,
    low: &[FormNote],
    text: T,
) -> Option<(LoneMark, T)>
    requires { AreLow (form_meaning basis) low.now }
    ensures { IfSome result (λ lone. IsLoneMark T.encode (form_meaning basis.entry) (T.spelled text) lone.0 (T.spelled lone.1)) }
{
    let Some(letter) = undamaged_char(text) else {
        return None;
    };
    let Some(mark) = undamaged_char(letter.1) else {
        return None;
    };
    let Some(class) = class_of_mark(basis, low, mark.0) else {
        return None;
    };
    if let Some(_) = next_of_cluster(basis, mark.1) {
        return None;
    }
    match composed_lone(basis, low, letter.0, mark.0, class) {
        Some(lone) => Some((lone, mark.1)),
        None => None,
    }
}

/// The first character of a text and what stands after it; `None` where there is none, or it is damaged.
#[inline]
fn undamaged_char<T: Text>(text: T) -> Option<(char, T)>
    ensures begins { IfSome result (λ read. BeginsWith T.encode (T.spelled text) read.0 (T.spelled read.1)) }
    ensures fewer { IfSome result (λ read. length (T.spelled read.1).units < length (T.spelled text).units) }
{
    let Some(read) = text.split_char() else {
        return None;
    };
    let first = read.0;
    let Some(c) = first else {
        return None;
    };
    Some((c, read.1))
}

/// The class of a mark that is known to be its own full list; `None` of other characters.
#[inline]
fn class_of_mark(basis: FormData<'_>, low: &[FormNote], c: char) -> Option<u8>
    requires { AreLow (form_meaning basis) low.now }
    ensures { IfSome result (λ class. IsMark (form_meaning basis.entry) c class) }
{
    let Some(note) = form_note(low, c) else {
        return class_asked(basis, c);
    };
    if note.len != 1 || note.class == 0 {
        return None;
    }
    Some(note.class)
}

/// The same, by what the data say.
fn class_asked(basis: FormData<'_>, c: char) -> Option<u8>
    ensures { IfSome result (λ class. IsMark (form_meaning basis.entry) c class) }
{
    let Reading::Itself(class) = basis.reading(c) else {
        return None;
    };
    if class == 0 {
        return None;
    }
    Some(class)
}

/// Whether a character is known to be steady, and of no class above this one in its full list.
#[inline]
fn is_steady_up_to(basis: FormData<'_>, low: &[FormNote], c: char, class: u8) -> bool
    requires { AreLow (form_meaning basis) low.now }
    ensures { IsTrue result → IsSteadyUpTo (form_meaning basis.entry) c class }
{
    if let Some(note) = form_note(low, c) {
        if note.steady {
            return note.class <= class;
        }
    }
    is_asked_up_to(basis, c, class)
}

/// The same, by what the data say.
#[tactic(auto, using(crate::proofs::composed::LoneMarkLemmas::steady_up_to_itself, crate::proofs::composed::LoneMarkLemmas::steady_up_to_two))]
fn is_asked_up_to(basis: FormData<'_>, c: char, class: u8) -> bool
    ensures { IsTrue result → IsSteadyUpTo (form_meaning basis.entry) c class }
{
    basis.keep_promise();
    if c < '\u{a0}' {
        return true;
    }
    if !basis.is_steady(c) {
        return false;
    }
    match basis.reading(c) {
        Reading::Itself(_) => true,
        Reading::Two(_, second) => basis.class(second) <= class,
        Reading::Three(_, _, _) | Reading::Other => has_classes_up_to(basis, c, class),
    }
}

/// Whether no class in the full list of a character is above this one.
fn has_classes_up_to(basis: FormData<'_>, c: char, class: u8) -> bool
    ensures { IsTrue result → AllByRecursion (λ d. (form_meaning basis.entry).class d ≤ class) ((form_meaning basis.entry).full c) }
{
    for d in basis.full_list(c) {
        if basis.class(d) > class {
            return false;
        }
    }
    true
}

/// What composing makes of a character and a mark of this class after it, if that is known.
#[inline]
fn composed_lone(
    basis: FormData<'_>,
    low: &[FormNote],
    letter: char,
    mark: char,
    class: u8,
) -> Option<LoneMark>
    requires mark { IsMark (form_meaning basis) mark class }
    requires notes { AreLow (form_meaning basis) low.now }
    ensures form { IfSome result (λ lone. composed (form_meaning basis.entry) (letter ∷ mark ∷ []) ≡ lone_form lone) }
    ensures made { IfSome result (λ lone. IsMade letter mark lone) }
{
    if is_steady_up_to(basis, low, letter, class) {
        Some(composed_pair(basis, letter, mark))
    } else {
        composed_below(basis, letter, mark, class)
    }
}

/// The same where the full list of the character is known to be a starter and a mark of a higher class.
fn composed_below(basis: FormData<'_>, letter: char, mark: char, class: u8) -> Option<LoneMark>
    requires { IsMark (form_meaning basis) mark class }
    ensures form { IfSome result (λ lone. composed (form_meaning basis.entry) (letter ∷ mark ∷ []) ≡ lone_form lone) }
    ensures made { IfSome result (λ lone. IsMade letter mark lone) }
{
    basis.keep_promise();
    if !basis.is_steady(letter) {
        return None;
    }
    let Reading::Two(first, second) = basis.reading(letter) else {
        return None;
    };
    if basis.class(second) <= class {
        return None;
    }
    let Some(starter) = basis.compose(first, mark) else {
        return Some(LoneMark::Apart(letter, mark));
    };
    match basis.compose(starter, second) {
        Some(composed) => Some(LoneMark::Joined(composed)),
        None => Some(LoneMark::Changed(starter, second)),
    }
}

/// What composing makes of a character and a mark after it.
#[inline]
fn composed_pair(basis: FormData<'_>, letter: char, mark: char) -> LoneMark
    requires itself { (form_meaning basis).full mark ≡ mark ∷ [] }
    requires mark { 0 < (form_meaning basis).class mark }
    ensures form { lone_form result ≡ composing (form_meaning basis.entry) letter [] (mark ∷ []) }
    ensures made { IsMade letter mark result }
{
    basis.keep_promise();
    match basis.compose(letter, mark) {
        Some(composed) => LoneMark::Joined(composed),
        None => LoneMark::Apart(letter, mark),
    }
}

/// Writes what composing makes of such a cluster.
#[inline]
pub(super) fn write_lone<T: WriteTo<S>, S>(
    lone: LoneMark,
    sink: &mut S,
) -> Result<(), NormError<T::Error>>
    ensures ok { OnOk result (T.contents sink.new ≡ T.contents sink.old ++ T.encode (lone_form lone)) }
    ensures err { OnErr result (AddsPrefix (T.contents sink.old) (T.encode (lone_form lone)) (T.contents sink.new)) }
    ensures failure { EndsByFailure T.takes T.fails sink.old result sink.new }
{
    match lone {
        LoneMark::Joined(c) => write_char::<T, S>(c, sink),
        LoneMark::Apart(letter, mark) => write_both::<T, S>(letter, mark, sink),
        LoneMark::Changed(first, second) => write_both::<T, S>(first, second, sink),
    }
}

/// Writes two characters.
#[inline]
fn write_both<T: WriteTo<S>, S>(
    first: char,
    second: char,
    sink: &mut S,
) -> Result<(), NormError<T::Error>>
    ensures ok { OnOk result (T.contents sink.new ≡ T.contents sink.old ++ T.encode (first ∷ second ∷ [])) }
    ensures err { OnErr result (AddsPrefix (T.contents sink.old) (T.encode (first ∷ second ∷ [])) (T.contents sink.new)) }
    ensures failure { EndsByFailure T.takes T.fails sink.old result sink.new }
{
    match write_char::<T, S>(first, sink) {
        Ok(()) => write_char::<T, S>(second, sink),
        Err(error) => Err(error),
    }
}

/// Writes a character.
#[inline]
fn write_char<T: WriteTo<S>, S>(c: char, sink: &mut S) -> Result<(), NormError<T::Error>>
    ensures ok { OnOk result (T.contents sink.new ≡ T.contents sink.old ++ T.encode (c ∷ [])) }
    ensures err { OnErr result (AddsPrefix (T.contents sink.old) (T.encode (c ∷ [])) (T.contents sink.new)) }
    ensures failure { EndsByFailure T.takes T.fails sink.old result sink.new }
{
    match T::write_char(sink, c) {
        Ok(()) => Ok(()),
        Err(error) => Err(NormError::Sink(error)),
    }
}
