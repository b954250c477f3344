//! Which characters reach a changed one from some records to others, by mapping steps: each is found out once.

ghost use Rattle.std.specs.Prelude.{◌≡◌, ◌∷◌, [], All, IfOk, IfSome, None, Some, false, length, slice_index_or, slice_set};
ghost use Rattle.std.specs.Char.{IsScalar};
ghost use Rattle.collate_rules.specs.Meaning.{step_of};
ghost use Rattle.collate_index.specs.Changes.{AreKnown, IsLook, IsUnknown, Tells};

use collate_records::differences::Differences;
use collate_records::records::Records;
use icu_normalizer_core::properties::Decomposed;
use std::alloc::{AllocError, Global};
use std::marker::Model;

/// One more than the greatest code point.
const CODE_POINTS: usize = 0x11_0000;

/// What a look at a character gives.
pub(crate) enum Look {
    /// Whether it reaches a changed one.
    Found(bool),
    /// A character that its mapping brings in, of which nothing is known yet.
    Before(char),
}

/// Nothing is known of any code point. `AllocError` where memory is refused.
fn nothing_known(alloc: Global) -> Result<Vec<Option<bool>>, AllocError>
    ensures nothing { IfOk result (λ known. All (λ is. is ≡ None) known.items) }
    ensures room { IfOk result (λ known. length known.items ≡ 0x110000) }
{
    let mut known = Vec::with_capacity(alloc, CODE_POINTS)?;
    'characters: for _ in 0..CODE_POINTS {
        known.push(None)?;
    }
    Ok(known)
}

/// Which characters reach a changed one from some records to others, by the mapping steps of the first.
pub struct Changes<'a> {
    alloc: Global,
    differences: Differences<'a>,
    /// What was found out, by code point.
    known: Vec<Option<bool>>,
}

// (let go of as one, and not part by part, so that what owns one is proved sooner)
impl<'a> Drop for Changes<'a> {
    fn drop(self) {
        let Changes {
            alloc: _,
            differences: _,
            known: _,
        } = self;
    }
}

impl<'a> Model for Changes<'a> {
    ghost use Rattle.collate_records.specs.Differences.{TwoFiles};

    ghost Value = { TwoFiles };

    ghost use Rattle.collate_index.specs.KeptChanges.{files_inside, IsKept};

    ghost view = { files_inside };

    ghost invariant = { IsKept };
}

impl<'a> Changes<'a> {
    /// Nothing is found out yet; the lines of both records are noted. `AllocError` where memory is refused.
    pub fn new(
        alloc: Global,
        before: &'a Records,
        after: &'a Records,
    ) -> Result<Changes<'a>, AllocError>
        ensures { IfOk result (λ changes. changes ≡ record { before = before.now.lines; after = after.now.lines }) }
    {
        let differences = Differences::new(alloc, before, after)?;
        let known = nothing_known(alloc)?;
        Ok(Changes {
            alloc,
            differences,
            known,
        })
    }

    /// Whether a character reaches a changed one: it is one, or mapping steps of the first records bring one in. Each that
    /// they bring in is found out once, however often it is asked for, and those that wait for others wait in memory.
    ///
    /// Errors: `AllocError` where memory is refused.
    pub fn reaches_changed(&mut self, c: char) -> Result<bool, AllocError>
        ensures same { self.new ≡ self.old }
        ensures tells { IfOk result (Tells self.old c) }
    {
        match found(&self.differences, &self.known, c) {
            Some(is) => Ok(is),
            None => find_out(self.alloc, &self.differences, &mut self.known, c),
        }
    }
}

/// Finds out whether a character reaches a changed one, of which that isn't known. Each look finds out one that wasn't known,
/// or makes it wait for one that its mapping brings in.
///
/// Errors: `AllocError` where memory is refused; what was found out then stays.
fn find_out(
    alloc: Global,
    differences: &Differences<'_>,
    known: &mut Vec<Option<bool>>,
    c: char,
) -> Result<bool, AllocError>
    requires known { AreKnown differences.now known.old.items }
    requires room { length known.old.items ≡ 0x110000 }
    requires unknown { IsUnknown known.old.items c }
    ensures known { AreKnown differences.now known.new.items }
    ensures room { length known.new.items ≡ 0x110000 }
    ensures tells { IfOk result (Tells differences.now c) }
{
    differences.before().keep_rules();
    let mut waiting = Vec::new(alloc);
    let mut here = c;
    'looks: loop {
        promise_scalar(here);
        match look_at(differences, known, here) {
            Look::Before(other) => {
                waiting.push(here)?;
                here = other;
            }
            Look::Found(is) => {
                keep(differences, known, here, is);
                match waiting.pop() {
                    Some(earlier) => here = earlier,
                    None => return Ok(is),
                }
            }
        }
    }
}

/// A character is a scalar value: it does nothing, and its contract says so.
fn promise_scalar(c: char)
    ensures { IsScalar c }
{
    let _ = c;
}

/// Keeps what is found out of a character.
fn keep(differences: &Differences<'_>, known: &mut Vec<Option<bool>>, c: char, is: bool)
    requires known { AreKnown differences.now known.old.items }
    requires room { length known.old.items ≡ 0x110000 }
    requires tells { Tells differences.now c is }
    ensures known { AreKnown differences.now known.new.items }
    ensures put { known.new.items ≡ slice_set known.old.items c (Some is) }
{
    let _ = differences;
    known[c as usize] = Some(is);
}

/// What is known of a character.
fn found(differences: &Differences<'_>, known: &[Option<bool>], c: char) -> Option<bool>
    requires { AreKnown differences.now known.now }
    ensures value { result ≡ slice_index_or known.now c None }
    ensures tells { IfSome result (Tells differences.now c) }
{
    let _ = differences;
    match known.get(c as usize) {
        Some(known) => *known,
        None => None,
    }
}

/// Looks at a character: it reaches a changed one if one of those does that its mapping brings in, or if it is one.
fn look_at(differences: &Differences<'_>, known: &[Option<bool>], c: char) -> Look
    requires { AreKnown differences.now known.now }
    ensures { IsLook differences.now known.now c result }
{
    match differences.before().mapping(c) {
        Decomposed::Default => Look::Found(is_changed(differences, c)),
        Decomposed::Singleton(d) => match found(differences, known, d) {
            None => Look::Before(d),
            Some(true) => Look::Found(true),
            Some(false) => Look::Found(is_changed(differences, c)),
        },
        Decomposed::Expansion(d, e) => match found(differences, known, d) {
            None => Look::Before(d),
            Some(true) => Look::Found(true),
            Some(false) => look_behind(differences, known, c, d, e),
        },
    }
}

/// Looks at a character with a mapping to two, the first of which reaches no changed one.
fn look_behind(
    differences: &Differences<'_>,
    known: &[Option<bool>],
    c: char,
    d: char,
    e: char,
) -> Look
    requires known { AreKnown differences.now known.now }
    requires mapped { step_of differences.now.before c ≡ d ∷ e ∷ [] }
    requires first { Tells differences.now d false }
    ensures { IsLook differences.now known.now c result }
{
    match found(differences, known, e) {
        None => Look::Before(e),
        Some(true) => Look::Found(true),
        Some(false) => Look::Found(is_changed(differences, c)),
    }
}

/// Whether a character changed, whose mapping brings in none that reaches a changed one.
fn is_changed(differences: &Differences<'_>, c: char) -> bool
    requires { All (λ d. Tells differences.now d false) (step_of differences.now.before c) }
    ensures { Tells differences.now c result }
{
    differences.changed(c)
}
