//! Composing decomposed characters: the last starter, and the marks after it that did not compose.

ghost use Rattle.std.specs.Prelude.{◌≡◌, ℕ, ◌+◌, ◌≤◌, List, [], ◌∷◌, ◌++◌, false, length, None, option_to_list, IfNone, IfOk};
ghost use Rattle.icu_normalizer_core.specs.FormData.{form_meaning};
ghost use Rattle.icu_normalizer.specs.Composing.{AreUpTo, IsComposable, composed_with};

use icu_normalizer_core::decomposition::FormData;
use smallvec::SmallVec;
use std::alloc::{AllocError, Global};

/// The last starter of decomposed characters, and the marks after it that did not compose with it. They leave once
/// another starter has taken its place.
#[derive(Debug)]
pub(crate) struct Composer<'d> {
    basis: FormData<'d>,
    starter: Option<char>,
    marks: SmallVec<char, 16>,
    highest: u8,
    leaving: bool,
    next: usize,
    ghost between: { leaving ≡ false → AreUpTo (form_meaning basis).class marks.items highest },
    ghost alone: { leaving ≡ false → starter ≡ None → marks.items ≡ [] },
    ghost unread: { leaving ≡ false → next ≡ 0 },
    ghost composable: { IsComposable (form_meaning basis) },
}

// (let go of as one, and not part by part, so that what owns one is proved sooner)
impl Drop for Composer<'_> {
    fn drop(self) {
        let Composer {
            basis: _,
            starter: _,
            marks: _,
            highest: _,
            leaving: _,
            next: _,
        } = self;
    }
}

impl<'d> Composer<'d> {
    ghost use Rattle.icu_normalizer.specs.Composer.{KeepsComposed, IsIdle, coming, waiting, data_of};

    /// No characters yet.
    pub(crate) fn new(alloc: Global, basis: FormData<'d>) -> Composer<'d>
        requires { IsComposable (form_meaning basis) }
        ensures idle { IsIdle result }
        ensures same { data_of result ≡ form_meaning basis.entry }
    {
        Composer {
            basis,
            starter: None,
            marks: SmallVec::new(alloc),
            highest: 0,
            leaving: false,
            next: 0,
        }
    }

    /// Drops all characters.
    pub(crate) fn clear(&mut self)
        ensures idle { IsIdle self.new }
        ensures same { data_of self.new ≡ data_of self.old }
    {
        self.starter = None;
        self.marks.clear();
        self.highest = 0;
        self.leaving = false;
        self.next = 0;
    }

    /// The next of the marks that leave.
    #[inline]
    pub(crate) fn pop(&mut self) -> Option<char>
        ensures output { KeepsComposed self.old [] (option_to_list result) self.new }
        ensures composing { IfNone result (self.new.leaving ≡ false) }
        ensures fewer { waiting self.new + length (option_to_list result) ≤ waiting self.old }
        ensures same { data_of self.new ≡ data_of self.old }
    {
        if !self.leaving {
            return None;
        }
        if self.next < self.marks.len() {
            let c = self.marks[self.next];
            self.next += 1;
            return Some(c);
        }
        self.marks.clear();
        self.highest = 0;
        self.leaving = false;
        self.next = 0;
        None
    }

    /// Takes a character, and gives one that nothing composes with any more.
    #[inline]
    pub(crate) fn push(&mut self, c: char) -> Result<Option<char>, AllocError>
        requires { self.old.leaving ≡ false }
        ensures output { IfOk result (λ out. KeepsComposed self.old (c ∷ []) (option_to_list out) self.new) }
        ensures composing { IfOk result (λ out. IfNone out (self.new.leaving ≡ false)) }
        ensures fewer { IfOk result (λ out. waiting self.new + length (option_to_list out) ≤ waiting self.old + 1) }
        ensures same { data_of self.new ≡ data_of self.old }
    {
        let class = class_of(self.basis, c);
        let Some(starter) = self.starter else {
            if class != 0 {
                return Ok(Some(c));
            }
            self.starter = Some(c);
            return Ok(None);
        };
        if let Some(composed) = joined(self.basis, starter, self.highest, c, class) {
            self.starter = Some(composed);
            return Ok(None);
        }
        if class == 0 {
            self.starter = Some(c);
            self.leaving = true;
            return Ok(Some(starter));
        }
        self.marks.push(c)?;
        self.highest = self.highest.max(class);
        Ok(None)
    }

    /// Gives the last starter at the end of the text.
    #[inline]
    pub(crate) fn finish(&mut self) -> Option<char>
        requires { self.old.leaving ≡ false }
        ensures output { coming self.old [] ≡ option_to_list result ++ coming self.new [] }
        ensures done { IfNone result (coming self.new [] ≡ []) }
        ensures ended { IfNone result (waiting self.new ≡ 0) }
        ensures fewer { waiting self.new + length (option_to_list result) ≤ waiting self.old }
        ensures same { data_of self.new ≡ data_of self.old }
    {
        self.leaving = true;
        self.starter.take()
    }
}

/// The class of a character. One below U+0300 is a starter, so its class is not looked up.
#[inline]
fn class_of(basis: FormData<'_>, c: char) -> u8
    requires { IsComposable (form_meaning basis) }
    ensures { result ≡ (form_meaning basis.entry).class c }
{
    if c < '\u{300}' { 0 } else { basis.class(c) }
}

/// What a starter and `c` compose to, where `highest` is the highest class between them, or 0.
#[inline]
fn joined(basis: FormData<'_>, starter: char, highest: u8, c: char, class: u8) -> Option<char>
    requires class { class ≡ (form_meaning basis).class c }
    requires composable { IsComposable (form_meaning basis) }
    ensures { (between : List ℕ) → AreUpTo (form_meaning basis.entry).class between highest → result ≡ composed_with (form_meaning basis.entry) starter between c }
{
    if c < '\u{300}' {
        return None;
    }
    if highest > 0 && class <= highest {
        return None;
    }
    basis.compose(starter, c)
}
