//! Decomposed characters on their way out, marks in their order.

ghost use Rattle.std.specs.Prelude.{◌≡◌, ℕ, ◌+◌, ◌<◌, ◌≤◌, ◌↔◌, [], ◌∷◌, ◌++◌, true, take, drop, length, IfSome, IfNone, OnSome, OnOk, OnErr, IsTrue};
ghost use Rattle.std.specs.Char.{IsScalar};
ghost use Rattle.std.specs.List.{list_all};
ghost use Rattle.smallvec.specs.SmallVec.{small_vec_len};
ghost use Rattle.icu_normalizer_core.specs.FormData.{form_meaning};
ghost use Rattle.icu_normalizer_core.specs.Canonical.{marks_in_order};
ghost use Rattle.icu_normalizer_core.specs.Marks.{is_mark};

use super::form_data::FormData;
use crate::canonical::Reading;
use smallvec::SmallVec;
use std::alloc::{AllocError, Global};

/// How many characters that were taken may stay before what is left is moved to the front.
const KEPT: usize = 4;

/// Decomposed characters on their way out, in three parts: those that were taken, those that are in order and ready,
/// and the marks after the last starter, whose order is still open.
#[derive(Debug, Drop)]
pub struct Run<'d> {
    basis: FormData<'d>,
    chars: SmallVec<char, 16>,
    next: usize,
    ready: usize,
    ghost taken: { next ≤ ready },
    ghost within: { ready ≤ small_vec_len chars },
    ghost marks: { list_all (is_mark (form_meaning basis).class) (drop ready chars.items) ≡ true },
    ghost bounded: { (c : ℕ) → IsScalar c → length ((form_meaning basis).full c) ≤ 8 },
    ghost low: { (c : ℕ) → c < 0xa0 → (form_meaning basis).full c ≡ c ∷ [] },
    ghost starters: { (c : ℕ) → c < 0xa0 → (form_meaning basis).class c ≡ 0 },
}

impl<'d> Run<'d> {
    ghost use Rattle.icu_normalizer_core.specs.Readable.{IsReadable};
    ghost use Rattle.icu_normalizer_core.specs.Run.{reordered, held, pending, data_of, KeepsOutput};

    /// No characters yet.
    pub fn new(alloc: Global, basis: FormData<'d>) -> Run<'d>
        requires { IsReadable (form_meaning basis) }
        ensures held { held result ≡ 0 }
        ensures same { data_of result ≡ form_meaning basis.entry }
    {
        Run {
            basis,
            chars: SmallVec::new(alloc),
            next: 0,
            ready: 0,
        }
    }

    /// Whether it holds no character.
    #[inline]
    pub fn is_empty(&self) -> bool
        ensures { IsTrue result ↔ (held self.now ≡ 0) }
    {
        self.next == self.chars.len()
    }

    /// Drops all characters.
    pub fn clear(&mut self)
        ensures held { held self.new ≡ 0 }
        ensures same { data_of self.new ≡ data_of self.old }
    {
        self.next = 0;
        self.ready = 0;
        self.chars.clear();
    }

    /// The next character that is ready.
    #[inline]
    pub fn pop(&mut self) -> Option<char>
        ensures some { IfSome result (λ c. KeepsOutput self.old [] (c ∷ []) self.new) }
        ensures none { IfNone result (KeepsOutput self.old [] [] self.new × (held self.new ≡ pending self.new)) }
        ensures fewer { OnSome result (held self.new < held self.old) }
        ensures held { held self.new ≤ held self.old }
        ensures pending { pending self.new ≡ pending self.old }
        ensures same { data_of self.new ≡ data_of self.old }
    {
        if self.next < self.ready {
            let c = self.chars[self.next];
            self.next += 1;
            return Some(c);
        }
        if self.ready > KEPT {
            self.drop_taken();
        }
        None
    }

    /// Moves what is left to the front.
    fn drop_taken(&mut self)
        requires { self.old.next ≡ self.old.ready }
        ensures chars { self.new.chars.items ≡ drop self.old.ready self.old.chars.items }
        ensures next { self.new.next ≡ 0 }
        ensures ready { self.new.ready ≡ 0 }
        ensures same { data_of self.new ≡ data_of self.old }
    {
        let taken = self.ready;
        let left = self.chars.len() - taken;
        self.next = 0;
        self.ready = 0;
        self.chars.copy_within(taken.., 0);
        self.chars.truncate(left);
    }

    /// Adds the full list of `c`. Fails only if memory is refused, and then it holds no character any more.
    #[inline]
    pub fn push_decomposed(&mut self, c: char) -> Result<(), AllocError>
        ensures ok { OnOk result (KeepsOutput self.old ((data_of self.old).full c) [] self.new) }
        ensures err { OnErr result (held self.new ≡ 0) }
        ensures held { held self.new ≤ held self.old + 8 }
        ensures same { data_of self.new ≡ data_of self.old }
    {
        if let Err(error) = self.push_read(c) {
            self.clear();
            return Err(error);
        }
        Ok(())
    }

    /// The same; a part of the full list may stay where memory lacks.
    #[inline]
    fn push_read(&mut self, c: char) -> Result<(), AllocError>
        ensures ok { OnOk result (KeepsOutput self.old ((data_of self.old).full c) [] self.new) }
        ensures held { held self.new ≤ held self.old + 8 }
        ensures same { data_of self.new ≡ data_of self.old }
    {
        if c < '\u{a0}' {
            return self.add(c, 0);
        }
        match self.basis.reading(c) {
            Reading::Itself(class) => self.add(c, class),
            Reading::Two(first, second) => {
                self.push(first)?;
                self.push(second)
            }
            Reading::Three(_, _, _) => self.push_list(c),
            Reading::Other => self.push_list(c),
        }
    }

    /// The same, character by character.
    fn push_list(&mut self, c: char) -> Result<(), AllocError>
        ensures ok { OnOk result (KeepsOutput self.old ((data_of self.old).full c) [] self.new) }
        ensures held { held self.new ≤ held self.old + 8 }
        ensures same { data_of self.new ≡ data_of self.old }
    {
        for d in self.basis.full_list(c) {
            self.push(d)?;
        }
        Ok(())
    }

    /// Adds a character.
    #[inline]
    fn push(&mut self, c: char) -> Result<(), AllocError>
        ensures ok { OnOk result (KeepsOutput self.old (c ∷ []) [] self.new) }
        ensures held { held self.new ≤ held self.old + 1 }
        ensures same { data_of self.new ≡ data_of self.old }
    {
        if c < '\u{a0}' {
            return self.add(c, 0);
        }
        let class = self.basis.class(c);
        self.add(c, class)
    }

    /// Adds a character of this class.
    #[inline]
    fn add(&mut self, c: char, class: u8) -> Result<(), AllocError>
        requires { class ≡ (data_of self.old).class c }
        ensures ok { OnOk result (KeepsOutput self.old (c ∷ []) [] self.new) }
        ensures held { held self.new ≤ held self.old + 1 }
        ensures same { data_of self.new ≡ data_of self.old }
    {
        if class == 0 {
            self.finish()?;
            self.chars.push(c)?;
            self.ready = self.chars.len();
        } else {
            self.chars.push(c)?;
        }
        Ok(())
    }

    /// Makes every character ready, as is right before a starter and at the end of the text. Fails only if memory is
    /// refused, and then nothing changed.
    #[inline]
    pub fn finish(&mut self) -> Result<(), AllocError>
        ensures output { OnOk result (reordered self.new [] ≡ reordered self.old []) }
        ensures ready { OnOk result (pending self.new ≡ 0) }
        ensures err { OnErr result (KeepsOutput self.old [] [] self.new × (pending self.new ≡ pending self.old)) }
        ensures held { held self.new ≡ held self.old }
        ensures succeeds { held self.old ≡ 0 → OnErr result ⊥ }
        ensures same { data_of self.new ≡ data_of self.old }
    {
        sort_marks(self.basis, &mut self.chars, self.ready)?;
        self.ready = self.chars.len();
        Ok(())
    }
}

/// Sorts the marks from an index on by class, stably. Fails only if memory is refused, and then they stand as they
/// stood.
#[inline]
pub fn sort_marks<const N: usize>(
    basis: FormData<'_>,
    chars: &mut SmallVec<char, N>,
    from: usize,
) -> Result<(), AllocError>
    requires within { from ≤ small_vec_len chars.old }
    requires marks { list_all (is_mark (form_meaning basis).class) (drop from chars.old.items) ≡ true }
    ensures ok { OnOk result (chars.new.items ≡ take from chars.old.items ++ marks_in_order (form_meaning basis.entry).class (drop from chars.old.items)) }
    ensures err { OnErr result (chars.new.items ≡ chars.old.items) }
    ensures len { small_vec_len chars.new ≡ small_vec_len chars.old }
    ensures succeeds { small_vec_len chars.old ≤ from + 1 → OnErr result ⊥ }
{
    if chars.len() - from <= 1 {
        return Ok(());
    }
    let alloc = *chars.allocator();
    sort_slice(alloc, basis, &mut chars[from..])
}

/// Sorts marks by class, stably.
#[cold]
fn sort_slice(alloc: Global, basis: FormData<'_>, marks: &mut [char]) -> Result<(), AllocError>
    requires { list_all (is_mark (form_meaning basis).class) marks.old ≡ true }
    ensures ok { OnOk result (marks.new ≡ marks_in_order (form_meaning basis.entry).class marks.old) }
    ensures err { OnErr result (marks.new ≡ marks.old) }
{
    marks.sort_by_key(alloc, |c| basis.class(*c))
}
