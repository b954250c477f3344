//! Reading of texts parts of which aren't flat: from one boundary to the next such a part is read by its decomposed list, the
//! rest by notes, syllables by those of their letters.

ghost use Rattle.std.specs.Char.{IsScalar};
ghost use Rattle.std.specs.Prelude.{◌≡◌, ◌≤◌, ◌∷◌, ◌++◌, ℕ, All, Option, List, [], IfOk, IfSome, length, take, true};
ghost use Rattle.std.specs.Iterator.{IsFinite};
ghost use Rattle.icu_normalizer_core.specs.Iter.{Spells};
ghost use Rattle.icu_collator_core.specs.Acceptance.{CollationSource};
ghost use Rattle.icu_collator_core.specs.ElementLists.{unpacked};
ghost use Rattle.icu_collator_core.specs.ElementTexts.{text_elements};
ghost use Rattle.icu_normalizer_core.specs.Canonical.{IsDecomposing, decomposed};
ghost use Rattle.icu_collator_core.specs.FlatNotes.{BeginsApart, IsFlatNote, IsPushed};
ghost use Rattle.icu_collator_core.specs.ReadSources.{canonical_by};
ghost use Rattle.icu_collator_core.specs.Stretched.{BeginsWithElements, EndsApart};
ghost use Rattle.icu_collator_core.specs.Stretches.{HasElements, IsClosed, IsOpen};

use crate::checked::CheckedTables;
use crate::elements::whole_texts::push_all;
use crate::notes::flat_elements::FlatElements;
use crate::notes::flat_note::{BEFORE_BOUNDARY, FlatNote};
use crate::reading::decomposing::decompose_into;
use crate::reading::prefixes::is_told_alone;
use icu_collator_types::elements::CollationElement;
use icu_normalizer_core::built_in::is_syllable;
use smallvec::SmallVec;
use std::alloc::{AllocError, Global};

/// What stands after the last boundary of a text, with that; or all of the text, where none was met.
pub(super) struct Stretch {
    /// Its characters.
    chars: SmallVec<char, 64>,
    /// How many elements stand before it.
    count: usize,
    /// After what class the next character stands, 256 where a boundary has to follow; if it is read flat.
    class: u16,
    /// Whether it isn't read flat.
    is_rough: bool,
}

// (let go of as one, and not part by part, so that what owns one is proved sooner)
impl Drop for Stretch {
    fn drop(self) {
        let Stretch {
            chars: _,
            count: _,
            class: _,
            is_rough: _,
        } = self;
    }
}

impl Stretch {
    /// A stretch of no characters, at the beginning of a text.
    pub(super) fn new(alloc: Global) -> Self
        ensures chars { result.chars.items ≡ [] }
        ensures count { result.count ≡ 0 }
        ensures class { result.class ≡ 0 }
    {
        Stretch {
            chars: SmallVec::new(alloc),
            count: 0,
            class: 0,
            is_rough: false,
        }
    }

    /// How many of the elements that were read stand, whatever follows.
    #[inline(always)]
    pub(super) fn settled<const N: usize>(&self, elements: &FlatElements<N>) -> usize
        ensures stands { (source : CollationSource) (numeric : Option ℕ) (text rest front : List ℕ) → IsDecomposing (canonical_by source)
            → IsOpen source numeric text self.now elements.now.items → EndsApart source numeric front (text ++ rest) → All IsScalar (front ++ (text ++ rest))
            → BeginsWithElements source numeric front (text ++ rest) (take result elements.now.items) }
        ensures within { (source : CollationSource) (numeric : Option ℕ) (text : List ℕ)
            → IsOpen source numeric text self.now elements.now.items → result ≤ length elements.now.items }
    {
        if self.is_rough || self.class != 0 {
            return self.count;
        }
        elements.len()
    }

    /// Its character, where it has one alone, and isn't rough.
    #[inline(always)]
    #[tactic(auto, using(crate::proofs::readings::StretchLemmas::only_one))]
    fn only(&self) -> Option<char>
        ensures { IfSome result (λ c. self.now.chars.items ≡ c ∷ []) }
    {
        let chars = self.chars.as_slice();
        if self.is_rough || chars.len() != 1 {
            return None;
        }
        Some(chars[0])
    }
}

impl CheckedTables<'_> {
    /// Puts the elements of a stretch of these characters into an empty list, found by its decomposed list; `false` where what stands
    /// before it may count. Fails only if memory is refused.
    fn find_elements(
        &self,
        numeric: Option<u8>,
        chars: &[char],
        found: &mut SmallVec<CollationElement, 32>,
    ) -> Result<bool, AllocError>
        requires { found.old.items ≡ [] }
        ensures { IfOk result (λ is_found. is_found ≡ true
            → HasElements self.now numeric (decomposed (canonical_by self.now) chars.now) found.new.items) }
    {
        let mut list = SmallVec::new(*found.allocator());
        let chars = chars.iter().copied();
        decompose_into(self.canonical(), chars, &mut list)?;
        if !is_told_alone(self.sound(), list.as_slice()) {
            return Ok(false);
        }
        push_all(self, numeric, &mut list, found)?;
        Ok(true)
    }

    /// Puts the elements of a stretch that isn't flat in their place, after which a boundary has to follow; `false` where what
    /// stands before it may count, it has more characters than the list has room for elements, or there is no room. Fails only
    /// if memory is refused.
    #[inline(never)]
    fn read_rough<const N: usize>(
        &self,
        numeric: Option<u8>,
        stretch: &mut Stretch,
        elements: &mut FlatElements<N>,
    ) -> Result<bool, AllocError>
        ensures { IfOk result (λ is_read. is_read ≡ true → (text : List ℕ) → IsOpen self.now numeric text stretch.old elements.old.items
            → IsClosed self.now numeric text stretch.new.class elements.new.items) }
    {
        if stretch.chars.len() > N {
            return Ok(false);
        }
        let mut found = SmallVec::new(*stretch.chars.allocator());
        let is_found = self.find_elements(numeric, stretch.chars.as_slice(), &mut found)?;
        if !is_found {
            return Ok(false);
        }
        stretch.is_rough = false;
        stretch.class = BEFORE_BOUNDARY;
        Ok(elements.replace_from(stretch.count, found.as_slice()))
    }

    /// Reads a stretch to its end, after which a boundary stands, or nothing; `false` where that can't be. Fails only if memory is
    /// refused.
    #[inline(always)]
    pub(super) fn close<const N: usize>(
        &self,
        numeric: Option<u8>,
        stretch: &mut Stretch,
        elements: &mut FlatElements<N>,
    ) -> Result<bool, AllocError>
        ensures { IfOk result (λ is_read. is_read ≡ true → (text : List ℕ) → IsOpen self.now numeric text stretch.old elements.old.items
            → IsClosed self.now numeric text stretch.new.class elements.new.items) }
    {
        if !stretch.is_rough {
            return Ok(true);
        }
        let is_read = self.read_rough(numeric, stretch, elements)?;
        Ok(is_read)
    }

    /// Appends the elements of a boundary that stands after one of this class: by its note, or a syllable's by its letters.
    #[inline(always)]
    fn push_boundary<const N: usize>(
        &self,
        numeric: Option<u8>,
        c: char,
        note: FlatNote,
        before: u16,
        elements: &mut FlatElements<N>,
    ) -> Option<u16>
        requires { IsFlatNote self.now c note }
        ensures { IfSome result (λ trail. IsPushed self.now numeric c before elements.old.items trail elements.new.items) }
    {
        if let FlatNote::Other = note {
            if is_syllable(c as u32) {
                return self.push_syllable(numeric, c, before, elements);
            }
        }
        let trail = note.push(numeric, before, elements)?;
        Some(trail)
    }

    /// Begins a stretch with a boundary; `false` where the one before can't be read, or there is no room. Fails only if memory
    /// is refused.
    #[inline(always)]
    fn begin<const N: usize>(
        &self,
        numeric: Option<u8>,
        c: char,
        note: FlatNote,
        stretch: &mut Stretch,
        elements: &mut FlatElements<N>,
    ) -> Result<bool, AllocError>
        requires boundary { BeginsApart self.now numeric c }
        requires note { IsFlatNote self.now c note }
        ensures { IfOk result (λ is_read. is_read ≡ true → (text : List ℕ) → IsOpen self.now numeric text stretch.old elements.old.items
            → IsOpen self.now numeric (text ++ c ∷ []) stretch.new elements.new.items) }
    {
        let is_read = self.close(numeric, stretch, elements)?;
        if !is_read {
            return Ok(false);
        }
        stretch.count = elements.len();
        stretch.is_rough = false;
        stretch.chars.clear();
        stretch.chars.push(c)?;
        match self.push_boundary(numeric, c, note, stretch.class, elements) {
            Some(class) => {
                stretch.class = class;
                Ok(true)
            }
            None => Ok(false),
        }
    }

    /// Puts a character after those of a stretch that isn't read flat there: it is read with the first, where both are noted as a
    /// pair and no other stands between; else the stretch is rough. `false` where there is no room. Fails only if memory is
    /// refused.
    #[inline(never)]
    fn pair_up<const N: usize>(
        &self,
        c: char,
        stretch: &mut Stretch,
        elements: &mut FlatElements<N>,
    ) -> Result<bool, AllocError>
        ensures { IfOk result (λ is_read. is_read ≡ true → (numeric : Option ℕ) (text : List ℕ) → IsOpen self.now numeric text stretch.old elements.old.items
            → IsOpen self.now numeric (text ++ c ∷ []) stretch.new elements.new.items) }
    {
        if let Some(first) = stretch.only() {
            if let Some(pair) = self.pair(first, c) {
                stretch.chars.push(c)?;
                stretch.class = pair.trail();
                return Ok(elements.replace_from(stretch.count, pair.elements()));
            }
        }
        stretch.chars.push(c)?;
        stretch.is_rough = true;
        Ok(true)
    }

    /// Puts a character after those of a stretch; `false` where there is no room. Fails only if memory is refused.
    #[inline(always)]
    fn go_on<const N: usize>(
        &self,
        numeric: Option<u8>,
        c: char,
        note: FlatNote,
        stretch: &mut Stretch,
        elements: &mut FlatElements<N>,
    ) -> Result<bool, AllocError>
        requires { IsFlatNote self.now c note }
        ensures { IfOk result (λ is_read. is_read ≡ true → (text : List ℕ) → IsOpen self.now numeric text stretch.old elements.old.items
            → IsOpen self.now numeric (text ++ c ∷ []) stretch.new elements.new.items) }
    {
        if stretch.is_rough || !note.is_flat_behind(numeric, stretch.class) {
            let is_read = self.pair_up(c, stretch, elements)?;
            return Ok(is_read);
        }
        stretch.chars.push(c)?;
        match note.push(numeric, stretch.class, elements) {
            Some(class) => {
                stretch.class = class;
                Ok(true)
            }
            None => Ok(false),
        }
    }

    /// Reads the next character of a text; `false` where that can't be. Fails only if memory is refused.
    #[inline(always)]
    pub(super) fn read_next<const N: usize>(
        &self,
        numeric: Option<u8>,
        c: char,
        stretch: &mut Stretch,
        elements: &mut FlatElements<N>,
    ) -> Result<bool, AllocError>
        ensures { IfOk result (λ is_read. is_read ≡ true → (text : List ℕ) → IsOpen self.now numeric text stretch.old elements.old.items
            → IsOpen self.now numeric (text ++ c ∷ []) stretch.new elements.new.items) }
    {
        if is_syllable(c as u32) {
            if self.begins_with_boundary(c) {
                return self.begin(numeric, c, FlatNote::Other, stretch, elements);
            }
        }
        let note = self.read_note(c);
        if note.is_boundary() {
            self.begin(numeric, c, note, stretch, elements)
        } else {
            self.go_on(numeric, c, note, stretch, elements)
        }
    }

    /// Reads the text that an iterator gives, whatever the list held, if the list has room for its elements, and for one for each
    /// character of a part that isn't flat, from one boundary to the next, and such a part tells alone which recorded prefixes
    /// count. `false` for another text, and for some that are so; what the list has then is not said. Where a lead byte of numbers
    /// is given, digits that stand together are read as a number. Fails only if memory is refused.
    #[inline(never)]
    pub fn read_stretches<I: Iterator<Item = char> + Drop, const N: usize>(
        &self,
        alloc: Global,
        numeric: Option<u8>,
        chars: I,
        elements: &mut FlatElements<N>,
    ) -> Result<bool, AllocError>
        requires can { I.can_next chars }
        requires finite { IsFinite (I.remaining chars) }
        ensures { IfOk result (λ is_read. is_read ≡ true → (cs : List ℕ) → Spells I.next_gives chars cs
            → unpacked elements.new.items ≡ text_elements self.now numeric cs) }
    {
        if !elements.replace_from(0, &[]) {
            return Ok(false);
        }
        let mut stretch = Stretch::new(alloc);
        for c in chars {
            let is_read = self.read_next(numeric, c, &mut stretch, elements)?;
            if !is_read {
                return Ok(false);
            }
        }
        let is_read = self.close(numeric, &mut stretch, elements)?;
        Ok(is_read)
    }
}
