//! Decomposed text on its way to a sink.

ghost use Rattle.std.specs.Prelude.{◌≡◌, ◌≢◌, ℕ, ◌+◌, ◌<◌, ◌≤◌, [], ◌∷◌, ◌++◌, true, take, IfOk, IfSome, OnOk, OnErr};
ghost use Rattle.std.specs.List.{list_all};
ghost use Rattle.icu_normalizer_core.specs.FormData.{form_meaning};
ghost use Rattle.icu_normalizer_core.specs.Canonical.{marks_in_order};
ghost use Rattle.icu_normalizer_core.specs.Marks.{is_mark};
ghost use Rattle.icu_normalizer.specs.FormNotes.{AreLow, noted_list};
ghost use Rattle.icu_normalizer.specs.Marks.{stands_to};
ghost use Rattle.icu_normalizer.specs.Sinks.{AddsPrefix, EndsByFailure};

mod order;

use crate::form_notes::{FormNote, form_note};
use crate::sinks::NormError;
use crate::text_sources::WriteTo;
use icu_normalizer_core::canonical::Reading;
use icu_normalizer_core::decomposition::{FormData, sort_marks};
use order::{index_for, insert_at, last_class};
use smallvec::SmallVec;
use std::alloc::{AllocError, Global};

/// How many characters are held without memory.
const FEW: usize = 64;

/// Up to this count there is room for a full list that is noted.
const ROOM: usize = 61;

/// Writes decomposed text. Low characters and marks are held, in order: `few` has the first `count`, of which the last is
/// of class `last`. After 64 come in `more` the marks that follow, as they came, whose order is still open.
#[derive(Debug, Drop)]
pub(super) struct Writer<'d> {
    basis: FormData<'d>,
    low: &'d [FormNote],
    few: [char; 64],
    count: usize,
    more: Vec<char>,
    last: u8,
    ghost within: { count ≤ 64 },
    ghost full: { count < 64 → more.items ≡ [] },
    ghost marks: { list_all (is_mark (form_meaning basis).class) more.items ≡ true },
    ghost order: { stands_to (form_meaning basis).class 0 last (take count few) ≡ true },
    ghost notes: { AreLow (form_meaning basis) low.now },
    ghost unmapped: { (c : ℕ) → c < 0xa0 → (form_meaning basis).full c ≡ c ∷ [] },
    ghost starters: { (c : ℕ) → c < 0xa0 → (form_meaning basis).class c ≡ 0 },
}

impl<'d> Writer<'d> {
    ghost use Rattle.icu_normalizer_core.specs.Readable.{IsReadable};
    ghost use Rattle.icu_normalizer.specs.Writer.{writer_data, held, due, Fits, KeepsDue, Writes, WritesPart};

    /// Nothing is held.
    #[inline(always)]
    pub(super) fn new(alloc: Global, basis: FormData<'d>, low: &'d [FormNote]) -> Writer<'d>
        requires readable { IsReadable (form_meaning basis) }
        requires notes { AreLow (form_meaning basis) low.now }
        ensures empty { held result ≡ [] }
        ensures same { writer_data result ≡ form_meaning basis.entry }
    {
        Writer {
            basis,
            low,
            few: ['\0'; 64],
            count: 0,
            more: Vec::new(alloc),
            last: 0,
        }
    }

    /// Writes the full list of `c`, or holds it.
    #[inline(always)]
    pub(super) fn write_decomposed<T: WriteTo<S>, S>(
        &mut self,
        c: char,
        sink: &mut S,
    ) -> Result<(), NormError<T::Error>>
        ensures ok { OnOk result (Writes T.encode self.old ((writer_data self.old).full c) (T.contents sink.old) (T.contents sink.new) self.new) }
        ensures err { OnErr result (WritesPart T.encode self.old ((writer_data self.old).full c) (T.contents sink.old) (T.contents sink.new)) }
        ensures failure { EndsByFailure T.takes T.fails sink.old result sink.new }
        ensures same { writer_data self.new ≡ writer_data self.old }
    {
        if let Some(note) = self.fitting(c) {
            self.append(note);
            return Ok(());
        }
        self.write_asked::<T, S>(c, sink)
    }

    /// What is noted of a character whose full list fits: it is in order after what is held, and there is room.
    #[inline(always)]
    fn fitting(&self, c: char) -> Option<FormNote>
        ensures { IfSome result (λ note. Fits self.now c note) }
    {
        let note = form_note(self.low, c)?;
        if note.len == 0 || self.last > note.order || self.count > ROOM {
            return None;
        }
        Some(note)
    }

    /// Holds a full list that fits.
    #[inline(always)]
    fn append(&mut self, note: FormNote)
        requires room { self.old.count ≤ 61 }
        requires within { note.len ≤ 3 }
        requires stands { stands_to (writer_data self.old).class self.old.last note.class (noted_list note) ≡ true }
        ensures held { held self.new ≡ held self.old ++ noted_list note }
        ensures same { writer_data self.new ≡ writer_data self.old }
    {
        let count = self.count;
        self.few[count] = note.first;
        self.few[count + 1] = note.second;
        self.few[count + 2] = note.third;
        self.count = count + note.len as usize;
        self.last = note.class;
    }

    /// Writes the full list of `c`, by what the data say of it.
    #[inline(never)]
    fn write_asked<T: WriteTo<S>, S>(
        &mut self,
        c: char,
        sink: &mut S,
    ) -> Result<(), NormError<T::Error>>
        ensures ok { OnOk result (Writes T.encode self.old ((writer_data self.old).full c) (T.contents sink.old) (T.contents sink.new) self.new) }
        ensures err { OnErr result (WritesPart T.encode self.old ((writer_data self.old).full c) (T.contents sink.old) (T.contents sink.new)) }
        ensures failure { EndsByFailure T.takes T.fails sink.old result sink.new }
        ensures same { writer_data self.new ≡ writer_data self.old }
    {
        if c < '\u{a0}' {
            return self.add::<T, S>(c, 0, sink);
        }
        match self.basis.reading(c) {
            Reading::Itself(class) => self.add::<T, S>(c, class, sink),
            Reading::Two(first, second) => self.write_both::<T, S>(first, second, sink),
            Reading::Three(_, _, _) => self.write_list::<T, S>(c, sink),
            Reading::Other => self.write_list::<T, S>(c, sink),
        }
    }

    /// Writes the full list of `c`, character by character.
    #[inline(never)]
    fn write_list<T: WriteTo<S>, S>(
        &mut self,
        c: char,
        sink: &mut S,
    ) -> Result<(), NormError<T::Error>>
        ensures ok { OnOk result (Writes T.encode self.old ((writer_data self.old).full c) (T.contents sink.old) (T.contents sink.new) self.new) }
        ensures err { OnErr result (WritesPart T.encode self.old ((writer_data self.old).full c) (T.contents sink.old) (T.contents sink.new)) }
        ensures failure { EndsByFailure T.takes T.fails sink.old result sink.new }
        ensures same { writer_data self.new ≡ writer_data self.old }
    {
        for d in self.basis.full_list(c) {
            self.write::<T, S>(d, sink)?;
        }
        Ok(())
    }

    /// Writes two characters, each its own full list.
    #[inline]
    fn write_both<T: WriteTo<S>, S>(
        &mut self,
        first: char,
        second: char,
        sink: &mut S,
    ) -> Result<(), NormError<T::Error>>
        ensures ok { OnOk result (Writes T.encode self.old (first ∷ second ∷ []) (T.contents sink.old) (T.contents sink.new) self.new) }
        ensures err { OnErr result (WritesPart T.encode self.old (first ∷ second ∷ []) (T.contents sink.old) (T.contents sink.new)) }
        ensures failure { EndsByFailure T.takes T.fails sink.old result sink.new }
        ensures same { writer_data self.new ≡ writer_data self.old }
    {
        self.write::<T, S>(first, sink)?;
        self.write::<T, S>(second, sink)
    }

    /// Writes a character, which is its own full list.
    #[inline]
    fn write<T: WriteTo<S>, S>(&mut self, c: char, sink: &mut S) -> Result<(), NormError<T::Error>>
        ensures ok { OnOk result (Writes T.encode self.old (c ∷ []) (T.contents sink.old) (T.contents sink.new) self.new) }
        ensures err { OnErr result (WritesPart T.encode self.old (c ∷ []) (T.contents sink.old) (T.contents sink.new)) }
        ensures failure { EndsByFailure T.takes T.fails sink.old result sink.new }
        ensures same { writer_data self.new ≡ writer_data self.old }
    {
        if c < '\u{a0}' {
            return self.add::<T, S>(c, 0, sink);
        }
        let class = self.basis.class(c);
        self.add::<T, S>(c, class, sink)
    }

    /// Writes a character of this class. A mark is held.
    #[inline(always)]
    fn add<T: WriteTo<S>, S>(
        &mut self,
        c: char,
        class: u8,
        sink: &mut S,
    ) -> Result<(), NormError<T::Error>>
        requires { class ≡ (writer_data self.old).class c }
        ensures ok { OnOk result (Writes T.encode self.old (c ∷ []) (T.contents sink.old) (T.contents sink.new) self.new) }
        ensures err { OnErr result (WritesPart T.encode self.old (c ∷ []) (T.contents sink.old) (T.contents sink.new)) }
        ensures failure { EndsByFailure T.takes T.fails sink.old result sink.new }
        ensures same { writer_data self.new ≡ writer_data self.old }
    {
        if class != 0 {
            return match self.hold(c, class) {
                Ok(()) => Ok(()),
                Err(_) => Err(NormError::Memory),
            };
        }
        self.flush::<T, S>(sink)?;
        match T::write_char(sink, c) {
            Ok(()) => Ok(()),
            Err(error) => Err(NormError::Sink(error)),
        }
    }

    /// Holds a mark of this class.
    fn hold(&mut self, c: char, class: u8) -> Result<(), AllocError>
        requires class { class ≡ (writer_data self.old).class c }
        requires mark { class ≢ 0 }
        ensures ok { OnOk result (KeepsDue self.old (c ∷ []) self.new) }
        ensures same { writer_data self.new ≡ writer_data self.old }
    {
        if self.count == FEW {
            return self.hold_more(c);
        }
        self.insert(c, class);
        Ok(())
    }

    /// The same, where `few` is full.
    #[cold]
    fn hold_more(&mut self, c: char) -> Result<(), AllocError>
        requires mark { (writer_data self.old).class c ≢ 0 }
        requires full { self.old.count ≡ 64 }
        ensures ok { OnOk result (KeepsDue self.old (c ∷ []) self.new) }
        ensures same { writer_data self.new ≡ writer_data self.old }
    {
        self.more.push(c)?;
        Ok(())
    }

    /// The same, where there is room: after the last that is of no higher class.
    fn insert(&mut self, c: char, class: u8)
        requires class { class ≡ (writer_data self.old).class c }
        requires mark { class ≢ 0 }
        requires room { self.old.count < 64 }
        ensures kept { KeepsDue self.old (c ∷ []) self.new }
        ensures same { writer_data self.new ≡ writer_data self.old }
    {
        let index = index_for(self.basis, &self.few[..self.count], class);
        let last = last_class(index, self.count, class, self.last);
        let mut few = self.few;
        insert_at(&mut few, index, self.count, c);
        self.few = few;
        self.count += 1;
        self.last = last;
    }

    /// Writes what is held, as is right before a starter and at the end of the text.
    #[inline(always)]
    pub(super) fn flush<T: WriteTo<S>, S>(
        &mut self,
        sink: &mut S,
    ) -> Result<(), NormError<T::Error>>
        ensures ok { OnOk result (T.contents sink.new ≡ T.contents sink.old ++ due T.encode self.old []) }
        ensures empty { OnOk result (held self.new ≡ []) }
        ensures err { OnErr result (AddsPrefix (T.contents sink.old) (due T.encode self.old []) (T.contents sink.new)) }
        ensures failure { EndsByFailure T.takes T.fails sink.old result sink.new }
        ensures same { writer_data self.new ≡ writer_data self.old }
    {
        if self.count == 0 {
            return Ok(());
        }
        self.flush_held::<T, S>(sink)
    }

    /// The same, where there may be some.
    #[inline(never)]
    fn flush_held<T: WriteTo<S>, S>(&mut self, sink: &mut S) -> Result<(), NormError<T::Error>>
        ensures ok { OnOk result (T.contents sink.new ≡ T.contents sink.old ++ due T.encode self.old []) }
        ensures empty { OnOk result (held self.new ≡ []) }
        ensures err { OnErr result (AddsPrefix (T.contents sink.old) (due T.encode self.old []) (T.contents sink.new)) }
        ensures failure { EndsByFailure T.takes T.fails sink.old result sink.new }
        ensures same { writer_data self.new ≡ writer_data self.old }
    {
        let written = self.write_marks::<T, S>(sink);
        self.clear();
        written
    }

    /// Writes what is held, in order.
    #[inline]
    fn write_marks<T: WriteTo<S>, S>(&self, sink: &mut S) -> Result<(), NormError<T::Error>>
        ensures ok { OnOk result (T.contents sink.new ≡ T.contents sink.old ++ due T.encode self.now []) }
        ensures err { OnErr result (AddsPrefix (T.contents sink.old) (due T.encode self.now []) (T.contents sink.new)) }
        ensures failure { EndsByFailure T.takes T.fails sink.old result sink.new }
    {
        let more = self.more.as_slice();
        if more.is_empty() {
            return T::write_chars(sink, &self.few[..self.count]);
        }
        let Ok(marks) = self.sorted() else {
            return Err(NormError::Memory);
        };
        T::write_chars(sink, &marks)
    }

    /// What is held, in order.
    fn sorted(&self) -> Result<SmallVec<char, 16>, AllocError>
        ensures { IfOk result (λ marks. marks.items ≡ marks_in_order (writer_data self.now).class (held self.now)) }
    {
        let mut marks = SmallVec::new(*self.more.allocator());
        marks.extend_from_slice(&self.few[..self.count])?;
        marks.extend_from_slice(&self.more)?;
        let from = index_for(self.basis, &self.few[..self.count], 0);
        sort_marks(self.basis, &mut marks, from)?;
        Ok(marks)
    }

    /// Holds none.
    #[inline]
    fn clear(&mut self)
        ensures empty { held self.new ≡ [] }
        ensures same { writer_data self.new ≡ writer_data self.old }
    {
        if self.count == FEW {
            self.more.clear();
        }
        self.count = 0;
        self.last = 0;
    }
}
