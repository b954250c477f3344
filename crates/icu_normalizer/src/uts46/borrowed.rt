//! Mappers of domain names that borrow their data.

ghost use Rattle.std.specs.Prelude.{◌≡◌, ℕ, ◌*◌, List, option_to_list};
ghost use Rattle.std.specs.Iterator.{IsFinite, size};
ghost use Rattle.icu_normalizer_core.specs.Canonical.{composed};
ghost use Rattle.icu_normalizer_core.specs.Iter.{Spells};
ghost use Rattle.icu_normalizer.specs.Uts46.{mapped, validated, mapped_with};
ghost use Rattle.icu_normalizer.specs.Uts46Texts.{borrowed_mapper, mapper_data, mapper_table, Gives, CanGive, uts46_size};

use super::iter::Uts46Iter;
use super::mapped_characters::MappedChars;
use super::mapper::Uts46Mapper;
use crate::composing::Composition;
use std::alloc::Global;

/// A mapper of the characters of domain names (UTS 46), borrowed.
#[derive(Clone, Copy, Debug)]
pub struct Uts46MapperBorrowed<'d> {
    pub(super) mapper: &'d Uts46Mapper<'d>,
}

impl<'a> Uts46Mapper<'a> {
    /// The same, borrowed: that has the calls.
    pub fn as_borrowed(&self) -> Uts46MapperBorrowed<'_>
        ensures { borrowed_mapper result ≡ self.now }
    {
        Uts46MapperBorrowed { mapper: self }
    }
}

impl<'d> Uts46MapperBorrowed<'d> {
    /// The characters of `chars` mapped, then composed. Ignored characters are dropped; U+FFFD stands for each
    /// disallowed one.
    pub fn map_normalize<I: Iterator<Item = char> + Drop>(
        &self,
        alloc: Global,
        chars: I,
    ) -> Uts46Iter<'d, I>
        ensures text { (cs : List ℕ) → Spells I.next_gives chars cs → Gives I.can_next I.next_gives I.remaining result (composed (mapper_data self.now) (mapped (mapper_table self.now) cs)) }
        ensures ready { I.can_next chars → IsFinite (I.remaining chars) → CanGive I.can_next I.remaining result }
        ensures size { uts46_size I.remaining result ≡ 248 * size (I.remaining chars) }
    {
        self.composed(alloc, None, chars)
    }

    /// The characters of `chars` mapped, then composed. U+FFFD stands for each ignored or disallowed one.
    pub fn normalize_validate<I: Iterator<Item = char> + Drop>(
        &self,
        alloc: Global,
        chars: I,
    ) -> Uts46Iter<'d, I>
        ensures text { (cs : List ℕ) → Spells I.next_gives chars cs → Gives I.can_next I.next_gives I.remaining result (composed (mapper_data self.now) (validated (mapper_table self.now) cs)) }
        ensures ready { I.can_next chars → IsFinite (I.remaining chars) → CanGive I.can_next I.remaining result }
        ensures size { uts46_size I.remaining result ≡ 248 * size (I.remaining chars) }
    {
        self.composed(alloc, Some(char::REPLACEMENT_CHARACTER), chars)
    }

    /// The same, where an ignored character becomes `ignored`.
    fn composed<I: Iterator<Item = char> + Drop>(
        &self,
        alloc: Global,
        ignored: Option<char>,
        chars: I,
    ) -> Uts46Iter<'d, I>
        ensures text { (cs : List ℕ) → Spells I.next_gives chars cs → Gives I.can_next I.next_gives I.remaining result (composed (mapper_data self.now) (mapped_with (option_to_list ignored) (mapper_table self.now) cs)) }
        ensures ready { I.can_next chars → IsFinite (I.remaining chars) → CanGive I.can_next I.remaining result }
        ensures size { uts46_size I.remaining result ≡ 248 * size (I.remaining chars) }
    {
        let mapper = self.mapper;
        let mapped = MappedChars::new(&mapper.table, ignored, chars);
        let canonical = mapper.canonical.as_borrowed();
        Uts46Iter {
            composed: Composition::new(alloc, canonical, mapped),
        }
    }
}
