//! The mapped characters of a source.

ghost use Rattle.std.specs.Prelude.{◌≡◌, ℕ, ◌*◌, ◌<◌, ◌≤◌, List, [], true, false, option_to_list};
ghost use Rattle.std.specs.Iterator.{at_most, IsFinite, size};
ghost use Rattle.icu_normalizer_core.specs.Iter.{Spells, KeepsLeft};
ghost use Rattle.icu_normalizer.specs.Uts46.{mapper_of, mapped_with};

use super::mapped_list::MappedList;
use super::table::MapperTable;

/// The characters of a source, each replaced by what it becomes.
#[derive(Debug, Drop)]
pub(super) struct MappedChars<'d, I> {
    chars: I,
    done: bool,
    table: &'d MapperTable<'d>,
    ignored: Option<char>,
    list: MappedList<'d>,
    ghost settled: { done ≡ true → list ≡ [] },
}

impl<'d, I: Iterator<Item = char> + Drop> MappedChars<'d, I> {
    ghost use Rattle.icu_normalizer.specs.Uts46Iter.{MapsTo, CanMap, mapped_size, pulls_left};

    /// What the characters of `chars` become by a table, where an ignored one becomes `ignored`.
    pub(super) fn new(
        table: &'d MapperTable<'d>,
        ignored: Option<char>,
        chars: I,
    ) -> MappedChars<'d, I>
        ensures text { (cs : List ℕ) → Spells I.next_gives chars cs → MapsTo I.next_gives result (mapped_with (option_to_list ignored) (mapper_of table.now) cs) }
        ensures ready { I.can_next chars → IsFinite (I.remaining chars) → CanMap I.can_next I.remaining result }
        ensures size { mapped_size I.remaining result ≡ 31 * size (I.remaining chars) }
    {
        MappedChars {
            chars,
            done: false,
            table,
            ignored,
            list: table.nothing(),
        }
    }

    /// Reads one character.
    fn pull(&mut self)
        requires running { self.old.done ≡ false }
        requires empty { self.old.list ≡ [] }
        requires ready { CanMap I.can_next I.remaining self.old }
        ensures text { KeepsLeft (MapsTo I.next_gives) self.old [] self.new }
        ensures ready { CanMap I.can_next I.remaining self.new }
        ensures size { mapped_size I.remaining self.new ≤ mapped_size I.remaining self.old }
        ensures nearer { pulls_left I.remaining self.new < pulls_left I.remaining self.old }
    {
        match self.chars.next() {
            Some(c) => self.list = self.table.list(c, self.ignored),
            None => self.done = true,
        }
    }
}

impl<I: Iterator<Item = char> + Drop> Iterator for MappedChars<'_, I> {
    ghost use Rattle.icu_normalizer.specs.Uts46Iter.{MappingSteps, CanMap, mapped_size};

    type Item = char;

    ghost can_next = { CanMap I.can_next I.remaining };

    ghost next_gives = { MappingSteps I.can_next I.next_gives I.remaining };

    ghost remaining = { λ s. at_most (mapped_size I.remaining s) };

    fn next(&mut self) -> Option<char> {
        while !self.done {
            if let Some(c) = self.list.next() {
                return Some(c);
            }
            self.pull();
        }
        None
    }
}
