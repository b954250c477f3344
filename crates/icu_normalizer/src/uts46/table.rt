//! Mapper tables that were checked.

ghost use Rattle.std.specs.Prelude.{◌≡◌, ◌≤◌, true, false, [], length, MatchOption, option_to_list};
ghost use Rattle.icu_normalizer.specs.Uts46.{becomes, mapper_of, has_good_word, IsMapperTable};

use super::mapped_list::MappedList;
use icu_normalizer_core::provider::Uts46Tables;
use std::marker::Model;

/// Whether the character has a word, of one of the forms.
fn has_good_word(tables: &Uts46Tables<'_>, c: char) -> bool
    ensures { result ≡ has_good_word tables.now c }
{
    let word = tables.trie.get(c);
    let count = (word >> 8) & 0x1f;
    let end = (word >> 13) as usize + count as usize;
    tables.trie.has_cell(c as u32)
        && (word < 3 || (word & 0xff == 3 && count > 0 && end <= tables.scalars24.len()))
}

/// Whether each character has one.
fn has_good_words(tables: &Uts46Tables<'_>) -> bool
    ensures good { result ≡ true → IsMapperTable tables.now }
    ensures bad { result ≡ false → ¬ IsMapperTable tables.now }
{
    for code in 0..0x11_0000u32 {
        if let Some(c) = char::from_u32(code) {
            if !has_good_word(tables, c) {
                return false;
            }
        }
    }
    true
}

/// A mapper table that passed the check, seen as the tables that it reads.
#[derive(Debug, Drop)]
pub(super) struct MapperTable<'a> {
    tables: Uts46Tables<'a>,
}

impl<'a> Model for MapperTable<'a> {
    ghost use Rattle.icu_normalizer_core.specs.declared.provider.provider_lists.Uts46Tables.{Uts46Tables};
    ghost use Rattle.icu_normalizer.specs.Uts46.{IsMapperTable};

    ghost Value = { Uts46Tables };

    ghost view = { λ inside. inside.tables };

    ghost invariant = { λ inside. IsMapperTable inside.tables };
}

impl<'a> MapperTable<'a> {
    /// A mapper table, if each character has a word of one of the forms.
    pub(super) fn try_new(tables: Uts46Tables<'a>) -> Option<MapperTable<'a>>
        ensures { MatchOption result (¬ IsMapperTable tables.entry) (λ table. (table ≡ tables.entry) × IsMapperTable tables.entry) }
    {
        if has_good_words(&tables) {
            Some(MapperTable { tables })
        } else {
            None
        }
    }

    /// The list of no character.
    pub(super) fn nothing(&self) -> MappedList<'_>
        ensures { result ≡ [] }
    {
        MappedList::one(&self.tables.scalars24, None)
    }

    /// What a character becomes, where an ignored one becomes `ignored`.
    pub(super) fn list(&self, c: char, ignored: Option<char>) -> MappedList<'_>
        ensures list { result ≡ becomes (option_to_list ignored) c (mapper_of self.now c) }
        ensures bound { length result ≤ 31 }
    {
        let list = &self.tables.scalars24;
        match self.tables.trie.get(c) {
            0 => MappedList::one(list, Some(c)),
            1 => MappedList::one(list, ignored),
            2 => MappedList::one(list, Some(char::REPLACEMENT_CHARACTER)),
            word => MappedList::listed(list, word),
        }
    }
}
