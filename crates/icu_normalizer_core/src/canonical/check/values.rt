//! Characters without a word, or with one that has none of the forms.

ghost use Rattle.std.specs.Prelude.{◌≡◌, ◌&&◌, MatchOption};
ghost use Rattle.icu_normalizer_core.specs.CanonicalFaults.{NoneOffends, IsLeastOffender, OffendsValue};
ghost use Rattle.icu_normalizer_core.specs.CanonicalMeaning.{lists_of};
ghost use Rattle.icu_normalizer_core.specs.CanonicalWords.{is_word};
ghost use Rattle.icu_normalizer_core.specs.Plain.{Tells};

use super::told::first_refused_of;
use crate::canonical::canonical_words::is_word;
use crate::canonical::tables::CanonicalTables;

/// Whether the character has a word, of one of the forms.
fn has_good_word(tables: &CanonicalTables<'_>, c: char) -> bool
    ensures { result ≡ ((lists_of tables.now).has_word c && is_word c ((lists_of tables.now).word c)) }
{
    tables.trie.has_cell(c as u32) && is_word(c as u32, tables.word(c))
}

/// The least character with a bad word, `None` where there is none.
pub(super) fn first_bad_value(tables: &CanonicalTables<'_>, told: &[u32]) -> Option<char>
    requires { Tells (lists_of tables.now) told.now }
    ensures { MatchOption result (NoneOffends (OffendsValue (lists_of tables.now))) (IsLeastOffender (OffendsValue (lists_of tables.now))) }
{
    first_refused_of(told, |c| has_good_word(tables, c))
}
