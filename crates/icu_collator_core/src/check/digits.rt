//! Which characters are digits.

ghost use Rattle.std.specs.Prelude.{◌≡◌, is_some};
ghost use Rattle.icu_normalizer_core.specs.BorrowedMeaning.{borrowed_meaning};
ghost use Rattle.icu_collator_core.specs.TableMeaning.{weights_of};

use crate::table_words::counting_words::counting_word;
use crate::tables::CollationTables;
use icu_normalizer_core::canonical::CanonicalBorrowed;

/// Whether a character is a digit, by the word that counts for it.
pub(super) fn is_digit(
    canonical: CanonicalBorrowed<'_>,
    tables: &CollationTables<'_>,
    c: char,
) -> bool
    ensures { result ≡ is_some ((weights_of (borrowed_meaning canonical.entry) tables.now).digit c) }
{
    counting_word(canonical, tables, c).digit().is_some()
}
