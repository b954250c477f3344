//! The word that counts for a character by sound tables.

ghost use Rattle.std.specs.Prelude.{ℕ, Option};
ghost use Rattle.icu_collator_core.specs.ReadSources.{weights_by};
ghost use Rattle.icu_collator_core.specs.ReadWords.{AreSaidBy, table_word};

use crate::sound::SoundTables;
use crate::table_words::counting_words::{CountingWord, counting_word};

/// The word that counts for a character by sound tables, by which their weights say all that they say of it, whatever
/// lead byte numbers have.
pub(crate) fn checked_word<'t>(sound: &'t SoundTables<'_>, c: char) -> CountingWord<'t>
    ensures { (numeric : Option ℕ) → AreSaidBy (weights_by numeric sound.now) (table_word result) c }
{
    counting_word(sound.canonical(), sound.tables(), c)
}
