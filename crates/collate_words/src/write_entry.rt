//! The word of a character, with all that is recorded of the texts that begin with it.

ghost use Rattle.std.specs.Prelude.{ℕ, IfOk};
ghost use Rattle.icu_collator_core.specs.Pools.{Pools as Lists};
ghost use Rattle.collate_words.specs.Entries.{saying_of};
ghost use Rattle.collate_words.specs.Fits.{HasRoom, IsFit};
ghost use Rattle.collate_words.specs.Growth.{Grows, GrowsFor};
ghost use Rattle.collate_words.specs.Sayings.{Saying, element_count, text_count};
ghost use Rattle.collate_words.specs.Written.{SaysOf};

use crate::entry::Entry;
use crate::pools::Pools;
use icu_char16trie::laws::values_stay_in_longer_units;
use std::alloc::{AllocError, Global};

impl Pools {
    /// The word of a character: it says just what the entry does. All that it names is written at the ends of the
    /// lists: of elements and words at most as many as it has elements and one, of contexts at most 145 units a text
    /// beside it. Fails only if memory is refused.
    pub fn write_entry(&mut self, alloc: Global, entry: &Entry<'_>) -> Result<u32, AllocError>
        requires fit { IsFit (saying_of entry.now) }
        requires room { HasRoom self.old (element_count (saying_of entry.now)) (text_count (saying_of entry.now)) }
        ensures grows { Grows self.old self.new }
        ensures size { GrowsFor (element_count (saying_of entry.now)) (text_count (saying_of entry.now)) self.old self.new }
        ensures says { IfOk result (λ word. SaysOf self.new word (saying_of entry.now)) }
    {
        let own = self.write_own(entry.own, entry.offset)?;
        match entry.digit {
            Some(value) => self.write_digit(value, own),
            None => {
                let suffixes = entry.suffixes.as_slice();
                let behind = self.write_suffixes(alloc, own, suffixes, entry.flags)?;
                let prefixes = entry.prefixes.as_slice();
                self.write_prefixes(alloc, behind, prefixes)
            }
        }
    }
}

/// What a word says stays said when the lists grow.
pub fn words_say_the_same_in_longer_lists()
    ensures { (pools larger : Lists) (word : ℕ) (saying : Saying)
        → Grows pools larger → SaysOf pools word saying → SaysOf larger word saying }
{
    values_stay_in_longer_units();
}
