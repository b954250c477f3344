//! Runs of characters that have one word, and where a walk over all characters goes on after them.

ghost use Rattle.std.specs.Prelude.{◌≡◌, ◌<◌, ◌≤◌, ℕ, IsTrue};
ghost use Rattle.icu_collator_core.specs.TableMeaning.{word_at};
ghost use Rattle.icu_collator_core.specs.UnrecordedWords.{records_nothing};

use super::layers::{Layer, is_fallback};
use crate::tables::CollationData;

/// The word of a character whose primary its code point gives.
const IMPLICIT_CE32: u32 = 0xcf;

/// Whether a word records nothing of the character: that is implicit, or left to the root.
fn records_nothing(layer: Layer, word: u32) -> bool
    ensures { result ≡ records_nothing layer word }
{
    word == IMPLICIT_CE32 || is_fallback(layer, word)
}

/// The code after the run of codes that have the word of this one.
pub(crate) fn behind_run(source: &CollationData<'_>, code: u32) -> u32
    requires { code < 0x11_0000 }
    ensures onward { code < result }
    ensures bound { result ≤ 0x11_0000 }
    ensures same { (c : ℕ) → code < c → c < result → word_at source.now c ≡ word_at source.now code }
{
    match source.trie.get_range(code) {
        Some(run) => run.range.end() + 1,
        None => code + 1,
    }
}

/// The code after the run where its word records nothing, else the next one.
pub(super) fn behind_unrecorded(layer: Layer, source: &CollationData<'_>, code: u32) -> u32
    requires { code < 0x11_0000 }
    ensures onward { code < result }
    ensures bound { result ≤ 0x11_0000 }
    ensures unrecorded { (c : ℕ) → code < c → c < result → IsTrue (records_nothing layer (word_at source.now c)) }
{
    if records_nothing(layer, source.trie.get32(code)) {
        behind_run(source, code)
    } else {
        code + 1
    }
}
