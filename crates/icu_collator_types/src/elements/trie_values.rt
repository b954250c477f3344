//! What the words of canonical tables say of a character's class.

ghost use Rattle.std.specs.Prelude.{◌≡◌};
ghost use Rattle.icu_collator_types.specs.TrieValues.{ccc_from_trie_value, has_ccc, is_special_decomposition};

/// All bits of a word but the two uppermost, which say nothing here.
const PLAIN_WORD: u32 = 0x3fff_ffff;

/// Whether the decomposition of the word's character begins with a mark.
#[inline]
pub(super) fn has_ccc(trie_value: u32) -> bool
    ensures { result ≡ has_ccc trie_value }
{
    let plain = trie_value & PLAIN_WORD;
    plain >= 0xd800 && plain <= 0xd9ff
}

/// Whether the word is that of a character whose decomposition is built in and begins with a mark.
#[inline]
pub(super) fn is_special_decomposition(trie_value: u32) -> bool
    ensures { result ≡ is_special_decomposition trie_value }
{
    let plain = trie_value & PLAIN_WORD;
    plain >= 0xd900 && plain <= 0xd9ff
}

/// The class that the word says, 0 of a starter.
#[inline]
pub(super) fn ccc_from_trie_value(trie_value: u32) -> u8
    ensures { result ≡ ccc_from_trie_value trie_value }
{
    if has_ccc(trie_value) {
        (trie_value & 0xff) as u8
    } else {
        0
    }
}
