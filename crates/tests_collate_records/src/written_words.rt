//! Entries are written, and what their words name is read.

use assertions::assert_same;
use collate_words::entry::{Beside, Entry, SuffixFlags};
use collate_words::pools::Pools;
use icu_char16trie::{Char16Trie, TrieResult};
use icu_collator_types::elements::Element;
use icu_packed_vector::PackedVec;
use std::alloc::{AllocError, Global};
use std::test::Fail;

/// An element that a word states: of a primary of two bytes, the common secondary and the common tertiary.
const LETTER: Element = Element {
    primary: 0x2a10_0000,
    secondary: 0x0500,
    case: 0,
    tertiary: 0x0500,
    quaternary: 0,
};

/// The value that an answer gives, if it gives one.
fn value_of(answer: TrieResult) -> Option<i32> {
    match answer {
        TrieResult::Intermediate(value) | TrieResult::FinalValue(value) => Some(value),
        TrieResult::NoValue | TrieResult::NoMatch => None,
    }
}

/// What the units of the context at an index answer to those of a key.
fn answer_in(
    alloc: Global,
    contexts: &[u16],
    index: usize,
    key: &[u16],
) -> Result<TrieResult, AllocError> {
    if contexts.len() < 2 || contexts.len() - 2 < index {
        return Ok(TrieResult::NoMatch);
    }
    let trie = Char16Trie::new(PackedVec::from_slice(alloc, &contexts[index + 2..])?);
    let mut cursor = trie.iter();
    let mut answer = TrieResult::NoMatch;
    for unit in key {
        answer = cursor.next16(*unit);
    }
    Ok(answer)
}

/// The value of a key in the context at an index, if it has one.
fn value_in(
    alloc: Global,
    contexts: &[u16],
    index: usize,
    key: &[u16],
) -> Result<Option<i32>, AllocError> {
    Ok(value_of(answer_in(alloc, contexts, index, key)?))
}

/// The word of a letter that is recorded after "xy", before U+FF41 and, there without elements, before U+1D165; and the
/// contexts that it names.
fn write_contexts(alloc: Global) -> Result<(u32, Vec<u16>), AllocError> {
    let elements = [LETTER];
    let mut suffixes = Vec::new(alloc);
    suffixes.push(Beside {
        characters: &['\u{ff41}'],
        elements: &elements,
    })?;
    suffixes.push(Beside {
        characters: &['\u{1d165}'],
        elements: &[],
    })?;
    let mut prefixes = Vec::new(alloc);
    prefixes.push(Beside {
        characters: &['x', 'y'],
        elements: &elements,
    })?;
    let flags = SuffixFlags {
        all_begin: false,
        one_ends: true,
        one_holds: true,
    };
    let entry = Entry {
        own: Some(&elements),
        offset: None,
        digit: None,
        suffixes,
        prefixes,
        flags,
    };
    let mut pools = Pools::new(alloc);
    let word = pools.write_entry(alloc, &entry)?;
    let (_, _, contexts) = pools.into_lists();
    Ok((word, contexts))
}

/// U+1D165 comes after U+FF41 by its code, and before it by its first unit.
#[test]
fn keys_are_sorted_by_units(rt: HostRuntime) -> Result<(), Fail> {
    let alloc = rt.alloc();
    let (word, contexts) = write_contexts(alloc)?;
    let contexts = contexts.as_slice();
    assert_same!(rt; word & 0xff, 0xc8);
    let index = (word >> 13) as usize;
    assert!(rt; index + 1 < contexts.len());
    let behind = (u32::from(contexts[index]) << 16) + u32::from(contexts[index + 1]);
    assert_same!(rt; behind & 0x1fff, 0x0cc9);
    let before = value_in(alloc, contexts, index, &[0x79, 0x78])?;
    assert_same!(rt; before, Some(0x2a10_0505));
    assert_same!(rt; value_in(alloc, contexts, index, &[0x78, 0x79])?, None);
    let index = (behind >> 13) as usize;
    let listed = value_in(alloc, contexts, index, &[0xff41])?;
    assert_same!(rt; listed, Some(0x2a10_0505));
    let empty = value_in(alloc, contexts, index, &[0xd834, 0xdd65])?;
    assert_same!(rt; empty, Some(0));
    assert_same!(rt; value_in(alloc, contexts, index, &[0xd834])?, None);
    Ok(())
}

/// The word of a digit says its value, and names the word that counts where numbers aren't compared by value.
#[test]
fn digits_stand_over_their_own_words(rt: HostRuntime) -> Result<(), Fail> {
    let alloc = rt.alloc();
    let elements = [LETTER];
    let flags = SuffixFlags {
        all_begin: false,
        one_ends: false,
        one_holds: false,
    };
    let entry = Entry {
        own: Some(&elements),
        offset: None,
        digit: Some(7),
        suffixes: Vec::new(alloc),
        prefixes: Vec::new(alloc),
        flags,
    };
    let mut pools = Pools::new(alloc);
    let word = pools.write_entry(alloc, &entry)?;
    let (_, ce32s, contexts) = pools.into_lists();
    assert_same!(rt; word & 0x1fff, 0x07ca);
    assert_same!(rt; ce32s.get((word >> 13) as usize).copied(), Some(0x2a10_0505));
    assert_same!(rt; contexts.len(), 0);
    Ok(())
}
