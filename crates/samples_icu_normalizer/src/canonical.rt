//! What canonical tables mean, looked up item by item: classes, mappings and pairs; and the decomposed and the composed list
//! of characters by these alone.

use icu_normalizer_core::canonical::CanonicalTables;
use std::alloc::Global;

/// The most mappings that lie between a character of these tables and what it decomposes to.
const STEPS: u32 = 4;

/// The marks that are mapped whatever the tables say, with their classes.
const BUILT_IN: [(char, u8, &str); 7] = [
    ('\u{340}', 230, "\u{300}"),
    ('\u{341}', 230, "\u{301}"),
    ('\u{343}', 230, "\u{313}"),
    ('\u{344}', 230, "\u{308}\u{301}"),
    ('\u{f73}', 0, "\u{f71}\u{f72}"),
    ('\u{f75}', 0, "\u{f71}\u{f74}"),
    ('\u{f81}', 0, "\u{f71}\u{f80}"),
];

/// The first syllable, and the number of syllables.
const SYLLABLES: (u32, u32) = (0xac00, 11172);

/// The index of a syllable among all.
fn syllable(c: char) -> Option<u32> {
    let index = (c as u32).checked_sub(SYLLABLES.0)?;
    if index < SYLLABLES.1 {
        Some(index)
    } else {
        None
    }
}

/// What is built in of a character.
fn built_in(c: char) -> Option<(u8, &'static str)> {
    for (mark, class, list) in BUILT_IN {
        if mark == c {
            return Some((class, list));
        }
    }
    None
}

/// The class of a character.
pub fn class_of(tables: &CanonicalTables<'_>, c: char) -> u8 {
    if let Some((class, _)) = built_in(c) {
        return class;
    }
    let word = tables.trie.get(c) & 0x3fff_ffff;
    if word & 0xffff_ff00 == 0xd800 {
        (word & 0xff) as u8
    } else {
        0
    }
}

/// Appends a character of a number.
fn push_number(list: &mut Vec<char>, number: u32) -> Option<()> {
    list.push(char::from_u32(number)?).ok()
}

/// Appends the two parts of a syllable.
fn push_parts(list: &mut Vec<char>, index: u32) -> Option<()> {
    if index % 28 == 0 {
        push_number(list, 0x1100u32.wrapping_add(index / 588))?;
        return push_number(list, 0x1161u32.wrapping_add(index % 588 / 28));
    }
    let last = index % 28;
    push_number(list, SYLLABLES.0.wrapping_add(index).wrapping_sub(last))?;
    push_number(list, 0x11a7u32.wrapping_add(last))
}

/// Appends what a list of mappings has for a character, or the character.
fn push_listed(tables: &CanonicalTables<'_>, list: &mut Vec<char>, c: char) -> Option<()> {
    let steps = &tables.steps;
    for triple in 0..steps.len() / 3 {
        let at = triple.wrapping_mul(3);
        if steps.get(at)? == c as u32 {
            push_number(list, steps.get(at.wrapping_add(1))?)?;
            let second = steps.get(at.wrapping_add(2))?;
            return if second == 0x11_0000 {
                Some(())
            } else {
                push_number(list, second)
            };
        }
    }
    list.push(c).ok()
}

/// Appends what a character is mapped to, or the character.
fn push_mapped(tables: &CanonicalTables<'_>, list: &mut Vec<char>, c: char) -> Option<()> {
    if let Some(index) = syllable(c) {
        return push_parts(list, index);
    }
    match built_in(c) {
        Some((_, parts)) => {
            for part in parts.chars() {
                list.push(part).ok()?;
            }
            Some(())
        }
        None => push_listed(tables, list, c),
    }
}

/// A list with each character mapped once.
fn mapped(alloc: Global, tables: &CanonicalTables<'_>, list: &[char]) -> Option<Vec<char>> {
    let mut mapped = Vec::new(alloc);
    for c in list {
        push_mapped(tables, &mut mapped, *c)?;
    }
    Some(mapped)
}

/// Puts a character after the others; a mark before the marks of higher classes that are last.
fn put_in_order(tables: &CanonicalTables<'_>, list: &mut Vec<char>, c: char) -> Option<()> {
    let class = class_of(tables, c);
    let count = list
        .iter()
        .rev()
        .take_while(|other| class != 0 && class_of(tables, **other) > class)
        .count();
    list.insert(list.len().saturating_sub(count), c).ok()
}

/// The decomposed list of characters.
pub fn decomposed(
    alloc: Global,
    tables: &CanonicalTables<'_>,
    characters: &[char],
) -> Option<Vec<char>> {
    let mut list = mapped(alloc, tables, characters)?;
    for _step in 1..STEPS {
        list = mapped(alloc, tables, list.as_slice())?;
    }
    let mut ordered = Vec::new(alloc);
    for c in list.as_slice() {
        put_in_order(tables, &mut ordered, *c)?;
    }
    Some(ordered)
}

/// The syllable that two characters make.
fn syllable_of(first: char, second: char) -> Option<char> {
    let (first, second) = (first as u32, second as u32);
    if let (Some(leading), Some(vowel)) = (first.checked_sub(0x1100), second.checked_sub(0x1161)) {
        if leading < 19 && vowel < 21 {
            let index = leading
                .wrapping_mul(21)
                .wrapping_add(vowel)
                .wrapping_mul(28);
            return char::from_u32(SYLLABLES.0.wrapping_add(index));
        }
    }
    let last = second.checked_sub(0x11a7)?;
    let index = first.checked_sub(SYLLABLES.0)?;
    if index < SYLLABLES.1 && index % 28 == 0 && 0 < last && last < 28 {
        return char::from_u32(first.wrapping_add(last));
    }
    None
}

/// The character that two compose to.
fn composed_pair(tables: &CanonicalTables<'_>, first: char, second: char) -> Option<char> {
    if let Some(c) = syllable_of(first, second) {
        return Some(c);
    }
    for pair in tables.pairs.iter() {
        if pair >> 42 == u64::from(first as u32)
            && (pair >> 21) & 0x1f_ffff == u64::from(second as u32)
        {
            return char::from_u32((pair & 0x1f_ffff) as u32);
        }
    }
    None
}

/// The composed character of the last starter of a list and one after it, with the starter's index.
fn composed_last(tables: &CanonicalTables<'_>, list: &[char], c: char) -> Option<(usize, char)> {
    let marks = list
        .iter()
        .rev()
        .take_while(|mark| class_of(tables, **mark) != 0)
        .count();
    let index = list.len().checked_sub(marks)?.checked_sub(1)?;
    let between = list.get(index.wrapping_add(1)..)?;
    let class = class_of(tables, c);
    if between.iter().any(|mark| class_of(tables, *mark) >= class) {
        return None;
    }
    Some((index, composed_pair(tables, *list.get(index)?, c)?))
}

/// The composed list of a decomposed one.
pub fn composed(alloc: Global, tables: &CanonicalTables<'_>, list: &[char]) -> Option<Vec<char>> {
    let mut composed: Vec<char> = Vec::new(alloc);
    for c in list {
        match composed_last(tables, composed.as_slice(), *c) {
            Some((index, z)) => *composed.get_mut(index)? = z,
            None => composed.push(*c).ok()?,
        }
    }
    Some(composed)
}
