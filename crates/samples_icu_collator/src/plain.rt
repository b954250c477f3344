//! The elements of a text, read slowly from tables by the rules alone: what stands in the tables is looked up afresh for
//! each text that might be recorded. It is what the reader's answers are compared with.

mod numbers;
pub mod recorded;

use icu_normalizer_core::canonical::CanonicalBorrowed;
use numbers::push_number;
use recorded::Tables;
use std::alloc::Global;

/// The most characters that a recorded text has.
const TEXT_LIMIT: usize = 8;

/// The most characters that a prefix has.
const PREFIX_LIMIT: usize = 3;

/// The bit of metadata that says that the dot above may go.
const DOT_ABOVE: u32 = 0x40;

/// The bits below a primary: common weights.
const COMMON_REST: u64 = 0x0500_0500;

/// A character of a list that is left to be read.
#[derive(Clone, Copy, Debug)]
struct Left {
    /// Its index in the whole list.
    index: usize,
    /// The character.
    c: char,
}

/// A text that is read.
#[derive(Drop)]
struct Reading<'t> {
    alloc: Global,
    /// The whole decomposed list.
    whole: &'t [char],
    /// The elements so far, 64 bits each.
    elements: Vec<u64>,
}

/// The decomposed list of characters.
fn decomposed(
    alloc: Global,
    canonical: CanonicalBorrowed<'_>,
    characters: &[char],
) -> Option<Vec<char>> {
    let mut list = Vec::new(alloc);
    for item in canonical.classed(alloc, characters.iter().copied()) {
        let (c, _) = item.ok()?;
        list.push(c).ok()?;
    }
    Some(list)
}

/// The characters of what is left.
fn characters_of(alloc: Global, left: &[Left]) -> Option<Vec<char>> {
    left.iter().map(|left| left.c).collect(alloc).ok()
}

/// A text with a character more.
fn with(alloc: Global, text: &[char], c: char) -> Option<Vec<char>> {
    let mut longer = Vec::new(alloc);
    longer.extend_from_slice(text).ok()?;
    longer.push(c).ok()?;
    Some(longer)
}

/// A copy of what is left from an index on.
fn left_from(alloc: Global, left: &[Left], count: usize) -> Option<Vec<Left>> {
    let mut rest = Vec::new(alloc);
    rest.extend_from_slice(left.get(count..)?).ok()?;
    Some(rest)
}

impl Reading<'_> {
    /// The elements of a character after the longest of its prefixes that stands before it, if one is recorded.
    fn prefixed(&self, tables: &Tables<'_>, first: Left) -> Option<Vec<u64>> {
        let before = self.whole.get(..first.index)?;
        let mut found = None;
        for count in 1..=PREFIX_LIMIT {
            let from = before.len().checked_sub(count)?;
            match tables.recorded(self.alloc, before.get(from..)?, &[first.c]) {
                None => {}
                Some(elements) => found = Some(elements),
            }
            if from == 0 {
                break;
            }
        }
        found
    }

    /// The number of characters of the longest recorded text at the beginning of what is left; 1 where there is none.
    fn longest(&self, tables: &Tables<'_>, text: &[char]) -> usize {
        let mut longest = 1;
        for count in 2..=TEXT_LIMIT {
            if let Some(text) = text.get(..count) {
                if tables.recorded(self.alloc, &[], text).is_some() {
                    longest = count;
                }
            }
        }
        longest
    }

    /// Joins a text with the marks that follow it, and appends the elements; what is left.
    fn read_text(&mut self, tables: &Tables<'_>, left: &[Left]) -> Option<Vec<Left>> {
        let characters = characters_of(self.alloc, left)?;
        let count = self.longest(tables, characters.as_slice());
        let mut text = Vec::new(self.alloc);
        text.extend_from_slice(characters.get(..count)?).ok()?;
        let mut rest = Vec::new(self.alloc);
        let mut highest = 0;
        let mut is_open = true;
        for next in left.get(count..)? {
            let class = tables.canonical.class(next.c);
            is_open = is_open && class != 0;
            let longer = with(self.alloc, text.as_slice(), next.c)?;
            let joins = is_open && class > highest && tables.is_text(self.alloc, &longer);
            if joins {
                text = longer;
            } else {
                highest = highest.max(class);
                rest.push(*next).ok()?;
            }
        }
        let elements = tables.elements_of_text(self.alloc, text.as_slice())?;
        self.elements.extend_from_slice(elements.as_slice()).ok()?;
        Some(rest)
    }

    /// Appends the elements of the number at the beginning of what is left; what is left behind it.
    fn read_number(&mut self, tables: &Tables<'_>, left: &[Left], lead: u8) -> Option<Vec<Left>> {
        let mut digits = Vec::new(self.alloc);
        for next in left {
            match tables.digit(next.c) {
                Some(digit) => digits.push(digit).ok()?,
                None => break,
            }
        }
        push_number(self.alloc, lead, digits.as_slice(), &mut self.elements)?;
        left_from(self.alloc, left, digits.len())
    }

    /// Appends one element; what is left behind one character.
    fn read_one(&mut self, left: &[Left], primary: u32) -> Option<Vec<Left>> {
        let bits = (u64::from(primary) << 32) | COMMON_REST;
        self.elements.push(bits).ok()?;
        left_from(self.alloc, left, 1)
    }

    /// Reads a character that is neither special nor in a number; what is left.
    fn read_other(&mut self, tables: &Tables<'_>, left: &[Left]) -> Option<Vec<Left>> {
        let first = *left.first()?;
        if tables.has_bit(DOT_ABOVE) && first.c == '\u{307}' {
            if let Some(next) = left.get(1) {
                if matches!(next.c, '\u{300}' | '\u{301}' | '\u{303}') {
                    return left_from(self.alloc, left, 1);
                }
            }
        }
        match self.prefixed(tables, first) {
            None => self.read_text(tables, left),
            Some(elements) => {
                self.elements.extend_from_slice(elements.as_slice()).ok()?;
                left_from(self.alloc, left, 1)
            }
        }
    }

    /// Reads what begins with a character; what is left.
    fn read(
        &mut self,
        tables: &Tables<'_>,
        left: &[Left],
        numeric: Option<u8>,
    ) -> Option<Vec<Left>> {
        let first = *left.first()?;
        match (first.c, numeric) {
            ('\u{fffe}', _) => self.read_one(left, 0x0200_0000),
            ('\u{fffd}', _) => self.read_one(left, 0xfffd_0000),
            ('\u{ffff}', _) => self.read_one(left, 0xffff_0000),
            (_, Some(lead)) if tables.digit(first.c).is_some() => {
                self.read_number(tables, left, lead)
            }
            _ => self.read_other(tables, left),
        }
    }

    /// Reads all that is left.
    fn read_all(&mut self, tables: &Tables<'_>, all: Vec<Left>, numeric: Option<u8>) -> Option<()> {
        let mut left = all;
        for _ in 0..self.whole.len() {
            if !left.is_empty() {
                left = self.read(tables, left.as_slice(), numeric)?;
            }
        }
        Some(())
    }
}

/// The characters of a list, with their indices.
fn all_of(alloc: Global, whole: &[char]) -> Option<Vec<Left>> {
    let mut all = Vec::new(alloc);
    for (index, c) in whole.iter().enumerate() {
        all.push(Left { index, c: *c }).ok()?;
    }
    Some(all)
}

/// The elements of characters, 64 bits each; `None` where the tables say nothing that could be read, or memory is refused.
/// With a lead the digits are read as numbers.
pub fn plain_elements(
    alloc: Global,
    tables: &Tables<'_>,
    characters: &[char],
    numeric: Option<u8>,
) -> Option<Vec<u64>> {
    let whole = decomposed(alloc, tables.canonical, characters)?;
    let all = all_of(alloc, whole.as_slice())?;
    let mut reading = Reading {
        alloc,
        whole: whole.as_slice(),
        elements: Vec::new(alloc),
    };
    reading.read_all(tables, all, numeric)?;
    let Reading { elements, .. } = reading;
    Some(elements)
}
