//! What lists hold of which the records say nothing: characters, and CRs at the end of lines.

use crate::request::Shape;
use crate::shown::Character;
use crate::texts::compared;
use collate_merge::part::without_cr;
use collate_sort::list::LineList;
use collate_sort::order::LineOrder;
use icu_normalizer_core::decoding::decode_utf8;
use std::alloc::{AllocError, Global};
use std::collections::BTreeMap;

/// How many code points there are.
const CODE_POINTS: usize = 0x11_0000;
/// The least first byte of a key of a character that no record names; what records name has a lower one.
const UNNAMED_LEAD: u8 = 0xFD;
/// How many characters are told at most where not all are listed.
const MOST_TOLD: usize = 5;

/// A character that the records don't name.
#[derive(Clone, Copy, Debug, PartialEq, Eq)]
pub struct Unnamed {
    /// The character; U+FFFD is damaged bytes too.
    pub character: char,
    /// How often it is there.
    pub count: usize,
    /// The first line that holds it, counted from 1 over all that is read.
    pub first: usize,
}

/// What lists hold that the records don't say.
#[derive(Drop)]
pub struct Found {
    /// How many lines hold characters that the records don't name.
    pub lines: usize,
    /// These characters, the most frequent first.
    pub characters: Vec<Unnamed>,
    /// How many lines end in a CR that is compared; it isn't among the characters.
    pub with_cr: usize,
}

/// Looks for what lines hold that the records don't say, by an order, in one list after another.
#[derive(Drop)]
pub struct Finder<'o> {
    order: &'o LineOrder,
    /// How many lines were looked at.
    seen: usize,
    /// How many of them hold characters that the records don't name.
    lines: usize,
    with_cr: usize,
    /// Whether a character is known to be named.
    named: Vec<bool>,
    unnamed: BTreeMap<char, Unnamed>,
    key: Vec<u8>,
}

impl<'o> Finder<'o> {
    /// One that has looked at nothing.
    ///
    /// Errors: `AllocError` where memory is refused.
    pub fn new(alloc: Global, order: &'o LineOrder) -> Result<Finder<'o>, AllocError> {
        Ok(Finder {
            order,
            seen: 0,
            lines: 0,
            with_cr: 0,
            named: vec![in alloc; false; CODE_POINTS]?,
            unnamed: BTreeMap::new(alloc),
            key: Vec::new(alloc),
        })
    }

    /// Whether the records name a character: whether its key alone is one that they can give.
    fn asks_named(&mut self, character: char) -> Result<bool, AllocError> {
        let mut buffer = [0; 4];
        let text = character.encode_utf8(&mut buffer);
        self.key.clear();
        self.order.write_key(text.as_bytes(), &mut self.key)?;
        match self.key.first() {
            Some(lead) => Ok(*lead < UNNAMED_LEAD),
            None => Ok(true),
        }
    }

    /// Looks at a character of a line. Answers whether the records name it.
    fn look_at(&mut self, character: char, line: usize) -> Result<bool, AllocError> {
        let index = character as usize;
        if let Some(true) = self.named.get(index) {
            return Ok(true);
        }
        if let Some(found) = self.unnamed.get_mut(&character) {
            found.count = found.count.saturating_add(1);
            return Ok(false);
        }
        if self.asks_named(character)? {
            if let Some(named) = self.named.get_mut(index) {
                *named = true;
            }
            return Ok(true);
        }
        let found = Unnamed {
            character,
            count: 1,
            first: line,
        };
        self.unnamed.insert(character, found)?;
        Ok(false)
    }

    /// Looks at the characters of a line. Answers whether the records name them all.
    fn look_at_all(&mut self, text: &[u8], line: usize) -> Result<bool, AllocError> {
        let mut all = true;
        for character in decode_utf8(text) {
            if !self.look_at(character, line)? {
                all = false;
            }
        }
        Ok(all)
    }

    /// Looks at what is compared of one line more.
    ///
    /// Errors: `AllocError` where memory is refused.
    pub fn look_at_text(&mut self, text: &[u8]) -> Result<(), AllocError> {
        self.seen = self.seen.saturating_add(1);
        let line = self.seen;
        if !self.look_at_all(text, line)? {
            self.lines = self.lines.saturating_add(1);
        }
        Ok(())
    }

    /// Looks at the lines of a list, at what of each is compared.
    ///
    /// Errors: `AllocError` where memory is refused.
    pub fn look(&mut self, shape: &Shape, list: &LineList<'_>) -> Result<(), AllocError> {
        for index in 0..list.len() {
            let Some(line) = list.get(index) else {
                break;
            };
            self.look_at_text(without_cr(compared(shape, line)))?;
            if !shape.crlf && without_cr(line).len() < line.len() {
                self.with_cr = self.with_cr.saturating_add(1);
            }
        }
        Ok(())
    }

    /// What was found, the most frequent characters first, as frequent ones by their code points.
    ///
    /// Errors: `AllocError` where memory is refused.
    pub fn found(&self, alloc: Global) -> Result<Found, AllocError> {
        let mut characters = Vec::new(alloc);
        for found in self.unnamed.values() {
            characters.push(*found)?;
        }
        characters.sort_by(|a, b| b.count.cmp(&a.count))?;
        Ok(Found {
            lines: self.lines,
            characters,
            with_cr: self.with_cr,
        })
    }
}

/// "line" or "lines", by how many there are, and the verb after it.
fn lines_that(count: usize, one: &'static str, more: &'static str) -> &'static str {
    if count == 1 { one } else { more }
}

impl Found {
    /// A line on the characters that the records don't name: in how many lines they are, and the first of them. `None` where
    /// there are none.
    ///
    /// Errors: `AllocError` where memory is refused.
    pub fn told_characters(&self, alloc: Global) -> Result<Option<String>, AllocError> {
        if self.lines == 0 {
            return Ok(None);
        }
        let verb = lines_that(self.lines, "line holds", "lines hold");
        let mut text = format!(in alloc;
            "{} {verb} characters that the records don't name:",
            self.lines
        )?;
        for (index, found) in self.characters.iter().take(MOST_TOLD).enumerate() {
            if index > 0 {
                text.push_str(",")?;
            }
            let shown = Character(found.character);
            let count = found.count;
            text.push_str(format!(in alloc; " {shown} {count}x")?.as_str())?;
        }
        text.push_str(if self.characters.len() > MOST_TOLD {
            ", and others (--unknown lists all)"
        } else {
            " (--unknown lists them)"
        })?;
        Ok(Some(text))
    }

    /// A line on CRs at the end of lines; `None` where there are none.
    ///
    /// Errors: `AllocError` where memory is refused.
    pub fn told_cr(&self, alloc: Global) -> Result<Option<String>, AllocError> {
        if self.with_cr == 0 {
            return Ok(None);
        }
        let verb = lines_that(self.with_cr, "line ends", "lines end");
        let text = format!(in alloc;
            "{} {verb} in CR, which is compared (--crlf leaves it out)",
            self.with_cr
        )?;
        Ok(Some(text))
    }
}
