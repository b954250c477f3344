//! The characters that lines name, and the aligned blocks of code points in which they lie.

ghost use Rattle.std.specs.Prelude.{◌≡◌, ℕ, ◌++◌, ◌∷◌, [], List, OnOk};
ghost use Rattle.icu_normalizer_core.specs.Named.{narrow_block};
ghost use Rattle.collate_rules.specs.Limits.{AreNamed};
ghost use Rattle.collate_rules.specs.Rules.{named};
ghost use Rattle.collate_lines.specs.Record.{said};

use collate_lines::record::Record;
use std::alloc::{AllocError, Global};
use std::collections::BTreeSet;

/// The aligned block of 16 code points in which a character lies, from U+10000 on; a character below counts as U+10000
/// does.
fn narrow_block(character: char) -> u32
    ensures { result ≡ narrow_block character }
{
    (character as u32).saturating_sub(0x1_0000) / 16
}

/// The characters that lines name, and the aligned blocks of 512 code points, and of 16 from U+10000 on, in which they
/// lie, each once.
#[derive(Drop)]
pub(crate) struct Names {
    pub(crate) characters: BTreeSet<char>,
    pub(crate) wide: BTreeSet<u32>,
    pub(crate) narrow: BTreeSet<u32>,
}

impl Names {
    /// None yet.
    pub(crate) fn new(alloc: Global) -> Names
        ensures { AreNamed result [] }
    {
        Names {
            characters: BTreeSet::new(alloc),
            wide: BTreeSet::new(alloc),
            narrow: BTreeSet::new(alloc),
        }
    }

    /// Adds a character.
    fn add(&mut self, character: char) -> Result<(), AllocError>
        ensures { (list : List ℕ) → AreNamed self.old list → OnOk result (AreNamed self.new (list ++ character ∷ [])) }
    {
        self.characters.insert(character)?;
        self.wide.insert(character as u32 / 512)?;
        self.narrow.insert(narrow_block(character))?;
        Ok(())
    }

    /// Adds the characters of a list.
    fn add_all(&mut self, characters: &[char]) -> Result<(), AllocError>
        ensures { (list : List ℕ) → AreNamed self.old list → OnOk result (AreNamed self.new (list ++ characters.now)) }
    {
        for character in characters {
            self.add(*character)?;
        }
        Ok(())
    }

    /// Adds the characters that a line names.
    pub(crate) fn add_line(&mut self, given: &Record) -> Result<(), AllocError>
        ensures { (list : List ℕ) → AreNamed self.old list → OnOk result (AreNamed self.new (list ++ named (said given.now))) }
    {
        match given {
            Record::Nothing => {}
            Record::Class { character, .. } => self.add(*character)?,
            Record::Map {
                character,
                first,
                second,
                ..
            } => {
                self.add(*character)?;
                self.add(*first)?;
                if let Some(second) = second {
                    self.add(*second)?;
                }
            }
            Record::Kmap { character, mapping } => {
                self.add(*character)?;
                self.add_all(mapping)?;
            }
            Record::Weights { prefix, text, .. } => {
                self.add_all(prefix)?;
                self.add_all(text)?;
            }
            Record::Digit { character, .. } => self.add(*character)?,
            Record::Range(_) | Record::Set(_) => {}
        }
        Ok(())
    }
}
