//! To how many characters lines map a character, noted to be looked up.

ghost use Rattle.std.specs.Prelude.{◌≡◌, ◌==◌, ◌∷◌, ◌++◌, ℕ, [], cond, List, Some, None, map, ltb, length, IfOk, OnOk};
ghost use Rattle.std.specs.List.{list_any};
ghost use Rattle.std.specs.Option.{option_or, option_to_list};
ghost use Rattle.std.specs.Ordering.{nat_cmp};
ghost use Rattle.std.specs.BTreeMap.{get};
ghost use Rattle.icu_normalizer_core.specs.ListRoom.{is_stated, list_room};
ghost use Rattle.collate_lines.specs.Record.{Record as PlainRecord, said};
ghost use Rattle.collate_rules.specs.Lists.{steps_by};
ghost use Rattle.collate_rules.specs.Meaning.{any_step, compatibility_of, step_of};
ghost use Rattle.collate_rules.specs.MappedLines.{HasCompatibilities, HasMappings, compatibility_line, mapping_line};
ghost use Rattle.collate_rules.specs.Rules.{canonical_room, mapping_room};

use crate::full_list::Mappings;
use crate::noted::is_to_some;
use collate_lines::record::Record;
use icu_normalizer_core::built_in::{built_in_compatibility_step, built_in_step, is_built_in};
use std::alloc::{AllocError, Global};
use std::collections::BTreeMap;

/// To how many characters lines map a character, canonically and by compatibility.
pub(crate) struct Mapped<'r> {
    pub(crate) lines: &'r [Record],
    canonical: BTreeMap<char, usize>,
    compatible: BTreeMap<char, usize>,
    ghost has_canonical: { HasMappings canonical (map said lines.now) },
    ghost has_compatible: { HasCompatibilities compatible (map said lines.now) },
}

// (let go of as one, and not part by part, so that what owns one is proved sooner)
impl Drop for Mapped<'_> {
    fn drop(self) {
        let Mapped {
            lines: _,
            canonical: _,
            compatible: _,
        } = self;
    }
}

impl<'r> Mapped<'r> {
    /// What these lines map. Fails only if memory is refused.
    pub(crate) fn new(alloc: Global, lines: &'r [Record]) -> Result<Mapped<'r>, AllocError>
        ensures { IfOk result (λ noted. noted.lines.now ≡ lines.now) }
    {
        let canonical = mappings_in(alloc, lines)?;
        let compatible = compatibilities_in(alloc, lines)?;
        Ok(Mapped {
            lines,
            canonical,
            compatible,
        })
    }

    /// Whether a character has a canonical mapping to some characters, built in or by the lines.
    fn leads_canonically(&self, c: char) -> bool
        ensures { result ≡ ltb 0 (length (step_of (map said self.now.lines.now) c)) }
    {
        if is_built_in(c as u32) {
            is_to_some(built_in_step(c as u32))
        } else {
            self.canonical.get(&c).copied().unwrap_or(0) > 0
        }
    }

    /// Whether lines give a character a compatibility mapping to some characters, where nothing is built in.
    fn leads_compatibly(&self, c: char) -> bool
        ensures { result ≡ ltb 0 (length (compatibility_of (map said self.now.lines.now) c)) }
    {
        if is_built_in(c as u32) {
            false
        } else {
            self.compatible.get(&c).copied().unwrap_or(0) > 0
        }
    }

    /// Whether a character has a mapping of either kind to some characters, built in or by the lines.
    fn leads_at_all(&self, c: char) -> bool
        ensures { result ≡ ltb 0 (length (any_step (map said self.now.lines.now) c)) }
    {
        match built_in_compatibility_step(c as u32) {
            Some(_) => true,
            None => self.leads_canonically(c) || self.leads_compatibly(c),
        }
    }

    /// Whether a character has such a mapping to some characters.
    fn leads(&self, mappings: Mappings, c: char) -> bool
        ensures { result ≡ ltb 0 (length (steps_by mappings (map said self.now.lines.now) c)) }
    {
        match mappings {
            Mappings::Canonical => self.leads_canonically(c),
            Mappings::All => self.leads_at_all(c),
        }
    }

    /// Whether one of these has.
    fn any_leads(&self, mappings: Mappings, characters: &[char]) -> bool
        ensures { result ≡ list_any (λ d. ltb 0 (length (steps_by mappings (map said self.now.lines.now) d))) characters.now }
    {
        for c in characters {
            if self.leads(mappings, *c) {
                return true;
            }
        }
        false
    }

    /// How many characters the full list of a mapping to these takes at most.
    fn room(&self, mappings: Mappings, characters: &[char]) -> usize
        ensures { result ≡ list_room (steps_by mappings (map said self.now.lines.now)) characters.now }
    {
        if self.any_leads(mappings, characters) {
            8
        } else {
            room_alone(characters)
        }
    }

    /// How many characters the full list of the character that a line maps canonically takes at most.
    pub(crate) fn canonical_room(&self, given: &Record) -> usize
        ensures { result ≡ canonical_room (map said self.now.lines.now) (said given.now) }
    {
        match given {
            Record::Map { first, second, .. } => {
                self.map_room(Mappings::Canonical, *first, *second)
            }
            _ => 0,
        }
    }

    /// How many characters the full list of the character that a line maps takes at most, by mappings of both kinds.
    pub(crate) fn mapping_room(&self, given: &Record) -> usize
        ensures { result ≡ mapping_room (map said self.now.lines.now) (said given.now) }
    {
        match given {
            Record::Map { first, second, .. } => self.map_room(Mappings::All, *first, *second),
            Record::Kmap { mapping, .. } => self.room(Mappings::All, mapping.as_slice()),
            _ => 0,
        }
    }

    /// How many characters the full list of a mapping to one character or to two takes at most.
    fn map_room(&self, mappings: Mappings, first: char, second: Option<char>) -> usize
        ensures { result ≡ list_room (steps_by mappings (map said self.now.lines.now)) (first ∷ option_to_list second) }
    {
        match second {
            Some(second) => self.room(mappings, &[first, second]),
            None => self.room(mappings, &[first]),
        }
    }
}

/// How many characters a list takes that no steps lead on.
fn room_alone(characters: &[char]) -> usize
    ensures { result ≡ cond (is_stated characters.now) 0 (length characters.now) }
{
    match characters {
        [c] if '\u{2}' <= *c && *c <= '\u{ffff}' => 0,
        _ => characters.len(),
    }
}

/// To how many characters lines map canonically. Fails only if memory is refused.
fn mappings_in(alloc: Global, lines: &[Record]) -> Result<BTreeMap<char, usize>, AllocError>
    ensures { IfOk result (λ lengths. HasMappings lengths (map said lines.now)) }
{
    let mut lengths = BTreeMap::new(alloc);
    for line in lines {
        note_mapping(&mut lengths, line)?;
    }
    Ok(lengths)
}

/// Notes to how many characters one more line maps canonically, if it does.
fn note_mapping(lengths: &mut BTreeMap<char, usize>, line: &Record) -> Result<(), AllocError>
    ensures { (lines : List PlainRecord) → HasMappings lengths.old lines → OnOk result (HasMappings lengths.new (lines ++ said line.now ∷ [])) }
{
    match mapping_line(line) {
        Some((character, length)) => {
            put_length(lengths, character, length)?;
            Ok(())
        }
        None => Ok(()),
    }
}

/// To how many characters lines map by compatibility. Fails only if memory is refused.
fn compatibilities_in(alloc: Global, lines: &[Record]) -> Result<BTreeMap<char, usize>, AllocError>
    ensures { IfOk result (λ lengths. HasCompatibilities lengths (map said lines.now)) }
{
    let mut lengths = BTreeMap::new(alloc);
    for line in lines {
        note_compatibility(&mut lengths, line)?;
    }
    Ok(lengths)
}

/// Notes to how many characters one more line maps by compatibility, if it does.
fn note_compatibility(lengths: &mut BTreeMap<char, usize>, line: &Record) -> Result<(), AllocError>
    ensures { (lines : List PlainRecord) → HasCompatibilities lengths.old lines → OnOk result (HasCompatibilities lengths.new (lines ++ said line.now ∷ [])) }
{
    match compatibility_line(line) {
        Some((character, length)) => {
            put_length(lengths, character, length)?;
            Ok(())
        }
        None => Ok(()),
    }
}

/// Notes a number, unless one is noted of the character.
fn put_length(
    lengths: &mut BTreeMap<char, usize>,
    character: char,
    length: usize,
) -> Result<(), AllocError>
    ensures { OnOk result ((c : ℕ) → get nat_cmp lengths.new c ≡ option_or (get nat_cmp lengths.old c) (cond (c == character) (Some length) None)) }
{
    if lengths.get(&character).is_none() {
        lengths.insert(character, length)?;
    }
    Ok(())
}

/// The character that a line maps canonically, and to how many.
fn mapping_line(line: &Record) -> Option<(char, usize)>
    ensures { result ≡ mapping_line (said line.now) }
{
    match line {
        Record::Map {
            character,
            second: None,
            ..
        } => Some((*character, 1)),
        Record::Map {
            character,
            second: Some(_),
            ..
        } => Some((*character, 2)),
        _ => None,
    }
}

/// The character that a line maps by compatibility, and to how many.
fn compatibility_line(line: &Record) -> Option<(char, usize)>
    ensures { result ≡ compatibility_line (said line.now) }
{
    match line {
        Record::Kmap { character, mapping } => Some((*character, mapping.len())),
        _ => None,
    }
}
