//! What lines say of classes and mappings, kept to be looked up.

ghost use Rattle.std.specs.Prelude.{◌≡◌, ◌==◌, ◌&&◌, ℕ, ◌∷◌, ◌++◌, [], cond, All, List, Some, None, map, Option, option_map, IfOk, OnOk};
ghost use Rattle.std.specs.Option.{is_some, option_or};
ghost use Rattle.std.specs.Ordering.{nat_cmp};
ghost use Rattle.std.specs.BTreeMap.{get};
ghost use Rattle.icu_normalizer_core.specs.Properties.{mapped_to};
ghost use Rattle.collate_lines.specs.Record.{Record as PlainRecord, said};
ghost use Rattle.collate_rules.specs.Meaning.{first_found, class_in, mapping_in, compatibility_in, composed_in, class_of, step_of, compatibility_of, else_mapped, any_step, pair_of};
ghost use Rattle.collate_rules.specs.NotedLines.{HasClasses};
ghost use Rattle.collate_rules.specs.PartMaps.{HasCompatibilities, HasExclusions, HasMappings, HasPairs, class_in_part, compatibility_in_part, exclusion_in_part, is_excluded, mapping_in_part, pair_cmp, pair_in_part};
ghost use Rattle.collate_rules.specs.Rules.{is_mapped, is_mapped_twice};
ghost use Rattle.collate_rules.specs.CanonicalParts.{in_full, AreOf, IsShort, step_items};

use crate::canonical_part::{CanonicalPart, canonical_part};
use crate::step::Step;
use collate_lines::record::Record;
use icu_normalizer_core::built_in::{
    built_in_class, built_in_compatibility_step, built_in_step, is_built_in, syllable_of,
};
use icu_normalizer_core::properties::Decomposed;
use std::alloc::{AllocError, Global};
use std::collections::BTreeMap;

/// What lines say of classes, mappings and composed pairs. Of two lines on one character the first counts.
pub struct CanonicalParts {
    /// What each line says, in the order of the lines.
    pub list: Vec<CanonicalPart>,
    classes: BTreeMap<char, u16>,
    mappings: BTreeMap<char, Decomposed>,
    exclusions: BTreeMap<char, bool>,
    compatibilities: BTreeMap<char, Step>,
    pairs: BTreeMap<(char, char), char>,
    ghost has_classes: { HasClasses classes (map in_full list.items) },
    ghost has_mappings: { HasMappings mappings (map in_full list.items) },
    ghost has_exclusions: { HasExclusions exclusions (map in_full list.items) },
    ghost has_compatibilities: { HasCompatibilities compatibilities (map in_full list.items) },
    ghost has_pairs: { HasPairs pairs (map in_full list.items) },
}

// (let go of as one, and not part by part, so that what owns one is proved sooner)
impl Drop for CanonicalParts {
    fn drop(self) {
        let CanonicalParts {
            list: _,
            classes: _,
            mappings: _,
            exclusions: _,
            compatibilities: _,
            pairs: _,
        } = self;
    }
}

impl CanonicalParts {
    /// None yet.
    pub fn new(alloc: Global) -> CanonicalParts
        ensures { result.list.items ≡ [] }
    {
        CanonicalParts {
            list: Vec::new(alloc),
            classes: BTreeMap::new(alloc),
            mappings: BTreeMap::new(alloc),
            exclusions: BTreeMap::new(alloc),
            compatibilities: BTreeMap::new(alloc),
            pairs: BTreeMap::new(alloc),
        }
    }

    /// What these lines say, in their order. Fails only if memory is refused.
    pub fn of_lines(alloc: Global, lines: &[Record]) -> Result<CanonicalParts, AllocError>
        requires { All IsShort (map said lines.now) }
        ensures { IfOk result (λ parts. AreOf parts.list.items (map said lines.now)) }
    {
        let mut parts = CanonicalParts::new(alloc);
        for line in lines {
            let more = parts.with_line(line)?;
            parts = more;
        }
        Ok(parts)
    }

    /// With what one more line says, if it says something of classes and mappings. Fails only if memory is refused.
    fn with_line(self, line: &Record) -> Result<CanonicalParts, AllocError>
        requires { IsShort (said line.now) }
        ensures { (lines : List PlainRecord) → AreOf self.list.items lines → IfOk result (λ parts. AreOf parts.list.items (lines ++ said line.now ∷ [])) }
    {
        match canonical_part(line) {
            Some(part) => self.with(part),
            None => Ok(self),
        }
    }

    /// With one part more, which stands last. Fails only if memory is refused.
    pub fn with(self, part: CanonicalPart) -> Result<CanonicalParts, AllocError>
        ensures { IfOk result (λ parts. parts.list.items ≡ self.list.items ++ part ∷ []) }
    {
        let CanonicalParts {
            mut list,
            mut classes,
            mut mappings,
            mut exclusions,
            mut compatibilities,
            mut pairs,
        } = self;
        list.push(part)?;
        note_class(&mut classes, part)?;
        note_mapping(&mut mappings, part)?;
        note_exclusion(&mut exclusions, part)?;
        note_compatibility(&mut compatibilities, part)?;
        note_pair(&mut pairs, part)?;
        Ok(CanonicalParts {
            list,
            classes,
            mappings,
            exclusions,
            compatibilities,
            pairs,
        })
    }

    /// The parts, in the order of their lines.
    pub fn as_slice(&self) -> &[CanonicalPart]
        ensures { result.now ≡ self.now.list.items }
    {
        self.list.as_slice()
    }

    /// The class that the first part on it gives to a character.
    fn said_class(&self, c: char) -> Option<u16>
        ensures { result ≡ first_found (class_in c) (map in_full self.now.list.items) }
    {
        self.classes.get(&c).copied()
    }

    /// The mapping that the first part on it gives to a character.
    fn said_mapping(&self, c: char) -> Option<Decomposed>
        ensures { option_map mapped_to result ≡ first_found (mapping_in c) (map in_full self.now.list.items) }
    {
        self.mappings.get(&c).copied()
    }

    /// The compatibility mapping that the first part on it gives to a character.
    fn said_compatibility(&self, c: char) -> Option<Step>
        ensures { option_map step_items result ≡ first_found (compatibility_in c) (map in_full self.now.list.items) }
    {
        self.compatibilities.get(&c).copied()
    }

    /// The character that the first part on them makes of two.
    fn said_pair(&self, first: char, second: char) -> Option<char>
        ensures { result ≡ first_found (composed_in first second) (map in_full self.now.list.items) }
    {
        self.pairs.get(&(first, second)).copied()
    }

    /// Whether the first part that maps a character canonically keeps it out of the composed pairs.
    pub fn is_excluded(&self, c: char) -> bool
        ensures { result ≡ is_excluded (map in_full self.now.list.items) c }
    {
        self.exclusions.get(&c).copied().unwrap_or(false)
    }

    /// Whether a part gives a canonical mapping to a character.
    fn is_mapped_canonically(&self, c: char) -> bool
        ensures { result ≡ is_some (first_found (mapping_in c) (map in_full self.now.list.items)) }
    {
        self.said_mapping(c).is_some()
    }

    /// Whether a part gives a compatibility mapping to a character.
    fn is_mapped_compatibly(&self, c: char) -> bool
        ensures { result ≡ is_some (first_found (compatibility_in c) (map in_full self.now.list.items)) }
    {
        self.said_compatibility(c).is_some()
    }

    /// Whether parts map a character, canonically or by compatibility.
    pub fn is_mapped(&self, c: char) -> bool
        ensures { result ≡ is_mapped (map in_full self.now.list.items) c }
    {
        self.is_mapped_canonically(c) || self.is_mapped_compatibly(c)
    }

    /// Whether parts map a character both canonically and by compatibility.
    pub fn is_mapped_twice(&self, c: char) -> bool
        ensures { result ≡ is_mapped_twice (map in_full self.now.list.items) c }
    {
        self.is_mapped_canonically(c) && self.is_mapped_compatibly(c)
    }

    /// The class of a character: what is built in, else what a part says, else 0.
    pub fn class_of(&self, c: char) -> u16
        ensures { result ≡ class_of (map in_full self.now.list.items) c }
    {
        match built_in_class(c as u32) {
            Some(class) => u16::from(class),
            None => self.said_class(c).unwrap_or(0),
        }
    }

    /// The canonical mapping of a character: what is built in, else what a part says, else none.
    pub fn step_of(&self, c: char) -> Decomposed
        ensures { mapped_to result ≡ step_of (map in_full self.now.list.items) c }
    {
        let step = if is_built_in(c as u32) {
            built_in_step(c as u32)
        } else {
            self.said_mapping(c)
        };
        step.unwrap_or(Decomposed::Default)
    }

    /// The compatibility mapping that a part says of a character, where nothing is built in.
    pub fn compatibility_of(&self, c: char) -> Step
        ensures { step_items result ≡ compatibility_of (map in_full self.now.list.items) c }
    {
        if is_built_in(c as u32) {
            return Step::none();
        }
        match self.said_compatibility(c) {
            Some(step) => step,
            None => Step::none(),
        }
    }

    /// The mapping of a character of either kind, canonical or compatibility.
    pub fn any_step(&self, c: char) -> Step
        ensures { step_items result ≡ any_step (map in_full self.now.list.items) c }
    {
        match built_in_compatibility_step(c as u32) {
            Some(step) => Step::of(step),
            None => self.given_step(c),
        }
    }

    /// The canonical mapping of a character, or its compatibility mapping where that is none.
    fn given_step(&self, c: char) -> Step
        ensures { step_items result ≡ else_mapped (step_of (map in_full self.now.list.items) c) (compatibility_of (map in_full self.now.list.items) c) }
    {
        let canonical = Step::of(self.step_of(c));
        if canonical.is_none() {
            self.compatibility_of(c)
        } else {
            canonical
        }
    }

    /// What two characters compose to: a syllable, or what a part says.
    pub fn pair_of(&self, first: char, second: char) -> Option<char>
        ensures { result ≡ pair_of (map in_full self.now.list.items) first second }
    {
        match syllable_of(first as u32, second as u32) {
            Some(syllable) => Some(syllable),
            None => self.said_pair(first, second),
        }
    }
}

/// Notes the class that one more part gives, if it does.
fn note_class(classes: &mut BTreeMap<char, u16>, part: CanonicalPart) -> Result<(), AllocError>
    ensures { (lines : List PlainRecord) → HasClasses classes.old lines → OnOk result (HasClasses classes.new (lines ++ in_full part ∷ [])) }
{
    match class_in_part(part) {
        Some((character, class)) => {
            put_first(classes, character, class)?;
            Ok(())
        }
        None => Ok(()),
    }
}

/// Notes the canonical mapping that one more part gives, if it does.
fn note_mapping(
    mappings: &mut BTreeMap<char, Decomposed>,
    part: CanonicalPart,
) -> Result<(), AllocError>
    ensures { (lines : List PlainRecord) → HasMappings mappings.old lines → OnOk result (HasMappings mappings.new (lines ++ in_full part ∷ [])) }
{
    match mapping_in_part(part) {
        Some((character, step)) => {
            put_first(mappings, character, step)?;
            Ok(())
        }
        None => Ok(()),
    }
}

/// Notes whether one more part keeps a character that it maps out of the composed pairs.
fn note_exclusion(
    exclusions: &mut BTreeMap<char, bool>,
    part: CanonicalPart,
) -> Result<(), AllocError>
    ensures { (lines : List PlainRecord) → HasExclusions exclusions.old lines → OnOk result (HasExclusions exclusions.new (lines ++ in_full part ∷ [])) }
{
    match exclusion_in_part(part) {
        Some((character, is_excluded)) => {
            put_first(exclusions, character, is_excluded)?;
            Ok(())
        }
        None => Ok(()),
    }
}

/// Notes the compatibility mapping that one more part gives, if it does.
fn note_compatibility(
    compatibilities: &mut BTreeMap<char, Step>,
    part: CanonicalPart,
) -> Result<(), AllocError>
    ensures { (lines : List PlainRecord) → HasCompatibilities compatibilities.old lines → OnOk result (HasCompatibilities compatibilities.new (lines ++ in_full part ∷ [])) }
{
    match compatibility_in_part(part) {
        Some((character, step)) => {
            put_first(compatibilities, character, step)?;
            Ok(())
        }
        None => Ok(()),
    }
}

/// Notes the two characters that one more part composes, if it does.
fn note_pair(
    pairs: &mut BTreeMap<(char, char), char>,
    part: CanonicalPart,
) -> Result<(), AllocError>
    ensures { (lines : List PlainRecord) → HasPairs pairs.old lines → OnOk result (HasPairs pairs.new (lines ++ in_full part ∷ [])) }
{
    match pair_in_part(part) {
        Some((pair, character)) => {
            put_first_pair(pairs, pair, character)?;
            Ok(())
        }
        None => Ok(()),
    }
}

/// The class that a part gives, and to which character.
fn class_in_part(part: CanonicalPart) -> Option<(char, u16)>
    ensures { result ≡ class_in_part part }
{
    match part {
        CanonicalPart::Class { character, class } => Some((character, class)),
        _ => None,
    }
}

/// The canonical mapping that a part gives, and to which character.
fn mapping_in_part(part: CanonicalPart) -> Option<(char, Decomposed)>
    ensures { result ≡ mapping_in_part part }
{
    match part {
        CanonicalPart::Map {
            character,
            step,
            ..
        } => Some((character, step)),
        _ => None,
    }
}

/// Whether a part keeps a character out of the composed pairs, and which character it maps.
fn exclusion_in_part(part: CanonicalPart) -> Option<(char, bool)>
    ensures { result ≡ exclusion_in_part part }
{
    match part {
        CanonicalPart::Map {
            character,
            is_excluded,
            ..
        } => Some((character, is_excluded)),
        _ => None,
    }
}

/// The compatibility mapping that a part gives, and to which character.
fn compatibility_in_part(part: CanonicalPart) -> Option<(char, Step)>
    ensures { result ≡ compatibility_in_part part }
{
    match part {
        CanonicalPart::Kmap { character, step } => Some((character, step)),
        _ => None,
    }
}

/// The two characters that a part composes, and to which, unless what it says of that one is built in.
fn pair_in_part(part: CanonicalPart) -> Option<((char, char), char)>
    ensures { result ≡ pair_in_part part }
{
    match part {
        CanonicalPart::Map {
            character,
            step: Decomposed::Expansion(first, second),
            is_excluded: false,
        } if !is_built_in(character as u32) => Some(((first, second), character)),
        _ => None,
    }
}

/// Notes what is said of a character, unless something is noted of it.
fn put_first<V: Drop>(
    noted: &mut BTreeMap<char, V>,
    character: char,
    value: V,
) -> Result<(), AllocError>
    ensures { OnOk result ((c : ℕ) → get nat_cmp noted.new c ≡ option_or (get nat_cmp noted.old c) (cond (c == character) (Some value) None)) }
{
    if noted.get(&character).is_none() {
        noted.insert(character, value)?;
    }
    Ok(())
}

/// Notes the character that is composed of two, unless one is noted of them.
fn put_first_pair(
    pairs: &mut BTreeMap<(char, char), char>,
    pair: (char, char),
    character: char,
) -> Result<(), AllocError>
    ensures { OnOk result ((a b : ℕ) → get pair_cmp pairs.new (a, b) ≡ option_or (get pair_cmp pairs.old (a, b)) (cond ((a == pair.0) && (b == pair.1)) (Some character) None)) }
{
    if pairs.contains_key(&pair) {
        return Ok(());
    }
    pairs.insert(pair, character)?;
    Ok(())
}
