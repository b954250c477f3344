//! What lines say of characters, noted to be looked up: classes and digits that they give, characters that they map, and those
//! that they record alone.

ghost use Rattle.std.specs.Prelude.{◌≡◌, ◌==◌, ◌∷◌, ◌++◌, ◌||◌, ℕ, [], cond, List, Some, None, map, is_some, option_map, IfOk, OnOk};
ghost use Rattle.std.specs.Option.{option_or};
ghost use Rattle.std.specs.Ordering.{nat_cmp};
ghost use Rattle.std.specs.BTreeMap.{get};
ghost use Rattle.std.specs.BTreeSet.{contains};
ghost use Rattle.icu_normalizer_core.specs.Properties.{mapped_to};
ghost use Rattle.icu_collator_core.specs.ContextRules.{is_recorded_in};
ghost use Rattle.collate_lines.specs.Record.{Record as PlainRecord, said};
ghost use Rattle.collate_rules.specs.Meaning.{class_of, weights_of};
ghost use Rattle.collate_rules.specs.NotedLines.{HasAlone, HasClasses, HasDigits, HasMapped, class_line, digit_line, lone_character, mapped_character};
ghost use Rattle.collate_rules.specs.RecordRules.{digit_of, has_mapping, is_mark, is_to_some};

use collate_lines::record::Record;
use icu_normalizer_core::built_in::{built_in_class, built_in_step, is_built_in};
use icu_normalizer_core::properties::Decomposed;
use std::alloc::{AllocError, Global};
use std::collections::{BTreeMap, BTreeSet};

/// What lines say of characters.
pub struct Characters<'r> {
    pub lines: &'r [Record],
    classes: BTreeMap<char, u16>,
    digits: BTreeMap<char, u8>,
    mapped: BTreeSet<char>,
    alone: BTreeSet<char>,
    ghost has_classes: { HasClasses classes (map said lines.now) },
    ghost has_digits: { HasDigits digits (map said lines.now) },
    ghost has_mapped: { HasMapped mapped (map said lines.now) },
    ghost has_alone: { HasAlone alone (map said lines.now) },
}

// (let go of as one, and not part by part, so that what owns one is proved sooner)
impl Drop for Characters<'_> {
    fn drop(self) {
        let Characters {
            lines: _,
            classes: _,
            digits: _,
            mapped: _,
            alone: _,
        } = self;
    }
}

impl<'r> Characters<'r> {
    /// What these lines say. Fails only if memory is refused.
    pub fn new(alloc: Global, lines: &'r [Record]) -> Result<Characters<'r>, AllocError>
        ensures { IfOk result (λ noted. noted.lines.now ≡ lines.now) }
    {
        let classes = classes_in(alloc, lines)?;
        let digits = digits_in(alloc, lines)?;
        let mapped = mapped_in(alloc, lines)?;
        let alone = recorded_alone_in(alloc, lines)?;
        Ok(Characters {
            lines,
            classes,
            digits,
            mapped,
            alone,
        })
    }

    /// The class of a character: what is built in, else what the lines give, else 0.
    pub fn class_of(&self, c: char) -> u16
        ensures { result ≡ class_of (map said self.now.lines.now) c }
    {
        match built_in_class(c as u32) {
            Some(class) => u16::from(class),
            None => self.classes.get(&c).copied().unwrap_or(0),
        }
    }

    /// Whether a character has a class other than 0.
    pub fn is_mark(&self, c: char) -> bool
        ensures { result ≡ is_mark (map said self.now.lines.now) c }
    {
        self.class_of(c) != 0
    }

    /// Whether a character is a digit.
    pub fn is_digit(&self, c: char) -> bool
        ensures { result ≡ is_some (digit_of (map said self.now.lines.now) c) }
    {
        self.digits.get(&c).is_some()
    }

    /// Whether a character has a canonical mapping, built in or by the lines.
    pub fn has_mapping(&self, c: char) -> bool
        ensures { result ≡ has_mapping (map said self.now.lines.now) c }
    {
        if is_built_in(c as u32) {
            is_to_some(built_in_step(c as u32))
        } else {
            self.mapped.contains(&c)
        }
    }

    /// Whether the lines record a character alone.
    pub fn is_recorded(&self, c: char) -> bool
        ensures { result ≡ is_recorded_in (weights_of (map said self.now.lines.now)) [] (c ∷ []) }
    {
        self.alone.contains(&c)
    }
}

/// Whether a mapping that may be there is to some characters.
pub(crate) fn is_to_some(step: Option<Decomposed>) -> bool
    ensures { result ≡ is_to_some (option_map mapped_to step) }
{
    match step {
        Some(Decomposed::Singleton(_)) => true,
        Some(Decomposed::Expansion(_, _)) => true,
        _ => false,
    }
}

/// The classes that lines give. Fails only if memory is refused.
fn classes_in(alloc: Global, lines: &[Record]) -> Result<BTreeMap<char, u16>, AllocError>
    ensures { IfOk result (λ classes. HasClasses classes (map said lines.now)) }
{
    let mut classes = BTreeMap::new(alloc);
    for line in lines {
        note_class(&mut classes, line)?;
    }
    Ok(classes)
}

/// Notes the class that one more line gives, if it does.
fn note_class(classes: &mut BTreeMap<char, u16>, line: &Record) -> Result<(), AllocError>
    ensures { (lines : List PlainRecord) → HasClasses classes.old lines → OnOk result (HasClasses classes.new (lines ++ said line.now ∷ [])) }
{
    match class_line(line) {
        Some((character, class)) => {
            put_class(classes, character, class)?;
            Ok(())
        }
        None => Ok(()),
    }
}

/// Notes a class, unless one is noted of the character.
fn put_class(
    classes: &mut BTreeMap<char, u16>,
    character: char,
    class: u16,
) -> Result<(), AllocError>
    ensures { OnOk result ((c : ℕ) → get nat_cmp classes.new c ≡ option_or (get nat_cmp classes.old c) (cond (c == character) (Some class) None)) }
{
    if classes.get(&character).is_none() {
        classes.insert(character, class)?;
    }
    Ok(())
}

/// The digits that lines give. Fails only if memory is refused.
fn digits_in(alloc: Global, lines: &[Record]) -> Result<BTreeMap<char, u8>, AllocError>
    ensures { IfOk result (λ digits. HasDigits digits (map said lines.now)) }
{
    let mut digits = BTreeMap::new(alloc);
    for line in lines {
        note_digit(&mut digits, line)?;
    }
    Ok(digits)
}

/// Notes the digit that one more line gives, if it does.
fn note_digit(digits: &mut BTreeMap<char, u8>, line: &Record) -> Result<(), AllocError>
    ensures { (lines : List PlainRecord) → HasDigits digits.old lines → OnOk result (HasDigits digits.new (lines ++ said line.now ∷ [])) }
{
    match digit_line(line) {
        Some((character, value)) => {
            put_digit(digits, character, value)?;
            Ok(())
        }
        None => Ok(()),
    }
}

/// Notes a digit, unless one is noted of the character.
fn put_digit(digits: &mut BTreeMap<char, u8>, character: char, value: u8) -> Result<(), AllocError>
    ensures { OnOk result ((c : ℕ) → get nat_cmp digits.new c ≡ option_or (get nat_cmp digits.old c) (cond (c == character) (Some value) None)) }
{
    if digits.get(&character).is_none() {
        digits.insert(character, value)?;
    }
    Ok(())
}

/// The characters that lines map canonically. Fails only if memory is refused.
fn mapped_in(alloc: Global, lines: &[Record]) -> Result<BTreeSet<char>, AllocError>
    ensures { IfOk result (λ mapped. HasMapped mapped (map said lines.now)) }
{
    let mut mapped = BTreeSet::new(alloc);
    for line in lines {
        note_mapped(&mut mapped, line)?;
    }
    Ok(mapped)
}

/// Notes the character that one more line maps canonically, if it does.
fn note_mapped(mapped: &mut BTreeSet<char>, line: &Record) -> Result<(), AllocError>
    ensures { (lines : List PlainRecord) → HasMapped mapped.old lines → OnOk result (HasMapped mapped.new (lines ++ said line.now ∷ [])) }
{
    match mapped_character(line) {
        Some(character) => {
            put(mapped, character)?;
            Ok(())
        }
        None => Ok(()),
    }
}

/// The characters that lines record alone. Fails only if memory is refused.
fn recorded_alone_in(alloc: Global, lines: &[Record]) -> Result<BTreeSet<char>, AllocError>
    ensures { IfOk result (λ alone. HasAlone alone (map said lines.now)) }
{
    let mut alone = BTreeSet::new(alloc);
    for line in lines {
        note_alone(&mut alone, line)?;
    }
    Ok(alone)
}

/// Notes the character that one more line records alone, if it does.
fn note_alone(alone: &mut BTreeSet<char>, line: &Record) -> Result<(), AllocError>
    ensures { (lines : List PlainRecord) → HasAlone alone.old lines → OnOk result (HasAlone alone.new (lines ++ said line.now ∷ [])) }
{
    match lone_character(line) {
        Some(character) => {
            put(alone, character)?;
            Ok(())
        }
        None => Ok(()),
    }
}

/// Notes a character. Fails only if memory is refused.
pub(crate) fn put(noted: &mut BTreeSet<char>, character: char) -> Result<(), AllocError>
    ensures { OnOk result ((c : ℕ) → contains nat_cmp noted.new c ≡ (contains nat_cmp noted.old c || (c == character))) }
{
    noted.insert(character)?;
    Ok(())
}

/// The character to which a line gives a class, and the class.
fn class_line(line: &Record) -> Option<(char, u16)>
    ensures { result ≡ class_line (said line.now) }
{
    match line {
        Record::Class { character, class } => Some((*character, *class)),
        _ => None,
    }
}

/// The digit that a line gives, and its value.
fn digit_line(line: &Record) -> Option<(char, u8)>
    ensures { result ≡ digit_line (said line.now) }
{
    match line {
        Record::Digit { character, value } => Some((*character, *value)),
        _ => None,
    }
}

/// The character that a line maps canonically.
fn mapped_character(line: &Record) -> Option<char>
    ensures { result ≡ mapped_character (said line.now) }
{
    match line {
        Record::Map { character, .. } => Some(*character),
        _ => None,
    }
}

/// The character that a line records alone.
fn lone_character(line: &Record) -> Option<char>
    ensures { result ≡ lone_character (said line.now) }
{
    match line {
        Record::Weights { prefix, text, .. } => match (prefix.as_slice(), text.as_slice()) {
            ([], [c]) => Some(*c),
            _ => None,
        },
        _ => None,
    }
}
