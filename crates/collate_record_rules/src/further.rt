//! The characters that lines record otherwise than a rule wants, and so that it counts, noted to be looked up.

ghost use Rattle.std.specs.Prelude.{◌≡◌, ◌||◌, ◌∷◌, ◌++◌, ℕ, [], List, map, IfOk, OnOk};
ghost use Rattle.std.specs.List.{list_any};
ghost use Rattle.std.specs.Ordering.{nat_cmp};
ghost use Rattle.std.specs.BTreeSet.{contains};
ghost use Rattle.collate_lines.specs.Record.{Record as PlainRecord, said};
ghost use Rattle.collate_rules.specs.NotedLines.{HasFurther, HasOdd, further_character, is_it, odd_character};
ghost use Rattle.collate_rules.specs.RecordRules.{is_common_secondary, is_further, is_other_mark};

use collate_lines::record::Record;
use collate_rules::recorded::{Recorded, is_alone};
use icu_collator_types::elements::Element;
use std::alloc::{AllocError, Global};
use std::collections::BTreeSet;

/// The characters that some lines record with others after them or before them, where no record of all lines replaces
/// that.
pub(crate) struct Further<'r, 'l> {
    pub(crate) records: &'r [Record],
    pub(crate) lines: &'l [Record],
    characters: BTreeSet<char>,
    ghost has_further: { HasFurther (map said records.now) characters (map said lines.now) },
}

// (let go of as one, and not part by part, so that what owns one is proved sooner)
impl Drop for Further<'_, '_> {
    fn drop(self) {
        let Further {
            records: _,
            lines: _,
            characters: _,
        } = self;
    }
}

impl<'r, 'l> Further<'r, 'l> {
    /// What these lines record so. Fails only if memory is refused.
    pub(crate) fn new(
        alloc: Global,
        recorded: &Recorded<'r>,
        lines: &'l [Record],
    ) -> Result<Further<'r, 'l>, AllocError>
        ensures records { IfOk result (λ noted. noted.records.now ≡ recorded.now.lines.now) }
        ensures lines { IfOk result (λ noted. noted.lines.now ≡ lines.now) }
    {
        let characters = further_in(alloc, recorded, lines)?;
        Ok(Further {
            records: recorded.lines,
            lines,
            characters,
        })
    }

    /// Whether a character is recorded so.
    pub(crate) fn contains(&self, c: char) -> bool
        ensures { result ≡ list_any (is_further (map said self.now.records.now) c) (map said self.now.lines.now) }
    {
        self.characters.contains(&c)
    }
}

/// The characters that some lines record so, or alone as other than a secondary with the common tertiary.
pub(crate) struct Odd<'r, 'l> {
    pub(crate) records: &'r [Record],
    pub(crate) lines: &'l [Record],
    characters: BTreeSet<char>,
    ghost has_odd: { HasOdd (map said records.now) characters (map said lines.now) },
}

// (let go of as one, and not part by part, so that what owns one is proved sooner)
impl Drop for Odd<'_, '_> {
    fn drop(self) {
        let Odd {
            records: _,
            lines: _,
            characters: _,
        } = self;
    }
}

impl<'r, 'l> Odd<'r, 'l> {
    /// What these lines record so. Fails only if memory is refused.
    pub(crate) fn new(
        alloc: Global,
        recorded: &Recorded<'r>,
        lines: &'l [Record],
    ) -> Result<Odd<'r, 'l>, AllocError>
        ensures records { IfOk result (λ noted. noted.records.now ≡ recorded.now.lines.now) }
        ensures lines { IfOk result (λ noted. noted.lines.now ≡ lines.now) }
    {
        let characters = odd_in(alloc, recorded, lines)?;
        Ok(Odd {
            records: recorded.lines,
            lines,
            characters,
        })
    }

    /// Whether a character is recorded so.
    pub(crate) fn contains(&self, c: char) -> bool
        ensures { result ≡ list_any (λ line. is_further (map said self.now.records.now) c line || is_other_mark (map said self.now.records.now) c line) (map said self.now.lines.now) }
    {
        self.characters.contains(&c)
    }
}

/// The characters that lines record with others, and so that it counts. Fails only if memory is refused.
fn further_in(
    alloc: Global,
    recorded: &Recorded<'_>,
    lines: &[Record],
) -> Result<BTreeSet<char>, AllocError>
    ensures { IfOk result (λ further. HasFurther (map said recorded.now.lines.now) further (map said lines.now)) }
{
    let mut further = BTreeSet::new(alloc);
    for line in lines {
        note_further(&mut further, recorded, line)?;
    }
    Ok(further)
}

/// The characters that lines record so, or alone as other than a common secondary. Fails only if memory is refused.
fn odd_in(
    alloc: Global,
    recorded: &Recorded<'_>,
    lines: &[Record],
) -> Result<BTreeSet<char>, AllocError>
    ensures { IfOk result (λ odd. HasOdd (map said recorded.now.lines.now) odd (map said lines.now)) }
{
    let mut odd = BTreeSet::new(alloc);
    for line in lines {
        note_odd(&mut odd, recorded, line)?;
    }
    Ok(odd)
}

/// Notes the character that one more line records with others, if it does. Fails only if memory is refused.
fn note_further(
    further: &mut BTreeSet<char>,
    recorded: &Recorded<'_>,
    line: &Record,
) -> Result<(), AllocError>
    ensures { (lines : List PlainRecord) → HasFurther (map said recorded.now.lines.now) further.old lines → OnOk result (HasFurther (map said recorded.now.lines.now) further.new (lines ++ said line.now ∷ [])) }
{
    let character = further_character(recorded, line)?;
    note(further, character)?;
    Ok(())
}

/// Notes the character that one more line records so, or alone as other than a common secondary, if it does. Fails only
/// if memory is refused.
fn note_odd(
    odd: &mut BTreeSet<char>,
    recorded: &Recorded<'_>,
    line: &Record,
) -> Result<(), AllocError>
    ensures { (lines : List PlainRecord) → HasOdd (map said recorded.now.lines.now) odd.old lines → OnOk result (HasOdd (map said recorded.now.lines.now) odd.new (lines ++ said line.now ∷ [])) }
{
    let character = odd_character(recorded, line)?;
    note(odd, character)?;
    Ok(())
}

/// Notes a character, if there is one.
fn note(noted: &mut BTreeSet<char>, character: Option<char>) -> Result<(), AllocError>
    ensures { OnOk result ((c : ℕ) → contains nat_cmp noted.new c ≡ (contains nat_cmp noted.old c || is_it c character)) }
{
    if let Some(character) = character {
        noted.insert(character)?;
    }
    Ok(())
}

/// The character that a line records with others, where no record replaces that. Fails only if memory is refused.
fn further_character(recorded: &Recorded<'_>, line: &Record) -> Result<Option<char>, AllocError>
    ensures { IfOk result (λ character. character ≡ further_character (map said recorded.now.lines.now) (said line.now)) }
{
    match line {
        Record::Weights {
            layer,
            prefix,
            text,
            ..
        } => {
            let Some(first) = text.first() else {
                return Ok(None);
            };
            if is_alone(prefix, text) {
                return Ok(None);
            }
            let is_replaced = recorded.is_replaced(*layer, prefix, text)?;
            Ok(if is_replaced { None } else { Some(*first) })
        }
        _ => Ok(None),
    }
}

/// The character that a line records so, or alone as other than a common secondary. Fails only if memory is refused.
fn odd_character(recorded: &Recorded<'_>, line: &Record) -> Result<Option<char>, AllocError>
    ensures { IfOk result (λ character. character ≡ odd_character (map said recorded.now.lines.now) (said line.now)) }
{
    match line {
        Record::Weights {
            layer,
            prefix,
            text,
            elements,
        } => {
            let Some(first) = text.first() else {
                return Ok(None);
            };
            if is_alone(prefix, text) && is_common_secondary(elements) {
                return Ok(None);
            }
            let is_replaced = recorded.is_replaced(*layer, prefix, text)?;
            Ok(if is_replaced { None } else { Some(*first) })
        }
        _ => Ok(None),
    }
}

/// Whether elements are one secondary with the common tertiary.
fn is_common_secondary(elements: &[Element]) -> bool
    ensures { result ≡ is_common_secondary elements.now }
{
    match elements {
        [e] => e.primary == 0 && e.case == 0 && e.tertiary == 0x500 && e.quaternary == 0,
        _ => false,
    }
}
