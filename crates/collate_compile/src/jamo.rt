//! The table of jamo: a word for each.

ghost use Rattle.std.specs.Prelude.{◌≡◌, true, map, IfOk};
ghost use Rattle.icu_normalizer_core.specs.BuiltIn.{is_jamo};
ghost use Rattle.collate_lines.specs.Record.{said};
ghost use Rattle.collate_rules.specs.Accepted.{AreAccepted};
ghost use Rattle.collate_rules.specs.RecordRules.{is_one_word};
ghost use Rattle.collate_words.specs.Fits.{AreFit};
ghost use Rattle.collate_compile.specs.Compiled.{AreJamoOf, IsJamoWord, StatesAlone};

use crate::noted_lines::NotedLines;
use collate_words::own_words::short_word;
use icu_collator_core::elements::unranged_primary;
use icu_collator_types::elements::Element;
use icu_packed_vector::PackedVec;
use std::alloc::{AllocError, Global};

/// The low byte of a word that is a primary of three bytes.
const LONG_PRIMARY: u32 = 0xc1;

/// The word of a list of one element.
fn lone_word(elements: &[Element]) -> u32
    requires fit { AreFit elements.now }
    requires one { is_one_word elements.now ≡ true }
    ensures { StatesAlone result elements.now }
{
    short_word(&elements[0]).unwrap()
}

/// The word of a jamo: that of its record, else that of the primary that it has by itself.
fn jamo_word(noted: &NotedLines<'_>, c: char) -> u32
    requires accepted { AreAccepted (map said noted.now.lines.now) }
    requires jamo { is_jamo c ≡ true }
    ensures { IsJamoWord (map said noted.now.lines.now) c result }
{
    match noted.alone(c) {
        Some(elements) => lone_word(elements),
        None => unranged_primary(c as u32) + LONG_PRIMARY,
    }
}

/// The words of all jamo.
pub(crate) fn jamo_words(
    alloc: Global,
    noted: &NotedLines<'_>,
) -> Result<PackedVec<'static, u32>, AllocError>
    requires { AreAccepted (map said noted.now.lines.now) }
    ensures { IfOk result (AreJamoOf (map said noted.now.lines.now)) }
{
    let mut words = Vec::new(alloc);
    for code in 0x1100..0x1200 {
        words.push(jamo_word(noted, char::from_u32(code).unwrap()))?;
    }
    PackedVec::from_slice(alloc, words.as_slice())
}
