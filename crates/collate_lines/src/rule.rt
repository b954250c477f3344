//! The rules that a records file keeps, and the fault of a file that breaks one.

ghost use Rattle.std.specs.Prelude.{◌≡◌};

use std::alloc::AllocError;
use std::error::Error;
use std::fmt;

/// A rule of the records file (docs/RECORDS.md). It prints as the program names it: `grammar`,
/// `limit`, `set`, `C1` to `C9`, `V1` to `V15`.
#[derive(Clone, Copy, Debug, PartialEq, Eq)]
pub enum Rule {
    /// A line has a form that the file format knows.
    Grammar,
    /// The file names no more characters than it may.
    Limit,
    /// The settings agree with one another.
    Set,
    /// A mapping stands on a starter that has no other mapping.
    C1,
    /// No chain of mappings comes back to where it began.
    C2,
    /// A class is 1 to 254.
    C3,
    /// A full list begins with a starter and has at most 8 characters.
    C4,
    /// Two characters compose to at most one character.
    C5,
    /// The second of a composed pair is from U+0300 on, and no vowel or final consonant of Hangul.
    C6,
    /// A character below U+0300 is a starter and its own NFC; the lowest ones have no mapping.
    C7,
    /// What is built in isn't contradicted.
    C8,
    /// No mapping names a jamo or a Hangul syllable.
    C9,
    /// An element is primary, secondary or tertiary.
    V1,
    /// A primary weight has a lead that letters may have, and two to four bytes.
    V2,
    /// A secondary weight is common or has a lead that accents may have.
    V3,
    /// A tertiary weight is common or has a lead that forms may have.
    V4,
    /// No weight's bytes begin another's of its level.
    V5,
    /// A range has primaries of three bytes in one lead, and shares nothing with another range.
    V6,
    /// A text and a prefix are their own decomposed lists.
    V7,
    /// After a mark a text has only marks.
    V8,
    /// A text of more than two characters that ends in a mark is recorded without that mark too.
    V9,
    /// A prefix has starters only, and its text is one starter that is recorded without it too.
    V10,
    /// A digit is a starter with one lone record.
    V11,
    /// A jamo has at most one record, a lone one of one element.
    V12,
    /// U+FFFD, U+FFFE and U+FFFF stand in no record, digit or range.
    V13,
    /// No line says again what an earlier line of its kind says.
    V14,
    /// With the dot above, the marks U+0300 to U+0307 have lone records of one secondary element.
    V15,
}

impl Rule {
    ghost use Rattle.collate_lines.specs.Rule.{rule_text};

    /// The rule as it prints.
    pub fn as_str(self) -> &'static str
        ensures { result.now ≡ rule_text self }
    {
        match self {
            Rule::Grammar => "grammar",
            Rule::Limit => "limit",
            Rule::Set => "set",
            Rule::C1 => "C1",
            Rule::C2 => "C2",
            Rule::C3 => "C3",
            Rule::C4 => "C4",
            Rule::C5 => "C5",
            Rule::C6 => "C6",
            Rule::C7 => "C7",
            Rule::C8 => "C8",
            Rule::C9 => "C9",
            Rule::V1 => "V1",
            Rule::V2 => "V2",
            Rule::V3 => "V3",
            Rule::V4 => "V4",
            Rule::V5 => "V5",
            Rule::V6 => "V6",
            Rule::V7 => "V7",
            Rule::V8 => "V8",
            Rule::V9 => "V9",
            Rule::V10 => "V10",
            Rule::V11 => "V11",
            Rule::V12 => "V12",
            Rule::V13 => "V13",
            Rule::V14 => "V14",
            Rule::V15 => "V15",
        }
    }
}

impl fmt::Display for Rule {
    ghost use Rattle.std.specs.Prelude.{Some};
    ghost use Rattle.collate_lines.specs.Rule.{rule_text};

    ghost output = { λ rule. Some (rule_text rule) };

    fn fmt<W: fmt::Write>(&self, f: &mut fmt::Formatter<W>) -> fmt::Result {
        f.write_str(self.as_str())
    }
}

impl Error for Rule {}

/// The first fault of a records file: a rule, and the line that breaks it, counted from 1. It
/// prints as `LINE RULE`.
#[derive(Clone, Copy, Debug, PartialEq, Eq)]
pub struct RecordFault {
    /// The line, counted from 1.
    pub line: usize,
    /// The rule that the line breaks.
    pub rule: Rule,
}

impl fmt::Display for RecordFault {
    ghost use Rattle.std.specs.Prelude.{Some};
    ghost use Rattle.collate_lines.specs.Rule.{fault_text};

    ghost output = { λ fault. Some (fault_text fault.line fault.rule) };

    fn fmt<W: fmt::Write>(&self, f: &mut fmt::Formatter<W>) -> fmt::Result {
        let line = self.line;
        let rule = self.rule;
        write!(f, "{line} {rule}")
    }
}

impl Error for RecordFault {}

/// Why a records file was refused. A fault prints as `LINE RULE`, memory that is refused as `out of memory`.
#[derive(Clone, Copy, Debug, PartialEq, Eq)]
pub enum RecordsError {
    /// The file breaks a rule.
    Fault(RecordFault),
    /// Memory was refused.
    Memory,
}

impl fmt::Display for RecordsError {
    ghost use Rattle.std.specs.Prelude.{Some};
    ghost use Rattle.collate_lines.specs.Rule.{records_error_text};

    ghost output = { λ error. Some (records_error_text error) };

    fn fmt<W: fmt::Write>(&self, f: &mut fmt::Formatter<W>) -> fmt::Result {
        match self {
            RecordsError::Fault(fault) => write!(f, "{fault}"),
            RecordsError::Memory => f.write_str("out of memory"),
        }
    }
}

impl Error for RecordsError {}

impl From<AllocError> for RecordsError {
    ghost use Rattle.std.specs.Prelude.{◌≡◌};
    ghost use Rattle.collate_lines.specs.declared.rule.RecordsError.TheVariants.{Memory};

    ghost from_gives = { λ refused error. error ≡ Memory };

    fn from(_: AllocError) -> RecordsError {
        RecordsError::Memory
    }
}
