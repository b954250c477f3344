//! What a line of a records file says.

use icu_collator_types::elements::Element;
use icu_collator_types::options::{AlternateHandling, CollationCaseFirst, MaxVariable};

/// What a line of a records file says (docs/RECORDS.md).
#[derive(Drop)]
pub enum Record {
    /// Nothing: the line is empty or a comment.
    Nothing,
    /// `class CP N`: the character's canonical combining class, as written, up to 999.
    Class {
        character: char,
        class: u16,
    },
    /// `map CP CP [CP] [x]`: the character's canonical mapping, of one or two characters, and whether an `x` keeps it
    /// out of the composed pairs.
    Map {
        character: char,
        first: char,
        second: Option<char>,
        is_excluded: bool,
    },
    /// `kmap CP CP..`: the character's compatibility mapping.
    Kmap {
        character: char,
        mapping: Vec<char>,
    },
    /// `w [CP [CP [CP]] |] CP.. ; E..`, or `t` with such fields: the collation elements of a text after a prefix.
    Weights {
        layer: Layer,
        prefix: Vec<char>,
        text: Vec<char>,
        elements: Vec<Element>,
    },
    /// `range CP CP PRIMARY STEP`: characters whose primaries follow each other.
    Range(Range),
    /// `digit CP N`: a digit and its value, up to 9.
    Digit {
        character: char,
        value: u8,
    },
    /// `set NAME VALUE..`: a setting.
    Set(Setting),
}

impl Record {
    ghost use Rattle.std.specs.Prelude.{◌≡◌};
    ghost use Rattle.collate_lines.specs.Record.{said};
    ghost use Rattle.collate_lines.specs.Repeats.{says_something};

    /// Whether the line says something: it is neither empty nor a comment.
    pub fn says_something(&self) -> bool
        ensures { result ≡ says_something (said self.now) }
    {
        !matches!(self, Record::Nothing)
    }
}

/// A layer of weights: that of `w` lines, or that of `t` lines, which replace them.
#[derive(Clone, Copy, PartialEq, Eq, Debug)]
pub enum Layer {
    /// `w` lines.
    Root,
    /// `t` lines.
    Tailoring,
}

/// Characters whose primaries follow each other, from the first to the last.
#[derive(Clone, Copy, PartialEq, Eq, Debug)]
pub struct Range {
    /// The first character.
    pub first: char,
    /// The last character, itself in the range.
    pub last: char,
    /// The primary of the first character, 32 bits.
    pub primary: u32,
    /// How far apart the primaries of neighbours stand, up to 999.
    pub step: u16,
}

/// What a `set` line sets.
#[derive(Drop)]
pub enum Setting {
    /// `alternate nonignorable|shifted`
    Alternate(AlternateHandling),
    /// `backward off|on`
    Backward(bool),
    /// `casefirst off|lower|upper`
    CaseFirst(CollationCaseFirst),
    /// `maxvariable space|punctuation|symbol|currency`
    MaxVariable(MaxVariable),
    /// `dotabove off|on`
    DotAbove(bool),
    /// `numeric HH`: the lead byte of numbers.
    Numeric(u8),
    /// `groups HHHH HHHH HHHH HHHH`: the upper halves of the first primaries after spaces, punctuation, symbols and
    /// currency signs.
    Groups([u16; 4]),
    /// `compress HH..`: leads that are compressible.
    Compress(Vec<u8>),
    /// `reorder HH HH ..`: leads, each with the one that takes its place.
    Reorder(Vec<(u8, u8)>),
}

impl Setting {
    ghost use Rattle.std.specs.Prelude.{◌≡◌};
    ghost use Rattle.collate_lines.specs.Record.{set_by_line};
    ghost use Rattle.collate_lines.specs.Repeats.{setting_name};

    /// The name of the setting, as a `set` line has it.
    pub fn name(&self) -> &'static str
        ensures { result.now ≡ setting_name (set_by_line self.now) }
    {
        match self {
            Setting::Alternate(_) => "alternate",
            Setting::Backward(_) => "backward",
            Setting::CaseFirst(_) => "casefirst",
            Setting::MaxVariable(_) => "maxvariable",
            Setting::DotAbove(_) => "dotabove",
            Setting::Numeric(_) => "numeric",
            Setting::Groups(_) => "groups",
            Setting::Compress(_) => "compress",
            Setting::Reorder(_) => "reorder",
        }
    }
}
