//! What the lines of a records file set, looked up line by line with no memory.

ghost use Rattle.std.specs.Prelude.{◌≡◌, false, map, replicate, []};
ghost use Rattle.icu_collator_types.specs.Options.{default_settings};
ghost use Rattle.collate_lines.specs.Record.{said};
ghost use Rattle.collate_rules.specs.Meaning.{alternate_in, backward_in, case_first_in, dot_above_in, groups_in, max_variable_in, numeric_in, place_among, reorder_in, set_to, settings_of};

use collate_lines::record::{Record, Setting};
use icu_collator_types::options::{
    AlternateHandling, CollationCaseFirst, FileSettings, MaxVariable,
};

/// Whether the secondary level is read backward.
pub fn is_backward(lines: &[Record]) -> bool
    ensures { result ≡ set_to backward_in false (map said lines.now) }
{
    for line in lines {
        if let Record::Set(Setting::Backward(is_on)) = line {
            return *is_on;
        }
    }
    false
}

/// Whether a dot above directly before a grave, an acute or a tilde is dropped.
pub fn drops_dot_above(lines: &[Record]) -> bool
    ensures { result ≡ set_to dot_above_in false (map said lines.now) }
{
    for line in lines {
        if let Record::Set(Setting::DotAbove(is_on)) = line {
            return *is_on;
        }
    }
    false
}

/// The lead byte of numbers.
pub fn numeric_lead(lines: &[Record]) -> u8
    ensures { result ≡ set_to numeric_in 0x10 (map said lines.now) }
{
    for line in lines {
        if let Record::Set(Setting::Numeric(lead)) = line {
            return *lead;
        }
    }
    0x10
}

/// The upper halves of the first primaries after spaces, punctuation, symbols and currency signs.
pub fn group_ends(lines: &[Record]) -> [u16; 4]
    ensures { result ≡ set_to groups_in (replicate 4 0x300) (map said lines.now) }
{
    for line in lines {
        if let Record::Set(Setting::Groups(ends)) = line {
            return *ends;
        }
    }
    [0x300; 4]
}

/// The leads that are reordered, each with the one that takes its place.
pub fn reordered(lines: &[Record]) -> &[(u8, u8)]
    ensures { result.now ≡ set_to reorder_in [] (map said lines.now) }
{
    for line in lines {
        if let Record::Set(Setting::Reorder(pairs)) = line {
            return pairs;
        }
    }
    &[]
}

/// The lead that takes the place of another among pairs, or that one itself.
pub fn place_among(pairs: &[(u8, u8)], lead: u8) -> u8
    ensures { result ≡ place_among pairs.now lead }
{
    for pair in pairs {
        if pair.0 == lead {
            return pair.1;
        }
    }
    lead
}

/// What becomes of spaces and punctuation.
fn alternate_handling(lines: &[Record]) -> AlternateHandling
    ensures { result ≡ set_to alternate_in default_settings.alternate_handling (map said lines.now) }
{
    for line in lines {
        if let Record::Set(Setting::Alternate(alternate)) = line {
            return *alternate;
        }
    }
    AlternateHandling::NonIgnorable
}

/// Which case comes first.
fn case_first(lines: &[Record]) -> CollationCaseFirst
    ensures { result ≡ set_to case_first_in default_settings.case_first (map said lines.now) }
{
    for line in lines {
        if let Record::Set(Setting::CaseFirst(case_first)) = line {
            return *case_first;
        }
    }
    CollationCaseFirst::False
}

/// The last group that `Shifted` takes.
fn max_variable(lines: &[Record]) -> MaxVariable
    ensures { result ≡ set_to max_variable_in default_settings.max_variable (map said lines.now) }
{
    for line in lines {
        if let Record::Set(Setting::MaxVariable(max_variable)) = line {
            return *max_variable;
        }
    }
    MaxVariable::Space
}

/// What the lines set of the options.
pub fn file_settings(lines: &[Record]) -> FileSettings
    ensures { result ≡ settings_of (map said lines.now) }
{
    FileSettings {
        alternate_handling: alternate_handling(lines),
        case_first: case_first(lines),
        max_variable: max_variable(lines),
    }
}
