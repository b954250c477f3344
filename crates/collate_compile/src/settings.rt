//! The settings of compiled tables.

ghost use Rattle.std.specs.Prelude.{◌≡◌, ◌+◌, cond, map};
ghost use Rattle.icu_collator_core.specs.TableSettings.{has_bit};
ghost use Rattle.collate_lines.specs.Record.{said};
ghost use Rattle.collate_compile.specs.Compiled.{AreSettingsOf};
ghost use Rattle.collate_compile.specs.SettingBits.{alternate_bit, case_first_bits, max_variable_bits};

use crate::set_lines::{drops_dot_above, file_settings, is_backward};
use collate_lines::record::Record;
use icu_collator_core::tables::CollationMetadata;
use icu_collator_types::options::{AlternateHandling, CollationCaseFirst, MaxVariable};

/// 1 where something is so, else 0.
fn bit(is_so: bool) -> u32
    ensures { result ≡ cond is_so 1 0 }
{
    u32::from(is_so)
}

/// The two bits of the last variable group.
fn max_variable_bits(max_variable: MaxVariable) -> u32
    ensures { result ≡ max_variable_bits max_variable }
{
    match max_variable {
        MaxVariable::Space => 0,
        MaxVariable::Punctuation => 1,
        MaxVariable::Symbol => 2,
        MaxVariable::Currency => 3,
    }
}

/// The bit of what becomes of spaces and punctuation.
fn alternate_bit(alternate_handling: AlternateHandling) -> u32
    ensures { result ≡ alternate_bit alternate_handling }
{
    match alternate_handling {
        AlternateHandling::NonIgnorable => 0,
        AlternateHandling::Shifted => 1,
    }
}

/// The two bits of which case comes first.
fn case_first_bits(case_first: CollationCaseFirst) -> u32
    ensures { result ≡ case_first_bits case_first }
{
    match case_first {
        CollationCaseFirst::False => 0,
        CollationCaseFirst::Lower => 1,
        CollationCaseFirst::Upper => 3,
    }
}

/// What the lines set, packed, with whether there is a tailoring, and whether there is a reordering. The secondaries of
/// marks are a tailoring's, so that there may be none.
pub(crate) fn metadata(
    lines: &[Record],
    is_tailored: bool,
    is_reordering: bool,
) -> CollationMetadata
    ensures settings { AreSettingsOf (map said lines.now) result }
    ensures tailored { has_bit 3 result.bits ≡ is_tailored }
    ensures reordering { has_bit 5 result.bits ≡ is_reordering }
{
    let settings = file_settings(lines);
    let layers = (bit(is_tailored) << 3) + (1 << 4) + (bit(is_reordering) << 5);
    let marks = (bit(drops_dot_above(lines)) << 6) + (bit(is_backward(lines)) << 7);
    let max_variable = max_variable_bits(settings.max_variable);
    let alternate = alternate_bit(settings.alternate_handling) << 8;
    let case_first = case_first_bits(settings.case_first) << 9;
    CollationMetadata {
        bits: max_variable + layers + marks + alternate + case_first,
    }
}
