//! The settings of a collation, one bit or two each.

ghost use Rattle.std.specs.Prelude.{◌≡◌};
ghost use Rattle.icu_collator_core.specs.TableSettings.{case_first_of, has_bit, max_variable_of, settings_of};

use icu_collator_types::options::{
    AlternateHandling, CollationCaseFirst, FileSettings, MaxVariable,
};

/// The settings of a collation, packed. Bits that no call reads say nothing.
#[derive(Clone, Copy, PartialEq, Debug)]
pub struct CollationMetadata {
    /// The settings: the calls say which bit is which.
    pub bits: u32,
}

impl CollationMetadata {
    /// The last variable group: bits 0 and 1.
    pub fn max_variable(self) -> MaxVariable
        ensures { result ≡ max_variable_of self.bits }
    {
        match self.bits & 3 {
            0 => MaxVariable::Space,
            1 => MaxVariable::Punctuation,
            2 => MaxVariable::Symbol,
            _ => MaxVariable::Currency,
        }
    }

    /// Whether there is a tailoring to load: bit 3.
    pub fn tailored(self) -> bool
        ensures { result ≡ has_bit 3 self.bits }
    {
        (self.bits >> 3) & 1 == 1
    }

    /// Whether the secondaries of marks are those of a tailoring, so that there may be fewer than in the
    /// root: bit 4.
    pub fn tailored_diacritics(self) -> bool
        ensures { result ≡ has_bit 4 self.bits }
    {
        (self.bits >> 4) & 1 == 1
    }

    /// Whether there is a reordering to load: bit 5.
    pub fn reordering(self) -> bool
        ensures { result ≡ has_bit 5 self.bits }
    {
        (self.bits >> 5) & 1 == 1
    }

    /// Whether a dot above directly before a grave, an acute or a tilde is dropped, as in Lithuanian: bit 6.
    pub fn lithuanian_dot_above(self) -> bool
        ensures { result ≡ has_bit 6 self.bits }
    {
        (self.bits >> 6) & 1 == 1
    }

    /// Whether the level of accents is read backward: bit 7.
    pub fn backward_second_level(self) -> bool
        ensures { result ≡ has_bit 7 self.bits }
    {
        (self.bits >> 7) & 1 == 1
    }

    /// Whether what is variable counts at the quaternary level alone: bit 8.
    pub fn alternate_shifted(self) -> bool
        ensures { result ≡ has_bit 8 self.bits }
    {
        (self.bits >> 8) & 1 == 1
    }

    /// Which case comes first, if bit 9 says that one does: by bit 10 upper case, else lower.
    pub fn case_first(self) -> CollationCaseFirst
        ensures { result ≡ case_first_of self.bits }
    {
        if (self.bits >> 9) & 1 != 1 {
            CollationCaseFirst::False
        } else if (self.bits >> 10) & 1 == 1 {
            CollationCaseFirst::Upper
        } else {
            CollationCaseFirst::Lower
        }
    }

    /// What these settings set of the options.
    pub fn settings(self) -> FileSettings
        ensures { result ≡ settings_of self }
    {
        let alternate_handling = if self.alternate_shifted() {
            AlternateHandling::Shifted
        } else {
            AlternateHandling::NonIgnorable
        };
        FileSettings {
            alternate_handling,
            case_first: self.case_first(),
            max_variable: self.max_variable(),
        }
    }
}
