//! Options as they are merged: each with its value and a note whether it was given. The name of the
//! type is ICU4X's, where values and notes are bits of one number; here each has a field of its own.

ghost use Rattle.std.specs.Prelude.{◌≡◌, false, option_map};

use super::{
    AlternateHandling, CaseLevel, CollationCaseFirst, CollationNumericOrdering, CollatorOptions,
    CollatorPreferences, MaxVariable, ResolvedCollatorOptions, Strength,
};
use std::marker::Model;

/// An option's value, and whether it was given.
#[derive(Clone, Copy, Debug)]
struct Noted<T> {
    value: T,
    is_given: bool,
}

impl<T: Copy> Noted<T> {
    ghost use Rattle.icu_collator_types.specs.NotedOptions.{not_given, given_or, own_or};

    /// A value that nobody gave.
    const fn not_given(value: T) -> Self
        ensures { result ≡ not_given value }
    {
        Self {
            value,
            is_given: false,
        }
    }

    /// What is given, noted as given, else the option's first value with no note.
    fn given_or(given: Option<T>, first: T) -> Self
        ensures { result ≡ given_or given first }
    {
        match given {
            Some(value) => Self {
                value,
                is_given: true,
            },
            None => Self::not_given(first),
        }
    }

    /// This option if it was given, else the other.
    fn own_or(self, other: Self) -> Self
        ensures { result ≡ own_or self other }
    {
        if self.is_given { self } else { other }
    }
}

/// The options of a collator while they are merged: each has a value, and a note whether it was
/// given. A setter changes the value and the note of its own option: `Some` sets the value and
/// notes it, and `None` clears both. To clear a value is to set its first, so that without a
/// strength `strength` answers `Primary` until `set_defaults`.
#[derive(Clone, Copy, Debug)]
pub struct CollatorOptionsBitField {
    strength: Noted<Strength>,
    max_variable: Noted<MaxVariable>,
    alternate_handling: Noted<AlternateHandling>,
    case_level: Noted<bool>,
    case_first: Noted<CollationCaseFirst>,
    backward_second_level: Noted<bool>,
    numeric: Noted<bool>,
}

impl Model for CollatorOptionsBitField {
    ghost use Rattle.icu_collator_types.specs.NotedOptions.{NotedOptions};

    ghost Value = { NotedOptions };

    ghost view = { λ inside. record {
      strength = inside.strength;
      max_variable = inside.max_variable;
      alternate_handling = inside.alternate_handling;
      case_level = inside.case_level;
      case_first = inside.case_first;
      backward_second_level = inside.backward_second_level;
      numeric = inside.numeric;
    } };

    ghost inverse = { λ options. record {
      strength = options.strength;
      max_variable = options.max_variable;
      alternate_handling = options.alternate_handling;
      case_level = options.case_level;
      case_first = options.case_first;
      backward_second_level = options.backward_second_level;
      numeric = options.numeric;
    } };
}

impl Default for CollatorOptionsBitField {
    ghost use Rattle.icu_collator_types.specs.NotedOptions.{default_options};

    ghost is_default = { λ options. options ≡ default_options };

    /// Strength `Tertiary`, of each other option the first value or false, and no note.
    fn default() -> Self {
        Self::default()
    }
}

impl CollatorOptionsBitField {
    ghost use Rattle.icu_collator_types.specs.Options.{has_case_level, is_numeric, is_upper_first};
    ghost use Rattle.icu_collator_types.specs.NotedOptions.{default_options, given_or, with_defaults, tertiary_mask_of};
    ghost use Rattle.icu_collator_types.specs.declared.options.Strength.TheVariants.{Primary};
    ghost use Rattle.icu_collator_types.specs.declared.options.AlternateHandling.TheVariants.{NonIgnorable};
    ghost use Rattle.icu_collator_types.specs.declared.options.MaxVariable.TheVariants.{Space};
    ghost use Rattle.icu_collator_types.specs.declared.options.CollationCaseFirst.TheVariants.{False as NoCaseFirst};

    /// Strength `Tertiary`, of each other option the first value or false, and no note.
    pub const fn default() -> Self
        ensures { result ≡ default_options }
    {
        Self {
            strength: Noted::not_given(Strength::Tertiary),
            max_variable: Noted::not_given(MaxVariable::Space),
            alternate_handling: Noted::not_given(AlternateHandling::NonIgnorable),
            case_level: Noted::not_given(false),
            case_first: Noted::not_given(CollationCaseFirst::False),
            backward_second_level: Noted::not_given(false),
            numeric: Noted::not_given(false),
        }
    }

    /// How many levels count.
    pub fn strength(self) -> Strength
        ensures { result ≡ self.strength.value }
    {
        self.strength.value
    }

    /// Sets or clears how many levels count.
    pub fn set_strength(&mut self, strength: Option<Strength>)
        ensures { self.new ≡ record self.old { strength = given_or strength Primary } }
    {
        self.strength = Noted::given_or(strength, Strength::Primary);
    }

    /// The last group that `AlternateHandling::Shifted` takes.
    pub fn max_variable(self) -> MaxVariable
        ensures { result ≡ self.max_variable.value }
    {
        self.max_variable.value
    }

    /// Sets or clears the last group that `AlternateHandling::Shifted` takes.
    pub fn set_max_variable(&mut self, max_variable: Option<MaxVariable>)
        ensures { self.new ≡ record self.old { max_variable = given_or max_variable Space } }
    {
        self.max_variable = Noted::given_or(max_variable, MaxVariable::Space);
    }

    /// What becomes of spaces and punctuation.
    pub fn alternate_handling(self) -> AlternateHandling
        ensures { result ≡ self.alternate_handling.value }
    {
        self.alternate_handling.value
    }

    /// Sets or clears what becomes of spaces and punctuation.
    pub fn set_alternate_handling(&mut self, alternate_handling: Option<AlternateHandling>)
        ensures { self.new ≡ record self.old { alternate_handling = given_or alternate_handling NonIgnorable } }
    {
        self.alternate_handling = Noted::given_or(
            alternate_handling,
            AlternateHandling::NonIgnorable,
        );
    }

    /// Whether case has a level of its own.
    pub fn case_level(self) -> bool
        ensures { result ≡ self.case_level.value }
    {
        self.case_level.value
    }

    /// Sets or clears whether case has a level of its own.
    pub fn set_case_level(&mut self, case_level: Option<bool>)
        ensures { self.new ≡ record self.old { case_level = given_or case_level false } }
    {
        self.case_level = Noted::given_or(case_level, false);
    }

    /// Sets or clears whether case has a level of its own, by its name.
    pub fn set_case_level_from_enum(&mut self, case_level: Option<CaseLevel>)
        ensures { self.new ≡ record self.old { case_level = given_or (option_map has_case_level case_level) false } }
    {
        match case_level {
            Some(CaseLevel::On) => self.set_case_level(Some(true)),
            Some(CaseLevel::Off) => self.set_case_level(Some(false)),
            None => self.set_case_level(None),
        }
    }

    /// Which case comes first.
    pub fn case_first(self) -> CollationCaseFirst
        ensures { result ≡ self.case_first.value }
    {
        self.case_first.value
    }

    /// Sets or clears which case comes first.
    pub fn set_case_first(&mut self, case_first: Option<CollationCaseFirst>)
        ensures { self.new ≡ record self.old { case_first = given_or case_first NoCaseFirst } }
    {
        self.case_first = Noted::given_or(case_first, CollationCaseFirst::False);
    }

    /// Whether accents are compared from the end of a text.
    pub fn backward_second_level(self) -> bool
        ensures { result ≡ self.backward_second_level.value }
    {
        self.backward_second_level.value
    }

    /// Sets or clears whether accents are compared from the end of a text.
    pub fn set_backward_second_level(&mut self, backward_second_level: Option<bool>)
        ensures { self.new ≡ record self.old { backward_second_level = given_or backward_second_level false } }
    {
        self.backward_second_level = Noted::given_or(backward_second_level, false);
    }

    /// Whether numbers are compared by value.
    pub fn numeric(self) -> bool
        ensures { result ≡ self.numeric.value }
    {
        self.numeric.value
    }

    /// Sets or clears whether numbers are compared by value.
    pub fn set_numeric(&mut self, numeric: Option<bool>)
        ensures { self.new ≡ record self.old { numeric = given_or numeric false } }
    {
        self.numeric = Noted::given_or(numeric, false);
    }

    /// Sets or clears whether numbers are compared by value, by its name.
    pub fn set_numeric_from_enum(&mut self, numeric: Option<CollationNumericOrdering>)
        ensures { self.new ≡ record self.old { numeric = given_or (option_map is_numeric numeric) false } }
    {
        match numeric {
            Some(CollationNumericOrdering::True) => self.set_numeric(Some(true)),
            Some(CollationNumericOrdering::False) => self.set_numeric(Some(false)),
            None => self.set_numeric(None),
        }
    }

    /// The bits of a tertiary weight that count, or `None` where the tertiary level does not. The
    /// bits of case are among them if case comes first and has no level of its own.
    pub fn tertiary_mask(self) -> Option<u16>
        ensures { result ≡ tertiary_mask_of self }
    {
        if self.strength.value <= Strength::Secondary {
            None
        } else if self.case_first.value != CollationCaseFirst::False && !self.case_level.value {
            Some(CASE_MASK | TERTIARY_MASK)
        } else {
            Some(TERTIARY_MASK)
        }
    }

    /// Whether upper case comes before lower case.
    pub fn upper_first(self) -> bool
        ensures { result ≡ is_upper_first self.case_first.value }
    {
        self.case_first.value == CollationCaseFirst::Upper
    }

    /// Gives each option without a note the other's value and note.
    pub fn set_defaults(&mut self, other: CollatorOptionsBitField)
        ensures { self.new ≡ with_defaults self.old other }
    {
        self.strength = self.strength.own_or(other.strength);
        self.max_variable = self.max_variable.own_or(other.max_variable);
        self.alternate_handling = self.alternate_handling.own_or(other.alternate_handling);
        self.case_level = self.case_level.own_or(other.case_level);
        self.case_first = self.case_first.own_or(other.case_first);
        self.backward_second_level = self
            .backward_second_level
            .own_or(other.backward_second_level);
        self.numeric = self.numeric.own_or(other.numeric);
    }
}

/// The bits of a tertiary weight without those of case.
const TERTIARY_MASK: u16 = 0x3F3F;

/// The bits of case in a tertiary weight.
const CASE_MASK: u16 = 0xC000;

impl From<CollatorOptions> for CollatorOptionsBitField {
    ghost use Rattle.icu_collator_types.specs.NotedOptions.{noted_options};

    ghost from_gives = { λ options merged. merged ≡ noted_options options };

    /// The default, and then each of the caller's four options set or cleared.
    fn from(options: CollatorOptions) -> CollatorOptionsBitField {
        let mut merged = CollatorOptionsBitField::default();
        merged.set_strength(options.strength);
        merged.set_max_variable(options.max_variable);
        merged.set_alternate_handling(options.alternate_handling);
        merged.set_case_level_from_enum(options.case_level);
        merged
    }
}

impl From<CollatorOptionsBitField> for ResolvedCollatorOptions {
    ghost use Rattle.icu_collator_types.specs.NotedOptions.{values_of};

    ghost from_gives = { λ merged resolved. resolved ≡ values_of merged };

    /// The value of each option, whether it was given or not.
    fn from(merged: CollatorOptionsBitField) -> ResolvedCollatorOptions {
        ResolvedCollatorOptions {
            strength: merged.strength(),
            alternate_handling: merged.alternate_handling(),
            case_first: merged.case_first(),
            max_variable: merged.max_variable(),
            case_level: if merged.case_level() {
                CaseLevel::On
            } else {
                CaseLevel::Off
            },
            numeric: if merged.numeric() {
                CollationNumericOrdering::True
            } else {
                CollationNumericOrdering::False
            },
        }
    }
}

impl From<ResolvedCollatorOptions> for CollatorOptions {
    ghost use Rattle.icu_collator_types.specs.NotedOptions.{options_for};

    ghost from_gives = { λ resolved options. options ≡ options_for resolved };

    /// What a caller asks for to get the resolved options in another collator.
    fn from(resolved: ResolvedCollatorOptions) -> CollatorOptions {
        CollatorOptions {
            strength: Some(resolved.strength),
            alternate_handling: Some(resolved.alternate_handling),
            max_variable: Some(resolved.max_variable),
            case_level: Some(resolved.case_level),
        }
    }
}

impl From<ResolvedCollatorOptions> for CollatorPreferences<'static> {
    ghost use Rattle.icu_collator_types.specs.NotedOptions.{ArePreferencesFor};

    ghost from_gives = { λ resolved preferences. ArePreferencesFor resolved preferences };

    /// The preferences by which another collator gets the resolved options, for no locale.
    fn from(resolved: ResolvedCollatorOptions) -> CollatorPreferences<'static> {
        CollatorPreferences {
            locale: "",
            collation_type: None,
            case_first: Some(resolved.case_first),
            numeric_ordering: Some(resolved.numeric),
        }
    }
}
