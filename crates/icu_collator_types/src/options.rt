//! The options of a collator: those that a caller gives, those that a locale's preferences give,
//! those that a records file sets, and what they resolve to. Names and meanings are ICU4X's; the
//! records file, which stands in for CLDR data, is described in `docs/RECORDS.md`.

ghost use Rattle.std.specs.Prelude.{◌≡◌};

mod bit_field;

pub use bit_field::CollatorOptionsBitField;

/// How many levels of difference a comparison looks at. A strength is above those before it.
#[derive(Clone, Copy, PartialEq, Eq, PartialOrd, Ord, Debug)]
pub enum Strength {
    /// Letters alone: "a", "á" and "A" are equal.
    Primary = 0,
    /// Letters, then accents: "a" is below "á", and "a" and "A" are equal.
    Secondary = 1,
    /// Letters, accents, then case and other forms: "a" is below "A". The default.
    Tertiary = 2,
    /// As `Tertiary`, then what `AlternateHandling::Shifted` took out of the levels before.
    Quaternary = 3,
    /// As `Quaternary`, then the characters of the decomposed texts: only texts that are
    /// canonically equivalent are equal.
    Identical = 7,
}

impl Strength {
    ghost use Rattle.icu_collator_types.specs.Options.{is_at_least};

    /// Whether this strength looks at the level that `level` names, as `Secondary` names that of
    /// accents. The quaternary level is looked at by `Quaternary` and `Identical`.
    pub fn is_at_least(self, level: Strength) -> bool
        ensures { result ≡ is_at_least self level }
    {
        self >= level
    }
}

/// What becomes of spaces, punctuation and symbols, up to `MaxVariable`.
#[derive(Clone, Copy, PartialEq, Eq, PartialOrd, Ord, Debug)]
pub enum AlternateHandling {
    /// They count as letters do.
    NonIgnorable,
    /// They count at the quaternary level alone.
    Shifted,
}

/// The last group of characters that `AlternateHandling::Shifted` takes out of the levels before
/// the quaternary; the groups before it go with it.
#[derive(Clone, Copy, PartialEq, Eq, Debug)]
pub enum MaxVariable {
    /// Spaces.
    Space,
    /// Spaces and punctuation.
    Punctuation,
    /// Spaces, punctuation and symbols.
    Symbol,
    /// Spaces, punctuation, symbols and currency signs.
    Currency,
}

/// Whether case has a level of its own, between accents and tertiary differences.
#[derive(Clone, Copy, PartialEq, Eq, Debug)]
pub enum CaseLevel {
    /// No such level.
    Off,
    /// A level for case, at every strength.
    On,
}

/// Which case comes first where texts differ in case alone.
#[derive(Clone, Copy, PartialEq, Eq, Debug)]
pub enum CollationCaseFirst {
    /// As the tertiary weights say.
    False,
    /// Lower case before upper case, ahead of other tertiary differences.
    Lower,
    /// Upper case before lower case, ahead of other tertiary differences.
    Upper,
}

/// Whether a run of digits is compared by its value.
#[derive(Clone, Copy, PartialEq, Eq, Debug)]
pub enum CollationNumericOrdering {
    /// Digit by digit: "10" is below "2".
    False,
    /// By value: "2" is below "10".
    True,
}

/// What a caller asks of a collator. `None` leaves the choice to the records file, or to the default
/// where the file says nothing.
#[derive(Clone, Copy, Debug, Default)]
pub struct CollatorOptions {
    /// How many levels count.
    pub strength: Option<Strength>,
    /// What becomes of spaces and punctuation.
    pub alternate_handling: Option<AlternateHandling>,
    /// The last group that `Shifted` takes.
    pub max_variable: Option<MaxVariable>,
    /// Whether case has a level of its own.
    pub case_level: Option<CaseLevel>,
}

impl CollatorOptions {
    /// Options that ask for nothing.
    pub const fn default() -> Self
        ensures strength { result.strength ≡ None }
        ensures alternate_handling { result.alternate_handling ≡ None }
        ensures max_variable { result.max_variable ≡ None }
        ensures case_level { result.case_level ≡ None }
    {
        Self {
            strength: None,
            alternate_handling: None,
            max_variable: None,
            case_level: None,
        }
    }
}

/// What the user's locale asks of a collator.
#[derive(Clone, Copy, Debug, Default)]
pub struct CollatorPreferences<'a> {
    /// The locale's name, plain text that a provider may read. The default is "".
    pub locale: &'a str,
    /// The type of collation, as "phonebook", plain text that a provider may read.
    pub collation_type: Option<&'a str>,
    /// Which case comes first.
    pub case_first: Option<CollationCaseFirst>,
    /// Whether numbers are compared by value.
    pub numeric_ordering: Option<CollationNumericOrdering>,
}

/// What the data of a collation set of the options: a records file, or the metadata of tables.
#[derive(Clone, Copy, PartialEq, Eq, Debug)]
pub struct FileSettings {
    /// What becomes of spaces and punctuation.
    pub alternate_handling: AlternateHandling,
    /// Which case comes first.
    pub case_first: CollationCaseFirst,
    /// The last group that `Shifted` takes.
    pub max_variable: MaxVariable,
}

impl Default for FileSettings {
    ghost use Rattle.icu_collator_types.specs.Options.{default_settings};

    ghost is_default = { λ settings. settings ≡ default_settings };

    /// What a file sets that has no line for it: nothing is variable, no case comes first, and
    /// spaces would be the last variable group.
    fn default() -> Self {
        FileSettings {
            alternate_handling: AlternateHandling::NonIgnorable,
            case_first: CollationCaseFirst::False,
            max_variable: MaxVariable::Space,
        }
    }
}

/// The options that a collator goes by.
#[derive(Clone, Copy, Debug)]
pub struct ResolvedCollatorOptions {
    /// How many levels count.
    pub strength: Strength,
    /// What becomes of spaces and punctuation.
    pub alternate_handling: AlternateHandling,
    /// Which case comes first.
    pub case_first: CollationCaseFirst,
    /// The last group that `Shifted` takes.
    pub max_variable: MaxVariable,
    /// Whether case has a level of its own.
    pub case_level: CaseLevel,
    /// Whether numbers are compared by value.
    pub numeric: CollationNumericOrdering,
}

impl ResolvedCollatorOptions {
    ghost use Rattle.icu_collator_types.specs.Options.{resolved_options};

    /// The options that a collator goes by. Strength, alternate handling, the last variable group
    /// and the case level are the caller's where given; case first and numeric ordering are the
    /// preferences' where given. The rest is the file's, and where a file sets nothing of the kind
    /// `Tertiary` and off.
    #[tactic(auto, using(crate::proofs::MergedOptionLemmas::merged_value, crate::proofs::MergedOptionLemmas::merged_case_level, crate::proofs::MergedOptionLemmas::merged_numeric))]
    pub fn resolve(
        options: &CollatorOptions,
        preferences: &CollatorPreferences<'_>,
        settings: &FileSettings,
    ) -> Self
        ensures { result ≡ resolved_options options.now preferences.now settings.now }
    {
        let mut merged = CollatorOptionsBitField::from(*options);
        merged.set_case_first(preferences.case_first);
        merged.set_numeric_from_enum(preferences.numeric_ordering);
        let mut defaults = CollatorOptionsBitField::default();
        defaults.set_alternate_handling(Some(settings.alternate_handling));
        defaults.set_case_first(Some(settings.case_first));
        defaults.set_max_variable(Some(settings.max_variable));
        merged.set_defaults(defaults);
        Self::from(merged)
    }
}
