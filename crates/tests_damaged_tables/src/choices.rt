//! The options under which collators are asked: so many that each two values of two options come together.

use icu_collator_core::tables::CollationMetadata;
use icu_collator_types::options::AlternateHandling::{NonIgnorable, Shifted};
use icu_collator_types::options::CaseLevel::{Off, On};
use icu_collator_types::options::{
    AlternateHandling, CaseLevel, CollationCaseFirst as First, CollationNumericOrdering as Digits,
    CollatorOptions, CollatorPreferences, MaxVariable, ResolvedCollatorOptions, Strength,
};

/// The bit of metadata that says that secondaries are compared backward.
const BACKWARD: u32 = 0x80;

/// The values of two options, each of which comes together with each of the other.
const STRENGTHS: [Strength; 5] = [
    Strength::Primary,
    Strength::Secondary,
    Strength::Tertiary,
    Strength::Quaternary,
    Strength::Identical,
];

const MAX_VARIABLES: [MaxVariable; 4] = [
    MaxVariable::Space,
    MaxVariable::Punctuation,
    MaxVariable::Symbol,
    MaxVariable::Currency,
];

/// What becomes of variable characters, whether case has a level of its own, which case comes first, how digits are
/// read, and whether secondaries are compared backward.
type Others = (AlternateHandling, CaseLevel, First, Digits, bool);

/// The other options: for each last variable group those beside each strength.
const OTHERS: [[Others; 5]; 4] = [
    [
        (Shifted, Off, First::Upper, Digits::True, true),
        (Shifted, On, First::Lower, Digits::True, false),
        (NonIgnorable, Off, First::Lower, Digits::False, true),
        (NonIgnorable, On, First::False, Digits::True, true),
        (NonIgnorable, Off, First::False, Digits::False, false),
    ],
    [
        (Shifted, On, First::False, Digits::False, false),
        (NonIgnorable, On, First::Upper, Digits::False, false),
        (NonIgnorable, On, First::Upper, Digits::True, true),
        (Shifted, Off, First::Lower, Digits::False, true),
        (Shifted, Off, First::Lower, Digits::True, false),
    ],
    [
        (NonIgnorable, On, First::Lower, Digits::True, true),
        (Shifted, Off, First::False, Digits::False, true),
        (Shifted, On, First::Lower, Digits::False, false),
        (NonIgnorable, Off, First::Upper, Digits::True, false),
        (Shifted, On, First::Upper, Digits::False, true),
    ],
    [
        (NonIgnorable, Off, First::Lower, Digits::False, false),
        (NonIgnorable, Off, First::Upper, Digits::True, true),
        (Shifted, Off, First::False, Digits::True, false),
        (Shifted, On, First::Upper, Digits::False, false),
        (NonIgnorable, On, First::False, Digits::True, true),
    ],
];

/// How many choices there are.
pub const COUNT: usize = 20;

/// What a collator is asked for.
#[derive(Clone, Copy)]
pub struct Choice {
    /// The options, each of which is given.
    pub options: ResolvedCollatorOptions,
    /// Whether its tables are to have secondaries compared backward.
    is_backward: bool,
}

/// The choice at an index below `COUNT`.
pub fn choice_at(index: usize) -> Option<Choice> {
    let (group, level) = (index / 5, index % 5);
    let (alternate_handling, case_level, case_first, numeric, is_backward) = *OTHERS
        .get(group)?
        .get(level)?;
    let options = ResolvedCollatorOptions {
        strength: *STRENGTHS.get(level)?,
        alternate_handling,
        case_first,
        max_variable: *MAX_VARIABLES.get(group)?,
        case_level,
        numeric,
    };
    Some(Choice {
        options,
        is_backward,
    })
}

/// The number of options.
const OPTIONS: usize = 7;

impl Choice {
    /// The options that are given.
    pub fn given_options(&self) -> CollatorOptions {
        CollatorOptions {
            strength: Some(self.options.strength),
            alternate_handling: Some(self.options.alternate_handling),
            max_variable: Some(self.options.max_variable),
            case_level: Some(self.options.case_level),
        }
    }

    /// The preferences that are given.
    pub fn preferences(&self) -> CollatorPreferences<'static> {
        CollatorPreferences {
            locale: "",
            collation_type: None,
            case_first: Some(self.options.case_first),
            numeric_ordering: Some(self.options.numeric),
        }
    }

    /// Settings that say how secondaries are compared, and else what others say.
    pub fn metadata(&self, metadata: CollationMetadata) -> CollationMetadata {
        let backward = if self.is_backward { BACKWARD } else { 0 };
        CollationMetadata {
            bits: (metadata.bits & !BACKWARD) | backward,
        }
    }

    /// Whether digits are read as numbers.
    pub fn is_numeric(&self) -> bool {
        self.options.numeric == Digits::True
    }

    /// The values of the options, as numbers.
    fn values(&self) -> [u32; OPTIONS] {
        let options = self.options;
        [
            options.strength as u32,
            options.alternate_handling as u32,
            options.max_variable as u32,
            options.case_level as u32,
            options.case_first as u32,
            options.numeric as u32,
            u32::from(self.is_backward),
        ]
    }

    /// Whether two options have the values that they have in another choice.
    fn agrees(&self, other: &Choice, one: usize, next: usize) -> bool {
        let (values, others) = (self.values(), other.values());
        values.get(one) == others.get(one) && values.get(next) == others.get(next)
    }
}

/// Whether no choice before an index has the values of two options that the one there has.
fn is_first(index: usize, one: usize, next: usize) -> bool {
    let Some(choice) = choice_at(index) else {
        return false;
    };
    (0..index).all(|before| match choice_at(before) {
        Some(other) => !choice.agrees(&other, one, next),
        None => true,
    })
}

/// How many different pairs of values of two options come together in a choice.
pub fn pair_count() -> u32 {
    let mut count: u32 = 0;
    for index in 0..COUNT {
        for one in 0..OPTIONS {
            for next in 0..one {
                if is_first(index, one, next) {
                    count = count.wrapping_add(1);
                }
            }
        }
    }
    count
}
