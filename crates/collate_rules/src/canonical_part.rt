//! What lines say of classes and mappings, kept apart from what else they say.

ghost use Rattle.std.specs.Prelude.{◌≡◌, ◌∷◌, [], MatchOption};
ghost use Rattle.collate_lines.specs.Record.{said};
ghost use Rattle.collate_rules.specs.CanonicalParts.{in_full, IsShort, SaysSame};

use crate::step::Step;
use collate_lines::record::Record;
use icu_normalizer_core::properties::Decomposed;

/// What a line says of a character's class or mapping.
#[derive(Clone, Copy, Debug)]
pub enum CanonicalPart {
    /// The character's canonical combining class.
    Class {
        character: char,
        class: u16,
    },
    /// The character's canonical mapping, and whether it is kept out of the composed pairs.
    Map {
        character: char,
        step: Decomposed,
        is_excluded: bool,
    },
    /// The character's compatibility mapping.
    Kmap {
        character: char,
        step: Step,
    },
}

/// What a line says of a class or a mapping, if it does.
pub(crate) fn canonical_part(given: &Record) -> Option<CanonicalPart>
    requires { IsShort (said given.now) }
    ensures { MatchOption result (SaysSame [] (said given.now ∷ [])) (λ part. SaysSame (in_full part ∷ []) (said given.now ∷ [])) }
{
    match given {
        Record::Class { character, class } => Some(CanonicalPart::Class {
            character: *character,
            class: *class,
        }),
        Record::Map {
            character,
            first,
            second,
            is_excluded,
        } => {
            let step = match second {
                Some(second) => Decomposed::Expansion(*first, *second),
                None => Decomposed::Singleton(*first),
            };
            Some(CanonicalPart::Map {
                character: *character,
                step,
                is_excluded: *is_excluded,
            })
        }
        Record::Kmap { character, mapping } => Some(CanonicalPart::Kmap {
            character: *character,
            step: Step::of_list(mapping.as_slice()),
        }),
        _ => None,
    }
}

impl CanonicalPart {
    ghost use Rattle.collate_rules.specs.CanonicalParts.{subject_of};

    /// The character of which it says something.
    pub fn character(self) -> char
        ensures { result ≡ subject_of self }
    {
        match self {
            CanonicalPart::Class { character, .. }
            | CanonicalPart::Map { character, .. }
            | CanonicalPart::Kmap { character, .. } => character,
        }
    }
}
