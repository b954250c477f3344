//! Canonical and compatibility tables that a builder makes of classes and mappings of Unicode's data, and what
//! normalisers over them give.

use crate::calls::{Ask, Kind, gives};
use icu_normalizer_core::builder::CanonicalDataBuilder;
use icu_normalizer_core::canonical::CanonicalTables;
use icu_normalizer_core::compatibility::NfkdTables;
use samples_icu_normalizer::held::Held;
use std::alloc::Global;

/// Marks, and their classes.
const CLASSES: [(char, u8); 4] = [
    ('\u{302}', 230),
    ('\u{307}', 230),
    ('\u{323}', 220),
    ('\u{110ba}', 7),
];

/// Characters, and the two that compose to each. Beside those of the worked rows: one whose first has a compatibility
/// mapping, one whose second comes of one, and one past U+FFFF.
const MAPPINGS: [(char, char, char); 7] = [
    ('\u{e1}', 'a', '\u{301}'),
    ('\u{e4}', 'a', '\u{308}'),
    ('\u{1e61}', 's', '\u{307}'),
    ('\u{1e9b}', '\u{17f}', '\u{307}'),
    ('\u{1ea1}', 'a', '\u{323}'),
    ('\u{304c}', '\u{304b}', '\u{3099}'),
    ('\u{1109a}', '\u{11099}', '\u{110ba}'),
];

/// A character, and a compatibility mapping of it: its first character, and those after it.
type Compatibility = (char, char, &'static [char]);

/// Compatibility mappings to a space, to one and a mark, to one character, to two, to three, and to eight, and of a
/// character past U+FFFF.
const COMPATIBILITIES: [Compatibility; 8] = [
    ('\u{a0}', ' ', &[]),
    ('\u{a8}', ' ', &['\u{308}']),
    ('\u{b2}', '2', &[]),
    ('\u{17f}', 's', &[]),
    ('\u{fb01}', 'f', &['i']),
    ('\u{fb03}', 'f', &['f', 'i']),
    (
        '\u{fdfb}',
        '\u{62c}',
        &[
            '\u{644}', ' ', '\u{62c}', '\u{644}', '\u{627}', '\u{644}', '\u{647}',
        ],
    ),
    ('\u{1d400}', 'A', &[]),
];

/// Whether a builder takes the classes.
fn takes_classes(builder: &mut CanonicalDataBuilder) -> bool {
    for (c, class) in CLASSES {
        if builder.class(c, class).is_err() {
            return false;
        }
    }
    true
}

/// Whether it takes the canonical mappings.
fn takes_mappings(builder: &mut CanonicalDataBuilder) -> bool {
    for (c, first, second) in MAPPINGS {
        if builder.map(c, first, Some(second), true).is_err() {
            return false;
        }
    }
    true
}

/// Whether it takes the compatibility mappings.
fn takes_compatibilities(builder: &mut CanonicalDataBuilder) -> bool {
    for (c, first, others) in COMPATIBILITIES {
        if builder.kmap(c, first, others).is_err() {
            return false;
        }
    }
    true
}

/// Whether it takes all three.
fn takes_all(builder: &mut CanonicalDataBuilder) -> bool {
    takes_classes(builder) && takes_mappings(builder) && takes_compatibilities(builder)
}

/// A provider of these tables.
fn held_of(tables: CanonicalTables<'static>, nfkd: Option<NfkdTables<'static>>) -> Held<'static> {
    Held {
        tables,
        nfkd,
        uts46: None,
        lacks_words: false,
        lacks_lists: false,
        lacks_pairs: false,
        lacks_compatibility_lists: false,
    }
}

/// A provider of the tables that a builder makes of what it was given.
fn built(builder: &CanonicalDataBuilder) -> Option<Held<'static>> {
    let tables = builder.build().ok()?;
    Some(held_of(tables, builder.build_nfkd().ok()))
}

/// A provider of the tables of all that is above; `None` where memory is refused.
fn provider(alloc: Global) -> Option<Held<'static>> {
    let mut builder = CanonicalDataBuilder::new(alloc);
    if takes_all(&mut builder) {
        built(&builder)
    } else {
        None
    }
}

/// Whether normalisers over all that give what is asked for.
pub fn gives_given(alloc: Global, kind: Kind, ask: Ask<'_>) -> bool {
    match provider(alloc) {
        Some(held) => gives(alloc, &held, kind, ask),
        None => false,
    }
}
