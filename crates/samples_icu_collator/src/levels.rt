//! The levels of a text under options, by its elements: what texts are compared by.

use crate::elements::{
    case_weight, primary_of, quaternary_of, secondary_of, shifted_end, tertiary_of, tertiary_weight,
};
use icu_collator_core::tables::{CollationReordering, CollationSpecialPrimaries, CollationTables};
use icu_collator_types::options::{CaseLevel, ResolvedCollatorOptions, Strength};
use std::alloc::Global;
use std::cmp::Ordering;

/// The primary of U+FFFE, which ends a segment. Those that are shifted are above it.
const SEGMENT_END: u32 = 0x0200_0000;

/// The bit of metadata that says that secondaries are compared backward.
const BACKWARD: u32 = 0x80;

/// What the quaternary 0 counts as: primaries that are shifted are below it.
pub const FIRST_QUATERNARY: u64 = 1 << 32;

/// The levels, each a list of weights.
pub struct Levels {
    /// The options that the elements are read under, which say how many levels count.
    pub options: ResolvedCollatorOptions,
    /// Primaries, in the place of which others may stand.
    pub primaries: Vec<u64>,
    /// Whether the lead of each is compressible.
    pub compressible: Vec<bool>,
    /// Secondaries; backward those of each segment from its end, and 0 for U+FFFE.
    pub secondaries: Vec<u64>,
    /// Cases, that which comes first the lowest.
    pub cases: Vec<u64>,
    /// Tertiaries, with case or without it.
    pub tertiaries: Vec<u64>,
    /// Primaries that are shifted, and the quaternaries of elements with a tertiary, counted from `FIRST_QUATERNARY`
    /// on.
    pub quaternaries: Vec<u64>,
    /// The characters of the decomposed list; U+FFFE is 0, others are one more.
    pub characters: Vec<u64>,
}

// (let go of as one, and not part by part, so that what owns one is proved sooner)
impl Drop for Levels {
    fn drop(self) {
        let Levels {
            options: _,
            primaries: _,
            compressible: _,
            secondaries: _,
            cases: _,
            tertiaries: _,
            quaternaries: _,
            characters: _,
        } = self;
    }
}

/// The primary that stands in the place of another.
fn reordered(reordering: Option<&CollationReordering<'_>>, primary: u32) -> u32 {
    let Some(reordering) = reordering else {
        return primary;
    };
    let lead = (primary >> 24) as usize;
    let other = reordering.reorder_table.get(lead).unwrap_or(0);
    if other != 0 {
        return (u32::from(other) << 24) | (primary & 0xff_ffff);
    }
    if primary <= 1 || primary >= reordering.min_high_no_reorder {
        return primary;
    }
    for range in reordering.reorder_ranges.iter() {
        if range > primary | 0xffff {
            let lead = (primary >> 24).wrapping_add(range & 0xff) & 0xff;
            return (lead << 24) | (primary & 0xff_ffff);
        }
    }
    primary
}

/// Whether a lead is compressible.
fn is_compressible(special_primaries: &CollationSpecialPrimaries<'_>, lead: u32) -> bool {
    let words = &special_primaries.last_primaries;
    if words.len() != 20 {
        return (0x61 <= lead && lead <= 0x80) || lead == 0xfe;
    }
    let word = words.get(4 + (lead >> 4) as usize % 16).unwrap_or(0);
    (word >> (lead % 16)) & 1 == 1
}

/// Appends weights, the last first.
fn push_reversed(weights: &mut Vec<u64>, segment: &[u64]) -> Option<()> {
    for weight in segment.iter().rev() {
        weights.push(*weight).ok()?;
    }
    Some(())
}

/// The secondaries of elements, those of each segment from its end, and 0 for the end of a segment.
fn backward_secondaries(alloc: Global, elements: &[u64]) -> Option<Vec<u64>> {
    let mut weights = Vec::new(alloc);
    let mut segment = Vec::new(alloc);
    for bits in elements {
        if primary_of(*bits) == SEGMENT_END {
            push_reversed(&mut weights, segment.as_slice())?;
            weights.push(0).ok()?;
            segment.clear();
        } else if secondary_of(*bits) != 0 {
            segment.push(secondary_of(*bits)).ok()?;
        }
    }
    push_reversed(&mut weights, segment.as_slice())?;
    Some(weights)
}

impl Levels {
    /// Levels without weights.
    fn new(alloc: Global, options: ResolvedCollatorOptions) -> Levels {
        Levels {
            options,
            primaries: Vec::new(alloc),
            compressible: Vec::new(alloc),
            secondaries: Vec::new(alloc),
            cases: Vec::new(alloc),
            tertiaries: Vec::new(alloc),
            quaternaries: Vec::new(alloc),
            characters: Vec::new(alloc),
        }
    }

    /// Appends the primary of an element.
    fn push_primary(&mut self, tables: &CollationTables<'_>, primary: u32) -> Option<()> {
        if primary == 0 {
            return Some(());
        }
        let compressible = is_compressible(&tables.special_primaries, primary >> 24);
        self.compressible.push(compressible).ok()?;
        let primary = reordered(tables.reordering.as_ref(), primary);
        self.primaries.push(u64::from(primary)).ok()
    }

    /// Appends the weights of an element that isn't shifted, but for its quaternary.
    fn push_element(&mut self, tables: &CollationTables<'_>, bits: u64) -> Option<()> {
        self.push_primary(tables, primary_of(bits))?;
        if secondary_of(bits) != 0 {
            self.secondaries.push(secondary_of(bits)).ok()?;
        }
        if let Some(weight) = case_weight(&self.options, bits) {
            self.cases.push(weight).ok()?;
        }
        if tertiary_of(bits) != 0 {
            let weight = tertiary_weight(&self.options, bits);
            self.tertiaries.push(weight).ok()?;
        }
        Some(())
    }

    /// Appends the quaternaries of elements; the elements that aren't shifted. One without primary after one that is
    /// shifted counts as none.
    fn push_quaternaries(
        &mut self,
        alloc: Global,
        tables: &CollationTables<'_>,
        elements: &[u64],
    ) -> Option<Vec<u64>> {
        let end = shifted_end(&tables.special_primaries, &self.options)?;
        let mut whole = Vec::new(alloc);
        let mut is_behind_shifted = false;
        for bits in elements {
            let primary = primary_of(*bits);
            if SEGMENT_END < primary && primary < end {
                let shifted = reordered(tables.reordering.as_ref(), primary);
                self.quaternaries.push(u64::from(shifted)).ok()?;
                is_behind_shifted = true;
            } else if primary != 0 || !is_behind_shifted {
                is_behind_shifted = false;
                whole.push(*bits).ok()?;
                if tertiary_of(*bits) != 0 {
                    let weight = FIRST_QUATERNARY | quaternary_of(*bits);
                    self.quaternaries.push(weight).ok()?;
                }
            }
        }
        Some(whole)
    }

    /// Appends a character.
    fn push_character(&mut self, c: char) -> Option<()> {
        let weight = if c == '\u{fffe}' {
            0
        } else {
            u64::from(c as u32).wrapping_add(1)
        };
        self.characters.push(weight).ok()
    }
}

/// The levels of a text with these elements, by tables and under options, and this decomposed list.
pub fn levels_of(
    alloc: Global,
    tables: &CollationTables<'_>,
    options: ResolvedCollatorOptions,
    elements: &[u64],
    list: &[char],
) -> Option<Levels> {
    let mut levels = Levels::new(alloc, options);
    let whole = levels.push_quaternaries(alloc, tables, elements)?;
    for bits in whole.as_slice() {
        levels.push_element(tables, *bits)?;
    }
    if tables.metadata.bits & BACKWARD != 0 {
        levels.secondaries = backward_secondaries(alloc, whole.as_slice())?;
    }
    for c in list {
        levels.push_character(*c)?;
    }
    Some(levels)
}

/// How two lists order: by the first difference, or a list first that the other one begins with.
fn order_of_lists(left: &[u64], right: &[u64]) -> Ordering {
    for (one, other) in left.iter().zip(right) {
        if one != other {
            return one.cmp(other);
        }
    }
    left.len().cmp(&right.len())
}

/// How two texts order by the levels that their options, which are the same, have count.
pub fn order_of_levels(left: &Levels, right: &Levels) -> Ordering {
    let counts = |level: Strength| left.options.strength.is_at_least(level);
    let lists = [
        (true, &left.primaries, &right.primaries),
        (
            counts(Strength::Secondary),
            &left.secondaries,
            &right.secondaries,
        ),
        (
            left.options.case_level == CaseLevel::On,
            &left.cases,
            &right.cases,
        ),
        (
            counts(Strength::Tertiary),
            &left.tertiaries,
            &right.tertiaries,
        ),
        (
            counts(Strength::Quaternary),
            &left.quaternaries,
            &right.quaternaries,
        ),
        (
            counts(Strength::Identical),
            &left.characters,
            &right.characters,
        ),
    ];
    for (counts, one, other) in lists {
        let order = order_of_lists(one.as_slice(), other.as_slice());
        if counts && order != Ordering::Equal {
            return order;
        }
    }
    Ordering::Equal
}
