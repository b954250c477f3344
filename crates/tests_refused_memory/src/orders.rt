//! Texts compared, in each encoding.

use crate::asked_texts::{LATIN1, LATIN1_UNITS, LONG, OTHER, OTHER_UNITS, UNITS};
use crate::told::is_told;
use icu_collator::CollatorBorrowed;

/// Prints how texts compare, as text and as bytes.
fn tell_texts(rt: &HostRuntime, collator: &CollatorBorrowed<'_>) {
    let alloc = rt.alloc();
    let (long, other) = (LONG.as_bytes(), OTHER.as_bytes());
    for _ in 0..2 {
        if is_told(rt, "compare", &collator.compare(alloc, LONG, OTHER)) {
            break;
        }
    }
    for _ in 0..2 {
        if is_told(
            rt,
            "compare_utf8",
            &collator.compare_utf8(alloc, other, long),
        ) {
            break;
        }
    }
}

/// Prints how units compare.
fn tell_units(rt: &HostRuntime, collator: &CollatorBorrowed<'_>) {
    for _ in 0..2 {
        let order = collator.compare_utf16(rt.alloc(), &UNITS, &OTHER_UNITS);
        if is_told(rt, "compare_utf16", &order) {
            break;
        }
    }
}

/// Prints how texts in Latin-1 compare, with each other and with units.
fn tell_latin1(rt: &HostRuntime, collator: &CollatorBorrowed<'_>) {
    for _ in 0..2 {
        let order = collator.compare_latin1(rt.alloc(), &LATIN1, &LATIN1[1..]);
        if is_told(rt, "compare_latin1", &order) {
            break;
        }
    }
    for _ in 0..2 {
        let order = collator.compare_latin1_utf16(rt.alloc(), &LATIN1, &LATIN1_UNITS);
        if is_told(rt, "compare_latin1_utf16", &order) {
            break;
        }
    }
}

/// Prints what each comparison answers.
pub fn tell_orders(rt: &HostRuntime, collator: &CollatorBorrowed<'_>) {
    tell_texts(rt, collator);
    tell_units(rt, collator);
    tell_latin1(rt, collator);
}
