//! Characters that composing leaves alone.

use icu_normalizer_core::builder::CanonicalDataBuilder;
use icu_normalizer_core::canonical::{CanonicalBorrowed, CanonicalData};
use std::alloc::{AllocError, Global};

/// A builder that was given letters with marks, a vowel that is the second of a pair, and a letter that composing
/// changes.
fn given(alloc: Global) -> Result<CanonicalDataBuilder, AllocError> {
    let mut builder = CanonicalDataBuilder::new(alloc);
    builder.class('\u{30a}', 230)?;
    builder.map('á', 'a', Some('\u{301}'), true)?;
    builder.map('Å', 'A', Some('\u{30a}'), true)?;
    builder.map('\u{9cb}', '\u{9c7}', Some('\u{9be}'), true)?;
    builder.map('\u{9dc}', '\u{9a1}', Some('\u{9bc}'), false)?;
    builder.map('\u{212b}', 'Å', None, false)?;
    Ok(builder)
}

// Letters without a mapping, and composed ones.
fn has_steady_letters(canonical: CanonicalBorrowed<'_>) -> bool {
    canonical.is_steady('a')
        && canonical.is_steady('á')
        && canonical.is_steady('Å')
        && canonical.is_steady('\u{9c7}')
        && canonical.is_steady('\u{9cb}')
        && canonical.is_steady('\u{1100}')
        && canonical.is_steady('\u{ac00}')
        && canonical.is_steady('\u{ac01}')
        && canonical.is_steady('\u{ffff}')
}

// Marks, one that is mapped to marks, starters that are the second of a pair, letters that composing changes, and one
// from U+10000 on.
fn has_others(canonical: CanonicalBorrowed<'_>) -> bool {
    !canonical.is_steady('\u{301}')
        && !canonical.is_steady('\u{344}')
        && !canonical.is_steady('\u{9be}')
        && !canonical.is_steady('\u{1161}')
        && !canonical.is_steady('\u{11c2}')
        && !canonical.is_steady('\u{9dc}')
        && !canonical.is_steady('\u{212b}')
        && !canonical.is_steady('\u{10000}')
}

/// Data that are built of what was given, if such data are built.
fn built(alloc: Global) -> Result<Option<CanonicalData<'static>>, AllocError> {
    Ok(given(alloc)?.build_data().ok())
}

/// Whether what is built says of just these letters that they are steady.
fn is_built_so(alloc: Global) -> Result<bool, AllocError> {
    match built(alloc)? {
        Some(checked) => {
            Ok(has_steady_letters(checked.as_borrowed()) && has_others(checked.as_borrowed()))
        }
        None => Ok(false),
    }
}

#[test]
fn ok_is_steady(rt: HostRuntime) -> Result<(), AllocError> {
    assert!(rt; is_built_so(rt.alloc())?);
    Ok(())
}
