//! Decomposed characters on their way out, marks that are sorted, and what one read tells of characters.

use icu_normalizer_core::canonical::{CanonicalBorrowed, CanonicalData, Reading};
use icu_normalizer_core::decomposition::{FormData, Run, sort_marks};
use samples_icu_normalizer::tables::{PAIRS, STEPS, tables};
use smallvec::SmallVec;
use std::alloc::{AllocError, Global};

/// Canonical data of the worked rows.
fn canonical(alloc: Global) -> Option<CanonicalData<'static>> {
    let tables = tables(alloc, &[], &STEPS, &PAIRS)?;
    CanonicalData::try_new(alloc, tables).ok()
}

/// A run that took these characters.
fn run_of<'d>(
    alloc: Global,
    canonical: CanonicalBorrowed<'d>,
    chars: &[char],
) -> Result<Run<'d>, AllocError> {
    let basis = FormData::Canonical(canonical);
    basis.keep_promise();
    let mut run = Run::new(alloc, basis);
    for c in chars {
        run.push_decomposed(*c)?;
    }
    Ok(run)
}

/// Whether a run gives these characters, and then none.
fn gives(run: &mut Run<'_>, expected: &[char]) -> bool {
    for wanted in expected {
        if run.pop() != Some(*wanted) {
            return false;
        }
    }
    run.pop().is_none()
}

/// Whether a run gives the full lists before the last starter, and keeps the marks after it.
fn keeps_marks(alloc: Global, canonical: CanonicalBorrowed<'_>) -> bool {
    match run_of(alloc, canonical, &['\u{e1}', '\u{323}', 'b', '\u{301}']) {
        Ok(mut run) => { gives(&mut run, &['a', '\u{323}', '\u{301}', 'b']) && !run.is_empty() }
        Err(_) => false,
    }
}

/// Whether one gives them once it is finished.
fn gives_marks(alloc: Global, canonical: CanonicalBorrowed<'_>) -> bool {
    match run_of(alloc, canonical, &['b', '\u{301}', '\u{302}', '\u{323}']) {
        Ok(mut run) => {
            run.finish().is_ok()
                && gives(&mut run, &['b', '\u{323}', '\u{301}', '\u{302}'])
                && run.is_empty()
        }
        Err(_) => false,
    }
}

/// Two marks, sorted; `None` where one is a starter.
fn two_sorted(
    alloc: Global,
    canonical: CanonicalBorrowed<'_>,
    first: char,
    second: char,
) -> Result<Option<(char, char)>, AllocError> {
    let basis = FormData::Canonical(canonical);
    if basis.class(first) == 0 || basis.class(second) == 0 {
        return Ok(None);
    }
    let mut marks: SmallVec<char, 16> = SmallVec::new(alloc);
    marks.push(first)?;
    marks.push(second)?;
    sort_marks(basis, &mut marks, 0)?;
    Ok(match marks.as_slice() {
        [first, second] => Some((*first, *second)),
        _ => None,
    })
}

/// Whether marks are sorted by class, and those of one class stay.
fn sorts(alloc: Global, canonical: CanonicalBorrowed<'_>) -> bool {
    let changed = two_sorted(alloc, canonical, '\u{301}', '\u{323}');
    let kept = two_sorted(alloc, canonical, '\u{302}', '\u{301}');
    matches!(changed, Ok(Some(('\u{323}', '\u{301}'))))
        && matches!(kept, Ok(Some(('\u{302}', '\u{301}'))))
}

/// Whether one read tells of characters that stand for themselves, and of one that stands for two.
fn tells(canonical: CanonicalBorrowed<'_>) -> bool {
    matches!(canonical.reading('a'), Reading::Itself(0))
        && matches!(canonical.reading('\u{323}'), Reading::Itself(220))
        && matches!(canonical.reading('\u{e1}'), Reading::Two('a', '\u{301}'))
}

/// What is asked of canonical data.
#[derive(Clone, Copy)]
enum Ask {
    PushDecomposed,
    Finish,
    SortMarks,
    Reading,
}

/// Whether canonical data answer it right.
fn answers(alloc: Global, canonical: CanonicalBorrowed<'_>, ask: Ask) -> bool {
    match ask {
        Ask::PushDecomposed => keeps_marks(alloc, canonical),
        Ask::Finish => gives_marks(alloc, canonical),
        Ask::SortMarks => sorts(alloc, canonical),
        Ask::Reading => tells(canonical),
    }
}

/// Whether those of the worked rows do.
fn rows_answer(alloc: Global, ask: Ask) -> bool {
    match canonical(alloc) {
        Some(data) => answers(alloc, data.as_borrowed(), ask),
        None => false,
    }
}

#[test]
fn ok_push_decomposed(rt: HostRuntime) {
    assert!(rt; rows_answer(rt.alloc(), Ask::PushDecomposed));
}

#[test]
fn ok_finish(rt: HostRuntime) {
    assert!(rt; rows_answer(rt.alloc(), Ask::Finish));
}

#[test]
fn ok_sort_marks(rt: HostRuntime) {
    assert!(rt; rows_answer(rt.alloc(), Ask::SortMarks));
}

// `reading` may always answer `Other`, by its contract.
#[test]
fn readings_tell(rt: HostRuntime) {
    assert!(rt; rows_answer(rt.alloc(), Ask::Reading));
}
