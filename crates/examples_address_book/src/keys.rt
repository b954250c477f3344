//! The keys of a name.

ghost use Rattle.std.specs.Prelude.{◌≡◌, Some, IfOk};
ghost use Rattle.icu_normalizer_core.specs.Decoding.{utf8_chars};
ghost use Rattle.icu_collator_types.specs.declared.options.Strength.TheVariants.{Primary};
ghost use Rattle.icu_collator.specs.CollatorAnswers.{key_by};

use icu_collator::options::{CollatorOptions, Strength};
use icu_collator::provider::CollatorProvider;
use icu_collator::{Collator, CollatorBorrowed, CollatorPreferences};
use sqlite::{Error, ErrorCode};
use std::alloc::Global;

/// What makes the keys of names: one collator for their order, and one by which names are found.
#[derive(Clone, Copy)]
pub struct Keying<'a> {
    /// A collator by which all levels count.
    pub all: CollatorBorrowed<'a>,
    /// One by which letters alone do.
    pub letters: CollatorBorrowed<'a>,
}

/// Options by which letters alone count.
pub fn letters_alone() -> CollatorOptions
    ensures { result.strength ≡ Some Primary }
{
    CollatorOptions {
        strength: Some(Strength::Primary),
        ..CollatorOptions::default()
    }
}

/// A collator over a provider's tables; `None` where memory is refused, or the tables are.
pub fn collator_over<P: CollatorProvider>(
    alloc: Global,
    provider: &P,
    options: CollatorOptions,
) -> Option<Collator<'_>> {
    Collator::try_new_unstable(alloc, provider, CollatorPreferences::default(), options).ok()
}

/// The sort key of a name.
///
/// Errors: refused memory, as the database names it.
pub fn key_of(alloc: Global, collator: &CollatorBorrowed<'_>, name: &str) -> Result<Vec<u8>, Error>
    ensures { IfOk result (λ key. key.items ≡ key_by collator.now (utf8_chars name.now)) }
{
    let mut key = Vec::new(alloc);
    match collator.write_sort_key_to(alloc, name, &mut key) {
        Ok(()) => Ok(key),
        Err(_) => Err(Error::SqliteFailure(ErrorCode::OutOfMemory)),
    }
}

/// The sort keys of a name.
#[derive(Drop)]
pub struct Keys {
    /// The one by which names are ordered.
    pub sort_key: Vec<u8>,
    /// The one by which they are found by their letters.
    pub letters: Vec<u8>,
}

/// Both keys of a name.
///
/// Errors: refused memory, as the database names it.
pub fn keys_of(alloc: Global, keying: &Keying<'_>, name: &str) -> Result<Keys, Error>
    ensures sort_key { IfOk result (λ keys. keys.sort_key.items ≡ key_by keying.now.all (utf8_chars name.now)) }
    ensures letters { IfOk result (λ keys. keys.letters.items ≡ key_by keying.now.letters (utf8_chars name.now)) }
{
    let sort_key = key_of(alloc, &keying.all, name)?;
    let letters = key_of(alloc, &keying.letters, name)?;
    Ok(Keys { sort_key, letters })
}
