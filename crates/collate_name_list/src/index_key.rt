//! Keys of names: the bytes of a sort key, made once for a name and only ever compared. Begin with `IndexKey::make`.

ghost use Rattle.std.specs.Prelude.{◌≡◌, ◌+◌, min, IfOk, OnErr, OnOk};
ghost use Rattle.std.specs.Cmp.Lexicographic.{slice_cmp};
ghost use Rattle.std.specs.Ordering.{nat_cmp};
ghost use Rattle.icu_normalizer_core.specs.Decoding.{utf8_chars};
ghost use Rattle.icu_collator.specs.CollatorAnswers.{key_by};
ghost use Rattle.collate_lists.specs.Fronts.{IsFrontOf};

use collate_lists::fronts::Front;
use icu_collator::CollatorBorrowed;
use std::alloc::{AllocError, Global};
use std::cmp::Ordering;
use std::marker::Model;

/// The sort key of a name, as its contracts see it a list of bytes. Only `make` makes one, and only `compare` reads it;
/// each adds one to its caller's count, which stays at the greatest `usize`. Its front may be compared in its stead
/// (`Front::compare`), which counts as one comparison too. It is moved, and never copied.
pub struct IndexKey {
    bytes: Vec<u8>,
}

// (let go of as one, and not part by part, so that what owns one is proved sooner)
impl Drop for IndexKey {
    fn drop(self) {
        let IndexKey { bytes: _ } = self;
    }
}

impl Model for IndexKey {
    ghost use Rattle.std.specs.Prelude.{List, ℕ};

    ghost Value = { List ℕ };

    ghost view = { λ inside. inside.bytes.items };
}

impl IndexKey {
    /// The key of a name in UTF-8, as a collator writes it (UTS 10, sort keys); bytes that are no character count as
    /// U+FFFD, one for each maximal subpart. The count goes up by one where there is a key.
    ///
    /// Errors: `AllocError` where memory is refused; the count is then as it was.
    pub fn make(
        alloc: Global,
        collator: &CollatorBorrowed<'_>,
        name: &[u8],
        count: &mut usize,
    ) -> Result<IndexKey, AllocError>
        ensures key { IfOk result (λ key. key ≡ key_by collator.now (utf8_chars name.now)) }
        ensures counted { OnOk result (count.new ≡ min (count.old + 1) usize.MAX) }
        ensures unchanged { OnErr result (count.new ≡ count.old) }
    {
        let mut bytes = Vec::new(alloc);
        match collator.write_sort_key_utf8_to(alloc, name, &mut bytes) {
            Ok(()) => {
                *count = count.saturating_add(1);
                Ok(IndexKey { bytes })
            }
            Err(_) => Err(AllocError),
        }
    }

    /// The front of the key, by which it compares with most keys.
    pub fn front(&self) -> Front
        ensures { IsFrontOf result self.now }
    {
        Front::new(self.bytes.as_slice())
    }

    /// How two keys compare: as their bytes do, the first that differs decides, and a key comes before one that goes on.
    /// The count goes up by one.
    pub fn compare(&self, other: &IndexKey, count: &mut usize) -> Ordering
        ensures order { result ≡ slice_cmp nat_cmp self.now other.now }
        ensures count { count.new ≡ min (count.old + 1) usize.MAX }
    {
        *count = count.saturating_add(1);
        self.bytes.cmp(&other.bytes)
    }
}
