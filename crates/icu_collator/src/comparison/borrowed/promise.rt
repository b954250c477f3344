//! What every holder of a collator knows.

ghost use Rattle.icu_normalizer_core.specs.Canonical.{IsCanonical};
ghost use Rattle.icu_normalizer_core.specs.CanonicalMeaning.{meaning};
ghost use Rattle.icu_collator_core.specs.Acceptance.{IsAccepted};

use super::CollatorBorrowed;

impl<'d> CollatorBorrowed<'d> {
    ghost use Rattle.icu_collator.specs.CollatorAnswers.{canonical_by};
    ghost use Rattle.icu_collator.specs.Collators.{borrowed_source};

    /// A collator's tables pass every check, and its canonical data keep their promise. `laws::collators` rests on it.
    ///
    /// It computes nothing: its contract is what every holder of a collator knows.
    pub fn keep_promise(&self)
        ensures accepted { IsAccepted (meaning (borrowed_source self.now).canonical) (borrowed_source self.now).tables }
        ensures canonical { IsCanonical (canonical_by self.now) }
    {
        self.tables.keep_promise();
        self.tables.canonical().keep_promise();
    }
}
