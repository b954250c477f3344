//! Laws in the words of a records file alone: what a file says of texts that is accepted within some limits, and that its
//! collators answer so.

ghost use Rattle.std.specs.Char.{IsScalar};
ghost use Rattle.std.specs.Cmp.{IsTotalOrder};
ghost use Rattle.std.specs.Cmp.Lexicographic.{slice_cmp};
ghost use Rattle.std.specs.Ordering.{nat_cmp};
ghost use Rattle.std.specs.Prelude.{◌≡◌, ◌≢◌, ◌↔◌, ◌+◌, ℕ, All, IsTrue, List, Result, take};
ghost use Rattle.std.specs.declared.cmp.Ordering.TheVariants.{Equal};
ghost use Rattle.icu_normalizer_core.specs.Canonical.{composed, decomposed};
ghost use Rattle.icu_normalizer.specs.Equivalence.{IsEquivalent};
ghost use Rattle.icu_collator_types.specs.Options.{is_at_least};
ghost use Rattle.icu_collator_types.specs.declared.options.CaseLevel.TheVariants.{Off};
ghost use Rattle.icu_collator_types.specs.declared.options.CollatorOptions.{CollatorOptions};
ghost use Rattle.icu_collator_types.specs.declared.options.CollatorPreferences.{CollatorPreferences};
ghost use Rattle.icu_collator_types.specs.declared.options.Strength.{Strength};
ghost use Rattle.icu_collator_types.specs.declared.options.Strength.TheVariants.{Identical};
ghost use Rattle.icu_collator.specs.CollatorAnswers.{key_by, order_by};
ghost use Rattle.icu_collator.specs.Collators.{CollatorParts, borrowed_options, borrowed_source};
ghost use Rattle.icu_collator.specs.declared.comparison.borrowed.CollatorBorrowed.{CollatorBorrowed};
ghost use Rattle.collate_laws.specs.Files.{HasPlainLeads, IsAsGood, file_canonical, file_key, file_options, file_order, with_strength};
ghost use Rattle.collate_laws.specs.OverRecords.{IsCollatorOf};
ghost use Rattle.collate_lines.specs.declared.limits.Limits.{Limits};
ghost use Rattle.collate_lines.specs.declared.rule.RecordsError.{RecordsError};
ghost use Rattle.collate_lines.specs.Lines.{records_of};
ghost use Rattle.collate_records.specs.Files.{FileRecords, IsAcceptedWithin, IsReadWithin};

/// A collator of a file, borrowed, orders texts as the file says, and gives them the keys that it says.
pub fn collators_answer_as_the_file_says()
    ensures order { (limits : Limits) (file : List ℕ) (options : CollatorOptions) (preferences : CollatorPreferences) (collator : CollatorParts) (borrowed : CollatorBorrowed) (x y : List ℕ)
        → IsAcceptedWithin limits file → IsCollatorOf (records_of file) options preferences collator
        → borrowed_source borrowed ≡ collator.source → borrowed_options borrowed ≡ collator.options
        → All IsScalar x → All IsScalar y → order_by borrowed x y ≡ file_order file options preferences x y }
    ensures key { (limits : Limits) (file : List ℕ) (options : CollatorOptions) (preferences : CollatorPreferences) (collator : CollatorParts) (borrowed : CollatorBorrowed) (x : List ℕ)
        → IsAcceptedWithin limits file → IsCollatorOf (records_of file) options preferences collator
        → borrowed_source borrowed ≡ collator.source → borrowed_options borrowed ≡ collator.options
        → All IsScalar x → key_by borrowed x ≡ file_key file options preferences x }
{}

/// Texts order as a total preorder, whatever the file says: two texts the other way round have the reverse of the answer,
/// "below" and "equal" are transitive, and texts that are equal order alike with any third.
pub fn file_order_is_a_total_preorder()
    ensures { (file : List ℕ) (options : CollatorOptions) (preferences : CollatorPreferences) → IsTotalOrder (file_order file options preferences) }
{}

/// With the case level off, a text that is below or above another stays so where the caller asks for a higher strength.
pub fn raised_strength_keeps_file_order()
    ensures { (file : List ℕ) (options : CollatorOptions) (strength : Strength) (preferences : CollatorPreferences) (x y : List ℕ)
        → (file_options file options preferences).case_level ≡ Off
        → IsTrue (is_at_least strength (file_options file options preferences).strength)
        → file_order file options preferences x y ≢ Equal
        → file_order file (with_strength options strength) preferences x y ≡ file_order file options preferences x y }
{}

/// The keys of two texts compare, byte by byte, as the texts order, and are the same exactly where the texts are equal.
pub fn file_keys_order_as_texts()
    ensures order { (limits : Limits) (file : List ℕ) (options : CollatorOptions) (preferences : CollatorPreferences) (x y : List ℕ)
        → IsAcceptedWithin limits file → HasPlainLeads file options preferences → All IsScalar x → All IsScalar y
        → slice_cmp nat_cmp (file_key file options preferences x) (file_key file options preferences y) ≡ file_order file options preferences x y }
    ensures equal { (limits : Limits) (file : List ℕ) (options : CollatorOptions) (preferences : CollatorPreferences) (x y : List ℕ)
        → IsAcceptedWithin limits file → HasPlainLeads file options preferences → All IsScalar x → All IsScalar y
        → (file_key file options preferences x ≡ file_key file options preferences y) ↔ (file_order file options preferences x y ≡ Equal) }
{}

/// Texts that the file's mappings and classes make canonically equivalent are as good as each other. At `Identical` no others
/// are equal, and, where keys order as texts do, no others have one key.
pub fn equal_by_a_file_is_equivalence()
    ensures equivalent { (limits : Limits) (file : List ℕ) (options : CollatorOptions) (preferences : CollatorPreferences) (x y : List ℕ)
        → IsAcceptedWithin limits file → All IsScalar x → All IsScalar y
        → IsEquivalent (file_canonical file) x y → IsAsGood file options preferences x y }
    ensures identical { (limits : Limits) (file : List ℕ) (options : CollatorOptions) (preferences : CollatorPreferences) (x y : List ℕ)
        → IsAcceptedWithin limits file → (file_options file options preferences).strength ≡ Identical → All IsScalar x → All IsScalar y
        → (file_order file options preferences x y ≡ Equal) ↔ IsEquivalent (file_canonical file) x y }
    ensures keys { (limits : Limits) (file : List ℕ) (options : CollatorOptions) (preferences : CollatorPreferences) (x y : List ℕ)
        → IsAcceptedWithin limits file → HasPlainLeads file options preferences → (file_options file options preferences).strength ≡ Identical
        → All IsScalar x → All IsScalar y
        → (file_key file options preferences x ≡ file_key file options preferences y) ↔ IsEquivalent (file_canonical file) x y }
{}

/// The NFD or the NFC of a text in its place, by the file's own mappings, changes no order, on either side, and no key.
pub fn normalising_first_is_as_good()
    ensures decomposed { (limits : Limits) (file : List ℕ) (options : CollatorOptions) (preferences : CollatorPreferences) (text : List ℕ)
        → IsAcceptedWithin limits file → All IsScalar text → IsAsGood file options preferences (decomposed (file_canonical file) text) text }
    ensures composed { (limits : Limits) (file : List ℕ) (options : CollatorOptions) (preferences : CollatorPreferences) (text : List ℕ)
        → IsAcceptedWithin limits file → All IsScalar text → IsAsGood file options preferences (composed (file_canonical file) text) text }
{}

/// A file that is cut after the first byte past its most bytes is read as the whole file is: both are refused for one fault,
/// or, where nothing was cut, both say the same records. So no more of a file need be read.
pub fn files_cut_past_their_size_are_read_alike()
    ensures { (limits : Limits) (file : List ℕ) (result : Result FileRecords RecordsError)
        → IsReadWithin limits (take (limits.bytes + 1) file) result ↔ IsReadWithin limits file result }
{}
