//! Laws of keys, of equivalence and of normal forms over an accepted file. Nothing is asked of the file's data; of the options,
//! for the order of keys alone, that numeric ordering is off or the file's lead of numbers isn't compressible.

ghost use Rattle.std.specs.Char.{IsScalar};
ghost use Rattle.std.specs.Cmp.Lexicographic.{slice_cmp};
ghost use Rattle.std.specs.Ordering.{nat_cmp};
ghost use Rattle.std.specs.Prelude.{◌≡◌, ◌<◌, ◌^◌, ◌↔◌, ℕ, All, List, true};
ghost use Rattle.std.specs.Str.{IsUtf8};
ghost use Rattle.std.specs.declared.cmp.Ordering.TheVariants.{Equal};
ghost use Rattle.icu_normalizer_core.specs.Decoding.{utf16_chars, utf8_chars};
ghost use Rattle.icu_normalizer.specs.Equivalence.{IsEquivalent};
ghost use Rattle.icu_normalizer.specs.NormalizerTables.{NormalizerTables, tables_meaning};
ghost use Rattle.icu_normalizer.specs.TextForms.{composed_text, decomposed_text};
ghost use Rattle.icu_collator_types.specs.declared.options.CollatorOptions.{CollatorOptions};
ghost use Rattle.icu_collator_types.specs.declared.options.CollatorPreferences.{CollatorPreferences};
ghost use Rattle.icu_collator_types.specs.declared.options.Strength.TheVariants.{Identical};
ghost use Rattle.icu_collator.specs.CollatorAnswers.{HasKeysInOrder};
ghost use Rattle.icu_collator.specs.Collators.{CollatorParts, borrowed_options, borrowed_source};
ghost use Rattle.icu_collator.specs.NormalForms.{composed_bytes, composed_units, decomposed_bytes, decomposed_units};
ghost use Rattle.icu_collator.specs.Settings.{has_plain_leads};
ghost use Rattle.icu_collator.specs.SoundCollation.{IsSoundCollation};
ghost use Rattle.icu_collator.specs.declared.comparison.borrowed.CollatorBorrowed.{CollatorBorrowed};
ghost use Rattle.collate_lines.specs.Record.{Record};
ghost use Rattle.collate_rules.specs.Accepted.{AreAccepted};
ghost use Rattle.collate_rules.specs.Meaning.{canonical_of, collation_of};
ghost use Rattle.collate_laws.specs.Alike.{ChangesNothing, composed_by, decomposed_by, key_of, order_of};
ghost use Rattle.collate_laws.specs.OverRecords.{IsCanonicalNormalizerOf, IsCollatorOf};

/// The weights and the settings of accepted lines, as those of all records are, keep the rules that the laws of keys ask for
/// (docs/RECORDS.md, `V1` to `V6` and `set`).
pub fn accepted_records_are_sound()
    ensures { (records : List Record) → AreAccepted records → IsSoundCollation (collation_of records) }
{}

/// A collator of a file, borrowed, has its keys in order: what the laws of `icu_collator::laws::collators` on keys ask for.
pub fn collators_of_files_have_keys_in_order()
    ensures { (records : List Record) (options : CollatorOptions) (preferences : CollatorPreferences) (collator : CollatorParts) (borrowed : CollatorBorrowed)
        → IsCollatorOf records options preferences collator
        → borrowed_source borrowed ≡ collator.source → borrowed_options borrowed ≡ collator.options
        → has_plain_leads (collation_of records) collator.options ≡ true → HasKeysInOrder borrowed }
{}

/// The keys of two texts compare, byte by byte, as the collator orders the texts, and are the same exactly where it finds the
/// texts equal.
pub fn keys_of_files_order_as_compare()
    ensures order { (records : List Record) (options : CollatorOptions) (preferences : CollatorPreferences) (collator : CollatorParts) (x y : List ℕ)
        → AreAccepted records → IsCollatorOf records options preferences collator
        → has_plain_leads (collation_of records) collator.options ≡ true → All IsScalar x → All IsScalar y
        → slice_cmp nat_cmp (key_of collator x) (key_of collator y) ≡ order_of collator x y }
    ensures equal { (records : List Record) (options : CollatorOptions) (preferences : CollatorPreferences) (collator : CollatorParts) (x y : List ℕ)
        → AreAccepted records → IsCollatorOf records options preferences collator
        → has_plain_leads (collation_of records) collator.options ≡ true → All IsScalar x → All IsScalar y
        → (key_of collator x ≡ key_of collator y) ↔ (order_of collator x y ≡ Equal) }
{}

/// Texts that the file's mappings and classes make canonically equivalent are equal and have one key, under all options. At
/// `Identical` no others are equal, and, where keys order as the collator does, no others have one key.
pub fn equal_by_a_file_at_identical_is_equivalence()
    ensures equal { (records : List Record) (options : CollatorOptions) (preferences : CollatorPreferences) (collator : CollatorParts) (x y : List ℕ)
        → AreAccepted records → IsCollatorOf records options preferences collator → All IsScalar x → All IsScalar y
        → IsEquivalent (canonical_of records) x y → order_of collator x y ≡ Equal }
    ensures one_key { (records : List Record) (options : CollatorOptions) (preferences : CollatorPreferences) (collator : CollatorParts) (x y : List ℕ)
        → AreAccepted records → IsCollatorOf records options preferences collator → All IsScalar x → All IsScalar y
        → IsEquivalent (canonical_of records) x y → key_of collator x ≡ key_of collator y }
    ensures identical { (records : List Record) (options : CollatorOptions) (preferences : CollatorPreferences) (collator : CollatorParts) (x y : List ℕ)
        → AreAccepted records → IsCollatorOf records options preferences collator
        → collator.options.strength ≡ Identical → All IsScalar x → All IsScalar y
        → (order_of collator x y ≡ Equal) ↔ IsEquivalent (canonical_of records) x y }
    ensures keys { (records : List Record) (options : CollatorOptions) (preferences : CollatorPreferences) (collator : CollatorParts) (x y : List ℕ)
        → AreAccepted records → IsCollatorOf records options preferences collator
        → has_plain_leads (collation_of records) collator.options ≡ true → collator.options.strength ≡ Identical → All IsScalar x → All IsScalar y
        → (key_of collator x ≡ key_of collator y) ↔ IsEquivalent (canonical_of records) x y }
{}

/// The NFD or the NFC of a text in its place, by a normaliser over the same file, changes no order, on either side, and no key:
/// of characters, of a text in UTF-8, and of bytes and units, damaged or not, as `normalize`, `normalize_utf8` and
/// `normalize_utf16` give it.
pub fn normalising_by_a_file_changes_nothing()
    ensures decomposed { (records : List Record) (options : CollatorOptions) (preferences : CollatorPreferences) (collator : CollatorParts) (tables : NormalizerTables) (text : List ℕ)
        → AreAccepted records → IsCollatorOf records options preferences collator → IsCanonicalNormalizerOf records tables
        → All IsScalar text → ChangesNothing collator (λ cs. cs) (decomposed_by tables) text }
    ensures composed { (records : List Record) (options : CollatorOptions) (preferences : CollatorPreferences) (collator : CollatorParts) (tables : NormalizerTables) (text : List ℕ)
        → AreAccepted records → IsCollatorOf records options preferences collator → IsCanonicalNormalizerOf records tables
        → All IsScalar text → ChangesNothing collator (λ cs. cs) (composed_by tables) text }
    ensures decomposed_text { (records : List Record) (options : CollatorOptions) (preferences : CollatorPreferences) (collator : CollatorParts) (tables : NormalizerTables) (text : List ℕ)
        → AreAccepted records → IsCollatorOf records options preferences collator → IsCanonicalNormalizerOf records tables
        → IsUtf8 text → ChangesNothing collator utf8_chars (decomposed_text (tables_meaning tables)) text }
    ensures composed_text { (records : List Record) (options : CollatorOptions) (preferences : CollatorPreferences) (collator : CollatorParts) (tables : NormalizerTables) (text : List ℕ)
        → AreAccepted records → IsCollatorOf records options preferences collator → IsCanonicalNormalizerOf records tables
        → IsUtf8 text → ChangesNothing collator utf8_chars (composed_text (tables_meaning tables)) text }
    ensures decomposed_bytes { (records : List Record) (options : CollatorOptions) (preferences : CollatorPreferences) (collator : CollatorParts) (tables : NormalizerTables) (bytes : List ℕ)
        → AreAccepted records → IsCollatorOf records options preferences collator → IsCanonicalNormalizerOf records tables
        → ChangesNothing collator utf8_chars (decomposed_bytes (tables_meaning tables)) bytes }
    ensures composed_bytes { (records : List Record) (options : CollatorOptions) (preferences : CollatorPreferences) (collator : CollatorParts) (tables : NormalizerTables) (bytes : List ℕ)
        → AreAccepted records → IsCollatorOf records options preferences collator → IsCanonicalNormalizerOf records tables
        → ChangesNothing collator utf8_chars (composed_bytes (tables_meaning tables)) bytes }
    ensures decomposed_units { (records : List Record) (options : CollatorOptions) (preferences : CollatorPreferences) (collator : CollatorParts) (tables : NormalizerTables) (units : List ℕ)
        → AreAccepted records → IsCollatorOf records options preferences collator → IsCanonicalNormalizerOf records tables
        → All (λ unit. unit < 2 ^ 16) units → ChangesNothing collator utf16_chars (decomposed_units (tables_meaning tables)) units }
    ensures composed_units { (records : List Record) (options : CollatorOptions) (preferences : CollatorPreferences) (collator : CollatorParts) (tables : NormalizerTables) (units : List ℕ)
        → AreAccepted records → IsCollatorOf records options preferences collator → IsCanonicalNormalizerOf records tables
        → All (λ unit. unit < 2 ^ 16) units → ChangesNothing collator utf16_chars (composed_units (tables_meaning tables)) units }
{}
