//! Laws of normal forms by a normaliser over a file, of characters, of texts in UTF-8, and of bytes and units, damaged or not.

ghost use Rattle.std.specs.Char.{IsScalar};
ghost use Rattle.std.specs.Prelude.{◌≡◌, ◌<◌, ◌^◌, ◌++◌, ℕ, All, List};
ghost use Rattle.std.specs.Str.{IsUtf8};
ghost use Rattle.icu_normalizer_core.specs.Decoding.{utf16_chars, utf8_chars};
ghost use Rattle.icu_normalizer.specs.NormalizerTables.{NormalizerTables, tables_meaning};
ghost use Rattle.icu_normalizer.specs.TextForms.{composed_text, decomposed_text};
ghost use Rattle.icu_collator_types.specs.declared.options.CollatorOptions.{CollatorOptions};
ghost use Rattle.icu_collator_types.specs.declared.options.CollatorPreferences.{CollatorPreferences};
ghost use Rattle.icu_collator_types.specs.declared.options.Strength.TheVariants.{Identical};
ghost use Rattle.icu_collator.specs.Collators.{CollatorParts};
ghost use Rattle.icu_collator.specs.NormalForms.{IsSplitFor, composed_bytes, composed_units, decomposed_bytes, decomposed_units};
ghost use Rattle.collate_laws.specs.Forms.{IsOneWhereEqual, Stay};
ghost use Rattle.collate_laws.specs.Alike.{ChangesNothing, composed_by, decomposed_by};
ghost use Rattle.collate_laws.specs.OverRecords.{IsCanonicalNormalizerOf, IsCollatorOf};
ghost use Rattle.collate_lines.specs.Record.{Record};
ghost use Rattle.collate_rules.specs.Accepted.{AreAccepted};

/// Two texts have one NFD, have one NFC, and are equal at `Identical`, in the same cases.
pub fn equal_forms_by_a_file_are_equal_at_identical()
    ensures decomposed { (records : List Record) (options : CollatorOptions) (preferences : CollatorPreferences) (collator : CollatorParts) (tables : NormalizerTables) (x y : List ℕ)
        → AreAccepted records → IsCollatorOf records options preferences collator → IsCanonicalNormalizerOf records tables
        → collator.options.strength ≡ Identical → All IsScalar x → All IsScalar y
        → IsOneWhereEqual collator (λ cs. cs) (decomposed_by tables) x y }
    ensures composed { (records : List Record) (options : CollatorOptions) (preferences : CollatorPreferences) (collator : CollatorParts) (tables : NormalizerTables) (x y : List ℕ)
        → AreAccepted records → IsCollatorOf records options preferences collator → IsCanonicalNormalizerOf records tables
        → collator.options.strength ≡ Identical → All IsScalar x → All IsScalar y
        → IsOneWhereEqual collator (λ cs. cs) (composed_by tables) x y }
    ensures decomposed_text { (records : List Record) (options : CollatorOptions) (preferences : CollatorPreferences) (collator : CollatorParts) (tables : NormalizerTables) (a b : List ℕ)
        → AreAccepted records → IsCollatorOf records options preferences collator → IsCanonicalNormalizerOf records tables
        → collator.options.strength ≡ Identical → IsUtf8 a → IsUtf8 b
        → IsOneWhereEqual collator utf8_chars (decomposed_text (tables_meaning tables)) a b }
    ensures composed_text { (records : List Record) (options : CollatorOptions) (preferences : CollatorPreferences) (collator : CollatorParts) (tables : NormalizerTables) (a b : List ℕ)
        → AreAccepted records → IsCollatorOf records options preferences collator → IsCanonicalNormalizerOf records tables
        → collator.options.strength ≡ Identical → IsUtf8 a → IsUtf8 b
        → IsOneWhereEqual collator utf8_chars (composed_text (tables_meaning tables)) a b }
    ensures decomposed_bytes { (records : List Record) (options : CollatorOptions) (preferences : CollatorPreferences) (collator : CollatorParts) (tables : NormalizerTables) (a b : List ℕ)
        → AreAccepted records → IsCollatorOf records options preferences collator → IsCanonicalNormalizerOf records tables
        → collator.options.strength ≡ Identical
        → IsOneWhereEqual collator utf8_chars (decomposed_bytes (tables_meaning tables)) a b }
    ensures composed_bytes { (records : List Record) (options : CollatorOptions) (preferences : CollatorPreferences) (collator : CollatorParts) (tables : NormalizerTables) (a b : List ℕ)
        → AreAccepted records → IsCollatorOf records options preferences collator → IsCanonicalNormalizerOf records tables
        → collator.options.strength ≡ Identical
        → IsOneWhereEqual collator utf8_chars (composed_bytes (tables_meaning tables)) a b }
    ensures decomposed_units { (records : List Record) (options : CollatorOptions) (preferences : CollatorPreferences) (collator : CollatorParts) (tables : NormalizerTables) (a b : List ℕ)
        → AreAccepted records → IsCollatorOf records options preferences collator → IsCanonicalNormalizerOf records tables
        → collator.options.strength ≡ Identical → All (λ unit. unit < 2 ^ 16) a → All (λ unit. unit < 2 ^ 16) b
        → IsOneWhereEqual collator utf16_chars (decomposed_units (tables_meaning tables)) a b }
    ensures composed_units { (records : List Record) (options : CollatorOptions) (preferences : CollatorPreferences) (collator : CollatorParts) (tables : NormalizerTables) (a b : List ℕ)
        → AreAccepted records → IsCollatorOf records options preferences collator → IsCanonicalNormalizerOf records tables
        → collator.options.strength ≡ Identical → All (λ unit. unit < 2 ^ 16) a → All (λ unit. unit < 2 ^ 16) b
        → IsOneWhereEqual collator utf16_chars (composed_units (tables_meaning tables)) a b }
{}

/// Each normal form of a text in a normal form is that of the text: a text that is normalised again stays, the NFC of an NFD is
/// the text's NFC, and the NFD of an NFC its NFD.
pub fn forms_by_a_file_stay()
    ensures characters { (records : List Record) (tables : NormalizerTables) (x : List ℕ)
        → AreAccepted records → IsCanonicalNormalizerOf records tables → All IsScalar x
        → Stay (decomposed_by tables) (composed_by tables) x }
    ensures texts { (records : List Record) (tables : NormalizerTables) (text : List ℕ)
        → AreAccepted records → IsCanonicalNormalizerOf records tables → IsUtf8 text
        → Stay (decomposed_text (tables_meaning tables)) (composed_text (tables_meaning tables)) text }
    ensures bytes { (records : List Record) (tables : NormalizerTables) (bytes : List ℕ)
        → AreAccepted records → IsCanonicalNormalizerOf records tables
        → Stay (decomposed_bytes (tables_meaning tables)) (composed_bytes (tables_meaning tables)) bytes }
    ensures units { (records : List Record) (tables : NormalizerTables) (units : List ℕ)
        → AreAccepted records → IsCanonicalNormalizerOf records tables → All (λ unit. unit < 2 ^ 16) units
        → Stay (decomposed_units (tables_meaning tables)) (composed_units (tables_meaning tables)) units }
{}

/// A text that `split_normalized` split in two, or `split_normalized_utf8` or `split_normalized_utf16` did: its first part with
/// the NFD or the NFC of the other after it, in the text's place, changes no order, on either side, and no key.
pub fn splitting_by_a_file_changes_nothing()
    ensures decomposed_text { (records : List Record) (options : CollatorOptions) (preferences : CollatorPreferences) (collator : CollatorParts) (tables : NormalizerTables) (text prefix rest : List ℕ)
        → AreAccepted records → IsCollatorOf records options preferences collator → IsCanonicalNormalizerOf records tables
        → IsUtf8 text → IsSplitFor (decomposed_text (tables_meaning tables)) text prefix rest
        → ChangesNothing collator utf8_chars (λ _. prefix ++ decomposed_text (tables_meaning tables) rest) text }
    ensures composed_text { (records : List Record) (options : CollatorOptions) (preferences : CollatorPreferences) (collator : CollatorParts) (tables : NormalizerTables) (text prefix rest : List ℕ)
        → AreAccepted records → IsCollatorOf records options preferences collator → IsCanonicalNormalizerOf records tables
        → IsUtf8 text → IsSplitFor (composed_text (tables_meaning tables)) text prefix rest
        → ChangesNothing collator utf8_chars (λ _. prefix ++ composed_text (tables_meaning tables) rest) text }
    ensures decomposed_bytes { (records : List Record) (options : CollatorOptions) (preferences : CollatorPreferences) (collator : CollatorParts) (tables : NormalizerTables) (bytes prefix rest : List ℕ)
        → AreAccepted records → IsCollatorOf records options preferences collator → IsCanonicalNormalizerOf records tables
        → IsSplitFor (decomposed_bytes (tables_meaning tables)) bytes prefix rest
        → ChangesNothing collator utf8_chars (λ _. prefix ++ decomposed_bytes (tables_meaning tables) rest) bytes }
    ensures composed_bytes { (records : List Record) (options : CollatorOptions) (preferences : CollatorPreferences) (collator : CollatorParts) (tables : NormalizerTables) (bytes prefix rest : List ℕ)
        → AreAccepted records → IsCollatorOf records options preferences collator → IsCanonicalNormalizerOf records tables
        → IsSplitFor (composed_bytes (tables_meaning tables)) bytes prefix rest
        → ChangesNothing collator utf8_chars (λ _. prefix ++ composed_bytes (tables_meaning tables) rest) bytes }
    ensures decomposed_units { (records : List Record) (options : CollatorOptions) (preferences : CollatorPreferences) (collator : CollatorParts) (tables : NormalizerTables) (units prefix rest : List ℕ)
        → AreAccepted records → IsCollatorOf records options preferences collator → IsCanonicalNormalizerOf records tables
        → All (λ unit. unit < 2 ^ 16) units → IsSplitFor (decomposed_units (tables_meaning tables)) units prefix rest
        → ChangesNothing collator utf16_chars (λ _. prefix ++ decomposed_units (tables_meaning tables) rest) units }
    ensures composed_units { (records : List Record) (options : CollatorOptions) (preferences : CollatorPreferences) (collator : CollatorParts) (tables : NormalizerTables) (units prefix rest : List ℕ)
        → AreAccepted records → IsCollatorOf records options preferences collator → IsCanonicalNormalizerOf records tables
        → All (λ unit. unit < 2 ^ 16) units → IsSplitFor (composed_units (tables_meaning tables)) units prefix rest
        → ChangesNothing collator utf16_chars (λ _. prefix ++ composed_units (tables_meaning tables) rest) units }
{}
