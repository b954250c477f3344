//! Laws of what files mean, whatever their tables are like: collators and normalisers over one file, or over two that have the
//! same lines in another order, answer alike. The type of the tables' tries is in no premise, so it changes no answer.

ghost use Rattle.std.specs.Char.{IsScalar};
ghost use Rattle.std.specs.List.Sorted.{IsPermutation};
ghost use Rattle.std.specs.Prelude.{◌≡◌, ℕ, All, List};
ghost use Rattle.std.specs.Str.{IsUtf8};
ghost use Rattle.icu_normalizer_core.specs.Canonical.{composed, decomposed};
ghost use Rattle.icu_normalizer.specs.NormalizerTables.{NormalizerTables, tables_meaning};
ghost use Rattle.icu_normalizer.specs.TextForms.{composed_text, decomposed_text};
ghost use Rattle.icu_collator_types.specs.declared.options.CollatorOptions.{CollatorOptions};
ghost use Rattle.icu_collator_types.specs.declared.options.CollatorPreferences.{CollatorPreferences};
ghost use Rattle.icu_collator.specs.Collators.{CollatorParts};
ghost use Rattle.collate_lines.specs.declared.limits.Limits.{Limits};
ghost use Rattle.collate_lines.specs.Lines.{lines_of, records_of};
ghost use Rattle.collate_lines.specs.Record.{Record};
ghost use Rattle.collate_records.specs.Files.{IsAcceptedWithin};
ghost use Rattle.collate_rules.specs.Accepted.{AreAccepted};
ghost use Rattle.collate_rules.specs.Meaning.{canonical_of};
ghost use Rattle.collate_laws.specs.Alike.{AnswerAlike, NormalizeAlike, composed_by, decomposed_by};
ghost use Rattle.collate_laws.specs.OverRecords.{IsCanonicalNormalizerOf, IsCollatorOf, IsCompatibilityNormalizerOf, both_of};

/// Two compilations of the same records, with tries of any types, make collators that answer alike: they order each two texts
/// alike, and write one key of each text.
pub fn compilations_of_one_file_answer_alike()
    ensures { (records : List Record) (options : CollatorOptions) (preferences : CollatorPreferences) (a b : CollatorParts)
        → AreAccepted records → IsCollatorOf records options preferences a → IsCollatorOf records options preferences b
        → AnswerAlike a b }
{}

/// And they make normalisers that give each text one decomposed and one composed list, by canonical mappings or by those of
/// both kinds.
pub fn compilations_of_one_file_normalize_alike()
    ensures canonical { (records : List Record) (a b : NormalizerTables) → AreAccepted records
        → IsCanonicalNormalizerOf records a → IsCanonicalNormalizerOf records b → NormalizeAlike a b }
    ensures compatibility { (records : List Record) (a b : NormalizerTables)
        → IsCompatibilityNormalizerOf records a → IsCompatibilityNormalizerOf records b → NormalizeAlike a b }
{}

/// A normaliser over a file gives each text the lists that the file's lines say, and so the texts in UTF-8 that are written of
/// them: by canonical mappings, and, of a normaliser to compatibility forms, by mappings of both kinds.
pub fn normalizers_give_forms_of_records()
    ensures decomposed { (records : List Record) (tables : NormalizerTables) (x : List ℕ)
        → AreAccepted records → IsCanonicalNormalizerOf records tables → All IsScalar x
        → decomposed_by tables x ≡ decomposed (canonical_of records) x }
    ensures composed { (records : List Record) (tables : NormalizerTables) (x : List ℕ)
        → AreAccepted records → IsCanonicalNormalizerOf records tables → All IsScalar x
        → composed_by tables x ≡ composed (canonical_of records) x }
    ensures decomposed_text { (records : List Record) (tables : NormalizerTables) (text : List ℕ)
        → AreAccepted records → IsCanonicalNormalizerOf records tables → IsUtf8 text
        → decomposed_text (tables_meaning tables) text ≡ decomposed_text (canonical_of records) text }
    ensures composed_text { (records : List Record) (tables : NormalizerTables) (text : List ℕ)
        → AreAccepted records → IsCanonicalNormalizerOf records tables → IsUtf8 text
        → composed_text (tables_meaning tables) text ≡ composed_text (canonical_of records) text }
    ensures both_decomposed { (records : List Record) (tables : NormalizerTables) (x : List ℕ)
        → AreAccepted records → IsCompatibilityNormalizerOf records tables → All IsScalar x
        → decomposed_by tables x ≡ decomposed (both_of records) x }
    ensures both_composed { (records : List Record) (tables : NormalizerTables) (x : List ℕ)
        → AreAccepted records → IsCompatibilityNormalizerOf records tables → All IsScalar x
        → composed_by tables x ≡ composed (both_of records) x }
    ensures both_decomposed_text { (records : List Record) (tables : NormalizerTables) (text : List ℕ)
        → AreAccepted records → IsCompatibilityNormalizerOf records tables → IsUtf8 text
        → decomposed_text (tables_meaning tables) text ≡ decomposed_text (both_of records) text }
    ensures both_composed_text { (records : List Record) (tables : NormalizerTables) (text : List ℕ)
        → AreAccepted records → IsCompatibilityNormalizerOf records tables → IsUtf8 text
        → composed_text (tables_meaning tables) text ≡ composed_text (both_of records) text }
{}

/// Files that are accepted within some limits, and have the same lines in another order, make collators that answer alike, and
/// normalisers that give each text the same lists.
pub fn files_in_another_order_answer_alike()
    ensures collators { (limits : Limits) (file moved : List ℕ) (options : CollatorOptions) (preferences : CollatorPreferences) (a b : CollatorParts)
        → IsAcceptedWithin limits file → IsAcceptedWithin limits moved → IsPermutation (lines_of file) (lines_of moved)
        → IsCollatorOf (records_of file) options preferences a → IsCollatorOf (records_of moved) options preferences b
        → AnswerAlike a b }
    ensures canonical { (limits : Limits) (file moved : List ℕ) (a b : NormalizerTables)
        → IsAcceptedWithin limits file → IsAcceptedWithin limits moved → IsPermutation (lines_of file) (lines_of moved)
        → IsCanonicalNormalizerOf (records_of file) a → IsCanonicalNormalizerOf (records_of moved) b → NormalizeAlike a b }
    ensures compatibility { (limits : Limits) (file moved : List ℕ) (a b : NormalizerTables)
        → IsAcceptedWithin limits file → IsPermutation (lines_of file) (lines_of moved)
        → IsCompatibilityNormalizerOf (records_of file) a → IsCompatibilityNormalizerOf (records_of moved) b → NormalizeAlike a b }
{}
