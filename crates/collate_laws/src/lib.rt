//! Laws of records files: collators and normalisers over compiled tables are made, and answer straight from the file; and,
//! in the words of the file alone (`files`, `forms`, `line_order`, `numbers`), what an accepted file says of texts. Each
//! function's contract is the law, and its body is empty.
#![tactic(auto)]

ghost use Rattle.std.specs.Char.{IsScalar};
ghost use Rattle.std.specs.Prelude.{◌≡◌, ℕ, All, List, MatchResult, Ok, Result};
ghost use Rattle.icu_normalizer_core.specs.declared.provider.error.DataError.{DataError};
ghost use Rattle.icu_normalizer_core.specs.declared.provider.error.DataError.TheVariants.{Memory as NoMemory};
ghost use Rattle.icu_normalizer.specs.NormalizerTables.{IsMadeOfBoth, IsMadeOfCanonical, NormalizerTables};
ghost use Rattle.icu_collator_types.specs.Options.{resolved_options};
ghost use Rattle.icu_collator_types.specs.declared.options.CollatorOptions.{CollatorOptions};
ghost use Rattle.icu_collator_types.specs.declared.options.CollatorPreferences.{CollatorPreferences};
ghost use Rattle.icu_collator.specs.Collators.{CollatorParts, MadeMemoryAside, source_collation};
ghost use Rattle.icu_collator.specs.Loading.{loaded_local, loaded_shared, loaded_source, loaded_tables};
ghost use Rattle.icu_collator.specs.KeyBytes.{key_of_text};
ghost use Rattle.icu_collator.specs.Order.{collation_order};
ghost use Rattle.icu_collator.specs.declared.comparison.error.CollatorError.{CollatorError};
ghost use Rattle.icu_collator.specs.declared.comparison.error.CollatorError.TheVariants.{Memory};
ghost use Rattle.collate_lines.specs.Record.{Record};
ghost use Rattle.collate_compile.specs.Provided.{Provided};
ghost use Rattle.collate_records.specs.CompiledOf.{IsCompiledOf};
ghost use Rattle.collate_rules.specs.Accepted.{AreAccepted};
ghost use Rattle.collate_rules.specs.Meaning.{collation_of, settings_of};
ghost use Rattle.collate_laws.specs.Loads.{canonical_loads, compatibility_loads, reordering_load, tailoring_load};
ghost use Rattle.collate_laws.specs.OverRecords.{IsCanonicalNormalizerOf, IsCollatorOf, IsCompatibilityNormalizerOf};

pub mod alike;
pub mod files;
pub mod forms;
pub mod keys;
pub mod line_order;
pub mod numbers;
pub mod unchanged;

/// `Collator::try_new_unstable` over a provider of compiled tables is refused only if memory is; else the
/// collator says what the file says, and the options that the caller leaves open are the file's.
pub fn compiled_tables_make_collators()
    ensures { (records : List Record) (provided : Provided) (options : CollatorOptions) (preferences : CollatorPreferences) (result : Result CollatorParts CollatorError)
        → AreAccepted records → IsCompiledOf records provided
        → MadeMemoryAside options preferences
        (loaded_source (canonical_loads provided)
        (loaded_tables
        (loaded_shared (Ok provided.collation.root) (Ok provided.collation.jamo) (Ok provided.collation.special_primaries))
        (loaded_local (Ok provided.collation.metadata) (Ok provided.collation.diacritics)
        (tailoring_load provided.collation.tailoring) (reordering_load provided.collation.reordering)))) result
        → MatchResult result (IsCollatorOf records options preferences) (λ error. error ≡ Memory) }
{}

/// `try_new_nfd_unstable` and `try_new_nfc_unstable` over such a provider are refused only if memory is.
pub fn compiled_tables_make_canonical_normalizers()
    ensures { (records : List Record) (provided : Provided) (result : Result NormalizerTables DataError)
        → AreAccepted records → IsCompiledOf records provided → IsMadeOfCanonical result (canonical_loads provided)
        → MatchResult result (IsCanonicalNormalizerOf records) (λ error. error ≡ NoMemory) }
{}

/// `try_new_nfkd_unstable` and `try_new_nfkc_unstable` likewise.
pub fn compiled_tables_make_compatibility_normalizers()
    ensures { (records : List Record) (provided : Provided) (result : Result NormalizerTables DataError)
        → AreAccepted records → IsCompiledOf records provided → IsMadeOfBoth result (compatibility_loads provided)
        → MatchResult result (IsCompatibilityNormalizerOf records) (λ error. error ≡ NoMemory) }
{}

/// A collator of a file answers straight from its records: two texts compare as their lines say, under all options.
#[tactic(auto, using(crate::proofs::LawAnswerLemmas::orders))]
pub fn collators_order_as_records_say()
    ensures { (records : List Record) (options : CollatorOptions) (preferences : CollatorPreferences) (collator : CollatorParts) (x y : List ℕ)
        → AreAccepted records → IsCollatorOf records options preferences collator → All IsScalar x → All IsScalar y
        → collation_order (source_collation collator.source) collator.options x y
        ≡ collation_order (collation_of records) (resolved_options options preferences (settings_of records)) x y }
{}

/// And a text has the sort key that the records give it.
#[tactic(auto, using(crate::proofs::LawAnswerLemmas::keys))]
pub fn collators_write_keys_of_records()
    ensures { (records : List Record) (options : CollatorOptions) (preferences : CollatorPreferences) (collator : CollatorParts) (x : List ℕ)
        → AreAccepted records → IsCollatorOf records options preferences collator → All IsScalar x
        → key_of_text (source_collation collator.source) collator.options x
        ≡ key_of_text (collation_of records) (resolved_options options preferences (settings_of records)) x }
{}
