//! Laws of the maps of both kinds that accepted lines give: of them compatibility tables can be built, and mean what the
//! lines mean. Each function's contract is the law, and its body is empty.

ghost use Rattle.std.specs.Prelude.{◌≡◌, ◌≤◌, ℕ, List};
ghost use Rattle.icu_normalizer_core.specs.CompatibilityMaps.{AllMaps, AreMeaningOf, KeepAllRulesWithin, all_steps_of};
ghost use Rattle.icu_normalizer_core.specs.Words.{WordLists};
ghost use Rattle.collate_lines.specs.Record.{Record};
ghost use Rattle.collate_rules.specs.Accepted.{AreAccepted};
ghost use Rattle.collate_records.specs.Maps.{AreAllMapsOf, AreWordsOf};
ghost use Rattle.collate_rules.specs.Meaning.{any_step};
ghost use Rattle.collate_rules.specs.Rules.{names_in};

/// The classes and the mappings of both kinds that accepted lines give keep, as maps, all rules on them within each limit
/// on code points that the lines keep, so that compatibility tables of them can be built (docs/RECORDS.md, `limit`, `C1` to
/// `C9`).
pub fn accepted_records_keep_the_rules_of_all_maps()
    ensures { (records : List Record) (maps : AllMaps) (limit : ℕ) → AreAccepted records → AreAllMapsOf records maps
        → names_in records ≤ limit → KeepAllRulesWithin limit maps }
{}

/// They map each character as the lines do (docs/RECORDS.md).
pub fn accepted_records_mean_all_their_maps()
    ensures { (records : List Record) (maps : AllMaps) → AreAccepted records → AreAllMapsOf records maps
        → (c : ℕ) → all_steps_of maps c ≡ any_step records c }
{}

/// So compatibility words that mean the maps say what the lines say (docs/RECORDS.md).
pub fn words_of_all_maps_are_of_their_records()
    ensures { (records : List Record) (maps : AllMaps) (words : WordLists) → AreAccepted records → AreAllMapsOf records maps
        → AreMeaningOf maps words → AreWordsOf records words }
{}
