//! Laws of numbers over an accepted file: two texts that differ in a number alone order as the values of the two numbers do,
//! and so do their keys. Each function's contract is the law, and its body is empty.
//!
//! With numeric ordering on, the file has to say one thing beyond its rules, `JoinNoDigits`: no text of several characters that
//! it records holds a digit. For numbers of one value it has to say another, and both are `HaveNumbersApart`: U+0303 is no digit
//! unless `dotabove` is off. Of the options, no number may be variable: alternates aren't shifted, or the last variable group
//! ends below the lead of numbers.

ghost use Rattle.std.specs.Char.{IsScalar};
ghost use Rattle.std.specs.Cmp.Lexicographic.{slice_cmp};
ghost use Rattle.std.specs.Ordering.{nat_cmp};
ghost use Rattle.std.specs.Prelude.{◌≡◌, ◌<◌, ◌++◌, ℕ, true, false, All, List};
ghost use Rattle.std.specs.declared.cmp.Ordering.TheVariants.{Less, Equal, Greater};
ghost use Rattle.icu_collator_types.specs.declared.options.CollatorOptions.{CollatorOptions};
ghost use Rattle.icu_collator_types.specs.declared.options.CollatorPreferences.{CollatorPreferences};
ghost use Rattle.icu_collator_types.specs.declared.options.Strength.TheVariants.{Identical};
ghost use Rattle.icu_collator_types.specs.Options.{is_at_least, is_numeric};
ghost use Rattle.icu_collator.specs.Collators.{CollatorParts};
ghost use Rattle.icu_collator.specs.NumbersInTexts.{AreDigitsAlone, AreDigitsApart, AreDotsLight, AreNumbersTogether, IsNumberBetween, no_number_is_variable, run_value};
ghost use Rattle.icu_collator.specs.Settings.{has_plain_leads};
ghost use Rattle.collate_lines.specs.Record.{Record};
ghost use Rattle.collate_rules.specs.Accepted.{AreAccepted};
ghost use Rattle.collate_rules.specs.Meaning.{collation_of, weights_of};
ghost use Rattle.collate_laws.specs.Alike.{key_of, order_of};
ghost use Rattle.collate_laws.specs.OverRecords.{IsCollatorOf};
ghost use Rattle.collate_laws.specs.NumbersApart.{HaveNumbersApart, JoinNoDigits};

/// An accepted file of which this holds gives what the laws of numbers over definitions ask
/// (`icu_collator::laws::numbers`): a digit is read as part of a number wherever it stands, and changes nothing beside it.
/// Reordering keeps numbers together in every accepted file, and a dot above that is dropped anywhere has no primary weight.
pub fn accepted_digits_are_apart()
    ensures alone { (records : List Record) → AreAccepted records → JoinNoDigits records → AreDigitsAlone (collation_of records) }
    ensures apart { (records : List Record) → AreAccepted records → HaveNumbersApart records → AreDigitsApart (collation_of records) }
    ensures together { (records : List Record) → AreAccepted records → AreNumbersTogether (collation_of records) }
    ensures dots { (records : List Record) → AreAccepted records → AreDotsLight (weights_of records) }
{}

/// Let two texts differ in one run of digits alone, each run with at most 254 digits from its first nonzero one on, between a
/// text whose decomposed list ends in no digit and one whose list begins with none. At every strength the text whose run has
/// the lower value is below the other. Where the values are the same, the texts are equal at every strength but `Identical`,
/// whatever zeros lead the digits, and whatever is variable.
pub fn numbers_of_files_order_by_value()
    ensures lower { (records : List Record) (options : CollatorOptions) (preferences : CollatorPreferences) (collator : CollatorParts) (x r s y : List ℕ)
        → AreAccepted records → JoinNoDigits records → IsCollatorOf records options preferences collator
        → is_numeric collator.options.numeric ≡ true → no_number_is_variable (collation_of records) collator.options ≡ true
        → All IsScalar x → All IsScalar y → IsNumberBetween (collation_of records) x r y → IsNumberBetween (collation_of records) x s y
        → run_value (weights_of records) r < run_value (weights_of records) s
        → order_of collator (x ++ (r ++ y)) (x ++ (s ++ y)) ≡ Less }
    ensures higher { (records : List Record) (options : CollatorOptions) (preferences : CollatorPreferences) (collator : CollatorParts) (x r s y : List ℕ)
        → AreAccepted records → JoinNoDigits records → IsCollatorOf records options preferences collator
        → is_numeric collator.options.numeric ≡ true → no_number_is_variable (collation_of records) collator.options ≡ true
        → All IsScalar x → All IsScalar y → IsNumberBetween (collation_of records) x r y → IsNumberBetween (collation_of records) x s y
        → run_value (weights_of records) s < run_value (weights_of records) r
        → order_of collator (x ++ (r ++ y)) (x ++ (s ++ y)) ≡ Greater }
    ensures equal { (records : List Record) (options : CollatorOptions) (preferences : CollatorPreferences) (collator : CollatorParts) (x r s y : List ℕ)
        → AreAccepted records → HaveNumbersApart records → IsCollatorOf records options preferences collator
        → is_numeric collator.options.numeric ≡ true → is_at_least collator.options.strength Identical ≡ false
        → All IsScalar x → All IsScalar y → IsNumberBetween (collation_of records) x r y → IsNumberBetween (collation_of records) x s y
        → run_value (weights_of records) r ≡ run_value (weights_of records) s
        → order_of collator (x ++ (r ++ y)) (x ++ (s ++ y)) ≡ Equal }
{}

/// The keys of such texts order in the same way, byte by byte, where the file's lead of numbers isn't compressible: the lower
/// value has the lower key, and equal values have one key at every strength but `Identical`.
pub fn number_keys_of_files_order_by_value()
    ensures lower { (records : List Record) (options : CollatorOptions) (preferences : CollatorPreferences) (collator : CollatorParts) (x r s y : List ℕ)
        → AreAccepted records → JoinNoDigits records → IsCollatorOf records options preferences collator
        → has_plain_leads (collation_of records) collator.options ≡ true
        → is_numeric collator.options.numeric ≡ true → no_number_is_variable (collation_of records) collator.options ≡ true
        → All IsScalar x → All IsScalar y → IsNumberBetween (collation_of records) x r y → IsNumberBetween (collation_of records) x s y
        → run_value (weights_of records) r < run_value (weights_of records) s
        → slice_cmp nat_cmp (key_of collator (x ++ (r ++ y))) (key_of collator (x ++ (s ++ y))) ≡ Less }
    ensures equal { (records : List Record) (options : CollatorOptions) (preferences : CollatorPreferences) (collator : CollatorParts) (x r s y : List ℕ)
        → AreAccepted records → HaveNumbersApart records → IsCollatorOf records options preferences collator
        → has_plain_leads (collation_of records) collator.options ≡ true
        → is_numeric collator.options.numeric ≡ true → is_at_least collator.options.strength Identical ≡ false
        → All IsScalar x → All IsScalar y → IsNumberBetween (collation_of records) x r y → IsNumberBetween (collation_of records) x s y
        → run_value (weights_of records) r ≡ run_value (weights_of records) s
        → key_of collator (x ++ (r ++ y)) ≡ key_of collator (x ++ (s ++ y)) }
{}
