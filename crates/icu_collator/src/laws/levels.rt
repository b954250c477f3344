//! Laws of levels in keys, one for each level: where two texts' levels first differ in that one, their
//! keys compare as it does. Each is useful alone, and only the one on primaries asks anything of the
//! lead byte of numbers. The levels are such as texts have (`laws::keys::texts_have_sound_levels`). Each
//! function's contract is the law, and its body is empty.

ghost use Rattle.std.specs.Prelude.{◌≡◌, ◌≢◌, true};
ghost use Rattle.std.specs.declared.cmp.Ordering.TheVariants.{Equal};
ghost use Rattle.icu_collator_types.specs.declared.options.ResolvedCollatorOptions.{ResolvedCollatorOptions};
ghost use Rattle.icu_collator_core.specs.Collation.{Collation};
ghost use Rattle.icu_collator.specs.KeyBytes.{key_bytes};
ghost use Rattle.icu_collator.specs.LevelOrders.{primaries_order, secondaries_order, cases_order, tertiaries_order, quaternaries_order, characters_order, keys_order};
ghost use Rattle.icu_collator.specs.Levels.{Levels};
ghost use Rattle.icu_collator.specs.Order.{levels_order};
ghost use Rattle.icu_collator.specs.Settings.{has_plain_leads};
ghost use Rattle.icu_collator.specs.SoundCollation.{AreSoundLevels, IsSoundCollation};

/// Where the primaries differ, the keys compare, byte by byte, as the primaries do (UTS 10): with every
/// option, and over all weights and settings that keep the rules (`docs/RECORDS.md`). With numeric
/// ordering the lead byte of numbers must not be compressible.
pub fn primaries_decide()
    ensures { (collation : Collation) (options : ResolvedCollatorOptions) (a b : Levels)
        → IsSoundCollation collation → AreSoundLevels collation options a → AreSoundLevels collation options b
        → has_plain_leads collation options ≡ true → primaries_order a b ≢ Equal
        → keys_order collation options a b ≡ primaries_order a b }
{}

/// Under the same rules, and with any lead byte of numbers: where the primaries are equal, and the
/// secondaries are in force and differ, the keys compare as the secondaries do, also backward.
pub fn secondaries_decide()
    ensures { (collation : Collation) (options : ResolvedCollatorOptions) (a b : Levels)
        → IsSoundCollation collation → AreSoundLevels collation options a → AreSoundLevels collation options b
        → primaries_order a b ≡ Equal → secondaries_order options a b ≢ Equal
        → keys_order collation options a b ≡ secondaries_order options a b }
{}

/// Under the same rules: where the levels before it that are in force are equal, and the case level is
/// in force and differs, the keys compare as the cases do, also with upper case first.
pub fn cases_decide()
    ensures { (collation : Collation) (options : ResolvedCollatorOptions) (a b : Levels)
        → IsSoundCollation collation → AreSoundLevels collation options a → AreSoundLevels collation options b
        → primaries_order a b ≡ Equal → secondaries_order options a b ≡ Equal → cases_order options a b ≢ Equal
        → keys_order collation options a b ≡ cases_order options a b }
{}

/// Under the same rules: where the levels before them that are in force are equal, and the tertiaries
/// are in force and differ, the keys compare as the tertiaries do, with case bits or without.
pub fn tertiaries_decide()
    ensures { (collation : Collation) (options : ResolvedCollatorOptions) (a b : Levels)
        → IsSoundCollation collation → AreSoundLevels collation options a → AreSoundLevels collation options b
        → primaries_order a b ≡ Equal → secondaries_order options a b ≡ Equal → cases_order options a b ≡ Equal → tertiaries_order options a b ≢ Equal
        → keys_order collation options a b ≡ tertiaries_order options a b }
{}

/// Under the same rules: where the levels before them that are in force are equal, and the quaternaries
/// are in force and differ, the keys compare as the quaternaries do, shifted primaries among them.
pub fn quaternaries_decide()
    ensures { (collation : Collation) (options : ResolvedCollatorOptions) (a b : Levels)
        → IsSoundCollation collation → AreSoundLevels collation options a → AreSoundLevels collation options b
        → primaries_order a b ≡ Equal → secondaries_order options a b ≡ Equal → cases_order options a b ≡ Equal → tertiaries_order options a b ≡ Equal → quaternaries_order options a b ≢ Equal
        → keys_order collation options a b ≡ quaternaries_order options a b }
{}

/// Under the same rules, and at strength `Identical`: where all levels before them that are in force
/// are equal, and the characters differ, the keys compare as the characters do, U+FFFE below all.
pub fn characters_decide()
    ensures { (collation : Collation) (options : ResolvedCollatorOptions) (a b : Levels)
        → IsSoundCollation collation → AreSoundLevels collation options a → AreSoundLevels collation options b
        → primaries_order a b ≡ Equal → secondaries_order options a b ≡ Equal → cases_order options a b ≡ Equal → tertiaries_order options a b ≡ Equal → quaternaries_order options a b ≡ Equal → characters_order options a b ≢ Equal
        → keys_order collation options a b ≡ characters_order options a b }
{}

/// Under the same rules: where no level that is in force differs, the two keys are the same bytes.
pub fn equal_levels_have_equal_keys()
    ensures { (collation : Collation) (options : ResolvedCollatorOptions) (a b : Levels)
        → IsSoundCollation collation → AreSoundLevels collation options a → AreSoundLevels collation options b
        → levels_order options a b ≡ Equal
        → key_bytes collation options a ≡ key_bytes collation options b }
{}
