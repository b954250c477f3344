//! Laws of files of which one is changed to the other, with equal settings: collators over both answer alike wherever both
//! files say the same. They go by options that resolve alike.

ghost use Rattle.std.specs.Char.{IsScalar};
ghost use Rattle.std.specs.Prelude.{◌≡◌, ℕ, All, List};
ghost use Rattle.icu_collator_types.specs.declared.options.CollatorOptions.{CollatorOptions};
ghost use Rattle.icu_collator_types.specs.declared.options.CollatorPreferences.{CollatorPreferences};
ghost use Rattle.icu_collator.specs.Collators.{CollatorParts, source_collation};
ghost use Rattle.collate_lines.specs.Record.{Record};
ghost use Rattle.collate_records.specs.Changes.{AreSettingsEqual, IsUnchanged};
ghost use Rattle.collate_rules.specs.Accepted.{AreAccepted};
ghost use Rattle.collate_laws.specs.Alike.{ReadAlike, order_of};
ghost use Rattle.collate_laws.specs.OverRecords.{IsCollatorOf};
ghost use Rattle.collate_laws.specs.Unchanged.{ReachesUnchanged, lone_elements};

/// The same options and preferences resolve alike over both files.
pub fn equal_settings_resolve_alike()
    ensures { (old new : List Record) (options : CollatorOptions) (preferences : CollatorPreferences) (a b : CollatorParts)
        → AreSettingsEqual old new → IsCollatorOf old options preferences a → IsCollatorOf new options preferences b
        → a.options ≡ b.options }
{}

/// A character that didn't change, as `Records::changed` tells, has the same elements alone.
pub fn unchanged_characters_have_the_same_elements()
    ensures { (old new : List Record) (options more : CollatorOptions) (preferences preferred : CollatorPreferences) (a b : CollatorParts) (c : ℕ)
        → AreSettingsEqual old new → IsCollatorOf old options preferences a → IsCollatorOf new more preferred b
        → IsUnchanged old new c → IsScalar c
        → lone_elements (source_collation a.source).weights c ≡ lone_elements (source_collation b.source).weights c }
{}

/// A text that reaches no changed character has the same decomposed list, the same elements and the same key, and two such
/// texts order alike.
pub fn unchanged_texts_answer_alike()
    ensures texts { (old new : List Record) (options more : CollatorOptions) (preferences preferred : CollatorPreferences) (a b : CollatorParts) (text : List ℕ)
        → AreAccepted old → AreAccepted new → AreSettingsEqual old new
        → IsCollatorOf old options preferences a → IsCollatorOf new more preferred b → a.options ≡ b.options
        → ReachesUnchanged old new text → All IsScalar text → ReadAlike a b text }
    ensures orders { (old new : List Record) (options more : CollatorOptions) (preferences preferred : CollatorPreferences) (a b : CollatorParts) (x y : List ℕ)
        → AreAccepted old → AreAccepted new → AreSettingsEqual old new
        → IsCollatorOf old options preferences a → IsCollatorOf new more preferred b → a.options ≡ b.options
        → ReachesUnchanged old new x → ReachesUnchanged old new y → All IsScalar x → All IsScalar y
        → order_of a x y ≡ order_of b x y }
{}
