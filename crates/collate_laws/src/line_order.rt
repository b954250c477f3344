//! A law of the order of lines: it changes nothing that `Records::changed` and `Records::settings_equal` tell.

ghost use Rattle.std.specs.List.Sorted.{IsPermutation};
ghost use Rattle.std.specs.Prelude.{ℕ, List};
ghost use Rattle.collate_lines.specs.Record.{Record};
ghost use Rattle.collate_records.specs.Changes.{AreSettingsEqual, IsUnchanged};
ghost use Rattle.collate_rules.specs.Accepted.{AreAccepted};

/// Lines of an accepted file in another order change no character, and no setting.
pub fn lines_in_another_order_change_nothing()
    ensures characters { (a b : List Record) (c : ℕ) → AreAccepted a → IsPermutation a b → IsUnchanged a b c }
    ensures settings { (a b : List Record) → AreAccepted a → IsPermutation a b → AreSettingsEqual a b }
{}
