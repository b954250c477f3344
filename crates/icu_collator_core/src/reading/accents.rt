//! Accents before which a dot above may be dropped.

ghost use Rattle.std.specs.Prelude.{◌≡◌, ◌||◌, ◌==◌, ◌<◌, ◌≤◌, false, drop, length};
ghost use Rattle.icu_collator_core.specs.Elements.{is_before_accent, placed};

/// Whether a character is a grave, an acute or a tilde.
pub(super) fn is_accent(c: char) -> bool
    ensures { result ≡ ((c == 0x300) || (c == 0x301) || (c == 0x303)) }
{
    c == '\u{300}' || c == '\u{301}' || c == '\u{303}'
}

/// Whether a grave, an acute or a tilde stands at an index of a list.
pub(super) fn is_accent_at(list: &[char], index: usize) -> bool
    requires { index ≤ length list.now }
    ensures { result ≡ is_before_accent (drop index (placed list.now)) }
{
    if index < list.len() {
        is_accent(list[index])
    } else {
        false
    }
}
