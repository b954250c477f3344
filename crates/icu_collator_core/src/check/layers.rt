//! Where the words of characters stand.

ghost use Rattle.std.specs.Prelude.{◌≡◌};
ghost use Rattle.icu_collator_core.specs.WordForms.{is_fallback};

/// The word by which a tailoring leaves a character to the root.
pub(super) const FALLBACK_CE32: u32 = 0xc0;

/// The root's data, or the tailoring's.
#[derive(Clone, Copy, Debug, PartialEq, Eq)]
pub enum Layer {
    /// The data of all characters.
    Root,
    /// The data that count before the root's.
    Tailoring,
}

/// Whether a word leaves the character to the root.
pub(super) fn is_fallback(layer: Layer, word: u32) -> bool
    ensures { result ≡ is_fallback layer word }
{
    match layer {
        Layer::Root => false,
        Layer::Tailoring => word == FALLBACK_CE32,
    }
}
