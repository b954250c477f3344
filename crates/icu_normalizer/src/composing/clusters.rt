//! Parts of a text that are composed alone.

ghost use Rattle.std.specs.Prelude.{◌≡◌, ◌∷◌, ◌<◌, IfSome, IfNone};
ghost use Rattle.icu_normalizer_core.specs.FormData.{form_meaning};
ghost use Rattle.icu_normalizer.specs.Composing.{IsComposedApart};

use crate::text_sources::Text;
use icu_normalizer_core::decomposition::FormData;

/// The next character of a cluster, and what stands after it; `None` where the cluster ends, before a steady character
/// or at the end of the text. What is damaged reads as U+FFFD.
#[inline]
pub(super) fn next_of_cluster<T: Text>(basis: FormData<'_>, text: T) -> Option<(char, T)>
    ensures none { IfNone result (IsComposedApart (form_meaning basis.entry) (T.spelled text).characters) }
    ensures some { IfSome result (λ read. (T.spelled text).characters ≡ read.0 ∷ (T.spelled read.1).characters) }
{
    basis.keep_promise();
    let Some(read) = text.split_char() else {
        return None;
    };
    let c = read.0.unwrap_or(char::REPLACEMENT_CHARACTER);
    if basis.is_steady(c) {
        None
    } else {
        Some((c, read.1))
    }
}
