//! Where a text has to be changed to be in NFD.

ghost use Rattle.icu_normalizer_core.specs.Canonical.{decomposed};
ghost use Rattle.icu_normalizer_core.specs.FormData.{form_meaning, low_bound};
ghost use Rattle.icu_normalizer.specs.TextCuts.{IsTextCut, IsTextSplit};

use super::places::class_in_place;
use crate::text_sources::Text;
use icu_normalizer_core::decomposition::FormData;

/// What has to be changed for a text to be in NFD, from the last starter before the first change on: nothing where the
/// text is undamaged and its own NFD. A damaged part is a change. It takes no memory.
pub(super) fn rest_to_change<T: Text>(basis: FormData<'_>, text: T) -> T
    ensures { IsTextCut T.encode (decomposed (form_meaning basis.entry)) (low_bound basis.entry) (T.spelled text) (T.spelled result) }
{
    basis.keep_promise();
    text.keep_promise();
    let plain = text.plain_len();
    let mut rest = text.behind_plain(plain.saturating_sub(1));
    let mut ahead = text.behind_plain(plain);
    let mut before = 0;
    'chars: while let Some(read) = ahead.split_char() {
        let first = read.0;
        let Some(c) = first else {
            return rest;
        };
        let Some(class) = class_in_place(basis, before, c) else {
            return rest;
        };
        if class == 0 {
            rest = ahead;
        }
        before = class;
        ahead = read.1;
    }
    ahead
}

/// A text in two parts: the prefix and the NFD of the rest are together the NFD of the text.
pub(super) fn split<T: Text>(basis: FormData<'_>, text: T) -> (T, T)
    ensures { IsTextSplit T.encode (decomposed (form_meaning basis.entry)) (low_bound basis.entry) (T.spelled text) (T.spelled result.0) (T.spelled result.1) }
{
    text.split_before(rest_to_change(basis, text))
}
