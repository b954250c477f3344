//! Characters that NFC mostly leaves as they stand.

ghost use Rattle.icu_normalizer_core.specs.Canonical.{composed};
ghost use Rattle.icu_normalizer_core.specs.FormData.{form_meaning};
ghost use Rattle.icu_normalizer.specs.TextCuts.{IsPassed};

use crate::text_sources::Text;
use icu_normalizer_core::decomposition::FormData;

/// What is left of a text once characters that nothing composes with and that stay as they stand are passed over, from
/// the last of them on; nothing where they reach to the end. What is damaged is not passed over. It takes no memory.
pub(super) fn pass_low<T: Text>(basis: FormData<'_>, text: T) -> T
    ensures { IsPassed T.encode (composed (form_meaning basis.entry)) (T.spelled text) (T.spelled result) }
{
    basis.keep_promise();
    text.keep_promise();
    let plain = text.plain_len();
    let mut rest = text.behind_plain(plain.saturating_sub(1));
    let mut ahead = text.behind_plain(plain);
    'chars: while let Some(read) = ahead.split_char() {
        let first = read.0;
        let Some(c) = first else {
            return rest;
        };
        if !basis.is_steady(c) {
            return rest;
        }
        rest = ahead;
        ahead = read.1;
    }
    ahead
}
