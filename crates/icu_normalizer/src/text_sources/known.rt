//! Text that is known to be UTF-8.

ghost use Rattle.std.specs.Prelude.{encode_utf8_all};
ghost use Rattle.icu_normalizer.specs.Encodings.{utf8_encoding};
ghost use Rattle.icu_normalizer.specs.Texts.{str_text};

use super::bytes::plain_bytes;
use super::text::Text;

impl<'t> Text for &'t str {
    ghost spelled = { λ text. str_text text.now };

    ghost encode = { encode_utf8_all };

    ghost encoding = { utf8_encoding };

    #[inline]
    fn len(self) -> usize {
        str::len(self)
    }

    #[inline]
    fn is_at_end(self) -> bool {
        str::is_empty(self)
    }

    #[inline]
    fn plain_len(self) -> usize {
        plain_bytes(self.as_bytes())
    }

    #[inline]
    fn behind_plain(self, count: usize) -> Self {
        &self[count..]
    }

    #[inline]
    fn keep_promise(self) {}

    #[inline(always)]
    fn split_char(self) -> Option<(Option<char>, Self)> {
        let mut chars = self.chars();
        let c = chars.next()?;
        Some((Some(c), chars.as_str()))
    }

    #[inline]
    fn split_before(self, rest: Self) -> (Self, Self) {
        self.split_at(Text::len(self) - Text::len(rest))
    }
}
