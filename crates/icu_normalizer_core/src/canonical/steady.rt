//! Characters that composing leaves alone, looked up by one read.

ghost use Rattle.std.specs.Prelude.{◌↔◌, IsTrue};
ghost use Rattle.icu_normalizer_core.specs.SteadyAnswers.{SaysYes};

/// Of each code point below U+10000, whether it is known to be steady (UAX 15, a quick check "Yes" and class 0).
#[derive(Debug, Drop)]
pub(crate) struct SteadyCharacters {
    pub(crate) answers: Vec<bool>,
}

impl SteadyCharacters {
    /// Whether a character is known to be steady.
    #[inline]
    pub(crate) fn contains(&self, c: char) -> bool
        ensures { IsTrue result ↔ SaysYes self.now.answers.items c }
    {
        says_yes(&self.answers, c as u32)
    }
}

/// Whether the answer for a code point is yes.
#[inline]
pub(super) fn says_yes(answers: &[bool], code: u32) -> bool
    ensures { IsTrue result ↔ SaysYes answers.now code }
{
    match answers.get(code as usize) {
        Some(answer) => *answer,
        None => false,
    }
}
