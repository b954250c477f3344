//! What the flags of a contraction say of its suffixes.

ghost use Rattle.std.specs.Prelude.{◌≡◌, ◌^◌, ◌<◌, ◌↔◌, ◌&&◌, IsTrue, IfOk};
ghost use Rattle.icu_normalizer_core.specs.BorrowedMeaning.{borrowed_meaning};
ghost use Rattle.icu_collator_core.specs.ContextFaults.{agree, answer};
ghost use Rattle.icu_collator_core.specs.ContextRules.{AreFlagsTrue, KeysPass, has_flag};
ghost use Rattle.icu_collator_core.specs.Pools.{trie_of};
ghost use Rattle.icu_collator_core.specs.TextFolds.{answered_first};

use super::walks::{TextTest, keys_pass};
use icu_normalizer_core::canonical::CanonicalBorrowed;
use icu_packed_vector::PackedVec;
use std::alloc::{AllocError, Global};

/// What is asked of each suffix.
#[derive(Clone, Copy, Debug, PartialEq, Eq)]
pub(super) enum Question {
    /// Whether it begins with a mark.
    BeginsWithMark,
    /// Whether it doesn't end in one.
    EndsInNoMark,
    /// Whether there is no starter in it.
    HoldsNoStarter,
}

/// What is answered for the characters so far.
#[derive(Clone, Copy, Debug)]
pub(super) struct Answered {
    /// There are none.
    is_empty: bool,
    /// The answer.
    is_yes: bool,
}

/// The test for suffixes of which a question is answered yes.
#[derive(Drop)]
struct AnswerTest<'d> {
    canonical: CanonicalBorrowed<'d>,
    question: Question,
}

impl<'d> TextTest for AnswerTest<'d> {
    ghost use Rattle.icu_normalizer_core.specs.BorrowedMeaning.{borrowed_meaning};
    ghost use Rattle.icu_collator_core.specs.TextFolds.{answered_with, is_yes};

    type Folded = Answered;

    ghost onward = { λ asked. answered_with (borrowed_meaning asked.canonical) asked.question };

    ghost test = { λ _ answered. is_yes answered };

    fn fold_character(&self, before: Answered, c: char) -> Answered {
        let is_starter = self.canonical.is_starter(c);
        let is_yes = match self.question {
            Question::BeginsWithMark => {
                if before.is_empty {
                    !is_starter
                } else {
                    before.is_yes
                }
            }
            Question::EndsInNoMark => is_starter,
            Question::HoldsNoStarter => before.is_yes && !is_starter,
        };
        Answered {
            is_empty: false,
            is_yes,
        }
    }

    fn passes(&self, answered: Answered) -> bool {
        answered.is_yes
    }

    fn is_same(&self, one: Answered, other: Answered) -> bool {
        one.is_empty == other.is_empty && one.is_yes == other.is_yes
    }
}

/// What is answered for no characters.
fn answered_first(question: Question) -> Answered
    ensures { result ≡ answered_first question }
{
    let is_yes = match question {
        Question::BeginsWithMark => false,
        Question::EndsInNoMark | Question::HoldsNoStarter => true,
    };
    Answered {
        is_empty: true,
        is_yes,
    }
}

/// Whether the units of the context at an index keep the grammar of unit tries, and all its keys are characters of which a
/// question is answered yes. Fails only if memory is refused.
fn is_answered(
    alloc: Global,
    canonical: CanonicalBorrowed<'_>,
    contexts: &PackedVec<'_, u16>,
    index: usize,
    question: Question,
) -> Result<bool, AllocError>
    requires { index < 2 ^ 32 }
    ensures { IfOk result (λ all. IsTrue all ↔ KeysPass (answer (borrowed_meaning canonical.entry) question) (trie_of contexts.now index)) }
{
    let test = AnswerTest {
        canonical,
        question,
    };
    let all = keys_pass(alloc, contexts, index, &test, answered_first(question))?;
    Ok(all)
}

/// Whether a word has the flag of this bit.
fn has_flag(word: u32, index: u32) -> bool
    requires { index < 32 }
    ensures { result ≡ has_flag index word }
{
    (word >> index) & 1 == 1
}

/// Whether a flag is set just where a fact holds.
fn agree(flag: bool, fact: bool) -> bool
    ensures { result ≡ agree flag fact }
{
    if flag { fact } else { !fact }
}

/// Whether the flags of a word are set just where all suffixes begin with a mark, one ends in one, and one holds a starter.
fn are_flags_set(word: u32, all_begin: bool, one_ends: bool, one_holds: bool) -> bool
    ensures { result ≡ (agree (has_flag 9 word) all_begin && (agree (has_flag 10 word) one_ends && agree (has_flag 11 word) one_holds)) }
{
    agree(has_flag(word, 9), all_begin)
        && agree(has_flag(word, 10), one_ends)
        && agree(has_flag(word, 11), one_holds)
}

/// Whether the flags of a contraction are true of the context at an index. Fails only if memory is refused.
pub(super) fn are_flags_true(
    alloc: Global,
    canonical: CanonicalBorrowed<'_>,
    contexts: &PackedVec<'_, u16>,
    index: usize,
    word: u32,
) -> Result<bool, AllocError>
    requires { index < 2 ^ 32 }
    ensures { IfOk result (λ yes. IsTrue yes ↔ AreFlagsTrue (borrowed_meaning canonical.entry) word (trie_of contexts.now index)) }
{
    let all_begin = is_answered(alloc, canonical, contexts, index, Question::BeginsWithMark)?;
    let none_ends = is_answered(alloc, canonical, contexts, index, Question::EndsInNoMark)?;
    let none_holds = is_answered(alloc, canonical, contexts, index, Question::HoldsNoStarter)?;
    let yes = are_flags_set(word, all_begin, !none_ends, !none_holds);
    Ok(yes)
}
