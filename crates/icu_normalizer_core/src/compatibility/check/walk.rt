//! The walk over the code points that looks for all kinds of faults at once.

ghost use Rattle.std.specs.Prelude.{◌≡◌, ◌+◌, ◌<◌, ◌≤◌, ℕ, true, false, None, Some, MatchResult, IfOk, unwrap_or};
ghost use Rattle.icu_codepointtrie.specs.Slots.{value_at};
ghost use Rattle.icu_normalizer_core.specs.CanonicalFaults.{IsAccepted, IsLeastOffender};
ghost use Rattle.icu_normalizer_core.specs.CanonicalMeaning.{lists_of};
ghost use Rattle.icu_normalizer_core.specs.CanonicalWords.{plain_word};
ghost use Rattle.icu_normalizer_core.specs.CompatibilityFaults.{OffendsWord};
ghost use Rattle.icu_normalizer_core.specs.CompatibilityWalks.{AreFaultsBelow, AreHarmless, AreLettersOwn, IsCommonRun};
ghost use Rattle.icu_normalizer_core.specs.Words.{word_lists};

use super::fixed::is_fixed;
use super::full_list_tests::{are_letters_own, has_good_list};
use super::values::has_good_word;
use crate::canonical::CanonicalTables;
use crate::canonical::canonical_words::{PLAIN_WORD, Words};
use crate::canonical::check::told::end_of_silence;
use icu_codepointtrie::CodePointTrie;

/// The least character with a bad full list, and the least with another full list than the one that is fixed, as far
/// as was looked.
#[derive(Clone, Copy, Debug)]
pub(crate) struct Faults {
    pub(crate) full_list: Option<char>,
    pub(crate) built_in: Option<char>,
}

/// The least character at fault, once one more was looked at.
fn least(found: Option<char>, c: char, is_good: bool) -> Option<char>
    ensures found { (d : ℕ) → found ≡ Some d → result ≡ Some d }
    ensures good { found ≡ None → is_good ≡ true → result ≡ None }
    ensures bad { found ≡ None → is_good ≡ false → result ≡ Some c }
{
    match found {
        Some(d) => Some(d),
        None => { if is_good { None } else { Some(c) } }
    }
}

/// The number that is a code point's word, without its two uppermost bits.
fn plain_word(trie: &CodePointTrie<'_, u32>, code: u32) -> u32
    ensures { result ≡ plain_word (unwrap_or (value_at trie.now code) 0) }
{
    trie.get32(code) & PLAIN_WORD
}

/// Whether code points of a word may be passed: with that of syllables only where the jamo are their own full lists.
fn may_pass(word: u32, are_letters_own: bool) -> bool
    ensures { result ≡ true → word ≡ 1 → are_letters_own ≡ true }
{
    word != 1 || are_letters_own
}

/// The end of the code points of a run from this one on with which nothing can be wrong; the code point itself where
/// something can.
#[tactic(auto, using(crate::proofs::compatible::HarmlessLemmas::harmless_none))]
fn harmless_end(
    tables: &CanonicalTables<'_>,
    words: Words<'_>,
    are_letters_own: bool,
    code: u32,
    end: u32,
) -> u32
    requires letters { are_letters_own ≡ true → AreLettersOwn (word_lists words) }
    requires order { code < end }
    requires bound { end ≤ 0x110000 }
    requires run { IsCommonRun tables.now words code end }
    ensures from { code ≤ result }
    ensures to { result ≤ end }
    ensures harmless { AreHarmless (lists_of tables.now) (word_lists words.entry) code result }
{
    if !words.trie.has_cell(code) {
        return code;
    }
    let word = plain_word(words.trie, code);
    let canonical = plain_word(&tables.trie, code);
    if canonical != word {
        return code;
    }
    if !may_pass(word, are_letters_own) {
        return code;
    }
    end_of_silence(word, code).min(end)
}

/// The end of the code points from this one on that both tries have one word for.
#[tactic(auto, using(crate::proofs::compatible::HarmlessLemmas::common_run))]
fn common_end(tables: &CanonicalTables<'_>, words: Words<'_>, code: u32) -> u32
    requires { code ≤ 0x10FFFF }
    ensures after { code < result }
    ensures to { result ≤ 0x110000 }
    ensures run { IsCommonRun tables.now words.entry code result }
{
    tables.trie.cells_end(code).min(words.trie.cells_end(code))
}

/// The faults, once one more code point was looked at; its character, if the word is bad.
fn with_code(
    tables: &CanonicalTables<'_>,
    words: Words<'_>,
    code: u32,
    faults: Faults,
) -> Result<Faults, char>
    requires accepted { IsAccepted (lists_of tables.now) }
    requires below { AreFaultsBelow (lists_of tables.now) (word_lists words) code faults }
    ensures { MatchResult result
        (AreFaultsBelow (lists_of tables.now) (word_lists words.entry) (code + 1))
        (IsLeastOffender (OffendsWord (lists_of tables.now) (word_lists words.entry))) }
{
    let Some(c) = char::from_u32(code) else {
        return Ok(faults);
    };
    if !has_good_word(tables, words, c) {
        return Err(c);
    }
    let full_list = least(faults.full_list, c, has_good_list(tables, words, c));
    let built_in = least(faults.built_in, c, is_fixed(words, c));
    Ok(Faults {
        full_list,
        built_in,
    })
}

/// How far was looked, to before a code point, and what faults were found.
#[derive(Clone, Copy, Debug)]
struct Looked {
    code: u32,
    faults: Faults,
}

/// Looks at the next code point of a run, where something can be wrong with it; passes those with which nothing can.
/// The least character with a bad word, if it is this one.
fn look_on(
    tables: &CanonicalTables<'_>,
    words: Words<'_>,
    are_letters_own: bool,
    looked: Looked,
    end: u32,
) -> Result<Looked, char>
    requires accepted { IsAccepted (lists_of tables.now) }
    requires letters { are_letters_own ≡ true → AreLettersOwn (word_lists words) }
    requires order { looked.code < end }
    requires bound { end ≤ 0x110000 }
    requires run { IsCommonRun tables.now words looked.code end }
    requires below { AreFaultsBelow (lists_of tables.now) (word_lists words) looked.code looked.faults }
    ensures after { IfOk result (λ further. looked.code < further.code) }
    ensures to { IfOk result (λ further. further.code ≤ end) }
    ensures below { MatchResult result
        (λ further. AreFaultsBelow (lists_of tables.now) (word_lists words.entry) further.code further.faults)
        (IsLeastOffender (OffendsWord (lists_of tables.now) (word_lists words.entry))) }
{
    let Looked { code, faults } = looked;
    let passed = harmless_end(tables, words, are_letters_own, code, end);
    if code < passed {
        return Ok(Looked {
            code: passed,
            faults,
        });
    }
    match with_code(tables, words, code, faults) {
        Ok(further) => Ok(Looked {
            code: code + 1,
            faults: further,
        }),
        Err(c) => Err(c),
    }
}

/// Looks at the code points of a run. The least character with a bad word, if one is among them.
fn look_over(
    tables: &CanonicalTables<'_>,
    words: Words<'_>,
    are_letters_own: bool,
    looked: Looked,
    end: u32,
) -> Result<Looked, char>
    requires accepted { IsAccepted (lists_of tables.now) }
    requires letters { are_letters_own ≡ true → AreLettersOwn (word_lists words) }
    requires order { looked.code < end }
    requires bound { end ≤ 0x110000 }
    requires run { IsCommonRun tables.now words looked.code end }
    requires below { AreFaultsBelow (lists_of tables.now) (word_lists words) looked.code looked.faults }
    ensures to { IfOk result (λ further. further.code ≡ end) }
    ensures below { MatchResult result
        (λ further. AreFaultsBelow (lists_of tables.now) (word_lists words.entry) further.code further.faults)
        (IsLeastOffender (OffendsWord (lists_of tables.now) (word_lists words.entry))) }
{
    let mut next = looked;
    while next.code < end {
        match look_on(tables, words, are_letters_own, next, end) {
            Ok(further) => next = further,
            Err(c) => return Err(c),
        }
    }
    Ok(next)
}

/// The least character of each kind of fault among all code points; the least character with a bad word, if there is
/// one. Code points that both tries have one word for are asked as one where nothing can be wrong with them.
pub(super) fn faults_of(tables: &CanonicalTables<'_>, words: Words<'_>) -> Result<Faults, char>
    requires { IsAccepted (lists_of tables.now) }
    ensures { MatchResult result
        (AreFaultsBelow (lists_of tables.now) (word_lists words.entry) 0x110000)
        (IsLeastOffender (OffendsWord (lists_of tables.now) (word_lists words.entry))) }
{
    let is_known = are_letters_own(words);
    let mut looked = Looked {
        code: 0,
        faults: Faults {
            full_list: None,
            built_in: None,
        },
    };
    while looked.code < 0x11_0000 {
        let end = common_end(tables, words, looked.code);
        match look_over(tables, words, is_known, looked, end) {
            Ok(further) => looked = further,
            Err(c) => return Err(c),
        }
    }
    Ok(looked.faults)
}
