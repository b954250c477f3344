//! The code points of which tables say something or something is built in: no other can be at fault.

ghost use Rattle.std.specs.Prelude.{◌≡◌, ◌≢◌, ◌+◌, ◌*◌, ◌^◌, ◌<◌, ◌≤◌, ℕ, true, false, length, slice_index, None, MatchOption, IfOk};
ghost use Rattle.icu_normalizer_core.specs.BuiltIn.{is_syllable};
ghost use Rattle.std.specs.Char.{IsScalar};
ghost use Rattle.icu_normalizer_core.specs.CanonicalMeaning.{lists_of};
ghost use Rattle.icu_normalizer_core.specs.Plain.{IsNothingBuiltIn, IsIn, IsRun, Rises, Tells, AreSilent, AreUntold, TellsBelow};

use crate::canonical::canonical_words::PLAIN_WORD;
use crate::canonical::tables::CanonicalTables;
use icu_packed_vector::PackedVec;
use std::alloc::{AllocError, Global};

/// The end of the code points from this one on of which nothing is built in, all from U+0300 on, as far as these are
/// known; the code point itself where it is none of them.
#[tactic(auto, using(crate::proofs::built::GapFacts::nothing_none))]
fn end_of_nothing(code: u32) -> u32
    requires { code < 0x110000 }
    ensures from { code ≤ result }
    ensures to { result ≤ 0x110000 }
    ensures nothing { (c : ℕ) → code ≤ c → c < result → IsNothingBuiltIn c }
{
    match code {
        0x345..=0xf70 => 0xf71,
        0xf82..=0x10ff => 0x1100,
        0x1200..=0x3098 => 0x3099,
        0x309b..=0xabff => 0xac00,
        0xd7a4..=0xff9d => 0xff9e,
        0x1_0000..=0x10_ffff => 0x11_0000,
        _ => code,
    }
}

/// The end of the Hangul syllables from this code point on; the code point itself where it is none.
#[tactic(auto, using(crate::proofs::built::GapFacts::syllable_within, crate::proofs::built::GapFacts::syllable_none))]
fn end_of_syllables(code: u32) -> u32
    ensures from { code ≤ result }
    ensures syllables { (c : ℕ) → code ≤ c → c < result → is_syllable c ≡ true }
{
    match code {
        0xac00..=0xd7a3 => 0xd7a4,
        _ => code,
    }
}

/// The end of the code points from this one on that have nothing to be told where their word is this one; the code
/// point itself where it has something.
#[tactic(auto, using(crate::proofs::faults::ToldLemmas::silent_nothing, crate::proofs::faults::ToldLemmas::silent_syllables, crate::proofs::faults::ToldLemmas::silent_none))]
pub(crate) fn end_of_silence(word: u32, code: u32) -> u32
    requires { code < 0x110000 }
    ensures from { code ≤ result }
    ensures silent { AreSilent word code result }
{
    if word == 0 {
        end_of_nothing(code)
    } else if word == 1 {
        end_of_syllables(code)
    } else {
        code
    }
}

/// The word of a code point, without its two uppermost bits.
fn plain_word(tables: &CanonicalTables<'_>, code: u32) -> u32
    ensures { result ≡ (lists_of tables.now).word code }
{
    tables.trie.get32(code) & PLAIN_WORD
}

/// The end of the code points of a run from this one on that have nothing to be told; the code point itself where it
/// has something.
#[tactic(auto, using(crate::proofs::faults::ToldLemmas::untold_none))]
fn untold_end(tables: &CanonicalTables<'_>, code: u32, end: u32) -> u32
    requires order { code < end }
    requires bound { end ≤ 0x110000 }
    requires run { IsRun tables.now code end }
    ensures from { code ≤ result }
    ensures to { result ≤ end }
    ensures untold { AreUntold (lists_of tables.now) code result }
{
    if !tables.trie.has_cell(code) {
        return code;
    }
    end_of_silence(plain_word(tables, code), code).min(end)
}

/// Whether the triple at an index is a code point's.
fn is_listed(steps: &PackedVec<'_, u32>, index: usize, code: u32) -> bool
    ensures inside { result ≡ true → 3 * index + 2 < length steps.now }
    ensures fits { result ≡ true → 3 * index + 2 < 2 ^ 64 }
    ensures key { result ≡ true → slice_index steps.now (3 * index) ≡ code }
    ensures other { result ≡ false → 3 * index + 2 < length steps.now → slice_index steps.now (3 * index) ≢ code }
{
    index < steps.len() / 3 && steps.at(3 * index) == code
}

/// The key of the triple at an index, or the end where that comes first, where there is no triple or its key isn't
/// after the code point.
fn next_key(steps: &PackedVec<'_, u32>, index: usize, code: u32, end: u32) -> u32
    requires { code < end }
    ensures after { code < result }
    ensures to { result ≤ end }
    ensures key { 3 * index + 2 < length steps.now → code < slice_index steps.now (3 * index) → result ≤ slice_index steps.now (3 * index) }
{
    if index >= steps.len() / 3 {
        return end;
    }
    let key = steps.at(3 * index);
    if code < key && key < end { key } else { end }
}

/// How far was told: to before a code point, and to before the triple at an index.
#[derive(Clone, Copy)]
struct Reached {
    code: u32,
    index: usize,
}

/// Tells of the next code point of a run, where there is something to be told of it; passes those of which there is
/// nothing. Fails only if memory is refused.
fn tell_next(
    tables: &CanonicalTables<'_>,
    told: &mut Vec<u32>,
    reached: Reached,
    end: u32,
) -> Result<Reached, AllocError>
    requires order { reached.code < end }
    requires bound { end ≤ 0x110000 }
    requires run { IsRun tables.now reached.code end }
    requires below { TellsBelow (lists_of tables.now) told.old.items reached.code reached.index }
    ensures after { IfOk result (λ further. reached.code < further.code) }
    ensures to { IfOk result (λ further. further.code ≤ end) }
    ensures below { IfOk result (λ further. TellsBelow (lists_of tables.now) told.new.items further.code further.index) }
{
    let Reached { code, index } = reached;
    if is_listed(&tables.steps, index, code) {
        told.push(code)?;
        return Ok(Reached {
            code: code + 1,
            index: index + 1,
        });
    }
    let passed = untold_end(tables, code, next_key(&tables.steps, index, code, end));
    if passed == code {
        told.push(code)?;
        return Ok(Reached {
            code: code + 1,
            index,
        });
    }
    Ok(Reached {
        code: passed,
        index,
    })
}

/// Tells of the code points of a run. Fails only if memory is refused.
fn tell_run(
    tables: &CanonicalTables<'_>,
    told: &mut Vec<u32>,
    reached: Reached,
    end: u32,
) -> Result<Reached, AllocError>
    requires order { reached.code < end }
    requires bound { end ≤ 0x110000 }
    requires run { IsRun tables.now reached.code end }
    requires below { TellsBelow (lists_of tables.now) told.old.items reached.code reached.index }
    ensures to { IfOk result (λ further. further.code ≡ end) }
    ensures below { IfOk result (λ further. TellsBelow (lists_of tables.now) told.new.items further.code further.index) }
{
    let mut next = reached;
    while next.code < end {
        next = tell_next(tables, told, next, end)?;
    }
    Ok(next)
}

/// The code points of which there is something to be told, and those of the triples where these rise. Runs of code
/// points of one word are asked as one. Fails only if memory is refused.
#[tactic(auto, using(crate::proofs::faults::ToldLemmas::tells_none, crate::proofs::faults::ToldLemmas::end_is_run))]
pub(crate) fn told(alloc: Global, tables: &CanonicalTables<'_>) -> Result<Vec<u32>, AllocError>
    ensures { IfOk result (λ told. Tells (lists_of tables.now) told.items) }
{
    let mut told = Vec::new(alloc);
    let mut reached = Reached { code: 0, index: 0 };
    while reached.code < 0x11_0000 {
        let end = tables.trie.cells_end(reached.code);
        reached = tell_run(tables, &mut told, reached, end)?;
    }
    Ok(told)
}

/// The least character of a rising list of which the test says no, `None` where it says yes of each.
pub(super) fn first_refused_of<F: Fn(char) -> bool>(told: &[u32], accepts: F) -> Option<char>
    requires callable { F.IsAlwaysCallable accepts }
    requires rises { Rises told.now }
    ensures { MatchOption result
        ((c : ℕ) → IsScalar c → IsIn told.now c → F.post accepts c true)
        (λ c. IsScalar c × IsIn told.now c × F.post accepts c false × ((d : ℕ) → IsScalar d → IsIn told.now d → d < c → F.post accepts d true)) }
{
    for code in told {
        if let Some(c) = char::from_u32(*code) {
            if !accepts(c) {
                return Some(c);
            }
        }
    }
    None
}
