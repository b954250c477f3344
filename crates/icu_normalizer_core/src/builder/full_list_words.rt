//! The words of full lists, and the characters of lists that stand apart from their words.

ghost use Rattle.std.specs.Prelude.{◌≡◌, ◌++◌, ◌+◌, ℕ, ◌^◌, ◌-◌, ◌<◌, ◌≤◌, List, length, false, MatchOption, OnOk, IfOk, All};
ghost use Rattle.std.specs.Char.{IsScalar};
ghost use Rattle.icu_normalizer_core.specs.ListRoom.{is_stated};
ghost use Rattle.icu_normalizer_core.specs.ListWords.{KeepsStating, StatesList, slots_of};

use std::alloc::AllocError;

/// A word names an index below this.
pub(super) const PLACE_LIMIT: usize = 0x3fff;

/// The word of a list that it states by itself, of one character or of two; `None` where the characters have to stand
/// apart.
fn stated_word(list: &[u32]) -> Option<u32>
    requires { All IsScalar list.now }
    ensures { MatchOption result (is_stated list.now ≡ false) (λ word. (scalars16 scalars24 : List ℕ) → StatesList scalars16 scalars24 word list.now) }
{
    match list {
        [a] if 2 <= *a && *a < 0x1_0000 => Some(*a),
        [a, b] if 0x20 <= *a && *a < 0x8000 && 2 <= *b && *b < 0x8000 => Some(*b * 0x8000 + *a),
        _ => None,
    }
}

/// Puts characters after the others. Fails only if memory is refused.
fn append(scalars24: &mut Vec<char>, list: &[u32]) -> Result<(), AllocError>
    requires { All IsScalar list.now }
    ensures { OnOk result (scalars24.new.items ≡ scalars24.old.items ++ list.now) }
{
    for c in list {
        scalars24.push(char::from_u32(*c).unwrap())?;
    }
    Ok(())
}

/// The word of a list, whose characters are put after the others. Fails only if memory is refused.
fn listed_word(scalars24: &mut Vec<char>, base: usize, list: &[u32]) -> Result<u32, AllocError>
    requires scalars { All IsScalar list.now }
    requires some { 0 < length list.now }
    requires few { length list.now ≤ 8 }
    requires room { base + length scalars24.old.items < 2 ^ 14 - 1 }
    ensures grows { OnOk result (scalars24.new.items ≡ scalars24.old.items ++ list.now) }
    ensures states { IfOk result (λ word. (scalars16 : List ℕ) → length scalars16 ≡ base → KeepsStating scalars16 scalars24.new.items word list.now) }
{
    let index = base + scalars24.as_slice().len();
    append(scalars24, list)?;
    let word = (index as u32 + 1) * 0x1_0000 + (list.len() as u32 - 1);
    Ok(word)
}

/// The word of a list of at most eight characters, which are put after the others where the word can't state them by
/// itself. Indices in `scalars24` count from the end of `scalars16`, the base. Fails only if memory is refused.
pub(super) fn list_word(
    scalars24: &mut Vec<char>,
    base: usize,
    list: &[u32],
) -> Result<u32, AllocError>
    requires scalars { All IsScalar list.now }
    requires some { 0 < length list.now }
    requires few { length list.now ≤ 8 }
    requires room { base + length scalars24.old.items < 2 ^ 14 - 1 }
    ensures grows { OnOk result ((more : List ℕ) × (scalars24.new.items ≡ scalars24.old.items ++ more) × (length more ≤ slots_of list.now)) }
    ensures states { IfOk result (λ word. (scalars16 : List ℕ) → length scalars16 ≡ base → KeepsStating scalars16 scalars24.new.items word list.now) }
{
    if let Some(word) = stated_word(list) {
        return Ok(word);
    }
    let word = listed_word(scalars24, base, list)?;
    Ok(word)
}
