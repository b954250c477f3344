//! The words of the full lists of mapped characters.

ghost use Rattle.std.specs.Prelude.{◌≡◌, ◌⊎◌, length, IfOk, IfErr};
ghost use Rattle.icu_normalizer_core.specs.declared.builder.given.CanonicalDataBuildError.TheVariants.{Rules, Memory};
ghost use Rattle.icu_normalizer_core.specs.ListWords.{AreLists, HasUnstated, StateSettled};

use super::full_list_words::{PLACE_LIMIT, list_word};
use super::given::CanonicalDataBuildError;
use crate::canonical::check::left::Left;
use std::alloc::Global;

/// Words of full lists, one for each triple, and the characters of those that stand apart.
#[derive(Drop)]
pub(super) struct ListWords {
    pub(super) scalars24: Vec<char>,
    pub(super) words: Vec<u32>,
}

/// The words of the lists that are settled. `Rules` where one isn't settled or has over eight characters, or they take
/// more indices than words name.
pub(super) fn list_words(
    alloc: Global,
    settled: &[Option<Left>],
) -> Result<ListWords, CanonicalDataBuildError>
    requires { AreLists settled.now }
    ensures states { IfOk result (λ lists. StateSettled lists.scalars24.items settled.now lists.words.items (length settled.now)) }
    ensures refused { IfErr result (λ e. (e ≡ Memory) ⊎ ((e ≡ Rules) × HasUnstated settled.now)) }
{
    let mut scalars24 = Vec::new(alloc);
    let mut words = Vec::new(alloc);
    for index in 0..settled.len() {
        let Some(left) = settled[index] else {
            return Err(CanonicalDataBuildError::Rules);
        };
        let list = &left.characters[..left.count];
        if list.len() > 8 {
            return Err(CanonicalDataBuildError::Rules);
        }
        if scalars24.len() >= PLACE_LIMIT {
            return Err(CanonicalDataBuildError::Rules);
        }
        let word = list_word(&mut scalars24, 0, list)?;
        let Ok(()) = words.push(word) else {
            return Err(CanonicalDataBuildError::Memory);
        };
    }
    Ok(ListWords { scalars24, words })
}
