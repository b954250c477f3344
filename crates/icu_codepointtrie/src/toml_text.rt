//! Tries as TOML: the text of a table of the header's fields, `index` and `data`.
ghost use Rattle.std.specs.Prelude.{◌≡◌};
ghost use Rattle.icu_codepointtrie.specs.declared.toml_text.CodePointTrieTomlError.TheVariants.{Trie, Memory};

use super::trie::CodePointTrieError;
use std::alloc::AllocError;
use thiserror::Error;

mod read;
mod write;

/// Why a text is not read as a trie.
#[derive(Clone, Copy, Debug, PartialEq, Eq, Error)]
pub enum CodePointTrieTomlError {
    /// The text is not TOML, or a field is missing, of another kind or out of its range.
    #[error("no TOML table of a code point trie")]
    FromDeserialized,
    /// The tables are not those of a trie.
    #[error(transparent)]
    Trie(CodePointTrieError),
    /// Memory was refused.
    #[error("out of memory")]
    Memory,
}

impl From<AllocError> for CodePointTrieTomlError {
    ghost from_gives = { λ _ error. error ≡ Memory };

    fn from(_refused: AllocError) -> CodePointTrieTomlError {
        CodePointTrieTomlError::Memory
    }
}

impl From<CodePointTrieError> for CodePointTrieTomlError {
    ghost from_gives = { λ fault error. error ≡ Trie fault };

    fn from(fault: CodePointTrieError) -> CodePointTrieTomlError {
        CodePointTrieTomlError::Trie(fault)
    }
}
