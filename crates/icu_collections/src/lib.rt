//! Maps from code points and from texts, under the names of ICU4X's `icu_collections`. Each module
//! is a crate of its own, passed on here: `icu_codepointtrie` and `icu_char16trie`. Begin with
//! `codepointtrie::CodePointTrieBuilder::new` or `char16trie::write_units`.
#![tactic(auto)]

pub use icu_char16trie as char16trie;
pub use icu_codepointtrie as codepointtrie;
