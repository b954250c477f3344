//! Composed characters (NFC, UAX 15).

mod characters;
mod cluster_form;
mod clusters;
mod composer;
mod cuts;
mod lone_mark;
mod mostly_unchanged;
mod normalizer;
mod owned;

pub use characters::Composition;
pub use normalizer::ComposingNormalizerBorrowed;
pub use owned::ComposingNormalizer;
