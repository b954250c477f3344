//! Decomposed characters (NFD, UAX 15).

mod cuts;
mod normalizer;
mod owned;
mod places;
mod writer;

pub use icu_normalizer_core::decomposition::Decomposition;
pub use normalizer::DecomposingNormalizerBorrowed;
pub use owned::DecomposingNormalizer;
