//! What canonical data say of one character or two: classes, mappings, composed pairs.

mod classes;
mod composition;
mod decomposition;
mod shaping;

pub use crate::decomposed::Decomposed;
pub use classes::{CanonicalCombiningClassMap, CanonicalCombiningClassMapBorrowed};
pub use composition::{CanonicalComposition, CanonicalCompositionBorrowed};
pub use decomposition::{CanonicalDecomposition, CanonicalDecompositionBorrowed};
pub use shaping::{combining_class, shape_compose, shape_decompose};
