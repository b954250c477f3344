//! The mapping steps that parts say, to be walked along.

ghost use Rattle.std.specs.Prelude.{◌≡◌, map, IfOk};
ghost use Rattle.collate_rules.specs.CanonicalParts.{in_full, subject_of};

use collate_rules::canonical_parts::CanonicalParts;
use collate_rules::full_list::Mappings;
use icu_normalizer_core::step_order::Steps;
use std::alloc::{AllocError, Global};

/// The steps of some mappings that parts say.
#[derive(Clone, Copy)]
pub(crate) struct PartSteps<'p> {
    pub(crate) parts: &'p CanonicalParts,
    pub(crate) mappings: Mappings,
}

impl Steps for PartSteps<'_> {
    ghost use Rattle.std.specs.Prelude.{map};
    ghost use Rattle.collate_rules.specs.CanonicalParts.{in_full};
    ghost use Rattle.collate_rules.specs.Lists.{steps_by};

    ghost step = { λ steps. steps_by steps.mappings (map in_full steps.parts.now.list.items) };

    fn add_step(&self, character: char, list: &mut Vec<char>) -> Result<(), AllocError> {
        let step = self.mappings.step(self.parts, character);
        list.extend_from_slice(step.characters())
    }
}

/// The characters of which parts say something, in their order. Fails only if memory is refused.
pub(crate) fn subjects(alloc: Global, parts: &CanonicalParts) -> Result<Vec<char>, AllocError>
    ensures { IfOk result (λ subjects. subjects.items ≡ map subject_of parts.now.list.items) }
{
    let mut subjects = Vec::new(alloc);
    for part in &parts.list {
        subjects.push(part.character())?;
    }
    Ok(subjects)
}
