//! The classes that are given, to be looked up.

ghost use Rattle.std.specs.Prelude.{◌≡◌, ◌==◌, ℕ, Some, None, cond, IfOk, OnOk};
ghost use Rattle.std.specs.BTreeMap.{get};
ghost use Rattle.std.specs.Option.{option_or};
ghost use Rattle.std.specs.Ordering.{nat_cmp};
ghost use Rattle.icu_normalizer_core.specs.CanonicalMaps.{given_class};
ghost use Rattle.icu_normalizer_core.specs.CharacterWords.{class_with};
ghost use Rattle.icu_normalizer_core.specs.FirstClasses.{HasFirstClasses};

use super::given::GivenClass;
use crate::built_in::built_in_class;
use std::alloc::{AllocError, Global};
use std::collections::BTreeMap;

/// Classes that are given, and the first of each character.
pub(super) struct Classes<'g> {
    pub(super) given: &'g [GivenClass],
    firsts: BTreeMap<u32, u8>,
    ghost has_firsts: { HasFirstClasses given.now firsts },
}

// (let go of as one, and not part by part, so that what owns one is proved sooner)
impl Drop for Classes<'_> {
    fn drop(self) {
        let Classes {
            given: _,
            firsts: _,
        } = self;
    }
}

impl<'g> Classes<'g> {
    /// The classes that are given. Fails only if memory is refused.
    pub(super) fn new(alloc: Global, given: &'g [GivenClass]) -> Result<Classes<'g>, AllocError>
        ensures { IfOk result (λ classes. classes.given.now ≡ given.now) }
    {
        let firsts = first_classes(alloc, given)?;
        Ok(Classes { given, firsts })
    }

    /// The class that is given for a character, 0 without one.
    fn given_class(&self, c: u32) -> u8
        ensures { result ≡ given_class self.now.given.now c }
    {
        self.firsts.get(&c).copied().unwrap_or(0)
    }

    /// The class of a character: what is built in, else what is given.
    pub(super) fn class_with(&self, c: u32) -> u8
        ensures { result ≡ class_with self.now.given.now c }
    {
        match built_in_class(c) {
            Some(class) => class,
            None => self.given_class(c),
        }
    }
}

/// Notes a class as the first of its character, unless another one is. Fails only if memory is refused.
fn note_class(firsts: &mut BTreeMap<u32, u8>, given: GivenClass) -> Result<(), AllocError>
    ensures { OnOk result ((c : ℕ) → get nat_cmp firsts.new c ≡ option_or (get nat_cmp firsts.old c) (cond (given.character == c) (Some given.class) None)) }
{
    let c = given.character as u32;
    if firsts.get(&c).is_none() {
        firsts.insert(c, given.class)?;
    }
    Ok(())
}

/// The first class of each character. Fails only if memory is refused.
fn first_classes(alloc: Global, classes: &[GivenClass]) -> Result<BTreeMap<u32, u8>, AllocError>
    ensures { IfOk result (HasFirstClasses classes.now) }
{
    let mut firsts = BTreeMap::new(alloc);
    for given in classes {
        note_class(&mut firsts, *given)?;
    }
    Ok(firsts)
}
