//! What lines record: for a text after a prefix, and which of them count.

ghost use Rattle.std.specs.Prelude.{◌≡◌, map, IfOk};
ghost use Rattle.icu_collator_core.specs.ContextRules.{is_recorded_in};
ghost use Rattle.collate_lines.specs.Record.{layer_of, said, root as of_root, tailoring as of_tailoring};
ghost use Rattle.collate_rules.specs.Meaning.{weights_of};
ghost use Rattle.collate_rules.specs.RecordedTexts.{HasTexts};
ghost use Rattle.collate_rules.specs.RecordRules.{begins_with, is_alone, is_given, is_replaced};

use crate::texts::Texts;
use collate_lines::record::{Layer, Record};
use std::alloc::{AllocError, Global};

/// The texts that lines record, each after its prefix, noted to be looked up.
pub struct Recorded<'r> {
    pub lines: &'r [Record],
    alloc: Global,
    root: Texts,
    tailoring: Texts,
    ghost has_root: { HasTexts of_root root (map said lines.now) },
    ghost has_tailoring: { HasTexts of_tailoring tailoring (map said lines.now) },
}

// (let go of as one, and not part by part, so that what owns one is proved sooner)
impl Drop for Recorded<'_> {
    fn drop(self) {
        let Recorded {
            lines: _,
            alloc: _,
            root: _,
            tailoring: _,
        } = self;
    }
}

impl<'r> Recorded<'r> {
    /// What these lines record. Fails only if memory is refused.
    pub fn new(alloc: Global, lines: &'r [Record]) -> Result<Recorded<'r>, AllocError>
        ensures { IfOk result (λ noted. noted.lines.now ≡ lines.now) }
    {
        let root = Texts::of_layer(alloc, Layer::Root, lines)?;
        let tailoring = Texts::of_layer(alloc, Layer::Tailoring, lines)?;
        Ok(Recorded {
            lines,
            alloc,
            root,
            tailoring,
        })
    }

    /// Whether lines of a layer record a text after a prefix. Fails only if memory is refused.
    fn is_given(&self, layer: Layer, prefix: &[char], text: &[char]) -> Result<bool, AllocError>
        ensures { IfOk result (λ yes. yes ≡ is_given (layer_of layer) prefix.now text.now (map said self.now.lines.now)) }
    {
        let yes = match layer {
            Layer::Root => self.root.contains(self.alloc, prefix, text)?,
            Layer::Tailoring => self.tailoring.contains(self.alloc, prefix, text)?,
        };
        Ok(yes)
    }

    /// Whether lines record a text after a prefix, in either layer. Fails only if memory is refused.
    pub fn is_recorded(&self, prefix: &[char], text: &[char]) -> Result<bool, AllocError>
        ensures { IfOk result (λ yes. yes ≡ is_recorded_in (weights_of (map said self.now.lines.now)) prefix.now text.now) }
    {
        let is_tailored = self.is_given(Layer::Tailoring, prefix, text)?;
        if is_tailored {
            return Ok(true);
        }
        let is_of_root = self.is_given(Layer::Root, prefix, text)?;
        Ok(is_of_root)
    }

    /// Whether a record of the tailoring replaces that of a line of a layer. Fails only if memory is refused.
    pub fn is_replaced(
        &self,
        layer: Layer,
        prefix: &[char],
        text: &[char],
    ) -> Result<bool, AllocError>
        ensures { IfOk result (λ yes. yes ≡ is_replaced (map said self.now.lines.now) (layer_of layer) prefix.now text.now) }
    {
        match layer {
            Layer::Root => self.is_given(Layer::Tailoring, prefix, text),
            Layer::Tailoring => Ok(false),
        }
    }
}

/// Whether a record stands without prefix for one character.
pub fn is_alone(prefix: &[char], text: &[char]) -> bool
    ensures { result ≡ is_alone prefix.now text.now }
{
    prefix.is_empty() && text.len() == 1
}

/// Whether a text begins with a character.
pub fn begins_with(c: char, text: &[char]) -> bool
    ensures { result ≡ begins_with c text.now }
{
    match text.first() {
        Some(first) => c == *first,
        None => false,
    }
}
