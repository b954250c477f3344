//! The texts that lines of a layer record, each after its prefix, noted to be looked up.

ghost use Rattle.std.specs.Prelude.{◌≡◌, ◌&&◌, ◌||◌, ◌++◌, ◌∷◌, ℕ, [], List, map, bytes_eq, IfOk, OnOk};
ghost use Rattle.collate_lines.specs.Record.{Record as PlainRecord, is_same_layer, layer_of, said};
ghost use Rattle.collate_rules.specs.RecordedTexts.{HasTexts, has_key, has_text, lone_of};

use crate::noted::put;
use collate_lines::record::{Layer, Record};
use std::alloc::{AllocError, Global};
use std::collections::BTreeSet;

/// A prefix and a text.
type Key = (Vec<char>, Vec<char>);

/// Texts: those of one character without prefix, and the others, each after its prefix.
pub(crate) struct Texts {
    alone: BTreeSet<char>,
    beside: BTreeSet<Key>,
}

// (let go of as one, and not part by part, so that what owns one is proved sooner)
impl Drop for Texts {
    fn drop(self) {
        let Texts {
            alone: _,
            beside: _,
        } = self;
    }
}

impl Texts {
    /// The texts that lines of a layer record. Fails only if memory is refused.
    pub(crate) fn of_layer(
        alloc: Global,
        layer: Layer,
        lines: &[Record],
    ) -> Result<Texts, AllocError>
        ensures { IfOk result (λ texts. HasTexts (layer_of layer) texts (map said lines.now)) }
    {
        let mut texts = Texts {
            alone: BTreeSet::new(alloc),
            beside: BTreeSet::new(alloc),
        };
        for line in lines {
            texts.note(alloc, layer, line)?;
        }
        Ok(texts)
    }

    /// Whether a text after a prefix is one of these. Fails only if memory is refused.
    pub(crate) fn contains(
        &self,
        alloc: Global,
        prefix: &[char],
        text: &[char],
    ) -> Result<bool, AllocError>
        ensures { IfOk result (λ yes. yes ≡ has_text self.now prefix.now text.now) }
    {
        match lone_of(prefix, text) {
            Some(c) => Ok(self.alone.contains(&c)),
            None => {
                let key = key_of(alloc, prefix, text)?;
                Ok(self.beside.contains(&key))
            }
        }
    }

    /// Notes the text of one more line, if it is of a layer.
    fn note(&mut self, alloc: Global, layer: Layer, line: &Record) -> Result<(), AllocError>
        ensures { (lines : List PlainRecord) → HasTexts (layer_of layer) self.old lines → OnOk result (HasTexts (layer_of layer) self.new (lines ++ said line.now ∷ [])) }
    {
        match line {
            Record::Weights {
                layer: other,
                prefix,
                text,
                ..
            } if is_same_layer(layer, *other) => self.put(alloc, prefix, text),
            _ => Ok(()),
        }
    }

    /// Notes a text after a prefix.
    fn put(&mut self, alloc: Global, prefix: &[char], text: &[char]) -> Result<(), AllocError>
        ensures { OnOk result ((p t : List ℕ) → has_text self.new p t ≡ (has_text self.old p t || (bytes_eq p prefix.now && bytes_eq t text.now))) }
    {
        match lone_of(prefix, text) {
            Some(c) => {
                put(&mut self.alone, c)?;
                Ok(())
            }
            None => {
                put_key(alloc, &mut self.beside, prefix, text)?;
                Ok(())
            }
        }
    }
}

/// Notes a prefix and a text.
fn put_key(
    alloc: Global,
    keys: &mut BTreeSet<Key>,
    prefix: &[char],
    text: &[char],
) -> Result<(), AllocError>
    ensures { OnOk result ((p t : List ℕ) → has_key keys.new p t ≡ (has_key keys.old p t || (bytes_eq p prefix.now && bytes_eq t text.now))) }
{
    let key = key_of(alloc, prefix, text)?;
    keys.insert(key)?;
    Ok(())
}

/// The one character of a text that has no other, and no prefix.
fn lone_of(prefix: &[char], text: &[char]) -> Option<char>
    ensures { result ≡ lone_of prefix.now text.now }
{
    match (prefix, text) {
        ([], [c]) => Some(*c),
        _ => None,
    }
}

/// A prefix and a text, as a key. Fails only if memory is refused.
fn key_of(alloc: Global, prefix: &[char], text: &[char]) -> Result<Key, AllocError>
    ensures { IfOk result (λ key. (key.0.items ≡ prefix.now) × (key.1.items ≡ text.now)) }
{
    let prefix = Vec::from_slice(alloc, prefix)?;
    let text = Vec::from_slice(alloc, text)?;
    Ok((prefix, text))
}

/// Whether two layers are the same.
fn is_same_layer(a: Layer, b: Layer) -> bool
    ensures { result ≡ is_same_layer (layer_of a) (layer_of b) }
{
    match (a, b) {
        (Layer::Root, Layer::Root) => true,
        (Layer::Tailoring, Layer::Tailoring) => true,
        _ => false,
    }
}
