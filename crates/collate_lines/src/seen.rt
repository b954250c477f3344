//! The things that lines of a records file were for.

ghost use Rattle.std.specs.Prelude.{◌≡◌, IfOk};

use crate::record::{Layer, Record};
use std::alloc::{AllocError, Global};
use std::collections::{BTreeSet, HashSet};

/// A key of weights: a prefix and a text.
type Key = (Vec<char>, Vec<char>);

/// The things that lines were for: the characters whose class, mapping of one kind or digit they gave, the keys of
/// weights in each layer, the names of settings.
pub struct Seen {
    classes: BTreeSet<char>,
    mappings: BTreeSet<char>,
    compatibilities: BTreeSet<char>,
    digits: BTreeSet<char>,
    root: BTreeSet<Key>,
    tailoring: BTreeSet<Key>,
    settings: HashSet<&'static str>,
}

// (let go of as one, and not part by part, so that what owns one is proved sooner)
impl Drop for Seen {
    fn drop(self) {
        let Seen {
            classes: _,
            mappings: _,
            compatibilities: _,
            digits: _,
            root: _,
            tailoring: _,
            settings: _,
        } = self;
    }
}

impl Seen {
    ghost use Rattle.std.specs.Prelude.{◌||◌, false, not, OnOk};
    ghost use Rattle.collate_lines.specs.Repeats.{is_second};
    ghost use Rattle.collate_lines.specs.Record.{Record as Said, said};
    ghost use Rattle.collate_lines.specs.Seen.{is_seen};

    /// Nothing is seen yet.
    pub fn new(alloc: Global) -> Seen
        ensures { (given : Said) → is_seen result given ≡ false }
    {
        Seen {
            classes: BTreeSet::new(alloc),
            mappings: BTreeSet::new(alloc),
            compatibilities: BTreeSet::new(alloc),
            digits: BTreeSet::new(alloc),
            root: BTreeSet::new(alloc),
            tailoring: BTreeSet::new(alloc),
            settings: HashSet::new(alloc),
        }
    }

    /// Sees what a line is for, and answers whether no earlier line was for it; a line that says nothing is for nothing,
    /// nor is a range.
    ///
    /// Errors: `AllocError` where memory is refused.
    pub fn insert(&mut self, given: &Record) -> Result<bool, AllocError>
        ensures new { IfOk result (λ is_new. is_new ≡ not (is_seen self.old (said given.now))) }
        ensures seen { OnOk result ((other : Said) → is_seen self.new other ≡ (is_seen self.old other || is_second (said given.now) other)) }
    {
        Ok(match given {
            Record::Nothing | Record::Range(_) => true,
            Record::Class { character, .. } => self.classes.insert(*character)?,
            Record::Map { character, .. } => self.mappings.insert(*character)?,
            Record::Kmap { character, .. } => self.compatibilities.insert(*character)?,
            Record::Weights {
                layer,
                prefix,
                text,
                ..
            } => {
                let key = key_of(prefix, text)?;
                match layer {
                    Layer::Root => self.root.insert(key)?,
                    Layer::Tailoring => self.tailoring.insert(key)?,
                }
            }
            Record::Digit { character, .. } => self.digits.insert(*character)?,
            Record::Set(setting) => self.settings.insert(setting.name())?,
        })
    }
}

/// A prefix and a text, as a key. `AllocError` where memory is refused.
fn key_of(prefix: &Vec<char>, text: &Vec<char>) -> Result<Key, AllocError>
    ensures { IfOk result (λ key. (key.0.items ≡ prefix.now.items) × (key.1.items ≡ text.now.items)) }
{
    let prefix = Vec::from_slice(*prefix.allocator(), prefix)?;
    let text = Vec::from_slice(*text.allocator(), text)?;
    Ok((prefix, text))
}
