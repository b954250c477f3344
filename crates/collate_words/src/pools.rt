//! The lists that words name indices in, as they grow.

ghost use Rattle.std.specs.Prelude.{◌≡◌, ◌^◌, ◌+◌, ◌*◌, ◌<◌, []};

use std::alloc::Global;
use std::marker::Model;

/// The lists that words name indices in. A contract sees them as lists of numbers.
#[derive(Drop)]
pub struct Pools {
    /// Elements of 64 bits, and what moves the primaries of ranges.
    pub(crate) ces: Vec<u64>,
    /// Words.
    pub(crate) ce32s: Vec<u32>,
    /// Contexts, each a default word of two units and a unit trie.
    pub(crate) contexts: Vec<u16>,
}

impl Model for Pools {
    ghost use Rattle.icu_collator_core.specs.Pools.{Pools as Lists};

    ghost Value = { Lists };

    ghost view = { λ inside. record {
      ces = inside.ces.items;
      ce32s = inside.ce32s.items;
      contexts = inside.contexts.items;
    } };
}

impl Pools {
    /// Lists with nothing in them.
    pub fn new(alloc: Global) -> Pools
        ensures { result ≡ record { ces = []; ce32s = []; contexts = [] } }
    {
        Pools {
            ces: Vec::new(alloc),
            ce32s: Vec::new(alloc),
            contexts: Vec::new(alloc),
        }
    }

    /// Elements of 64 bits, words, and contexts.
    pub fn into_lists(self) -> (Vec<u64>, Vec<u32>, Vec<u16>)
        ensures ces { result.0.items ≡ self.ces }
        ensures ce32s { result.1.items ≡ self.ce32s }
        ensures contexts { result.2.items ≡ self.contexts }
    {
        let Pools {
            ces,
            ce32s,
            contexts,
        } = self;
        (ces, ce32s, contexts)
    }
}

/// The word that names an index in a list, with what stands below the index.
pub(crate) fn naming(index: usize, fields: u32) -> u32
    requires room { index < 2 ^ 19 }
    requires low { fields < 2 ^ 13 }
    ensures { result ≡ index * 2 ^ 13 + fields }
{
    ((index as u32) << 13) + fields
}
