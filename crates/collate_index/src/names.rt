//! A walk over the names of an index, in order.

ghost use Rattle.std.specs.Iterator.{YieldsFirstRef, item_count};

use crate::index::Index;
use std::marker::Model;

/// The names of an index in order, from the first to the last.
#[derive(Drop)]
pub struct Names<'a> {
    pub(crate) index: &'a Index,
    pub(crate) next: usize,
}

impl<'a> Model for Names<'a> {
    ghost use Rattle.std.specs.Prelude.{List, ℕ};

    ghost Value = { List (List ℕ) };

    ghost use Rattle.collate_index.specs.Listing.{names_left};

    ghost view = { names_left };
}

impl<'a> Iterator for Names<'a> {
    type Item = &'a [u8];

    ghost next_gives = { YieldsFirstRef (λ rest. rest) };

    ghost remaining = { item_count (λ rest. rest) };

    fn next(&mut self) -> Option<&'a [u8]> {
        if self.next >= self.index.len() {
            return None;
        }
        let name = self.index.get(self.next);
        self.next += 1;
        name
    }
}
