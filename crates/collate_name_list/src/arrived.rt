//! A walk over the names of a list, as they arrived.

ghost use Rattle.std.specs.Iterator.{YieldsFirstBy, item_count};
ghost use Rattle.collate_name_list.specs.Slots.{lent_name};

use crate::index_key::IndexKey;
use crate::slots::Stored;
use std::marker::Model;

/// The names of a list with their keys, as they arrived. A contract sees those that are left.
#[derive(Drop)]
pub struct Arrived<'a> {
    pub(crate) left: &'a [Option<Stored>],
}

impl<'a> Model for Arrived<'a> {
    ghost use Rattle.std.specs.Prelude.{List};
    ghost use Rattle.collate_name_list.specs.StoredNames.{StoredName};

    ghost Value = { List StoredName };

    ghost use Rattle.collate_name_list.specs.Slots.{names_in};

    ghost view = { λ inside. names_in inside.left.now };
}

impl<'a> Iterator for Arrived<'a> {
    type Item = (&'a [u8], &'a IndexKey);

    ghost next_gives = { YieldsFirstBy lent_name (λ left. left) };

    ghost remaining = { item_count (λ left. left) };

    fn next(&mut self) -> Option<(&'a [u8], &'a IndexKey)> {
        while let [slot, later @ ..] = self.left {
            self.left = later;
            if let Some(stored) = slot {
                return Some((stored.bytes.as_slice(), &stored.key));
            }
        }
        None
    }
}
