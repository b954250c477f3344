//! How lines compare, by a records file.

ghost use Rattle.std.specs.Prelude.{◌≡◌, ◌++◌, IfOk, OnOk};
ghost use Rattle.collate_rules.specs.Accepted.{AreAccepted};
ghost use Rattle.collate_sort.specs.Keys.{key_by_rule};
ghost use Rattle.collate_sort.specs.Orders.{rule_of};

use crate::Direction;
use collate_index::collators::collator_of;
use collate_records::records::Records;
use icu_collator::Collator;
use icu_collator_types::options::{CollatorOptions, CollatorPreferences};
use std::alloc::{AllocError, Global};
use std::marker::Model;

/// How lines compare: by the records of a file, preferences and options, the least or the greatest first.
pub struct LineOrder {
    alloc: Global,
    records: Records,
    collator: Collator<'static>,
    direction: Direction,
}

// (let go of as one, and not part by part, so that what owns one is proved sooner)
impl Drop for LineOrder {
    fn drop(self) {
        let LineOrder {
            alloc: _,
            records: _,
            collator: _,
            direction: _,
        } = self;
    }
}

impl Model for LineOrder {
    ghost use Rattle.collate_sort.specs.Orders.{LineRule};

    ghost Value = { LineRule };

    ghost use Rattle.collate_sort.specs.KeptOrders.{IsKept, rule_inside};

    ghost view = { rule_inside };

    ghost invariant = { IsKept };
}

impl LineOrder {
    /// The order of a records file; what preferences and options leave open the file's settings decide.
    ///
    /// Errors: `AllocError` where memory is refused, and for nothing else.
    pub fn new(
        alloc: Global,
        records: Records,
        preferences: &CollatorPreferences<'_>,
        options: &CollatorOptions,
        direction: Direction,
    ) -> Result<LineOrder, AllocError>
        ensures { IfOk result (λ order. order ≡ rule_of records options.now preferences.now direction) }
    {
        records.keep_rules();
        let collator = collator_of(alloc, &records, *preferences, *options)?;
        Ok(LineOrder {
            alloc,
            records,
            collator,
            direction,
        })
    }

    /// The records.
    pub fn records(&self) -> &Records
        ensures { result.now ≡ self.now.records }
    {
        &self.records
    }

    /// Which end of the order comes first.
    pub fn direction(&self) -> Direction
        ensures { result ≡ self.now.direction }
    {
        self.direction
    }

    /// The lines of the records keep the rules: it does nothing, and its contract says so.
    pub fn keep_rules(&self)
        ensures { AreAccepted self.now.records.lines }
    {
        let _ = &self.records;
    }

    /// Writes the key of a text after what a list holds: texts compare as their keys do, byte by byte, before the direction
    /// turns them. Bytes that are no character count as U+FFFD, one for each maximal subpart.
    ///
    /// Errors: `AllocError` where memory is refused; the list may then hold a first part of the key.
    pub fn write_key(&self, text: &[u8], key: &mut Vec<u8>) -> Result<(), AllocError>
        ensures { OnOk result (key.new.items ≡ key.old.items ++ key_by_rule self.now text.now) }
    {
        let collator = self.collator.as_borrowed();
        match collator.write_sort_key_utf8_to(self.alloc, text, key) {
            Ok(()) => Ok(()),
            Err(_) => Err(AllocError),
        }
    }
}
