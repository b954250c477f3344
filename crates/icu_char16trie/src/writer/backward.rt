//! Units that are written from the last to the first, and the numbers among them.
ghost use Rattle.std.specs.Prelude.{◌≡◌, ◌+◌, ◌/◌, ◌^◌, ◌<◌, ◌≤◌, [], ◌∷◌, ◌++◌, OnOk, length, List, ℕ, reverse};
ghost use Rattle.icu_char16trie.specs.UnitNumberForms.{two_unit_form, number_form, intermediate_form, delta_form};

use std::alloc::{AllocError, Global};
use std::marker::Model;

/// Units that grow at their front.
#[derive(Drop)]
pub(super) struct Backward {
    units: Vec<u16>,
}

impl Model for Backward {
    ghost use Rattle.std.specs.Prelude.{ℕ, List, reverse};

    ghost Value = { List ℕ };

    ghost view = { λ inside. reverse inside.units.items };
}

impl Backward {
    /// No units yet.
    pub(super) fn new(alloc: Global) -> Backward
        ensures { result ≡ [] }
    {
        Backward {
            units: Vec::new(alloc),
        }
    }

    /// How many units there are.
    pub(super) fn len(&self) -> usize
        ensures { result ≡ length self.now }
    {
        self.units.len()
    }

    /// A unit more, in front of the others.
    pub(super) fn put(&mut self, unit: u16) -> Result<(), AllocError>
        ensures { OnOk result (self.new ≡ unit ∷ self.old) }
    {
        self.units.push(unit)?;
        Ok(())
    }

    /// Units more, in front of the others.
    pub(super) fn put_all(&mut self, units: &[u16]) -> Result<(), AllocError>
        ensures { OnOk result (self.new ≡ units.now ++ self.old) }
    {
        for index in 0..units.len() {
            self.put(units[units.len() - 1 - index])?;
        }
        Ok(())
    }

    /// The units from the first to the last.
    pub(super) fn into_units(self) -> Vec<u16>
        ensures { result.items ≡ self }
    {
        let mut units = self.units;
        units.reverse();
        units
    }

    /// The lower and the upper half of a number, the upper one added to a lead.
    fn put_two(&mut self, lead: u16, number: u32) -> Result<(), AllocError>
        requires { lead + number / 2 ^ 16 < 2 ^ 16 }
        ensures { OnOk result (self.new ≡ two_unit_form lead number ++ self.old) }
    {
        self.put((number % 0x1_0000) as u16)?;
        self.put(lead + (number >> 16) as u16)
    }

    /// A jump, where the highest bit is 0, or a value, where it is 8000.
    fn put_number(&mut self, highest: u16, number: u32) -> Result<(), AllocError>
        requires { highest ≤ 0x8000 }
        ensures { OnOk result (self.new ≡ number_form highest number ++ self.old) }
    {
        if number < 0x4000 {
            self.put(highest + number as u16)
        } else if number < 0x3fff_0000 {
            self.put_two(highest + 0x4000, number)
        } else {
            self.put_two(0, number)?;
            self.put(highest + 0x7fff)
        }
    }

    /// How far it is to a node, from the end of the number.
    pub(super) fn put_jump(&mut self, distance: u32) -> Result<(), AllocError>
        ensures { OnOk result (self.new ≡ number_form 0 distance ++ self.old) }
    {
        self.put_number(0, distance)
    }

    /// The value of a key with which no longer key begins.
    pub(super) fn put_final(&mut self, number: u32) -> Result<(), AllocError>
        ensures { OnOk result (self.new ≡ number_form 0x8000 number ++ self.old) }
    {
        self.put_number(0x8000, number)
    }

    /// The value of a key with which longer keys begin, and the type of the node that follows.
    pub(super) fn put_intermediate(&mut self, kind: u16, number: u32) -> Result<(), AllocError>
        requires { kind < 0x40 }
        ensures { OnOk result (self.new ≡ intermediate_form kind number ++ self.old) }
    {
        if number < 0x100 {
            self.put((number as u16 + 1) * 0x40 + kind)
        } else if number < 0xfe_0000 {
            self.put((number % 0x1_0000) as u16)?;
            self.put(((number >> 16) as u16 + 0x101) * 0x40 + kind)
        } else {
            self.put_two(0, number)?;
            self.put(0x7fc0 + kind)
        }
    }

    /// How far it is to the first half of a branch, from the end of the number.
    pub(super) fn put_delta(&mut self, distance: u32) -> Result<(), AllocError>
        ensures { OnOk result (self.new ≡ delta_form distance ++ self.old) }
    {
        if distance < 0xfc00 {
            self.put(distance as u16)
        } else if distance < 0x3ff_0000 {
            self.put_two(0xfc00, distance)
        } else {
            self.put_two(0, distance)?;
            self.put(0xffff)
        }
    }
}
