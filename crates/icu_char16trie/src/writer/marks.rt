//! How many units there were.
ghost use Rattle.std.specs.Prelude.{◌≡◌, ◌≢◌, [], ◌∷◌, OnOk};

use std::alloc::{AllocError, Global};
use std::marker::Model;

/// Numbers of units, the last noted first.
#[derive(Drop)]
pub(super) struct Marks {
    marks: Vec<usize>,
}

impl Model for Marks {
    ghost use Rattle.std.specs.Prelude.{ℕ, List, reverse};

    ghost Value = { List ℕ };

    ghost view = { λ inside. reverse inside.marks.items };
}

impl Marks {
    /// Nothing noted.
    pub(super) fn new(alloc: Global) -> Marks
        ensures { result ≡ [] }
    {
        Marks {
            marks: Vec::new(alloc),
        }
    }

    /// Notes a number of units.
    pub(super) fn put(&mut self, mark: usize) -> Result<(), AllocError>
        ensures { OnOk result (self.new ≡ mark ∷ self.old) }
    {
        self.marks.push(mark)?;
        Ok(())
    }

    /// The number that was noted last.
    pub(super) fn take(&mut self) -> usize
        requires { self.old ≢ [] }
        ensures { self.old ≡ result ∷ self.new }
    {
        self.marks.pop().unwrap()
    }
}
