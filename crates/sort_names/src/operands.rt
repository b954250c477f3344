//! The files that are read, and standard input.

ghost use Rattle.std.specs.Prelude.{◌≡◌, ◌++◌, List, ℕ, IfOk, IfSome, OnOk, map};
ghost use Rattle.std.specs.List.{AllZip};
ghost use Rattle.sort_names.specs.Operands.{Holds};
ghost use Rattle.sort_names.specs.Texts.{listed, with_texts};

use crate::faults::RunFault;
use crate::request::Shape;
use crate::texts::add_lines;
use collate_sort::list::LineList;
use std::alloc::Global;
use std::fs::File;
use std::io::{self, Read};

/// What an operand names: a file, or, as `-`, standard input.
#[derive(Drop)]
pub enum Operand<F: Drop, I: Drop> {
    /// A file.
    File(F),
    /// Standard input.
    Input(I),
}

impl<F: Read + Drop, I: Read + Drop> Read for Operand<F, I> {
    fn read(&mut self, buf: &mut [u8]) -> io::Result<usize> {
        match self {
            Operand::File(file) => file.read(buf),
            Operand::Input(input) => input.read(buf),
        }
    }
}

/// All that a reader gives.
///
/// Errors: a read fails, or memory is refused.
pub fn read_text<'w, F: Read + Drop>(
    alloc: Global,
    path: &'w str,
    mut file: F,
) -> Result<Vec<u8>, RunFault<'w>>
    ensures { IfOk result (λ text. IfSome (F.remaining file) (λ held. text.items ≡ held)) }
{
    let mut text = Vec::new(alloc);
    match file.read_to_end(&mut text) {
        Ok(_) => Ok(text),
        Err(error) => Err(RunFault::Unreadable(path, error)),
    }
}

/// Adds the lines of an operand after those of a list.
///
/// Errors: it can't be opened or read, or memory is refused; the list is of no use then.
fn add_operand<'w, F: Read + Drop, O: Fn(&str) -> io::Result<F>>(
    alloc: Global,
    path: &'w str,
    opener: &O,
    shape: &Shape,
    list: &mut LineList<'_>,
) -> Result<(), RunFault<'w>>
    requires { O.IsAlwaysCallable opener.now }
    ensures { OnOk result ((text : List ℕ) × Holds F.remaining O.Fn opener.now path.now text × (list.new ≡ record list.old { lines = list.old.lines ++ listed shape.now text })) }
{
    match opener(path) {
        Ok(file) => {
            let text = read_text(alloc, path, file)?;
            add_lines(list, shape, &text)?;
            Ok(())
        }
        Err(error) => Err(RunFault::Unreadable(path, error)),
    }
}

/// Adds the lines of all operands, one after another, after those of a list.
///
/// Errors: one can't be opened or read, or memory is refused; the list is of no use then.
pub fn add_operands<'w, F: Read + Drop, O: Fn(&str) -> io::Result<F>>(
    alloc: Global,
    operands: &[&'w str],
    opener: &O,
    shape: &Shape,
    list: &mut LineList<'_>,
) -> Result<(), RunFault<'w>>
    requires { O.IsAlwaysCallable opener.now }
    ensures { OnOk result ((texts : List (List ℕ)) × AllZip (Holds F.remaining O.Fn opener.now) (map (λ path. path.now) operands.now) texts × (list.new ≡ with_texts shape.now list.old texts)) }
{
    for path in operands {
        add_operand(alloc, path, opener, shape, list)?;
    }
    Ok(())
}
