//! Lists put in order, and as they are written.

ghost use Rattle.std.specs.Prelude.{◌≡◌, ◌<◌, ◌++◌, ◌∷◌, ℕ, [], List, OnErr, OnOk, slice_get, Some};
ghost use Rattle.std.specs.Io.KnownBytes.{Appends};
ghost use Rattle.hex.specs.Hex.{encode_lower};
ghost use Rattle.collate_sort.specs.Orders.{Line};
ghost use Rattle.sort_names.specs.Texts.{key_before, sorted, text_of, written};

use collate_sort::list::LineList;
use hex::encode;
use std::alloc::{AllocError, AllocFailed, Global};
use std::io::{self, Write};

/// How many bytes are gathered before they are written.
const GATHERED: usize = 65_536;

/// Why lines weren't all written.
#[derive(Debug, Drop)]
pub enum WriteFault {
    /// Memory was refused.
    Memory,
    /// A write failed.
    Write(io::Error),
}

impl From<io::Error> for WriteFault {
    fn from(error: io::Error) -> WriteFault {
        WriteFault::Write(error)
    }
}

impl From<AllocError> for WriteFault {
    fn from(_: AllocError) -> WriteFault {
        WriteFault::Memory
    }
}

impl<T: Drop> From<AllocFailed<T>> for WriteFault {
    fn from(_: AllocFailed<T>) -> WriteFault {
        WriteFault::Memory
    }
}

/// Puts the lines of a list in order, equal ones as they stood, or keeps of these the first alone.
///
/// Errors: `AllocError` where memory is refused; the list is then as before.
pub fn sort_list(list: &mut LineList<'_>, unique: bool) -> Result<(), AllocError>
    ensures sorted { OnOk result (list.new ≡ record list.old { lines = sorted unique list.old.rule list.old.lines }) }
    ensures unchanged { OnErr result (list.new ≡ list.old) }
{
    if unique {
        list.sort_unique()
    } else {
        list.sort()
    }
}

/// Adds a key to a text, in hexadecimal digits, and a TAB.
fn add_key(alloc: Global, text: &mut Vec<u8>, key: &[u8]) -> Result<(), AllocError>
    ensures { OnOk result (text.new.items ≡ text.old.items ++ (encode_lower key.now ++ 9 ∷ [])) }
{
    let digits = encode(alloc, key)?;
    text.extend_from_slice(digits.as_bytes())?;
    text.push(b'\t')?;
    Ok(())
}

/// Adds what stands before the line at an index: its key, where keys are asked for.
fn add_front(
    alloc: Global,
    text: &mut Vec<u8>,
    list: &LineList<'_>,
    index: usize,
    keys: bool,
) -> Result<(), AllocError>
    ensures { (line : Line) → slice_get list.now.lines index ≡ Some line → OnOk result (text.new.items ≡ text.old.items ++ key_before keys list.now.rule line) }
{
    if !keys {
        return Ok(());
    }
    match list.key(index) {
        Some(key) => add_key(alloc, text, key),
        None => Ok(()),
    }
}

/// Adds a line and the byte that ends it to a text.
fn add_ended(text: &mut Vec<u8>, line: &[u8], end: u8) -> Result<(), AllocError>
    ensures { OnOk result (text.new.items ≡ text.old.items ++ (line.now ++ end ∷ [])) }
{
    text.extend_from_slice(line)?;
    text.push(end)?;
    Ok(())
}

/// Adds the line at an index to a text, as it is written.
fn add_line(
    alloc: Global,
    text: &mut Vec<u8>,
    list: &LineList<'_>,
    index: usize,
    end: u8,
    keys: bool,
) -> Result<(), AllocError>
    ensures { (line : Line) → slice_get list.now.lines index ≡ Some line → OnOk result (text.new.items ≡ text.old.items ++ written end keys list.now.rule line) }
{
    add_front(alloc, text, list, index, keys)?;
    match list.get(index) {
        Some(line) => add_ended(text, line, end),
        None => Ok(()),
    }
}

/// Writes what is gathered, once it is much.
///
/// Errors: those of the writer; a first part may then be written.
fn send_much<W: Write>(writer: &mut W, gathered: &mut Vec<u8>) -> io::Result<()>
    ensures { OnOk result ((sent : List ℕ) × Appends (W.contents writer.old) (W.contents writer.new) sent × (sent ++ gathered.new.items ≡ gathered.old.items)) }
{
    if gathered.len() < GATHERED {
        return Ok(());
    }
    writer.write_all(gathered)?;
    gathered.clear();
    Ok(())
}

/// Writes the lines of a list as they stand, each with the byte that ends it, and after its key where keys are asked for.
///
/// Errors: memory is refused, or a write fails; a first part may then be written.
pub fn write_lines<W: Write>(
    alloc: Global,
    writer: &mut W,
    list: &LineList<'_>,
    end: u8,
    keys: bool,
) -> Result<(), WriteFault>
    ensures { OnOk result (Appends (W.contents writer.old) (W.contents writer.new) (text_of end keys list.now)) }
{
    let mut gathered = Vec::new(alloc);
    for index in 0..list.len() {
        add_line(alloc, &mut gathered, list, index, end, keys)?;
        send_much(writer, &mut gathered)?;
    }
    writer.write_all(&gathered)?;
    Ok(())
}

/// Writes a text, and after it the lines of a list, as `write_lines` does.
///
/// Errors: those of `write_lines`.
pub fn write_behind<W: Write>(
    alloc: Global,
    writer: &mut W,
    front: &[u8],
    list: &LineList<'_>,
    end: u8,
    keys: bool,
) -> Result<(), WriteFault>
    ensures { OnOk result (Appends (W.contents writer.old) (W.contents writer.new) (front.now ++ text_of end keys list.now)) }
{
    writer.write_all(front)?;
    write_lines(alloc, writer, list, end, keys)?;
    Ok(())
}
