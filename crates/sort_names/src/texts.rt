//! The lines of texts.

ghost use Rattle.std.specs.Prelude.{◌≡◌, ◌+◌, ◌<◌, ◌≤◌, ◌==◌, ◌++◌, OnOk, drop, length, unwrap_or};
ghost use Rattle.std.specs.Option.{option_copied};
ghost use Rattle.sort_names.specs.Texts.{compared, line_len, listed};

use crate::request::Shape;
use collate_merge::column::Column;
use collate_sort::list::LineList;
use std::alloc::AllocError;

/// How many bytes a text has before a byte.
pub fn len_before(end: u8, text: &[u8]) -> usize
    ensures len { result ≡ line_len end text.now }
    ensures within { result ≤ length text.now }
{
    let mut rest = text;
    let mut passed = 0;
    while let Some((byte, others)) = rest.split_first() {
        if *byte == end {
            return passed;
        }
        passed += 1;
        rest = others;
    }
    passed
}

/// What stands after the first so many bytes of a text and one byte more.
fn behind(text: &[u8], len: usize) -> &[u8]
    requires { len ≤ length text.now }
    ensures { result.now ≡ drop (len + 1) text.now }
{
    if len < text.len() {
        &text[len + 1..]
    } else {
        &[]
    }
}

/// What of a line is compared.
pub fn compared<'l>(shape: &Shape, line: &'l [u8]) -> &'l [u8]
    ensures { result.now ≡ compared shape.now line.now }
{
    shape.part().of(line)
}

/// What of a line is compared, where that may not be all of it.
pub fn part<'l>(shape: &Shape, line: &'l [u8]) -> Option<&'l [u8]>
    ensures { unwrap_or (option_copied result) line.now ≡ compared shape.now line.now }
{
    match shape.column {
        Column::Line if !shape.crlf => None,
        _ => Some(compared(shape, line)),
    }
}

/// Adds the lines of a text after those of a list.
///
/// Errors: `AllocError` where memory is refused; a first part of the lines may then stand in the list.
#[tactic(auto, using(crate::proofs::TextLemmas::add_step, crate::proofs::TextLemmas::add_end))]
pub fn add_lines(list: &mut LineList<'_>, shape: &Shape, text: &[u8]) -> Result<(), AllocError>
    ensures { OnOk result (list.new ≡ record list.old { lines = list.old.lines ++ listed shape.now text.now }) }
{
    let mut rest = text;
    'lines: while !rest.is_empty() {
        let len = len_before(shape.end, rest);
        let line = &rest[..len];
        list.add(line, part(shape, line))?;
        rest = behind(rest, len);
    }
    Ok(())
}
