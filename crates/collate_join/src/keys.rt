//! What lines are for, as it stands in them, and what the lines of a tailoring leave out.

ghost use Rattle.std.specs.Prelude.{◌≡◌, ◌==◌, ◌-◌, ◌<◌, ◌≤◌, ◌++◌, ◌∷◌, ◌||◌, ℕ, [], List, length, map, option_map, take, IfOk, IfSome, OnOk};
ghost use Rattle.std.specs.List.{position};
ghost use Rattle.collate_join.specs.Keys.{end_of, has_any, is_it, is_key, key_of, left_out_by, part_of, second_space, weighed_by};
ghost use Rattle.collate_join.specs.Kept.{HasParts, has};

use collate_lines::line::parse_line;
use std::alloc::{AllocError, Global};
use std::collections::BTreeSet;

/// Parts of lines, each once.
pub(crate) type Parts<'a> = BTreeSet<&'a [u8]>;

/// A part of a line.
#[derive(Clone, Copy, Debug, PartialEq, Eq)]
pub(crate) enum Part {
    /// What it is for, with its kind before it.
    Key,
    /// What a `w` line weighs: its prefix and text.
    Weighed,
    /// What a line `# without` leaves out.
    LeftOut,
}

/// Where a byte stands first.
fn position_of(bytes: &[u8], byte: u8) -> Option<usize>
    ensures index { result ≡ position (λ b. b == byte) bytes.now }
    ensures within { IfSome result (λ end. end < length bytes.now) }
{
    bytes.iter().position(|b| *b == byte)
}

/// Where a byte stands first, or the length.
fn end_of(bytes: &[u8], byte: u8) -> usize
    ensures index { result ≡ end_of byte bytes.now }
    ensures within { result ≤ length bytes.now }
{
    match position_of(bytes, byte) {
        Some(end) => end,
        None => bytes.len(),
    }
}

/// What stands before the second space.
fn before_second_space(line: &[u8]) -> &[u8]
    ensures { result.now ≡ take (second_space line.now) line.now }
{
    let first = end_of(line, b' ');
    if first == line.len() {
        return line;
    }
    &line[..first + 1 + end_of(&line[first + 1..], b' ')]
}

/// The key of a line: its kind and what it is for.
fn key_of(line: &[u8]) -> Option<&[u8]>
    ensures { option_map (λ part. part.now) result ≡ key_of line.now }
{
    if line.starts_with(b"w ") || line.starts_with(b"t ") {
        return Some(&line[..end_of(line, b';')]);
    }
    if matches!(line, [] | [b'#', ..]) || line.starts_with(b"range ") {
        return None;
    }
    Some(before_second_space(line))
}

/// What stands before the byte that is before the semicolon.
fn before_semicolon(part: &[u8]) -> &[u8]
    ensures { result.now ≡ take (end_of 59 part.now - 1) part.now }
{
    &part[..end_of(part, b';').saturating_sub(1)]
}

/// The prefix and the text of a `w` line, with the space before them.
fn weighed_by(line: &[u8]) -> Option<&[u8]>
    ensures { option_map (λ part. part.now) result ≡ weighed_by line.now }
{
    if !line.starts_with(b"w ") {
        return None;
    }
    Some(before_semicolon(&line[1..]))
}

/// What a line `# without` leaves out: what stands after these words.
pub(crate) fn left_out_by(line: &[u8]) -> Option<&[u8]>
    ensures { option_map (λ part. part.now) result ≡ left_out_by line.now }
{
    if !line.starts_with(b"# without") {
        return None;
    }
    Some(&line[9..])
}

/// A part of a line.
pub(crate) fn part_of(part: Part, line: &[u8]) -> Option<&[u8]>
    ensures { option_map (λ part. part.now) result ≡ part_of part line.now }
{
    match part {
        Part::Key => key_of(line),
        Part::Weighed => weighed_by(line),
        Part::LeftOut => left_out_by(line),
    }
}

/// Whether what stands after `# without` is a prefix and a text, as in a line of weights.
///
/// Errors: `AllocError` where memory is refused.
pub(crate) fn is_key(alloc: Global, part: &[u8]) -> Result<bool, AllocError>
    ensures { IfOk result (λ is. is ≡ is_key part.now) }
{
    let mut line = Vec::new(alloc);
    line.push(b'w')?;
    line.extend_from_slice(part)?;
    line.extend_from_slice(b" ;")?;
    Ok(parse_line(alloc, &line)?.is_some())
}

/// Notes a part, if there is one. Errors: `AllocError` where memory is refused.
fn note<'a>(parts: &mut Parts<'a>, part: Option<&'a [u8]>) -> Result<(), AllocError>
    ensures { OnOk result ((bytes : List ℕ) → has parts.new bytes ≡ (has parts.old bytes || is_it bytes (option_map (λ part. part.now) part.entry))) }
{
    if let Some(part) = part {
        parts.insert(part)?;
    }
    Ok(())
}

/// Notes what one more line has as this part. Errors: `AllocError` where memory is refused.
fn note_line<'a>(parts: &mut Parts<'a>, part: Part, line: &'a [u8]) -> Result<(), AllocError>
    ensures { (lines : List (List ℕ)) → HasParts parts.old part lines → OnOk result (HasParts parts.new part (lines ++ line.now ∷ [])) }
{
    note(parts, part_of(part, line))?;
    Ok(())
}

/// What lines have as this part.
///
/// Errors: `AllocError` where memory is refused.
pub(crate) fn parts_in<'a>(
    alloc: Global,
    part: Part,
    lines: &[&'a [u8]],
) -> Result<Parts<'a>, AllocError>
    ensures { IfOk result (λ parts. HasParts parts part (map (λ line. line.now) lines.now)) }
{
    let mut parts = BTreeSet::new(alloc);
    for line in lines {
        note_line(&mut parts, part, line)?;
    }
    Ok(parts)
}

/// Whether a part that there is is among these.
pub(crate) fn is_among<'a>(parts: &Parts<'a>, part: Option<&'a [u8]>) -> bool
    ensures { (kind : Part) (lines : List (List ℕ)) → HasParts parts.now kind lines → result ≡ has_any kind lines (option_map (λ part. part.now) part.entry) }
{
    match part {
        Some(part) => parts.contains(&part),
        None => false,
    }
}
