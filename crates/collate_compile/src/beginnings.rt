//! The characters that begin records of a layer. Jamo have a table of their own.

ghost use Rattle.std.specs.Prelude.{◌≡◌, ◌==◌, ◌||◌, ℕ, map, not, IfOk, OnOk, Some};
ghost use Rattle.std.specs.BTreeSet.{contains};
ghost use Rattle.std.specs.List.{list_any};
ghost use Rattle.std.specs.Ordering.{nat_cmp};
ghost use Rattle.collate_lines.specs.Record.{layer_of, said};
ghost use Rattle.collate_rules.specs.Accepted.{AreAccepted};
ghost use Rattle.collate_compile.specs.Beginnings.{AreAsked, AreBeginnings, AreFew, first_of, is_begun, with_character};
ghost use Rattle.collate_compile.specs.LineSayings.{begins_line, begins_tailored_line, is_rooted, is_tailored};
ghost use Rattle.collate_compile.specs.NotedLines.{said_by};

use crate::noted_lines::NotedLines;
use collate_lines::record::{Layer, Record};
use icu_normalizer_core::built_in::is_jamo;
use std::alloc::{AllocError, Global};
use std::collections::BTreeSet;

/// The character that a line's text begins with.
fn first_of(line: &Record) -> Option<char>
    ensures { result ≡ first_of (said line.now) }
{
    match line {
        Record::Weights { text, .. } => text.first().copied(),
        _ => None,
    }
}

/// Whether a line's text begins with a character.
fn begins_line(line: &Record, c: char) -> bool
    ensures { result ≡ begins_line c (said line.now) }
{
    match first_of(line) {
        Some(first) => c == first,
        None => false,
    }
}

/// Whether the text of a line of the tailoring begins with a character.
fn begins_tailored_line(line: &Record, c: char) -> bool
    ensures { result ≡ begins_tailored_line c (said line.now) }
{
    match line {
        Record::Weights {
            layer: Layer::Tailoring,
            ..
        } => begins_line(line, c),
        _ => false,
    }
}

/// Whether one of these lines begins with a character.
fn begins_one(own: &[&Record], c: char) -> bool
    ensures { result ≡ list_any (begins_line c) (map said_by own.now) }
{
    for line in own {
        if begins_line(line, c) {
            return true;
        }
    }
    false
}

/// Whether one of these lines of the tailoring begins with a character.
fn begins_tailored_one(own: &[&Record], c: char) -> bool
    ensures { result ≡ list_any (begins_tailored_line c) (map said_by own.now) }
{
    for line in own {
        if begins_tailored_line(line, c) {
            return true;
        }
    }
    false
}

/// Whether a line begins with a character.
fn begins(noted: &NotedLines<'_>, c: char) -> bool
    ensures { result ≡ list_any (begins_line c) (map said noted.now.lines.now) }
{
    begins_one(noted.own(c), c)
}

/// Whether a line of the tailoring begins with a character.
fn begins_tailored(noted: &NotedLines<'_>, c: char) -> bool
    ensures { result ≡ list_any (begins_tailored_line c) (map said noted.now.lines.now) }
{
    begins_tailored_one(noted.own(c), c)
}

/// Whether a character that is no jamo begins a line of the tailoring.
fn is_tailored(noted: &NotedLines<'_>, c: char) -> bool
    ensures { result ≡ is_tailored (map said noted.now.lines.now) c }
{
    !is_jamo(c as u32) && begins_tailored(noted, c)
}

/// Whether a character that is no jamo begins lines of the root alone.
fn is_rooted(noted: &NotedLines<'_>, c: char) -> bool
    ensures { result ≡ is_rooted (map said noted.now.lines.now) c }
{
    !is_jamo(c as u32) && (!is_tailored(noted, c) && begins(noted, c))
}

/// Whether a layer has what is recorded of the texts that begin with a character.
fn is_begun(noted: &NotedLines<'_>, layer: Layer, c: char) -> bool
    ensures { result ≡ is_begun (layer_of layer) (map said noted.now.lines.now) c }
{
    match layer {
        Layer::Root => is_rooted(noted, c),
        Layer::Tailoring => is_tailored(noted, c),
    }
}

/// Notes that a character is asked of, and answers whether it is for the first time.
///
/// Errors: `AllocError` where memory is refused.
fn ask(asked: &mut BTreeSet<char>, c: char) -> Result<bool, AllocError>
    ensures first { IfOk result (λ is_first. is_first ≡ not (contains nat_cmp asked.old c)) }
    ensures asked { OnOk result ((d : ℕ) → contains nat_cmp asked.new d ≡ (contains nat_cmp asked.old d || (d == c))) }
{
    let is_first = asked.insert(c)?;
    Ok(is_first)
}

/// Adds a character, if a layer has its records and it isn't there. Those that were asked of are there exactly if the layer
/// has their records.
///
/// Errors: `AllocError` where memory is refused.
fn add_character(
    noted: &NotedLines<'_>,
    layer: Layer,
    asked: &mut BTreeSet<char>,
    characters: &mut Vec<char>,
    c: char,
) -> Result<(), AllocError>
    requires { AreAsked (is_begun (layer_of layer) (map said noted.now.lines.now)) asked.old characters.old.items }
    ensures asked { OnOk result
        (AreAsked (is_begun (layer_of layer) (map said noted.now.lines.now)) asked.new characters.new.items) }
    ensures characters { OnOk result (characters.new.items
        ≡ with_character (is_begun (layer_of layer) (map said noted.now.lines.now)) characters.old.items (Some c)) }
{
    if !ask(asked, c)? {
        return Ok(());
    }
    if !is_begun(noted, layer, c) {
        return Ok(());
    }
    characters.push(c)?;
    Ok(())
}

/// Adds a character that was found, likewise.
///
/// Errors: `AllocError` where memory is refused.
fn add_found(
    noted: &NotedLines<'_>,
    layer: Layer,
    asked: &mut BTreeSet<char>,
    characters: &mut Vec<char>,
    found: Option<char>,
) -> Result<(), AllocError>
    requires { AreAsked (is_begun (layer_of layer) (map said noted.now.lines.now)) asked.old characters.old.items }
    ensures asked { OnOk result
        (AreAsked (is_begun (layer_of layer) (map said noted.now.lines.now)) asked.new characters.new.items) }
    ensures characters { OnOk result (characters.new.items
        ≡ with_character (is_begun (layer_of layer) (map said noted.now.lines.now)) characters.old.items found) }
{
    match found {
        Some(c) => add_character(noted, layer, asked, characters, c),
        None => Ok(()),
    }
}

/// The characters of which a layer has what is recorded of the texts that begin with them, each once, in the order of the lines
/// that begin with them first.
///
/// Errors: `AllocError` where memory is refused.
pub(crate) fn beginnings(
    alloc: Global,
    noted: &NotedLines<'_>,
    layer: Layer,
) -> Result<Vec<char>, AllocError>
    requires accepted { AreAccepted (map said noted.now.lines.now) }
    ensures characters { IfOk result
        (λ characters. AreBeginnings (layer_of layer) (map said noted.now.lines.now) characters.items) }
    ensures few { IfOk result (λ characters. AreFew (map said noted.now.lines.now) characters.items) }
{
    let mut asked = BTreeSet::new(alloc);
    let mut characters = Vec::new(alloc);
    for line in noted.lines {
        add_found(noted, layer, &mut asked, &mut characters, first_of(line))?;
    }
    Ok(characters)
}
