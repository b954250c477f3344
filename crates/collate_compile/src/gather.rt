//! What the lines of a character record of it with others beside it, gathered line by line.

ghost use Rattle.std.specs.Prelude.{◌≡◌, map, option_map, IfOk, OnOk};
ghost use Rattle.collate_lines.specs.Record.{layer_of, said};
ghost use Rattle.collate_words.specs.Entries.{said_beside};
ghost use Rattle.collate_compile.specs.BesideLines.{HasTexts, gathered, prefix_in, prefix_of, prefixes_in, suffix_in, suffix_of, suffixes_in, with_beside, with_found};
ghost use Rattle.collate_compile.specs.NotedLines.{said_by};

use collate_lines::record::{Layer, Record};
use collate_words::entry::Beside;
use icu_collator_types::elements::Element;
use std::alloc::{AllocError, Global};
use std::collections::BTreeSet;

/// What a key and its elements say of a character with others after it.
fn suffix_of<'a>(
    c: char,
    prefix: &[char],
    text: &'a [char],
    elements: &'a [Element],
) -> Option<Beside<'a>>
    ensures { option_map said_beside result ≡ suffix_of c prefix.now text.now elements.now }
{
    if !prefix.is_empty() || text.len() < 2 {
        return None;
    }
    match text.split_first() {
        Some((first, characters)) if c == *first => Some(Beside {
            characters,
            elements,
        }),
        _ => None,
    }
}

/// What a key and its elements say of a character with others before it.
fn prefix_of<'a>(
    c: char,
    prefix: &'a [char],
    text: &[char],
    elements: &'a [Element],
) -> Option<Beside<'a>>
    ensures { option_map said_beside result ≡ prefix_of c prefix.now text.now elements.now }
{
    if prefix.is_empty() {
        return None;
    }
    match text {
        [first] if c == *first => Some(Beside {
            characters: prefix,
            elements,
        }),
        _ => None,
    }
}

/// What a line of a layer says of a character with others after it.
fn suffix_in<'a>(line: &'a Record, of_layer: Layer, c: char) -> Option<Beside<'a>>
    ensures { option_map said_beside result ≡ suffix_in (layer_of of_layer) c (said line.now) }
{
    match line {
        Record::Weights {
            layer,
            prefix,
            text,
            elements,
        } if *layer == of_layer => suffix_of(c, prefix, text, elements),
        _ => None,
    }
}

/// What a line of a layer says of a character with others before it.
fn prefix_in<'a>(line: &'a Record, of_layer: Layer, c: char) -> Option<Beside<'a>>
    ensures { option_map said_beside result ≡ prefix_in (layer_of of_layer) c (said line.now) }
{
    match line {
        Record::Weights {
            layer,
            prefix,
            text,
            elements,
        } if *layer == of_layer => prefix_of(c, prefix, text, elements),
        _ => None,
    }
}

/// Adds what is said with characters with which nothing has been said; the texts are those with which something has.
///
/// Errors: `AllocError` where memory is refused.
fn add_beside<'a>(
    texts: &mut BTreeSet<&'a [char]>,
    besides: &mut Vec<Beside<'a>>,
    beside: Beside<'a>,
) -> Result<(), AllocError>
    requires { HasTexts texts.old (map said_beside besides.old.items) }
    ensures texts { OnOk result (HasTexts texts.new (map said_beside besides.new.items)) }
    ensures besides { OnOk result (map said_beside besides.new.items
        ≡ with_beside (map said_beside besides.old.items) (said_beside beside.entry)) }
{
    if !texts.insert(beside.characters)? {
        return Ok(());
    }
    besides.push(beside)?;
    Ok(())
}

/// Adds what was found, if something was.
///
/// Errors: `AllocError` where memory is refused.
fn add_found<'a>(
    texts: &mut BTreeSet<&'a [char]>,
    besides: &mut Vec<Beside<'a>>,
    found: Option<Beside<'a>>,
) -> Result<(), AllocError>
    requires { HasTexts texts.old (map said_beside besides.old.items) }
    ensures texts { OnOk result (HasTexts texts.new (map said_beside besides.new.items)) }
    ensures besides { OnOk result (map said_beside besides.new.items
        ≡ with_found (map said_beside besides.old.items) (option_map said_beside found.entry)) }
{
    match found {
        Some(beside) => add_beside(texts, besides, beside),
        None => Ok(()),
    }
}

/// Adds what lines of a layer say of a character with others after it.
///
/// Errors: `AllocError` where memory is refused.
fn add_suffixes<'a>(
    own: &[&'a Record],
    layer: Layer,
    c: char,
    texts: &mut BTreeSet<&'a [char]>,
    suffixes: &mut Vec<Beside<'a>>,
) -> Result<(), AllocError>
    requires { HasTexts texts.old (map said_beside suffixes.old.items) }
    ensures texts { OnOk result (HasTexts texts.new (map said_beside suffixes.new.items)) }
    ensures suffixes { OnOk result (map said_beside suffixes.new.items
        ≡ gathered (suffix_in (layer_of layer) c) (map said_by own.now) (map said_beside suffixes.old.items)) }
{
    for line in own {
        add_found(texts, suffixes, suffix_in(line, layer, c))?;
    }
    Ok(())
}

/// Adds what lines of a layer say of a character with others before it.
///
/// Errors: `AllocError` where memory is refused.
fn add_prefixes<'a>(
    own: &[&'a Record],
    layer: Layer,
    c: char,
    texts: &mut BTreeSet<&'a [char]>,
    prefixes: &mut Vec<Beside<'a>>,
) -> Result<(), AllocError>
    requires { HasTexts texts.old (map said_beside prefixes.old.items) }
    ensures texts { OnOk result (HasTexts texts.new (map said_beside prefixes.new.items)) }
    ensures prefixes { OnOk result (map said_beside prefixes.new.items
        ≡ gathered (prefix_in (layer_of layer) c) (map said_by own.now) (map said_beside prefixes.old.items)) }
{
    for line in own {
        add_found(texts, prefixes, prefix_in(line, layer, c))?;
    }
    Ok(())
}

/// What lines say of a character with others after it; a line of the tailoring comes first.
///
/// Errors: `AllocError` where memory is refused.
pub(crate) fn suffixes_in<'a>(
    alloc: Global,
    own: &[&'a Record],
    c: char,
) -> Result<Vec<Beside<'a>>, AllocError>
    ensures { IfOk result (λ suffixes. map said_beside suffixes.items ≡ suffixes_in (map said_by own.now) c) }
{
    let mut texts = BTreeSet::new(alloc);
    let mut suffixes = Vec::new(alloc);
    add_suffixes(own, Layer::Tailoring, c, &mut texts, &mut suffixes)?;
    add_suffixes(own, Layer::Root, c, &mut texts, &mut suffixes)?;
    Ok(suffixes)
}

/// What lines say of a character with others before it; a line of the tailoring comes first.
///
/// Errors: `AllocError` where memory is refused.
pub(crate) fn prefixes_in<'a>(
    alloc: Global,
    own: &[&'a Record],
    c: char,
) -> Result<Vec<Beside<'a>>, AllocError>
    ensures { IfOk result (λ prefixes. map said_beside prefixes.items ≡ prefixes_in (map said_by own.now) c) }
{
    let mut texts = BTreeSet::new(alloc);
    let mut prefixes = Vec::new(alloc);
    add_prefixes(own, Layer::Tailoring, c, &mut texts, &mut prefixes)?;
    add_prefixes(own, Layer::Root, c, &mut texts, &mut prefixes)?;
    Ok(prefixes)
}
