//! Fields that list things: the characters of a prefix, a text or a mapping, elements, leads and pairs of leads.

ghost use Rattle.std.specs.Prelude.{◌≡◌, map, option_map, IfOk};
ghost use Rattle.collate_lines.specs.Grammar.{code_point, element, hex_of, key_by, lead_pairs, listed, parted, some_lead_pairs, some_listed};

use crate::fields::{character, lead_value, listed_element};
use icu_collator_types::elements::Element;
use std::alloc::{AllocError, Global};

/// The most characters of a prefix (docs/RECORDS.md).
const PREFIX_LIMIT: usize = 3;

/// The fields before the first that is this word, and those after it.
pub(crate) fn split_at_word<'a, 'b>(
    fields: &'b [&'a [u8]],
    word: &[u8],
) -> Option<(&'b [&'a [u8]], &'b [&'a [u8]])>
    ensures { option_map (λ parts. (map (λ field. field.now) parts.0.now, map (λ field. field.now) parts.1.now)) result ≡ parted word.now (map (λ field. field.now) fields.now) }
{
    for (i, field) in fields.iter().enumerate() {
        if *field == word {
            return Some((&fields[..i], &fields[i + 1..]));
        }
    }
    None
}

/// The characters that fields list.
fn parse_characters(alloc: Global, fields: &[&[u8]]) -> Result<Option<Vec<char>>, AllocError>
    ensures { IfOk result (λ found. option_map (λ list. list.items) found ≡ listed code_point (map (λ field. field.now) fields.now)) }
{
    let mut list = Vec::new(alloc);
    for field in fields {
        match character(field) {
            Some(character) => list.push(character)?,
            None => return Ok(None),
        }
    }
    Ok(Some(list))
}

/// The characters that fields list, one at least.
pub(crate) fn parse_some_characters(
    alloc: Global,
    fields: &[&[u8]],
) -> Result<Option<Vec<char>>, AllocError>
    ensures { IfOk result (λ found. option_map (λ list. list.items) found ≡ some_listed code_point (map (λ field. field.now) fields.now)) }
{
    match fields {
        [] => Ok(None),
        _ => parse_characters(alloc, fields),
    }
}

/// A key: `[CP [CP [CP]] |] CP..`, a prefix of at most three characters, and a text.
pub(crate) fn parse_key(
    alloc: Global,
    fields: &[&[u8]],
) -> Result<Option<(Vec<char>, Vec<char>)>, AllocError>
    ensures { IfOk result (λ found. option_map (λ key. (key.0.items, key.1.items)) found ≡ key_by (map (λ field. field.now) fields.now)) }
{
    let Some((prefix, text)) = split_at_word(fields, b"|".as_slice()) else {
        let text = parse_some_characters(alloc, fields)?;
        return Ok(text.map(|text| (Vec::new(alloc), text)));
    };
    let Some(prefix) = parse_some_characters(alloc, prefix)? else {
        return Ok(None);
    };
    let Some(text) = parse_some_characters(alloc, text)? else {
        return Ok(None);
    };
    Ok((prefix.len() <= PREFIX_LIMIT).then_some((prefix, text)))
}

/// The elements that fields list.
pub(crate) fn parse_elements(
    alloc: Global,
    fields: &[&[u8]],
) -> Result<Option<Vec<Element>>, AllocError>
    ensures { IfOk result (λ found. option_map (λ list. list.items) found ≡ listed element (map (λ field. field.now) fields.now)) }
{
    let mut list = Vec::new(alloc);
    for field in fields {
        match listed_element(alloc, field)? {
            Some(element) => list.push(element)?,
            None => return Ok(None),
        }
    }
    Ok(Some(list))
}

/// The leads that fields list.
fn parse_leads(alloc: Global, fields: &[&[u8]]) -> Result<Option<Vec<u8>>, AllocError>
    ensures { IfOk result (λ found. option_map (λ list. list.items) found ≡ listed (hex_of 2) (map (λ field. field.now) fields.now)) }
{
    let mut list = Vec::new(alloc);
    for field in fields {
        match lead_value(field) {
            Some(lead) => list.push(lead)?,
            None => return Ok(None),
        }
    }
    Ok(Some(list))
}

/// The leads that fields list, one at least.
pub(crate) fn parse_some_leads(
    alloc: Global,
    fields: &[&[u8]],
) -> Result<Option<Vec<u8>>, AllocError>
    ensures { IfOk result (λ found. option_map (λ list. list.items) found ≡ some_listed (hex_of 2) (map (λ field. field.now) fields.now)) }
{
    match fields {
        [] => Ok(None),
        _ => parse_leads(alloc, fields),
    }
}

/// The pairs of leads that fields list.
fn parse_lead_pairs(alloc: Global, fields: &[&[u8]]) -> Result<Option<Vec<(u8, u8)>>, AllocError>
    ensures { IfOk result (λ found. option_map (λ list. list.items) found ≡ lead_pairs (map (λ field. field.now) fields.now)) }
{
    let mut pairs = Vec::new(alloc);
    let mut rest = fields;
    while let [lead, place, others @ ..] = rest {
        let (Some(lead), Some(place)) = (lead_value(lead), lead_value(place)) else {
            return Ok(None);
        };
        pairs.push((lead, place))?;
        rest = others;
    }
    match rest {
        [] => Ok(Some(pairs)),
        _ => Ok(None),
    }
}

/// The pairs of leads that fields list, one at least.
pub(crate) fn parse_some_lead_pairs(
    alloc: Global,
    fields: &[&[u8]],
) -> Result<Option<Vec<(u8, u8)>>, AllocError>
    ensures { IfOk result (λ found. option_map (λ list. list.items) found ≡ some_lead_pairs (map (λ field. field.now) fields.now)) }
{
    match fields {
        [] => Ok(None),
        _ => parse_lead_pairs(alloc, fields),
    }
}
