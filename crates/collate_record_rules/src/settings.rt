//! The rule on settings (`set`).

ghost use Rattle.std.specs.Prelude.{◌≡◌, ◌==◌, ◌&&◌, ◌||◌, [], leb, map, Option, IfOk, MatchOption};
ghost use Rattle.std.specs.List.{list_all, list_any};
ghost use Rattle.icu_collator_core.specs.SettingRules.{are_among, are_distinct, are_alike, is_amid_numbers, is_exchange, keep_compressible, never_falls};
ghost use Rattle.icu_collator_core.specs.WeightRules.{is_letter_lead};
ghost use Rattle.collate_lines.specs.Record.{said};
ghost use Rattle.collate_rules.specs.Offenders.{NoneOffends, IsFirstOffender};
ghost use Rattle.collate_rules.specs.SettingLines.{are_bad_groups, are_exchanged, breaks_settings, compress_of, groups_of, is_compressible_by, is_setting, numeric_of, reorder_of};

use collate_lines::record::{Record, Setting};
use collate_lines::rule::Rule;
use icu_collator_core::weight_rules::is_letter_lead;
use std::alloc::{AllocError, Global};

/// The first line with which settings are what they may not be (rule `set`, docs/RECORDS.md). Lines count from 0; `None`
/// where no line offends.
///
/// Errors: `AllocError` where memory is refused.
pub fn first_bad_setting(alloc: Global, records: &[Record]) -> Result<Option<usize>, AllocError>
    ensures { IfOk result (λ found. MatchOption found (NoneOffends Rule.Set (map said records.now)) (λ i. IsFirstOffender Rule.Set (map said records.now) i)) }
{
    let lead = numeric_of(records);
    for i in 0..records.len() {
        if is_setting(&records[i]) {
            let is_broken = breaks_settings(alloc, lead, &records[..i + 1])?;
            if is_broken {
                return Ok(Some(i));
            }
        }
    }
    Ok(None)
}

/// Whether a line sets something.
fn is_setting(line: &Record) -> bool
    ensures { result ≡ is_setting (said line.now) }
{
    match line {
        Record::Set(_) => true,
        _ => false,
    }
}

/// Whether lines set what they may not, where this lead of numbers counts for the whole file.
fn breaks_settings(alloc: Global, counted: u8, lines: &[Record]) -> Result<bool, AllocError>
    ensures { IfOk result (λ yes. yes ≡ breaks_settings counted (map said lines.now)) }
{
    let numeric = numeric_of(lines);
    let groups = groups_of(lines);
    let compress = compress_of(lines);
    let reorder = reorder_of(lines);
    let is_broken = !is_letter_lead(numeric)
        || !are_letter_leads(compress)
        || are_bad_groups(&groups)
        || (numeric == counted && has_amid_numbers(counted, &groups))
        || !keep_compressible(compress, reorder);
    if is_broken {
        return Ok(true);
    }
    let is_exchanged = is_exchange(alloc, reorder)?;
    Ok(!is_exchanged)
}

/// The lead of numbers that lines set, or its default.
fn numeric_of(lines: &[Record]) -> u8
    ensures { result ≡ numeric_of (map said lines.now) }
{
    for line in lines {
        if let Record::Set(Setting::Numeric(lead)) = line {
            return *lead;
        }
    }
    0x10
}

/// The groups that lines set, or their defaults.
fn groups_of(lines: &[Record]) -> [u16; 4]
    ensures { result ≡ groups_of (map said lines.now) }
{
    for line in lines {
        if let Record::Set(Setting::Groups(groups)) = line {
            return *groups;
        }
    }
    [0x300; 4]
}

/// The compressible leads that lines set.
fn compress_of(lines: &[Record]) -> &[u8]
    ensures { result.now ≡ compress_of (map said lines.now) }
{
    for line in lines {
        if let Record::Set(Setting::Compress(leads)) = line {
            return leads;
        }
    }
    &[]
}

/// The leads that change places by what lines set.
fn reorder_of(lines: &[Record]) -> &[(u8, u8)]
    ensures { result.now ≡ reorder_of (map said lines.now) }
{
    for line in lines {
        if let Record::Set(Setting::Reorder(pairs)) = line {
            return pairs;
        }
    }
    &[]
}

/// Whether all of these may.
fn are_letter_leads(leads: &[u8]) -> bool
    ensures { result ≡ list_all is_letter_lead leads.now }
{
    leads.iter().all(|lead| is_letter_lead(*lead))
}

/// Whether groups fall, or one ends below letters.
fn are_bad_groups(groups: &[u16]) -> bool
    ensures { result ≡ are_bad_groups groups.now }
{
    !(are_above_specials(groups) && never_falls(groups))
}

/// Whether each group ends at 0300 or above.
fn are_above_specials(groups: &[u16]) -> bool
    ensures { result ≡ list_all (leb 0x300) groups.now }
{
    groups.iter().all(|group| 0x300 <= *group)
}

/// Whether no group is below the one before it.
fn never_falls(groups: &[u16]) -> bool
    ensures { result ≡ never_falls groups.now }
{
    let mut index = 0;
    while index + 1 < groups.len() {
        if groups[index] > groups[index + 1] {
            return false;
        }
        index += 1;
    }
    true
}

/// Whether a group ends amid the numbers of a lead.
fn has_amid_numbers(lead: u8, groups: &[u16]) -> bool
    ensures { result ≡ list_any (is_amid_numbers lead) groups.now }
{
    groups.iter().any(|group| is_amid_numbers(lead, *group))
}

/// Whether this one does.
fn is_amid_numbers(lead: u8, group: u16) -> bool
    ensures { result ≡ is_amid_numbers lead group }
{
    let first = (lead as u16) * 256;
    first + 1 <= group && group <= first + 0xff
}

/// Whether each lead is as compressible as the one that takes its place, where these leads are compressible.
fn keep_compressible(compress: &[u8], pairs: &[(u8, u8)]) -> bool
    ensures { result ≡ keep_compressible (is_compressible_by compress.now) pairs.now }
{
    pairs.iter().all(|pair| are_alike(compress, pair.0, pair.1))
}

/// Whether two leads are both compressible, or neither is.
fn are_alike(compress: &[u8], a: u8, b: u8) -> bool
    ensures { result ≡ are_alike (is_compressible_by compress.now) a b }
{
    if is_compressible(compress, a) {
        is_compressible(compress, b)
    } else {
        !is_compressible(compress, b)
    }
}

/// Whether a lead is compressible.
fn is_compressible(compress: &[u8], lead: u8) -> bool
    ensures { result ≡ is_compressible_by compress.now lead }
{
    lead == 0xfe || compress.contains(&lead)
}

/// Whether leads of letters change places: each at most once on each side, the same on both.
fn is_exchange(alloc: Global, pairs: &[(u8, u8)]) -> Result<bool, AllocError>
    ensures { IfOk result (λ yes. yes ≡ is_exchange pairs.now) }
{
    let leads = first_leads(alloc, pairs)?;
    let others = second_leads(alloc, pairs)?;
    Ok(are_exchanged(&leads, &others))
}

/// The leads that change places. Fails only if memory is refused.
fn first_leads(alloc: Global, pairs: &[(u8, u8)]) -> Result<Vec<u8>, AllocError>
    ensures { IfOk result (λ leads. leads.items ≡ map (λ pair. pair.0) pairs.now) }
{
    pairs.iter().map(|pair| pair.0).collect(alloc)
}

/// The leads whose places they take. Fails only if memory is refused.
fn second_leads(alloc: Global, pairs: &[(u8, u8)]) -> Result<Vec<u8>, AllocError>
    ensures { IfOk result (λ leads. leads.items ≡ map (λ pair. pair.1) pairs.now) }
{
    pairs.iter().map(|pair| pair.1).collect(alloc)
}

/// Whether leads of letters change places with others: each at most once on each side, the same on both.
fn are_exchanged(leads: &[u8], others: &[u8]) -> bool
    ensures { result ≡ are_exchanged leads.now others.now }
{
    are_letter_leads(leads)
        && are_letter_leads(others)
        && are_distinct(leads)
        && are_distinct(others)
        && are_among(leads, others)
        && are_among(others, leads)
}

/// Whether no lead stands twice.
fn are_distinct(leads: &[u8]) -> bool
    ensures { result ≡ are_distinct leads.now }
{
    for i in 0..leads.len() {
        if leads[i + 1..].contains(&leads[i]) {
            return false;
        }
    }
    true
}

/// Whether each of some leads stands among others.
fn are_among(others: &[u8], leads: &[u8]) -> bool
    ensures { result ≡ are_among others.now leads.now }
{
    leads.iter().all(|lead| others.contains(lead))
}
