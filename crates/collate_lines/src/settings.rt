//! What a `set` line sets: `NAME VALUE..`.

ghost use Rattle.std.specs.Prelude.{◌≡◌, ◌∷◌, [], codes, map, option_map, IfOk};
ghost use Rattle.collate_lines.specs.Grammar.{four_groups, one_lead, setting_by, switch, word_among};
ghost use Rattle.collate_lines.specs.Record.{set_by_line};

use crate::fields::{lead_value, weight};
use crate::list_fields::{parse_some_lead_pairs, parse_some_leads};
use crate::record::Setting;
use icu_collator_types::options::{AlternateHandling, CollationCaseFirst, MaxVariable};
use std::alloc::{AllocError, Global};

/// What is said after `set`, with the name of the setting apart.
pub(crate) fn parse_setting(
    alloc: Global,
    name: &[u8],
    values: &[&[u8]],
) -> Result<Option<Setting>, AllocError>
    ensures { IfOk result (λ found. option_map set_by_line found ≡ setting_by name.now (map (λ value. value.now) values.now)) }
{
    if name == b"alternate".as_slice() {
        Ok(alternate_handling(values).map(Setting::Alternate))
    } else if name == b"backward".as_slice() {
        Ok(switch_value(values).map(Setting::Backward))
    } else if name == b"casefirst".as_slice() {
        Ok(case_first(values).map(Setting::CaseFirst))
    } else if name == b"maxvariable".as_slice() {
        Ok(max_variable(values).map(Setting::MaxVariable))
    } else if name == b"dotabove".as_slice() {
        Ok(switch_value(values).map(Setting::DotAbove))
    } else if name == b"numeric".as_slice() {
        Ok(one_lead(values).map(Setting::Numeric))
    } else if name == b"groups".as_slice() {
        Ok(four_groups(values).map(Setting::Groups))
    } else if name == b"compress".as_slice() {
        Ok(parse_some_leads(alloc, values)?.map(Setting::Compress))
    } else if name == b"reorder".as_slice() {
        Ok(parse_some_lead_pairs(alloc, values)?.map(Setting::Reorder))
    } else {
        Ok(None)
    }
}

/// `nonignorable` or `shifted`.
fn alternate_handling(values: &[&[u8]]) -> Option<AlternateHandling>
    ensures { result ≡ word_among ((codes "nonignorable", AlternateHandling.NonIgnorable) ∷ (codes "shifted", AlternateHandling.Shifted) ∷ []) (map (λ value. value.now) values.now) }
{
    let [value] = values else {
        return None;
    };
    if *value == b"nonignorable".as_slice() {
        Some(AlternateHandling::NonIgnorable)
    } else if *value == b"shifted".as_slice() {
        Some(AlternateHandling::Shifted)
    } else {
        None
    }
}

/// `off` or `on`.
fn switch_value(values: &[&[u8]]) -> Option<bool>
    ensures { result ≡ switch (map (λ value. value.now) values.now) }
{
    let [value] = values else {
        return None;
    };
    if *value == b"off".as_slice() {
        Some(false)
    } else if *value == b"on".as_slice() {
        Some(true)
    } else {
        None
    }
}

/// `off`, `lower` or `upper`.
fn case_first(values: &[&[u8]]) -> Option<CollationCaseFirst>
    ensures { result ≡ word_among ((codes "off", CollationCaseFirst.False) ∷ (codes "lower", CollationCaseFirst.Lower) ∷ (codes "upper", CollationCaseFirst.Upper) ∷ []) (map (λ value. value.now) values.now) }
{
    let [value] = values else {
        return None;
    };
    if *value == b"off".as_slice() {
        Some(CollationCaseFirst::False)
    } else if *value == b"lower".as_slice() {
        Some(CollationCaseFirst::Lower)
    } else if *value == b"upper".as_slice() {
        Some(CollationCaseFirst::Upper)
    } else {
        None
    }
}

/// `space`, `punctuation`, `symbol` or `currency`.
fn max_variable(values: &[&[u8]]) -> Option<MaxVariable>
    ensures { result ≡ word_among ((codes "space", MaxVariable.Space) ∷ (codes "punctuation", MaxVariable.Punctuation) ∷ (codes "symbol", MaxVariable.Symbol) ∷ (codes "currency", MaxVariable.Currency) ∷ []) (map (λ value. value.now) values.now) }
{
    let [value] = values else {
        return None;
    };
    if *value == b"space".as_slice() {
        Some(MaxVariable::Space)
    } else if *value == b"punctuation".as_slice() {
        Some(MaxVariable::Punctuation)
    } else if *value == b"symbol".as_slice() {
        Some(MaxVariable::Symbol)
    } else if *value == b"currency".as_slice() {
        Some(MaxVariable::Currency)
    } else {
        None
    }
}

/// The lead of numbers: `HH`.
fn one_lead(values: &[&[u8]]) -> Option<u8>
    ensures { result ≡ one_lead (map (λ value. value.now) values.now) }
{
    let [value] = values else {
        return None;
    };
    lead_value(value)
}

/// The ends of four groups: `HHHH HHHH HHHH HHHH`.
fn four_groups(values: &[&[u8]]) -> Option<[u16; 4]>
    ensures { result ≡ four_groups (map (λ value. value.now) values.now) }
{
    let [space, punctuation, symbol, currency] = values else {
        return None;
    };
    Some([
        weight(space)?,
        weight(punctuation)?,
        weight(symbol)?,
        weight(currency)?,
    ])
}
