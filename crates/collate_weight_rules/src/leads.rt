//! What lines tell of lead bytes.

ghost use Rattle.std.specs.Prelude.{◌≡◌, [], map, option_map};
ghost use Rattle.icu_collator_core.specs.PlainLeads.{plain_leads};
ghost use Rattle.collate_lines.specs.Record.{said};
ghost use Rattle.collate_rules.specs.GivenWeights.{leads_to, numeric_to};
ghost use Rattle.collate_rules.specs.Meaning.{compress_in, first_found, numeric_in, set_to};

use collate_lines::record::{Record, Setting};
use icu_collator_core::weight_rules::Leads;

/// The lead of numbers where no line sets it.
const DEFAULT_NUMERIC: u8 = 0x10;

/// The lead of numbers that a line sets.
fn numeric_in(line: &Record) -> Option<u8>
    ensures { result ≡ numeric_in (said line.now) }
{
    match line {
        Record::Set(Setting::Numeric(lead)) => Some(*lead),
        _ => None,
    }
}

/// The lead of numbers that the first of lines to set it sets.
fn first_numeric(lines: &[Record]) -> Option<u8>
    ensures { result ≡ first_found numeric_in (map said lines.now) }
{
    for line in lines {
        if let Some(lead) = numeric_in(line) {
            return Some(lead);
        }
    }
    None
}

/// The lead of numbers that a file sets, if these lines say it or it is the default, else 0.
fn numeric_to(file: &[Record], lines: &[Record]) -> u8
    ensures { result ≡ numeric_to (map said file.now) (map said lines.now) }
{
    let lead = first_numeric(file).unwrap_or(DEFAULT_NUMERIC);
    if lead == DEFAULT_NUMERIC || first_numeric(lines).is_some() {
        lead
    } else {
        0
    }
}

/// The leads that a line makes compressible.
fn compress_in(line: &Record) -> Option<&[u8]>
    ensures { option_map (λ leads. leads.now) result ≡ compress_in (said line.now) }
{
    match line {
        Record::Set(Setting::Compress(leads)) => Some(leads.as_slice()),
        _ => None,
    }
}

/// The leads that the first of lines to make some compressible does.
fn compressed(lines: &[Record]) -> &[u8]
    ensures { result.now ≡ set_to compress_in [] (map said lines.now) }
{
    for line in lines {
        if let Some(leads) = compress_in(line) {
            return leads;
        }
    }
    &[]
}

/// What lines of a file tell of leads.
pub(crate) fn leads_to(file: &[Record], lines: &[Record]) -> Leads
    ensures { plain_leads result ≡ leads_to (map said file.now) (map said lines.now) }
{
    let mut leads = Leads::new(numeric_to(file, lines));
    for lead in compressed(lines) {
        leads.set_compressible(*lead);
    }
    leads
}
