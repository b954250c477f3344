//! The reply to one line of a run, with the record lines after it.

ghost use Rattle.std.specs.Prelude.{◌≡◌, ◌==◌, ◌<◌, ◌≤◌, ℕ, List, length, position, slice_range, IfOk, IfSome};
ghost use Rattle.collate_index.specs.Catalogue.{sorted_names};
ghost use Rattle.collate_lines.specs.Grammar.{decimal_digit, decimal_number};
ghost use Rattle.collate_run.specs.Replies.{behind, between_command, command_of, ended, key_of_name, listing, record_count, reload_of, Answers, AreFirst};
ghost use Rattle.collate_run.specs.ReplyText.{line_command, reply_text, IsReply};
ghost use Rattle.hex.specs.Hex.{encode_lower};

use collate_index::index::{AddError, Index, ReloadError};
use collate_records::rule::RecordFault;
use std::alloc::{AllocError, Global};
use std::ops::Range;

/// What a line asks for.
#[derive(Clone, Copy)]
pub(crate) enum Command<'a> {
    Add(&'a [u8]),
    Remove(&'a [u8]),
    Find(&'a [u8]),
    Between(&'a [u8], &'a [u8]),
    Key(&'a [u8]),
    ListAll,
    Reload(usize),
    Unknown,
}

/// The reply to a line. Only what lists names or writes a key takes memory.
#[derive(Drop)]
pub(crate) enum Reply {
    Added,
    Duplicate,
    Removed,
    Absent,
    Lines(Vec<u8>),
    Reloaded(usize),
    Refused(RecordFault),
    Bad,
    Memory,
}

/// Reads a line as a command.
fn read_command(line: &[u8]) -> Command<'_>
    ensures { line_command result ≡ command_of line.now }
{
    if let Some(name) = line.strip_prefix(b"add ") {
        Command::Add(name)
    } else if let Some(name) = line.strip_prefix(b"remove ") {
        Command::Remove(name)
    } else if let Some(name) = line.strip_prefix(b"find ") {
        Command::Find(name)
    } else if let Some(names) = line.strip_prefix(b"between ") {
        read_between(names)
    } else if let Some(name) = line.strip_prefix(b"key ") {
        Command::Key(name)
    } else if let Some(digits) = line.strip_prefix(b"reload ") {
        read_reload(digits)
    } else if line == b"list".as_slice() {
        Command::ListAll
    } else {
        Command::Unknown
    }
}

/// Reads what comes after `between ` as two names, parted at the first TAB.
fn read_between(names: &[u8]) -> Command<'_>
    ensures { line_command result ≡ between_command names.now }
{
    match first_tab(names) {
        Some(tab) => Command::Between(&names[..tab], &names[tab + 1..]),
        None => Command::Unknown,
    }
}

/// The index of the first TAB.
fn first_tab(names: &[u8]) -> Option<usize>
    ensures index { result ≡ position (λ byte. byte == 9) names.now }
    ensures bound { IfSome result (λ index. index < length names.now) }
{
    names.iter().position(|byte| *byte == b'\t')
}

/// Reads what comes after `reload ` as the number of record lines after the line.
fn read_reload(digits: &[u8]) -> Command<'_>
    ensures { line_command result ≡ reload_of (record_count digits.now) }
{
    match count_of(digits) {
        Some(count) => Command::Reload(count),
        None => Command::Unknown,
    }
}

/// The number of record lines that digits ask for: 0, or up to seven digits without a leading zero.
fn count_of(digits: &[u8]) -> Option<usize>
    ensures { result ≡ record_count digits.now }
{
    let is_short = 1 <= digits.len() && digits.len() <= 7;
    if is_short && (digits.len() == 1 || digits[0] != b'0') {
        decimal(digits)
    } else {
        None
    }
}

/// The number that at most seven decimal digits write.
fn decimal(digits: &[u8]) -> Option<usize>
    requires { length digits.now ≤ 7 }
    ensures { result ≡ decimal_number digits.now }
{
    let mut number = 0;
    for digit in digits {
        number = 10 * number + usize::from(digit_value(*digit)?);
    }
    Some(number)
}

/// The value of a decimal digit.
fn digit_value(digit: u8) -> Option<u8>
    ensures { result ≡ decimal_digit digit }
{
    match digit {
        b'0'..=b'9' => Some(digit - b'0'),
        _ => None,
    }
}

/// How many record lines stand after a line.
pub(crate) fn records_behind(line: &[u8]) -> usize
    ensures { result ≡ behind line.now }
{
    match read_command(line) {
        Command::Reload(count) => count,
        _ => 0,
    }
}

/// Answers one line, with the record lines after it, from the index, which `add`, `remove` and `reload` change. `records` is
/// what was kept of them: all, unless what was kept passes the size of a file; `None` where memory was refused for them.
pub(crate) fn answer(alloc: Global, index: &mut Index, line: &[u8], records: Option<&[u8]>) -> Reply
    ensures { (file : List ℕ) → IfSome records.entry (λ given. AreFirst index.old.limits.bytes given.now file)
        → Answers line.now file index.old index.new (reply_text result) }
{
    match read_command(line) {
        Command::Add(name) => match index.add(name) {
            Ok(()) => Reply::Added,
            Err(AddError::Duplicate) => Reply::Duplicate,
            Err(AddError::Memory) => Reply::Memory,
        },
        Command::Remove(name) => match index.remove(name) {
            Ok(()) => Reply::Removed,
            Err(_) => Reply::Absent,
        },
        Command::Find(name) => match index.find(name) {
            Ok(found) => names_reply(alloc, index, found.names),
            Err(_) => Reply::Memory,
        },
        Command::Between(first, last) => match index.between(first, last) {
            Ok(ranks) => names_reply(alloc, index, ranks),
            Err(_) => Reply::Memory,
        },
        Command::Key(name) => key_reply(alloc, index, name),
        Command::ListAll => names_reply(alloc, index, 0..index.len()),
        Command::Reload(_) => match records {
            Some(file) => match index.reload(file) {
                Ok(made) => Reply::Reloaded(made),
                Err(ReloadError::Record(fault)) => Reply::Refused(fault),
                Err(ReloadError::Memory) => Reply::Memory,
            },
            None => Reply::Memory,
        },
        Command::Unknown => Reply::Bad,
    }
}

/// The reply that lists the names at these ranks.
fn names_reply(alloc: Global, index: &Index, ranks: Range<usize>) -> Reply
    requires order { ranks.start ≤ ranks.end }
    requires bound { ranks.end ≤ length (sorted_names index.now) }
    ensures { IsReply (listing (slice_range (sorted_names index.now) ranks.start ranks.end)) result }
{
    match listing_of(alloc, index, ranks) {
        Ok(text) => Reply::Lines(text),
        Err(_) => Reply::Memory,
    }
}

/// A line that says how many names stand at these ranks, then the names, a line each.
fn listing_of(alloc: Global, index: &Index, ranks: Range<usize>) -> Result<Vec<u8>, AllocError>
    requires order { ranks.start ≤ ranks.end }
    requires bound { ranks.end ≤ length (sorted_names index.now) }
    ensures { IfOk result (λ text. text.items ≡ listing (slice_range (sorted_names index.now) ranks.start ranks.end)) }
{
    let count = ranks.end - ranks.start;
    let mut text = format!(in alloc; "names {count}\n")?.into_bytes();
    for rank in ranks.start..ranks.end {
        if let Some(name) = index.get(rank) {
            text.extend_from_slice(name)?;
            text.push(b'\n')?;
        }
    }
    Ok(text)
}

/// The reply with the sort key of a name.
fn key_reply(alloc: Global, index: &Index, name: &[u8]) -> Reply
    ensures { IsReply (ended (encode_lower (key_of_name index.now name.now))) result }
{
    match key_line(alloc, index, name) {
        Ok(text) => Reply::Lines(text),
        Err(_) => Reply::Memory,
    }
}

/// A line with the sort key of a name, in hexadecimal digits.
fn key_line(alloc: Global, index: &Index, name: &[u8]) -> Result<Vec<u8>, AllocError>
    ensures { IfOk result (λ text. text.items ≡ ended (encode_lower (key_of_name index.now name.now))) }
{
    let key = sort_key(alloc, index, name)?;
    let mut text = hex::encode(alloc, key.as_slice())?.into_bytes();
    text.push(b'\n')?;
    Ok(text)
}

/// The sort key of a name.
fn sort_key(alloc: Global, index: &Index, name: &[u8]) -> Result<Vec<u8>, AllocError>
    ensures { IfOk result (λ key. key.items ≡ key_of_name index.now name.now) }
{
    let mut key = Vec::new(alloc);
    match index
        .collator()
        .write_sort_key_utf8_to(alloc, name, &mut key)
    {
        Ok(()) => Ok(key),
        Err(_) => Err(AllocError),
    }
}
