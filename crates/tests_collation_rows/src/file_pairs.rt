//! What a script asks of two files, a line each:
//!
//! - `settings`: whether their settings are equal: `equal` or `different`.
//! - `changed CHARACTER`: whether they say different things of a character: `changed` or `same`.
//! - `reaches TEXT CHARACTER ..`: whether a text reaches one of these characters under the first file: `reaches` or `not`.
//!
//! A character is its code point, a text its bytes, both in hexadecimal; `-` is a text of none.

use crate::asked_texts::{bytes, character, characters};
use crate::file_lines::put_lines;
use collate_records::records::Records;
use collate_records::rule::RecordsError;
use std::alloc::Global;

/// Two files of records.
#[derive(Drop)]
struct Pair {
    first: Records,
    second: Records,
}

/// Reads two files; the fault of the first that has one.
fn read_pair(alloc: Global, first: &[u8], second: &[u8]) -> Result<Pair, RecordsError> {
    Ok(Pair {
        first: Records::read(alloc, first)?,
        second: Records::read(alloc, second)?,
    })
}

/// Whether the settings are equal.
fn settings_answer(pair: &Pair) -> &'static str {
    if pair.first.settings_equal(&pair.second) {
        "equal"
    } else {
        "different"
    }
}

/// Whether the files say different things of a character.
fn changed_answer(pair: &Pair, word: &str) -> Option<&'static str> {
    let c = character(word)?;
    Some(if pair.first.changed(&pair.second, c) {
        "changed"
    } else {
        "same"
    })
}

/// Whether a text reaches a character under the first file.
fn reaches_answer(pair: &Pair, alloc: Global, words: &str) -> Option<&'static str> {
    let (text, asked) = words.split_once(' ')?;
    let text = bytes(alloc, text)?;
    let asked = characters(alloc, asked)?;
    Some(if pair.first.reaches(&text, |c| asked.contains(&c)) {
        "reaches"
    } else {
        "not"
    })
}

/// The answer to a question.
fn answer(pair: &Pair, alloc: Global, question: &str) -> Option<&'static str> {
    if question == "settings" {
        return Some(settings_answer(pair));
    }
    let (asked, words) = question.split_once(' ')?;
    match asked {
        "changed" => changed_answer(pair, words),
        "reaches" => reaches_answer(pair, alloc, words),
        _ => None,
    }
}

/// Whether a line of a paragraph is a question: it has no TAB.
fn is_question(line: &str) -> bool {
    !line.is_empty() && line.split_once('\t').is_none()
}

/// Prints a title with each question of some lines, and with its answer.
fn answer_questions(rt: &HostRuntime, title: &str, pair: &Pair, lines: &str) -> Option<()> {
    for line in lines.split('\n') {
        if is_question(line) {
            let answer = answer(pair, rt.alloc(), line)?;
            println!(rt; "{title}, {line}: {answer}").ok()?;
        }
    }
    Some(())
}

/// The bytes of the file that the other lines are.
fn second_file(alloc: Global, lines: &str) -> Option<Vec<u8>> {
    let mut file = Vec::new(alloc);
    for line in lines.split('\n') {
        if !line.is_empty() && !is_question(line) {
            put_lines(&mut file, line)?;
        }
    }
    Some(file)
}

/// Answers what is asked of a file and of the file of the same lines, or prints the first fault.
pub fn answer_pair(rt: &HostRuntime, title: &str, first: &[u8], lines: &str) -> Option<()> {
    let second = second_file(rt.alloc(), lines)?;
    match read_pair(rt.alloc(), first, second.as_slice()) {
        Ok(pair) => answer_questions(rt, title, &pair, lines),
        Err(error) => println!(rt; "{title}: {error}").ok(),
    }
}
