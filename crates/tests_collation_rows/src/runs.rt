//! Runs of `collate` over the records.
//!
//! Such a paragraph begins with `run` and the program's words, of which the first is FILE, which is the records that count,
//! whatever it is called; `run` alone gives no word. Its lines are the commands, where `\xFF` is the byte FF, `\0` the byte 00,
//! `\t` a TAB. What is printed are the replies, a line each with such bytes written so, what is written to the errors, and the
//! status.

use crate::asked_texts::halves;
use bstr::{ByteSlice, ByteVec};
use collate_run::choice::Choice;
use collate_run::serve::serve;
use collate_run::watched::Watched;
use std::alloc::Global;

/// The words of a program; none where the text is empty.
fn words_of(alloc: Global, text: &str) -> Option<Vec<String>> {
    let mut words = Vec::new(alloc);
    if text.is_empty() {
        return Some(words);
    }
    for word in text.split(' ') {
        words.push(String::from_str(alloc, word).ok()?).ok()?;
    }
    Some(words)
}

/// Prints a line, with what isn't printable in it written as in a script.
fn print_line(rt: &HostRuntime, line: &[u8]) -> Option<()> {
    let mut is_first = true;
    for part in line.split_str(b" ") {
        if !is_first {
            print!(rt; " ").ok()?;
        }
        is_first = false;
        let shown = part.escape_bytes();
        print!(rt; "{shown}").ok()?;
    }
    println!(rt; "").ok()
}

/// Prints the lines of bytes.
fn print_lines(rt: &HostRuntime, bytes: &[u8]) -> Option<()> {
    for line in bytes.lines() {
        print_line(rt, line)?;
    }
    Some(())
}

/// Serves these words over a file, and prints what that writes, and its status.
fn serve_words(rt: &HostRuntime, file: &[u8], words: &[String], commands: &[u8]) -> Option<()> {
    let alloc = rt.alloc();
    let choice = Choice::read(words);
    let (mut replies, mut errors) = (Vec::new(alloc), Vec::new(alloc));
    let mut reader = Watched::new(commands);
    let mut writer = Watched::new(&mut replies);
    let status = serve(
        alloc,
        choice.as_ref(),
        Ok(file),
        &mut reader,
        &mut writer,
        &mut errors,
    );
    print_lines(rt, &replies)?;
    print_lines(rt, &errors)?;
    println!(rt; "status {status}").ok()
}

/// Serves the run of a paragraph, if it is one, over records.
pub fn serve_run(rt: &HostRuntime, records: &str, kind: &str, lines: &str) -> Option<()> {
    let (asked, words) = halves(kind, ' ');
    if asked != "run" {
        return None;
    }
    let words = words_of(rt.alloc(), words)?;
    let commands = Vec::unescape_bytes(rt.alloc(), lines).ok()?;
    serve_words(rt, records.as_bytes(), &words, &commands)
}
