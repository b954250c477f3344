//! The paragraphs of a script that are files of records.
//!
//! Each is a file: its title, and its lines, each after a TAB. Before the TAB may stand how many times a line is there, or `-`
//! where its LF is left out. After a title that begins with `+` stand lines that follow those of the last file whose title
//! doesn't. A paragraph that begins with `#` is a comment.
//!
//! After a title that begins with `?` stand the lines of a second file, and, without a TAB, questions on both: the first is the
//! last one whose title begins with neither `+` nor `?` (module `file_pairs`).
//!
//! A title is printed with `accepted`, or with the line and the rule of the first fault; that of two files with each question
//! and its answer.

use crate::asked_texts::halves;
use crate::file_lines::put_file;
use crate::file_pairs::answer_pair;
use crate::files::print_read;

/// Answers a paragraph, whose lines stand on those of a file or ask of it; the bytes of the file that counts for the next
/// ones. `None` where a line isn't one of a file's, or memory is refused.
pub fn answer_file(rt: &HostRuntime, below: Vec<u8>, paragraph: &str) -> Option<Vec<u8>> {
    let (title, lines) = halves(paragraph, '\n');
    if title.is_empty() || title.starts_with('#') {
        return Some(below);
    }
    if title.starts_with('?') {
        answer_pair(rt, title, below.as_slice(), lines)?;
        return Some(below);
    }
    let mut file = Vec::new(rt.alloc());
    let stands_on = title.starts_with('+');
    if stands_on {
        file.extend_from_slice(below.as_slice()).ok()?;
    }
    put_file(&mut file, lines)?;
    print_read(rt, title, file.as_slice())?;
    Some(if stands_on { below } else { file })
}
