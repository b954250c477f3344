//! The paragraphs of a script.

use crate::asked::ask_collators;
use crate::asked_texts::halves;
use crate::element_rows::ask_tables;
use crate::file_paragraphs::answer_file;
use crate::files::ask_reader;
use crate::forms::ask_normalisers;
use crate::provider::try_changes;
use crate::runs::serve_run;
use std::alloc::Global;

/// The records that count.
#[derive(Clone, Copy)]
struct Records<'s> {
    /// The lines of a file.
    file: &'s str,
    /// The lines after those.
    more: &'s str,
}

impl<'s> Records<'s> {
    /// All lines; `None` where memory is refused.
    fn lines(self, alloc: Global) -> Option<String> {
        let Records { file, more } = self;
        format!(in alloc; "{file}\n{more}").ok()
    }

    /// The records that count after a paragraph.
    fn behind(self, kind: &str, lines: &'s str) -> Records<'s> {
        match kind {
            "records" => Records {
                file: lines,
                more: "",
            },
            "more" => Records {
                file: self.file,
                more: lines,
            },
            _ => self,
        }
    }
}

/// Answers the questions of a paragraph over records.
fn answer_over(rt: &HostRuntime, records: &str, kind: &str, lines: &str) -> Option<()> {
    match kind {
        "file" => ask_reader(rt, records, lines),
        "normalisers" => ask_normalisers(rt, records, lines),
        "collators" => ask_collators(rt, records, lines),
        "tables" => ask_tables(rt, records, lines),
        "provider" => try_changes(rt, records, lines),
        _ => serve_run(rt, records, kind, lines),
    }
}

/// Answers the questions of a paragraph, if it has some.
fn answer_paragraph(rt: &HostRuntime, records: Records<'_>, kind: &str, lines: &str) -> Option<()> {
    if kind.starts_with('#') || kind == "records" || kind == "more" {
        return Some(());
    }
    println!(rt; "{kind}").ok()?;
    let records = records.lines(rt.alloc())?;
    answer_over(rt, records.as_str(), kind, lines)
}

/// Answers the paragraphs of a script, which are files behind the one that says so; `None` where a line isn't one of a
/// script's, or memory is refused.
pub fn answer_script(rt: &HostRuntime, script: &str) -> Option<()> {
    let mut records = Records { file: "", more: "" };
    let mut below = Vec::new(rt.alloc());
    let mut are_files = false;
    for paragraph in script.split("\n\n") {
        if are_files {
            below = answer_file(rt, below, paragraph)?;
        } else if paragraph == "files" {
            are_files = true;
        } else {
            let (kind, lines) = halves(paragraph, '\n');
            records = records.behind(kind, lines);
            answer_paragraph(rt, records, kind, lines)?;
        }
    }
    Some(())
}
