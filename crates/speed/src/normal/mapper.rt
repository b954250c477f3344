//! What the mapper of domain names gives of many texts.

ghost use Rattle.std.specs.Iterator.{IsFinite};

use super::forms::Worker;
use super::task::Task;
use icu_normalizer::uts46::{Uts46Mapper, Uts46MapperBorrowed};
use std::alloc::AllocError;

/// Prints the text of characters, a line, if they all come.
fn print_line<I: Iterator<Item = Result<char, AllocError>> + Drop>(
    rt: &HostRuntime,
    chars: I,
) -> Option<()>
    requires can { I.can_next chars }
    requires ends { IsFinite (I.remaining chars) }
{
    let mut text = String::new(rt.alloc());
    for c in chars {
        text.push(c.ok()?).ok()?;
    }
    println!(rt; "{}", text.as_str()).ok()
}

/// Prints what `map_normalize` gives of each line of a file, then what `normalize_validate` does, a line each; the answer is
/// how many bytes the file has.
fn show_lines(rt: &HostRuntime, mapper: Uts46MapperBorrowed<'_>, file: &str) -> Option<usize> {
    let alloc = rt.alloc();
    for text in file.lines() {
        print_line(rt, mapper.map_normalize(alloc, text.chars()))?;
        print_line(rt, mapper.normalize_validate(alloc, text.chars()))?;
    }
    Some(file.len())
}

impl Worker for Uts46Mapper<'_> {
    fn work(&self, rt: &HostRuntime, file: &[u8], _task: &Task<'_>) -> Option<usize> {
        show_lines(rt, self.as_borrowed(), str::from_utf8(file).ok()?)
    }
}
