//! `sort_names`: puts the lines of files in the order of a records file (README.md).
#![tactic(auto)]

mod content;
mod csv_lists;
mod draft;
mod faults;
mod fields;
mod flags;
mod help;
mod operands;
mod output;
mod output_files;
mod parts;
mod progress;
mod records_files;
mod request;
mod run;
mod shown;
mod texts;
mod unnamed;
mod word_faults;
mod words;

use help::{HELP, VERSION};
use request::Asked;
use run::{Ended, run};
use std::alloc::Global;
use std::process::ExitCode;
use std::{env, io};
use words::read_words;

/// The words of the program, without its name. An error if one isn't UTF-8.
fn given_words(rt: &HostRuntime) -> io::Result<Vec<String>> {
    let mut words = Vec::new(rt.alloc());
    for word in env::args(rt)?.skip(1) {
        words.push(word)?;
    }
    Ok(words)
}

/// Prints a text. Answers the status.
fn print_text(rt: &HostRuntime, text: &str) -> u8 {
    match print!(rt; "{text}") {
        Ok(()) => 0,
        Err(error) if error.kind() == io::ErrorKind::BrokenPipe => 0,
        Err(error) => {
            let _ = eprintln!(rt; "sort_names: cannot write: {error}");
            2
        }
    }
}

/// Does what the words ask for; parts are kept in the folder `temporary`, if no other is given. Answers the status.
fn serve(rt: &HostRuntime, alloc: Global, words: &[String], temporary: &str) -> u8 {
    let request = match read_words(alloc, words, temporary) {
        Ok(Asked::Help) => return print_text(rt, HELP),
        Ok(Asked::Version) => return print_text(rt, VERSION),
        Ok(Asked::Run(request)) => request,
        Err(fault) => {
            let _ = eprintln!(rt; "sort_names: {fault}");
            return 2;
        }
    };
    match run(rt, &request) {
        Ok(Ended::Well) => 0,
        Ok(Ended::OutOfOrder) => 1,
        Err(fault) => {
            let _ = eprintln!(rt; "sort_names: {fault}");
            2
        }
    }
}

fn main(rt: HostRuntime) -> ExitCode {
    let given = match given_words(&rt) {
        Ok(words) => match env::temp_dir(&rt) {
            Ok(temporary) => Ok((words, temporary)),
            Err(error) => Err(error),
        },
        Err(error) => Err(error),
    };
    match given {
        Ok((words, temporary)) => {
            ExitCode::from(serve(&rt, rt.alloc(), &words, temporary.as_str()))
        }
        Err(error) if error.kind() == io::ErrorKind::OutOfMemory => {
            let _ = eprintln!(rt; "sort_names: memory");
            ExitCode::from(2)
        }
        Err(_) => {
            let _ = eprintln!(rt; "sort_names: a word is not UTF-8");
            ExitCode::from(2)
        }
    }
}
