//! What the reader of records files is asked, a line each: `read`, what it answers to the records.

use collate_records::records::Records;

/// Prints a title with what the reader answers to a file.
pub fn print_read(rt: &HostRuntime, title: &str, file: &[u8]) -> Option<()> {
    match Records::read(rt.alloc(), file) {
        Ok(_) => println!(rt; "{title}: accepted").ok(),
        Err(error) => println!(rt; "{title}: {error}").ok(),
    }
}

/// Prints the answer to a question.
fn answer_line(rt: &HostRuntime, records: &str, line: &str) -> Option<()> {
    if line != "read" {
        return None;
    }
    print_read(rt, line, records.as_bytes())
}

/// Asks the reader what these lines do; `None` where one asks nothing.
pub fn ask_reader(rt: &HostRuntime, records: &str, lines: &str) -> Option<()> {
    for line in lines.lines() {
        answer_line(rt, records, line)?;
    }
    Some(())
}
