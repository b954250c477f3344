//! The bytes of a file that a script has in lines.

/// Puts a line of a file after its bytes; `None` where memory is refused.
fn put_line(file: &mut Vec<u8>, line: &str) -> Option<()> {
    file.extend_from_slice(line.as_bytes()).ok()?;
    file.push(b'\n').ok()
}

/// Puts what a line of a script says of a file after the file's bytes: a line without LF after `-` and a TAB, else the line
/// after the TAB, as often as the number before it says, or once. `None` where it is no such line, or memory is refused.
pub fn put_lines(file: &mut Vec<u8>, said: &str) -> Option<()> {
    let (count, line) = said.split_once('\t')?;
    if count == "-" {
        return file.extend_from_slice(line.as_bytes()).ok();
    }
    let count: u32 = if count.is_empty() {
        1
    } else {
        count.parse().ok()?
    };
    for _copy in 0..count {
        put_line(file, line)?;
    }
    Some(())
}

/// Puts the lines that a script has of a file after the file's bytes; `None` where one isn't a line of a file, or memory is
/// refused.
pub fn put_file(file: &mut Vec<u8>, lines: &str) -> Option<()> {
    for said in lines.split('\n') {
        if !said.is_empty() {
            put_lines(file, said)?;
        }
    }
    Some(())
}
