//! Lines read one at a time.

use crate::failing::FailingReader;
use assertions::assert_same;
use collate_merge::lines::{LineReader, ReadLineError};
use std::io::{BufReader, ErrorKind};
use std::test::Fail;

#[test]
fn ok_next(rt: HostRuntime) -> Result<(), Fail> {
    let bytes: &[u8] = b"ab;;c";
    let mut lines = LineReader::new(bytes, b';');
    let mut line = Vec::new(rt.alloc());
    assert!(rt; lines.next(&mut line)?);
    assert_same!(rt; *line.as_slice(), *b"ab".as_slice());
    assert!(rt; lines.next(&mut line)?);
    assert_same!(rt; *line.as_slice(), *b"".as_slice());
    assert!(rt; lines.next(&mut line)?);
    assert_same!(rt; *line.as_slice(), *b"c".as_slice());
    assert!(rt; !lines.next(&mut line)?);
    Ok(())
}

#[test]
fn fault_in_a_line_is_told(rt: HostRuntime) -> Result<(), Fail> {
    let reader = FailingReader {
        text: b"ab\ncde",
        most: 5,
        calls: 1,
        kind: ErrorKind::ConnectionReset,
    };
    let mut lines = LineReader::new(BufReader::new(rt.alloc(), reader)?, b'\n');
    let mut line = Vec::new(rt.alloc());
    assert!(rt; lines.next(&mut line)?);
    assert!(rt; matches!(lines.next(&mut line), Err(ReadLineError::Read(_))));
    assert_same!(rt; *line.as_slice(), *b"cd".as_slice());
    Ok(())
}
