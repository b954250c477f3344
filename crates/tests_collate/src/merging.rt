//! Readers in order, merged.

use crate::failing::{FailingReader, FailingWriter, Failure};
use crate::letters::order_of;
use assertions::assert_same;
use collate_merge::column::{Column, Separator};
use collate_merge::merge::{MergeError, merge_lines};
use collate_merge::part::LinePart;
use collate_sort::Direction;
use std::alloc::Global;
use std::io::{BufReader, ErrorKind};
use std::test::Fail;

const FIRST: &[u8] = b"abe\nba\xCC\x81\nbab\nbe\nco\n";

const SECOND: &[u8] = b"ab\n\xE1\xBA\xA1\xCC\x81b\nb\xC3\xA1\ncab\ntb";

const THIRD: &[u8] = b"\na\xCC\x81\xCC\xA3b\n\xC3\xA1\xCC\xA3b\nba\nb\xC3\xA1\n";

/// What a merge of texts writes, whether or not it ends well.
fn merged(
    alloc: Global,
    direction: Direction,
    unique: bool,
    texts: &[&'static [u8]],
) -> Result<(Vec<u8>, Result<(), MergeError>), Fail> {
    let order = order_of(alloc, direction)?;
    let mut readers = Vec::new(alloc);
    for text in texts {
        readers.push(*text)?;
    }
    let mut written = Vec::new(alloc);
    let result = merge_lines(
        alloc,
        &order,
        LinePart::LINE,
        unique,
        b'\n',
        readers,
        &mut written,
    );
    Ok((written, result))
}

#[test]
fn ok_merge_lines(rt: HostRuntime) -> Result<(), Fail> {
    let (written, result) = merged(
        rt.alloc(),
        Direction::Ascending,
        false,
        &[FIRST, SECOND, THIRD],
    )?;
    result?;
    let expected: &[u8] =
        b"\nab\n\xE1\xBA\xA1\xCC\x81b\na\xCC\x81\xCC\xA3b\n\xC3\xA1\xCC\xA3b\nabe\nba\nba\xCC\x81\n\
b\xC3\xA1\nb\xC3\xA1\nbab\nbe\ncab\nco\ntb\n";
    assert_same!(rt; *written.as_slice(), *expected);
    Ok(())
}

#[test]
fn of_equal_lines_the_first_is_written(rt: HostRuntime) -> Result<(), Fail> {
    let (written, result) = merged(
        rt.alloc(),
        Direction::Ascending,
        true,
        &[FIRST, SECOND, THIRD],
    )?;
    result?;
    let expected: &[u8] =
        b"\nab\n\xE1\xBA\xA1\xCC\x81b\nabe\nba\nba\xCC\x81\nbab\nbe\ncab\nco\ntb\n";
    assert_same!(rt; *written.as_slice(), *expected);
    Ok(())
}

#[test]
fn equal_lines_stand_by_their_readers_where_the_greatest_is_first(
    rt: HostRuntime,
) -> Result<(), Fail> {
    let (written, result) = merged(
        rt.alloc(),
        Direction::Descending,
        false,
        &[
            b"co\nbe\nbab\nba\xCC\x81\nabe\n",
            b"tb\ncab\nb\xC3\xA1\n\xE1\xBA\xA1\xCC\x81b\nab\n",
            b"b\xC3\xA1\nba\na\xCC\x81\xCC\xA3b\n\xC3\xA1\xCC\xA3b\n\n",
        ],
    )?;
    result?;
    let expected: &[u8] =
        b"tb\nco\ncab\nbe\nbab\nba\xCC\x81\nb\xC3\xA1\nb\xC3\xA1\nba\nabe\n\xE1\xBA\xA1\xCC\x81b\n\
a\xCC\x81\xCC\xA3b\n\xC3\xA1\xCC\xA3b\nab\n\n";
    assert_same!(rt; *written.as_slice(), *expected);
    Ok(())
}

#[test]
fn no_reader_and_no_line_are_merged(rt: HostRuntime) -> Result<(), Fail> {
    let (written, result) = merged(rt.alloc(), Direction::Ascending, true, &[])?;
    result?;
    assert!(rt; written.is_empty());
    let (written, result) = merged(rt.alloc(), Direction::Ascending, false, &[b"", b"ab", b""])?;
    result?;
    assert_same!(rt; *written.as_slice(), *b"ab\n".as_slice());
    Ok(())
}

#[test]
fn line_out_of_order_is_told(rt: HostRuntime) -> Result<(), Fail> {
    let (written, result) = merged(
        rt.alloc(),
        Direction::Ascending,
        false,
        &[b"ab\nco\n", b"ba\nbe\nbab\n"],
    )?;
    assert!(rt; matches!(result, Err(MergeError::Unordered { reader: 1, line: 3 })));
    assert_same!(rt; *written.as_slice(), *b"ab\nba\nbe\n".as_slice());
    Ok(())
}

#[test]
fn fields_are_compared(rt: HostRuntime) -> Result<(), Fail> {
    let alloc = rt.alloc();
    let order = order_of(alloc, Direction::Ascending)?;
    let mut readers: Vec<&[u8]> = Vec::new(alloc);
    readers.push(b"co\0co;ab\0tb;ba\0")?;
    readers.push(b"ab;b\xC3\xA1\0ab;ba\xCC\x81")?;
    let part = LinePart {
        column: Column::Fields {
            separator: Separator::Byte(b';'),
            before: 1,
            count: Some(1),
        },
        crlf: false,
    };
    let mut written = Vec::new(alloc);
    merge_lines(alloc, &order, part, false, b'\0', readers, &mut written)?;
    let expected: &[u8] = b"co\0co;ab\0tb;ba\0ab;b\xC3\xA1\0ab;ba\xCC\x81\0";
    assert_same!(rt; *written.as_slice(), *expected);
    Ok(())
}

#[test]
fn a_carriage_return_before_the_end_isnt_compared(rt: HostRuntime) -> Result<(), Fail> {
    let alloc = rt.alloc();
    let order = order_of(alloc, Direction::Ascending)?;
    let mut readers: Vec<&[u8]> = Vec::new(alloc);
    readers.push(b"ab\r\nb\n")?;
    readers.push(b"ab\nb\r\n")?;
    let part = LinePart {
        column: Column::Line,
        crlf: true,
    };
    let mut written = Vec::new(alloc);
    merge_lines(alloc, &order, part, false, b'\n', readers, &mut written)?;
    let expected: &[u8] = b"ab\r\nab\nb\nb\r\n";
    assert_same!(rt; *written.as_slice(), *expected);
    Ok(())
}

/// A reader that gives three bytes a call, and fails after so many calls.
fn reader_of(
    alloc: Global,
    text: &'static [u8],
    calls: usize,
) -> Result<BufReader<FailingReader<'static>>, Fail> {
    let reader = FailingReader {
        text,
        most: 3,
        calls,
        kind: ErrorKind::ConnectionReset,
    };
    let buffered = BufReader::new(alloc, reader)?;
    Ok(buffered)
}

#[test]
fn read_fault_is_told(rt: HostRuntime) -> Result<(), Fail> {
    let alloc = rt.alloc();
    let order = order_of(alloc, Direction::Ascending)?;
    let mut readers = Vec::new(alloc);
    readers.push(reader_of(alloc, b"ab\nco\n", 9)?)?;
    readers.push(reader_of(alloc, b"ba\nbe\nbo\n", 2)?)?;
    let mut written = Vec::new(alloc);
    let result = merge_lines(
        alloc,
        &order,
        LinePart::LINE,
        false,
        b'\n',
        readers,
        &mut written,
    );
    assert!(rt;
        matches!(
            result,
            Err(MergeError::Read {
                reader: 1,
                error: _
            })
        )
    );
    assert_same!(rt; *written.as_slice(), *b"ab\nba\nbe\n".as_slice());
    Ok(())
}

#[test]
fn write_fault_is_told(rt: HostRuntime) -> Result<(), Fail> {
    let alloc = rt.alloc();
    for failure in [Failure::Error(ErrorKind::ConnectionReset), Failure::NoByte] {
        let order = order_of(alloc, Direction::Ascending)?;
        let mut readers: Vec<&[u8]> = Vec::new(alloc);
        readers.push(b"ab\nco\n")?;
        readers.push(b"ba\n")?;
        let mut written = Vec::new(alloc);
        let mut writer = FailingWriter {
            written: &mut written,
            most: 1,
            calls: 4,
            failure,
        };
        let result = merge_lines(
            alloc,
            &order,
            LinePart::LINE,
            false,
            b'\n',
            readers,
            &mut writer,
        );
        assert!(rt; matches!(result, Err(MergeError::Write(_))));
        assert_same!(rt; *written.as_slice(), *b"ab\nb".as_slice());
    }
    Ok(())
}
