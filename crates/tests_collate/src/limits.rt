//! Limits: how a file at them and one past them are answered, by `Records`, by an index and by the program.

use crate::commands::words_of;
use crate::letters::{LETTERS, PREFERENCES, PRIMARY};
use crate::reloads::joined;
use assertions::assert_same;
use collate_index::index::{Index, ReloadError};
use collate_records::records::Records;
use collate_records::rule::{RecordFault, RecordsError, Rule};
use collate_run::program::serve_words;
use collate_run::setup::{Limits, Setup};
use collate_run::watched::Watched;
use std::alloc::{AllocError, Global};
use std::io;
use std::random::RandomSource;
use std::test::Fail;

/// Lines of records, each of a text of its own: of one character, or of two of few characters.
fn lines(alloc: Global, count: u16, width: u16) -> Result<Vec<u8>, AllocError> {
    let mut text = Vec::new(alloc);
    for place in 0..count {
        let line = if width < 2 {
            let text = 0x4E00 + u32::from(place);
            format!(in alloc; "w {text:04X} ;\n")?
        } else {
            let first = 0x4E00 + u32::from(place / width);
            let second = 0x4E00 + u32::from(place % width);
            format!(in alloc; "w {first:04X} {second:04X} ;\n")?
        };
        text.extend_from_slice(line.as_bytes())?;
    }
    Ok(text)
}

/// How a file is refused within limits; `None` where it is accepted.
fn refusal(alloc: Global, file: &[u8], limits: Limits) -> Option<RecordsError> {
    Records::read_within(alloc, file, limits).err()
}

/// The refusal for a rule at a line.
fn fault(line: usize, rule: Rule) -> Option<RecordsError> {
    Some(RecordsError::Fault(RecordFault { line, rule }))
}

#[test]
fn a_code_point_more(rt: HostRuntime) -> Result<(), Fail> {
    let alloc = rt.alloc();
    let most = lines(alloc, 150, 1)?;
    let more = lines(alloc, 151, 1)?;
    assert_same!(rt; refusal(alloc, &most, Limits::STANDARD), None);
    assert_same!(rt; refusal(alloc, &more, Limits::STANDARD), fault(151, Rule::Limit));
    assert_same!(rt; refusal(alloc, &more, Limits::UNICODE), None);
    assert_same!(rt; Records::read(alloc, &more).err(), fault(151, Rule::Limit));
    Ok(())
}

#[test]
fn a_record_more(rt: HostRuntime) -> Result<(), Fail> {
    let alloc = rt.alloc();
    let most = lines(alloc, 1000, 25)?;
    let more = lines(alloc, 1001, 25)?;
    assert_same!(rt; refusal(alloc, &most, Limits::STANDARD), None);
    assert_same!(rt; refusal(alloc, &more, Limits::STANDARD), fault(1001, Rule::Limit));
    assert_same!(rt; refusal(alloc, &more, Limits::UNICODE), None);
    Ok(())
}

#[test]
fn a_byte_more(rt: HostRuntime) -> Result<(), Fail> {
    let alloc = rt.alloc();
    let limits = Limits {
        bytes: 11,
        code_points: 1,
        records: 1,
    };
    assert_same!(rt; refusal(alloc, b"w 4E00 ;\n\n\n", limits), None);
    assert_same!(rt; refusal(alloc, b"w 4E00 ;\n\n\n\n", limits), fault(4, Rule::Grammar));
    assert_same!(rt; refusal(alloc, b"\nw 4E00 ; \n", limits), fault(2, Rule::Grammar));
    assert_same!(rt; refusal(
            alloc,
            b"w 4E00 4E01 ;\n",
            Limits {
                bytes: 14,
                ..limits
            }
        ), fault(1, Rule::Limit));
    assert_same!(rt; refusal(alloc, b"w 61 ;\n", Limits { bytes: 0, ..limits }), fault(1, Rule::Grammar));
    assert_same!(rt; refusal(alloc, b"", Limits { bytes: 0, ..limits }), None);
    Ok(())
}

#[test]
fn a_reload_goes_by_the_limits_of_its_index(rt: HostRuntime) -> Result<(), Fail> {
    let alloc = rt.alloc();
    let more = lines(alloc, 151, 1)?;
    let large = joined(alloc, &[LETTERS, more.as_slice()])?;
    let records = Records::read(alloc, LETTERS)?;
    assert_same!(rt; records.limits(), Limits::STANDARD);
    let mut index = Index::new(alloc, records, &PREFERENCES, &PRIMARY)?;
    assert!(rt;
        matches!(
            index.reload(&large),
            Err(ReloadError::Record(RecordFault {
                rule: Rule::Limit,
                ..
            }))
        )
    );
    let records = Records::read_within(alloc, LETTERS, Limits::UNICODE)?;
    assert_same!(rt; records.limits(), Limits::UNICODE);
    let mut index = Index::new(alloc, records, &PREFERENCES, &PRIMARY)?;
    assert_same!(rt; index.reload(&large), Ok(0));
    assert_same!(rt; index.reload(&large), Ok(0));
    Ok(())
}

/// What the program answers for FILE and commands: its status, and what it writes and tells.
fn served(
    alloc: Global,
    limits: Limits,
    file: io::Result<&[u8]>,
    has_input: bool,
    commands: &[u8],
) -> Result<(u8, Vec<u8>, Vec<u8>), Fail> {
    let words = words_of(alloc, &["a.records"])?;
    let (mut written, mut told) = (Vec::new(alloc), Vec::new(alloc));
    let mut reader = Watched::new(commands);
    let mut writer = Watched::new(&mut written);
    let status = serve_words(
        alloc,
        Setup {
            limits,
            ..Setup::STANDARD
        },
        &words,
        |_: &str| file,
        has_input,
        &mut reader,
        &mut writer,
        &mut told,
    );
    Ok((status, written, told))
}

#[test]
fn the_program_reads_one_byte_past_the_limit(rt: HostRuntime) -> Result<(), Fail> {
    let alloc = rt.alloc();
    let limits = Limits {
        bytes: 11,
        code_points: 1,
        records: 1,
    };
    let rows: [(&[u8], u8, &[u8]); 3] = [
        (b"w 4E00 ;\n\n\n", 0, b""),
        (b"w 4E00 ;\n\n\n\n", 1, b"collate: refused 4 grammar\n"),
        (b"w 4E00 ;\n\n\n\nx\n", 1, b"collate: refused 4 grammar\n"),
    ];
    for (file, status, text) in rows {
        let answer = served(alloc, limits, Ok(file), true, b"add a\nlist\n")?;
        assert_same!(rt; answer.0, status);
        assert_same!(rt; *answer.2.as_slice(), *text);
    }
    Ok(())
}

#[test]
fn want_of_an_input_is_told_behind_faults_of_the_file(rt: HostRuntime) -> Result<(), Fail> {
    let alloc = rt.alloc();
    let memory = served(alloc, Limits::STANDARD, Ok(LETTERS), false, b"list\n")?;
    assert_same!(rt; memory.0, 1);
    assert_same!(rt; *memory.2.as_slice(), *b"collate: memory\n".as_slice());
    let lacking = io::Error::from(io::ErrorKind::NotFound);
    let unreadable = served(alloc, Limits::STANDARD, Err(lacking), false, b"list\n")?;
    assert_same!(rt; unreadable.0, 1);
    assert_same!(rt; *unreadable.2.as_slice(), *b"collate: cannot read a.records\n".as_slice());
    Ok(())
}

#[test]
fn a_reload_takes_lines_past_its_limit(rt: HostRuntime) -> Result<(), Fail> {
    let alloc = rt.alloc();
    let limits = Limits {
        bytes: 11,
        code_points: 1,
        records: 1,
    };
    let rows: [(&[u8], &[u8]); 3] = [
        (b"reload 3\nw 4E00 ;\n\n\nlist\n", b"reloaded 0\nnames 0\n"),
        (
            b"reload 4\nw 4E00 ;\n\n\n\nlist\n",
            b"refused 4 grammar\nnames 0\n",
        ),
        (
            b"reload 7\nw 4E00 ;\n\n\n\nx\nx\nlist\nlist\n",
            b"refused 4 grammar\nnames 0\n",
        ),
    ];
    for (commands, replies) in rows {
        let answer = served(alloc, limits, Ok(b"".as_slice()), true, commands)?;
        assert_same!(rt; answer.0, 0);
        assert_same!(rt; *answer.1.as_slice(), *replies);
    }
    Ok(())
}

/// A source that has no random bytes.
struct NoSource;

impl RandomSource for NoSource {
    fn fill_bytes(&self, _: &mut [u8]) -> io::Result<()> {
        Err(io::Error::from(io::ErrorKind::Unsupported))
    }
}

#[test]
fn ok_seeded(rt: HostRuntime) {
    assert_same!(rt; Setup::UNICODE.seeded(&NoSource), Setup::UNICODE);
    let setup = Setup::UNICODE.seeded(&rt);
    assert_same!(rt; setup.limits, Limits::UNICODE);
    assert!(rt; setup.seed != Setup::UNICODE.seed);
}
