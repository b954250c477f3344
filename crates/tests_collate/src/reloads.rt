//! Reloads, of an index and by whole runs. Expected values come from the specification's worked examples, and from an
//! independent reading of the file format.

use crate::letters::{LETTERS, PREFERENCES, PRIMARY};
use crate::names::{index_of, lists};
use assertions::assert_same;
use collate_index::index::ReloadError;
use collate_records::records::Records;
use collate_records::rule::{RecordFault, Rule};
use collate_run::run::{self, RunFault};
use collate_run::watched::Watched;
use std::alloc::{AllocError, Global};
use std::test::Fail;

/// "ch" between l and o.
pub(crate) const CH: &[u8] = b"w 0063 0068 ; [2A400000.0500.0.0500.0]\n";

/// Texts, one after another.
pub(crate) fn joined(alloc: Global, texts: &[&[u8]]) -> Result<Vec<u8>, AllocError> {
    let mut whole = Vec::new(alloc);
    for text in texts {
        whole.extend_from_slice(text)?;
    }
    Ok(whole)
}

#[test]
fn ok_reload(rt: HostRuntime) -> Result<(), Fail> {
    let alloc = rt.alloc();
    let mut index = index_of(alloc, &PRIMARY, &[b"ch", b"cl", b"ab"])?;
    assert!(rt; lists(&index, &[b"ab", b"ch", b"cl"]));
    let changed = joined(alloc, &[LETTERS, CH])?;
    assert_same!(rt; index.reload(&changed), Ok(2));
    assert!(rt; lists(&index, &[b"ab", b"cl", b"ch"]));
    let fault = RecordFault {
        line: 1,
        rule: Rule::Grammar,
    };
    assert_same!(rt; index.reload(b"w 61 ;\n"), Err(ReloadError::Record(fault)));
    assert!(rt; lists(&index, &[b"ab", b"cl", b"ch"]));
    let set = joined(alloc, &[LETTERS, CH, b"set backward on\n"])?;
    assert_same!(rt; index.reload(&set), Ok(3));
    assert_same!(rt; index.reload(&set), Ok(0));
    Ok(())
}

/// What a run over records writes at the primary level, and how it ends.
fn ran(
    alloc: Global,
    file: &[u8],
    commands: &[&[u8]],
) -> Result<(Vec<u8>, Result<(), RunFault>), Fail> {
    let records = Records::read(alloc, file)?;
    let commands = joined(alloc, commands)?;
    let mut written = Vec::new(alloc);
    let mut reader = Watched::new(commands.as_slice());
    let mut writer = Watched::new(&mut written);
    let result = run::run(
        alloc,
        records,
        &PREFERENCES,
        &PRIMARY,
        &mut reader,
        &mut writer,
    );
    Ok((written, result))
}

#[test]
fn a_reload_changes_the_order_of_names(rt: HostRuntime) -> Result<(), Fail> {
    let alloc = rt.alloc();
    let prefixed = b"w 0061 0062 0063 | 0065 ; [2AA00000.0500.0.0500.0]\n";
    let rows: [(&[&[u8]], &[u8], Result<(), RunFault>); 3] = [
        (
            &[
                b"add ch\nadd cl\nadd ab\nlist\nadd ab\nbetween a\tch\nbetween ch\ta\nreload 16\n",
                LETTERS,
                CH,
                b"list\nreload 1\nw 61 ;\nlist\nremove x\nadd\nreload 2\nx\n",
            ],
            b"added\nadded\nadded\nnames 3\nab\nch\ncl\nduplicate\nnames 2\nab\nch\nnames 0\n\
              reloaded 2\nnames 3\nab\ncl\nch\nrefused 1 grammar\nnames 3\nab\ncl\nch\nabsent\nbad\n",
            Err(RunFault::CutReload),
        ),
        (
            &[
                b"add abce\nadd abch\nlist\nreload 16\n",
                LETTERS,
                prefixed,
                b"list\n",
            ],
            b"added\nadded\nnames 2\nabce\nabch\nreloaded 1\nnames 2\nabch\nabce\n",
            Ok(()),
        ),
        (
            &[b"add ch\nadd cl\nadd ab\nreload 0\nlist\nreload 0"],
            b"added\nadded\nadded\nreloaded 3\nnames 3\nab\nch\ncl\nreloaded 0\n",
            Ok(()),
        ),
    ];
    for (commands, replies, end) in rows {
        let (text, result) = ran(alloc, LETTERS, commands)?;
        assert_same!(rt; *text.as_slice(), *replies);
        assert_same!(rt; result, end);
    }
    Ok(())
}

#[test]
fn a_reload_takes_the_lines_behind_it(rt: HostRuntime) -> Result<(), Fail> {
    let alloc = rt.alloc();
    let rows: [(&[u8], &[u8], Result<(), RunFault>); 8] = [
        (b"reload 01\nreload 10000000\n", b"bad\nbad\n", Ok(())),
        (
            b"reload\nreload \nreload +1\nreload 1 \nreload 1x",
            b"bad\nbad\nbad\nbad\nbad\n",
            Ok(()),
        ),
        (b"reload 9999999\nx\n", b"", Err(RunFault::CutReload)),
        (b"reload 1\nw 61 ;", b"refused 1 grammar\n", Ok(())),
        (b"reload 1", b"", Err(RunFault::CutReload)),
        (b"reload 2\nw 61 ;", b"", Err(RunFault::CutReload)),
        (b"list\nreload 1\n", b"names 0\n", Err(RunFault::CutReload)),
        (
            b"reload 2\nlist\nlist\nlist\n",
            b"refused 1 grammar\nnames 0\n",
            Ok(()),
        ),
    ];
    for (commands, replies, end) in rows {
        let (text, result) = ran(alloc, LETTERS, &[commands])?;
        assert_same!(rt; *text.as_slice(), *replies);
        assert_same!(rt; result, end);
    }
    Ok(())
}

#[test]
fn a_record_line_may_be_as_long_as_a_command(rt: HostRuntime) -> Result<(), Fail> {
    let alloc = rt.alloc();
    let longest = vec![in alloc; b'x'; 65_536]?;
    let commands: [&[u8]; 3] = [b"reload 1\n", &longest, b"\nlist\n"];
    let (text, result) = ran(alloc, LETTERS, &commands)?;
    assert_eq!(rt; text.as_slice(), b"refused 1 grammar\nnames 0\n".as_slice());
    assert_eq!(rt; result, Ok(()));
    let commands: [&[u8]; 3] = [b"reload 2\n", &longest, b"x"];
    let (text, result) = ran(alloc, LETTERS, &commands)?;
    assert_eq!(rt; text.as_slice(), b"".as_slice());
    assert_eq!(rt; result, Err(RunFault::LineTooLong));
    Ok(())
}
