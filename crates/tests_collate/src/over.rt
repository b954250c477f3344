//! FILE put over a root: what is served of both, and each fault by the file that has its line.

use crate::commands::words_of;
use assertions::assert_same;
use collate_run::choice::Choice;
use collate_run::over::serve_over;
use collate_run::serve::FileFault;
use collate_run::setup::Setup;
use collate_run::watched::Watched;
use std::alloc::Global;
use std::test::Fail;

const ROOT: &[u8] =
    b"w 0061 ; [2A100000.0500.0.0500.0]\nw 0062 ; [2A200000.0500.0.0500.0]\nset numeric 0F\n";

/// Status, replies and errors of a run over these two files.
fn served(
    alloc: Global,
    root: Result<&[u8], FileFault>,
    file: Result<&[u8], FileFault>,
) -> Result<(u8, Vec<u8>, Vec<u8>), Fail> {
    let words = words_of(alloc, &["sv.records", "strength=primary"])?;
    let choice = Choice::read(&words);
    let (mut written, mut told) = (Vec::new(alloc), Vec::new(alloc));
    let mut reader = Watched::new(b"add a\nadd b\nlist\n".as_slice());
    let mut writer = Watched::new(&mut written);
    let status = serve_over(
        alloc,
        Setup::UNICODE,
        choice.as_ref(),
        "root.records",
        root,
        file,
        &mut reader,
        &mut writer,
        &mut told,
    );
    Ok((status, written, told))
}

#[test]
fn ok_serve_over(rt: HostRuntime) -> Result<(), Fail> {
    let alloc = rt.alloc();
    let alone = served(alloc, Ok(ROOT), Ok(b""))?;
    assert_same!(rt; alone.0, 0);
    assert_same!(rt; *alone.1.as_slice(), *b"added\nadded\nnames 2\na\nb\n".as_slice());
    // the t line has effect, and so has the setting that the root sets otherwise
    let over = served(
        alloc,
        Ok(ROOT),
        Ok(b"set numeric 10\nt 0062 ; [2A080000.0500.0.0500.0]"),
    )?;
    assert_same!(rt; over.0, 0);
    assert_same!(rt; *over.1.as_slice(), *b"added\nadded\nnames 2\nb\na\n".as_slice());
    assert_same!(rt; *over.2.as_slice(), *b"".as_slice());
    Ok(())
}

#[test]
fn faults_are_told_by_their_file(rt: HostRuntime) -> Result<(), Fail> {
    let alloc = rt.alloc();
    let unreadable = Err(FileFault::Unreadable);
    let rows: [(Result<&[u8], FileFault>, Result<&[u8], FileFault>, &[u8]); 8] = [
        (
            unreadable,
            unreadable,
            b"collate: cannot read root.records\n",
        ),
        (Ok(ROOT), unreadable, b"collate: cannot read sv.records\n"),
        (Err(FileFault::Memory), Ok(b""), b"collate: memory\n"),
        (Ok(ROOT), Err(FileFault::Memory), b"collate: memory\n"),
        (
            Ok(b"\nx"),
            Ok(b""),
            b"collate: refused 2 grammar root.records\n",
        ),
        (
            Ok(ROOT),
            Ok(b"\n\nx"),
            b"collate: refused 3 grammar sv.records\n",
        ),
        (
            Ok(ROOT),
            Ok(b"\n# without 0063"),
            b"collate: refused 2 without sv.records\n",
        ),
        // line 4 of the root, of which two lines are gone
        (
            Ok(b"w 0061 ;\nset numeric 0F\n\nw 0301 0061 ;"),
            Ok(b"class 0301 230\n# without 0061\nset numeric 10"),
            b"collate: refused 4 V8 root.records\n",
        ),
    ];
    for (root, file, text) in rows {
        let answer = served(alloc, root, file)?;
        assert_same!(rt; answer.0, 1);
        assert_same!(rt; *answer.1.as_slice(), *b"".as_slice());
        assert_same!(rt; *answer.2.as_slice(), *text);
    }
    Ok(())
}
