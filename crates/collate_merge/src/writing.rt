//! Bytes written, and how many of them where a write fails.

ghost use Rattle.std.specs.Prelude.{◌∷◌, ◌++◌, [], IfErr};
ghost use Rattle.collate_merge.specs.Sending.{IsOfWriting, Sends};

use crate::errors::MergeError;
use std::io::{ErrorKind, Write};

/// Writes a line and what ends it, as `write_whole` does.
pub fn write_line<W: Write>(writer: &mut W, line: &[u8], separator: u8) -> Result<(), MergeError>
    ensures sent { Sends result (W.contents writer.old) (W.contents writer.new) (line.now ++ separator ∷ []) }
    ensures fault { IfErr result IsOfWriting }
{
    match write_whole(writer, line) {
        Ok(()) => write_whole(writer, &[separator]),
        Err(error) => Err(error),
    }
}

/// Writes all bytes, up to the first call that fails, an interrupted one too, or takes no byte.
///
/// Errors: `MergeError::Write`; a first part is then written.
fn write_whole<W: Write>(writer: &mut W, bytes: &[u8]) -> Result<(), MergeError>
    ensures sent { Sends result (W.contents writer.old) (W.contents writer.new) bytes.now }
    ensures fault { IfErr result IsOfWriting }
{
    let mut rest = bytes;
    'writes: while !rest.is_empty() {
        match writer.write(rest) {
            Ok(taken) if taken > 0 => rest = &rest[taken..],
            Ok(_) => return Err(MergeError::Write(ErrorKind::WriteZero.into())),
            Err(error) => return Err(MergeError::Write(error)),
        }
    }
    Ok(())
}
