//! What of a line is compared, where a CR at its end may belong to the end of the line.

ghost use Rattle.std.specs.Prelude.{◌≡◌};
ghost use Rattle.std.specs.Io.BufRead.{strip_last};
ghost use Rattle.collate_merge.specs.LineParts.{part_of};

use crate::column::Column;

/// What of a line is compared: a column of it, or of what stands before a CR at its end.
#[derive(Clone, Copy, Debug, PartialEq, Eq)]
pub struct LinePart {
    /// The column.
    pub column: Column,
    /// Whether a CR at the end of a line belongs to no column.
    pub crlf: bool,
}

impl LinePart {
    /// All of a line.
    pub const LINE: LinePart = LinePart {
        column: Column::Line,
        crlf: false,
    };

    /// What of a line is compared. It asks for no memory.
    pub fn of<'l>(&self, line: &'l [u8]) -> &'l [u8]
        ensures { result.now ≡ part_of self.now line.now }
    {
        if self.crlf {
            self.column.of(without_cr(line))
        } else {
            self.column.of(line)
        }
    }
}

/// A line without a CR at its end.
pub fn without_cr(line: &[u8]) -> &[u8]
    ensures { result.now ≡ strip_last 13 line.now }
{
    if !line.is_empty() && line[line.len() - 1] == b'\r' {
        &line[..line.len() - 1]
    } else {
        line
    }
}
