//! What of a line is compared: all of it, or some of its fields.

ghost use Rattle.std.specs.Prelude.{◌≡◌, ◌≤◌, ◌==◌, length, not};
ghost use Rattle.std.specs.List.{prefix_len};
ghost use Rattle.collate_merge.specs.Columns.{behind_field, behind_fields, column_of, field_len, fields_end, is_blank};

/// What stands between the fields of a line.
#[derive(Clone, Copy, Debug, PartialEq, Eq)]
pub enum Separator {
    /// Spaces, tabs and line feeds: those before a field belong to it.
    Blanks,
    /// A byte, which belongs to no field.
    Byte(u8),
}

/// What of a line is compared.
#[derive(Clone, Copy, Debug, PartialEq, Eq)]
pub enum Column {
    /// All of it.
    Line,
    /// The fields after the first so many: as many as `count` says, or all to the end of the line. Fields that are missing
    /// are empty.
    Fields {
        /// What stands between fields.
        separator: Separator,
        /// How many fields stand before.
        before: usize,
        /// How many fields it is; `None` for all to the end of the line.
        count: Option<usize>,
    },
}

impl Column {
    /// What the column holds of a line. It asks for no memory.
    pub fn of<'l>(&self, line: &'l [u8]) -> &'l [u8]
        ensures { result.now ≡ column_of self.now line.now }
    {
        match *self {
            Column::Line => line,
            Column::Fields {
                separator,
                before,
                count,
            } => {
                let rest = past_fields(separator, before, line);
                match count {
                    Some(count) => &rest[..end_of_fields(separator, count, rest)],
                    None => rest,
                }
            }
        }
    }
}

/// Whether a byte is a space, a tab or a line feed.
fn is_blank(byte: u8) -> bool
    ensures { result ≡ is_blank byte }
{
    byte == b' ' || byte == b'\t' || byte == b'\n'
}

/// How many blanks a line begins with.
fn blanks_len(line: &[u8]) -> usize
    ensures len { result ≡ prefix_len (is_blank) line.now }
    ensures within { result ≤ length line.now }
{
    let mut rest = line;
    let mut passed = 0;
    while let Some((byte, others)) = rest.split_first() {
        if !is_blank(*byte) {
            return passed;
        }
        passed += 1;
        rest = others;
    }
    passed
}

/// How many bytes that aren't blanks a line begins with.
fn word_len(line: &[u8]) -> usize
    ensures len { result ≡ prefix_len (λ byte. not (is_blank byte)) line.now }
    ensures within { result ≤ length line.now }
{
    let mut rest = line;
    let mut passed = 0;
    while let Some((byte, others)) = rest.split_first() {
        if is_blank(*byte) {
            return passed;
        }
        passed += 1;
        rest = others;
    }
    passed
}

/// How many bytes a line has before a byte.
fn len_before(line: &[u8], separator: u8) -> usize
    ensures len { result ≡ prefix_len (λ byte. not (byte == separator)) line.now }
    ensures within { result ≤ length line.now }
{
    let mut rest = line;
    let mut passed = 0;
    while let Some((byte, others)) = rest.split_first() {
        if *byte == separator {
            return passed;
        }
        passed += 1;
        rest = others;
    }
    passed
}

/// How many bytes the first field of a line has.
fn field_len(separator: Separator, line: &[u8]) -> usize
    ensures len { result ≡ field_len separator line.now }
    ensures within { result ≤ length line.now }
{
    match separator {
        Separator::Blanks => {
            let blanks = blanks_len(line);
            blanks + word_len(&line[blanks..])
        }
        Separator::Byte(separator) => len_before(line, separator),
    }
}

/// A line after its first field, and after the byte that ends it.
fn past_field(separator: Separator, line: &[u8]) -> &[u8]
    ensures past { result.now ≡ behind_field separator line.now }
    ensures within { length result.now ≤ length line.now }
{
    let end = field_len(separator, line);
    match separator {
        Separator::Blanks => &line[end..],
        Separator::Byte(_) if end < line.len() => &line[end + 1..],
        Separator::Byte(_) => &[],
    }
}

/// A line after its first so many fields.
#[tactic(auto, using(crate::proofs::ColumnLemmas::behind_one, crate::proofs::ColumnLemmas::behind_none, crate::proofs::ColumnLemmas::behind_zero))]
fn past_fields(separator: Separator, count: usize, line: &[u8]) -> &[u8]
    ensures past { result.now ≡ behind_fields separator count line.now }
    ensures within { length result.now ≤ length line.now }
{
    let mut rest = line;
    let mut left = count;
    while left > 0 && !rest.is_empty() {
        rest = past_field(separator, rest);
        left -= 1;
    }
    rest
}

/// Where the first so many fields of a line end.
#[tactic(auto, using(crate::proofs::ColumnLemmas::end_is))]
fn end_of_fields(separator: Separator, count: usize, line: &[u8]) -> usize
    ensures end { result ≡ fields_end separator count line.now }
    ensures within { result ≤ length line.now }
{
    if count == 0 {
        return 0;
    }
    let last = past_fields(separator, count - 1, line);
    line.len() - last.len() + field_len(separator, last)
}
