//! The limits of a records file, as a value.

/// How large a records file may be (docs/RECORDS.md, rule `limit`). A file within these limits has at most eight characters
/// and eight elements a line and 1,024 bytes a line, whatever they are, and fits the tables.
#[derive(Clone, Copy, Debug, PartialEq, Eq)]
pub struct Limits {
    /// The most bytes of the file.
    pub bytes: usize,
    /// The most different code points that its lines name, each range counted as one more.
    pub code_points: usize,
    /// The most lines that say something.
    pub records: usize,
}

impl Limits {
    /// The limits of `Records::read` and of the program `collate`: 1,048,576 bytes, 150 code points, 1,000 records.
    pub const STANDARD: Limits = Limits {
        bytes: 1_048_576,
        code_points: 150,
        records: 1_000,
    };

    /// Limits for the whole of Unicode: 67,108,864 bytes, and as many code points and records as there are code points.
    pub const UNICODE: Limits = Limits {
        bytes: 67_108_864,
        code_points: 1_114_112,
        records: 1_114_112,
    };
}
