//! What is asked about: records, and texts with marks enough that reading them takes memory.

/// Letters and marks, a text of two letters, a prefix, digits, a range, a letter of the tailoring, compatibility mappings and
/// settings.
pub const RECORDS: &[u8] = b"class 0302 230
class 0323 220
map 00E1 0061 0301
map 1EA1 0061 0323
map 01FB 00E5 0301
map 00E5 0061 030A
class 030A 230
kmap FB06 0073 0074
w 0061 ; [2A100000.0500.0.0500.0]
w 0062 ; [2A200000.0500.0.0500.0]
w 0063 ; [2A300000.0500.0.0500.0]
w 0068 ; [2A800000.0500.0.0500.0]
w 006C ; [2AC00000.0500.0.0500.0]
w 0073 ; [2B300000.0500.0.0500.0]
w 0074 ; [2B400000.0500.0.0500.0]
w 0063 0068 ; [2A400000.0500.0.0500.0]
w 0062 | 0061 ; [2A180000.0500.0.0500.0] [2A190000.0500.0.0500.0]
w 0301 ; [0.8800.0.0500.0]
w 0302 ; [0.8A00.0.0500.0]
w 0323 ; [0.8C00.0.0500.0]
w 0031 ; [11110000.0500.0.0500.0]
digit 0031 1
range 4E00 9FFF E0020200 1
t 006C ; [2A900000.0500.0.0500.0]
set compress 2A 2B
set reorder 2A 2B 2B 2A
";

/// The same with other weights of U+0062, and a line that adds a text.
pub const OTHER_RECORDS: &[u8] = b"class 0302 230
class 0323 220
map 00E1 0061 0301
map 1EA1 0061 0323
map 01FB 00E5 0301
map 00E5 0061 030A
class 030A 230
kmap FB06 0073 0074
w 0061 ; [2A100000.0500.0.0500.0]
w 0062 ; [2A880000.0500.0.0500.0]
w 0063 ; [2A300000.0500.0.0500.0]
w 0068 ; [2A800000.0500.0.0500.0]
w 006C ; [2AC00000.0500.0.0500.0]
w 0073 ; [2B300000.0500.0.0500.0]
w 0074 ; [2B400000.0500.0.0500.0]
w 0063 0068 ; [2A400000.0500.0.0500.0]
w 0062 | 0061 ; [2A180000.0500.0.0500.0] [2A190000.0500.0.0500.0]
w 0301 ; [0.8800.0.0500.0]
w 0302 ; [0.8A00.0.0500.0]
w 0323 ; [0.8C00.0.0500.0]
w 0031 ; [11110000.0500.0.0500.0]
digit 0031 1
range 4E00 9FFF E0020200 1
t 006C ; [2A900000.0500.0.0500.0]
set compress 2A 2B
set reorder 2A 2B 2B 2A
";

/// A line that is no record.
pub const NO_RECORDS: &[u8] = b"w 61 ;\n";

/// A text of one letter.
pub const SHORT: &str = "a";

/// A text whose marks don't stand in order, some after a letter, some in one.
pub const LONG: &str =
    "ch1\u{e1}\u{302}\u{323}\u{302}\u{323}\u{302}\u{323}\u{302}\u{323}\u{302}\u{323}\
    \u{302}\u{323}\u{302}\u{323}\u{302}\u{323}\u{302}\u{323}\u{302}\u{323}\u{302}\u{323}\u{302}\u{323}\
    \u{302}\u{323}\u{302}\u{323}\u{302}\u{323}\u{4e00}\u{fb06}ba";

/// Another, which differs from it in its last letter.
pub const OTHER: &str =
    "ch1\u{e1}\u{302}\u{323}\u{302}\u{323}\u{302}\u{323}\u{302}\u{323}\u{302}\u{323}\
    \u{302}\u{323}\u{302}\u{323}\u{302}\u{323}\u{302}\u{323}\u{302}\u{323}\u{302}\u{323}\u{302}\u{323}\
    \u{302}\u{323}\u{302}\u{323}\u{302}\u{323}\u{4e00}\u{fb06}bb";

/// A letter with marks that don't stand in order.
pub const MARKED: &str =
    "a\u{302}\u{323}\u{302}\u{323}\u{302}\u{323}\u{302}\u{323}\u{302}\u{323}\u{302}\u{323}";

/// The marks of `LONG` in units, after one that is damaged.
pub const UNITS: [u16; 36] = [
    0xd800, 0x61, 0x302, 0x323, 0x302, 0x323, 0x302, 0x323, 0x302, 0x323, 0x302, 0x323, 0x302,
    0x323, 0x302, 0x323, 0x302, 0x323, 0x302, 0x323, 0x302, 0x323, 0x302, 0x323, 0x302, 0x323,
    0x302, 0x323, 0x302, 0x323, 0x302, 0x323, 0x4e00, 0x62, 0x61, 0x6c,
];

/// The same, but for the last unit.
pub const OTHER_UNITS: [u16; 36] = [
    0xd800, 0x61, 0x302, 0x323, 0x302, 0x323, 0x302, 0x323, 0x302, 0x323, 0x302, 0x323, 0x302,
    0x323, 0x302, 0x323, 0x302, 0x323, 0x302, 0x323, 0x302, 0x323, 0x302, 0x323, 0x302, 0x323,
    0x302, 0x323, 0x302, 0x323, 0x302, 0x323, 0x4e00, 0x62, 0x61, 0x73,
];

/// A letter with a mark, again and again, in Latin-1.
pub const LATIN1: [u8; 40] = [0xe1; 40];

/// The same in units, and the letter alone at the end.
pub const LATIN1_UNITS: [u16; 40] = [
    0xe1, 0xe1, 0xe1, 0xe1, 0xe1, 0xe1, 0xe1, 0xe1, 0xe1, 0xe1, 0xe1, 0xe1, 0xe1, 0xe1, 0xe1, 0xe1,
    0xe1, 0xe1, 0xe1, 0xe1, 0xe1, 0xe1, 0xe1, 0xe1, 0xe1, 0xe1, 0xe1, 0xe1, 0xe1, 0xe1, 0xe1, 0xe1,
    0xe1, 0xe1, 0xe1, 0xe1, 0xe1, 0xe1, 0xe1, 0x61,
];
