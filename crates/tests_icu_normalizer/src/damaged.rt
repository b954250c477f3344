//! Bytes and units with their normal forms, as an independent reading of the definitions gives them. What is damaged reads
//! as U+FFFD (EF BF BD in bytes): once for each longest part that begins a character, else for each byte, and for each
//! surrogate that stands alone.

/// A text in units of an encoding, its NFD and its NFC.
pub type Row<'r, U> = (&'r [U], &'r [U], &'r [U]);

/// Bytes, damaged in each way and not at all.
pub static BYTES: [Row<'static, u8>; 42] = [
    // a byte that may only stand after others: before a mark, at the end, and between marks
    (
        b"\x80\xcc\xa3\xc3\xa1",
        b"\xef\xbf\xbd\xcc\xa3a\xcc\x81",
        b"\xef\xbf\xbd\xcc\xa3\xc3\xa1",
    ),
    (b"ab\x80", b"ab\xef\xbf\xbd", b"ab\xef\xbf\xbd"),
    (
        b"b\xcc\xa3\xcc\x81\x80\xcc\xa3",
        b"b\xcc\xa3\xcc\x81\xef\xbf\xbd\xcc\xa3",
        b"b\xcc\xa3\xcc\x81\xef\xbf\xbd\xcc\xa3",
    ),
    // one that stands nowhere
    (
        b"\xff\xcc\xa3\xc3\xa1",
        b"\xef\xbf\xbd\xcc\xa3a\xcc\x81",
        b"\xef\xbf\xbd\xcc\xa3\xc3\xa1",
    ),
    (b"ab\xff", b"ab\xef\xbf\xbd", b"ab\xef\xbf\xbd"),
    (
        b"b\xcc\xa3\xcc\x81\xff\xcc\xa3",
        b"b\xcc\xa3\xcc\x81\xef\xbf\xbd\xcc\xa3",
        b"b\xcc\xa3\xcc\x81\xef\xbf\xbd\xcc\xa3",
    ),
    // sequences that are cut: of two bytes, of three and of four
    (
        b"\xc3\xcc\xa3\xc3\xa1",
        b"\xef\xbf\xbd\xcc\xa3a\xcc\x81",
        b"\xef\xbf\xbd\xcc\xa3\xc3\xa1",
    ),
    (b"ab\xc3", b"ab\xef\xbf\xbd", b"ab\xef\xbf\xbd"),
    (
        b"b\xcc\xa3\xcc\x81\xc3\xcc\xa3",
        b"b\xcc\xa3\xcc\x81\xef\xbf\xbd\xcc\xa3",
        b"b\xcc\xa3\xcc\x81\xef\xbf\xbd\xcc\xa3",
    ),
    (
        b"\xe1\xba\xcc\xa3\xc3\xa1",
        b"\xef\xbf\xbd\xcc\xa3a\xcc\x81",
        b"\xef\xbf\xbd\xcc\xa3\xc3\xa1",
    ),
    (b"ab\xe1\xba", b"ab\xef\xbf\xbd", b"ab\xef\xbf\xbd"),
    (
        b"b\xcc\xa3\xcc\x81\xe1\xba\xcc\xa3",
        b"b\xcc\xa3\xcc\x81\xef\xbf\xbd\xcc\xa3",
        b"b\xcc\xa3\xcc\x81\xef\xbf\xbd\xcc\xa3",
    ),
    (
        b"\xf0\x9f\x98\xcc\xa3\xc3\xa1",
        b"\xef\xbf\xbd\xcc\xa3a\xcc\x81",
        b"\xef\xbf\xbd\xcc\xa3\xc3\xa1",
    ),
    (b"ab\xf0\x9f\x98", b"ab\xef\xbf\xbd", b"ab\xef\xbf\xbd"),
    (
        b"b\xcc\xa3\xcc\x81\xf0\x9f\x98\xcc\xa3",
        b"b\xcc\xa3\xcc\x81\xef\xbf\xbd\xcc\xa3",
        b"b\xcc\xa3\xcc\x81\xef\xbf\xbd\xcc\xa3",
    ),
    // numbers with leading zeros, in two bytes and in three
    (
        b"\xc0\xaf\xcc\xa3\xc3\xa1",
        b"\xef\xbf\xbd\xef\xbf\xbd\xcc\xa3a\xcc\x81",
        b"\xef\xbf\xbd\xef\xbf\xbd\xcc\xa3\xc3\xa1",
    ),
    (
        b"ab\xc0\xaf",
        b"ab\xef\xbf\xbd\xef\xbf\xbd",
        b"ab\xef\xbf\xbd\xef\xbf\xbd",
    ),
    (
        b"b\xcc\xa3\xcc\x81\xc0\xaf\xcc\xa3",
        b"b\xcc\xa3\xcc\x81\xef\xbf\xbd\xef\xbf\xbd\xcc\xa3",
        b"b\xcc\xa3\xcc\x81\xef\xbf\xbd\xef\xbf\xbd\xcc\xa3",
    ),
    (
        b"\xe0\x80\xaf\xcc\xa3\xc3\xa1",
        b"\xef\xbf\xbd\xef\xbf\xbd\xef\xbf\xbd\xcc\xa3a\xcc\x81",
        b"\xef\xbf\xbd\xef\xbf\xbd\xef\xbf\xbd\xcc\xa3\xc3\xa1",
    ),
    (
        b"ab\xe0\x80\xaf",
        b"ab\xef\xbf\xbd\xef\xbf\xbd\xef\xbf\xbd",
        b"ab\xef\xbf\xbd\xef\xbf\xbd\xef\xbf\xbd",
    ),
    (
        b"b\xcc\xa3\xcc\x81\xe0\x80\xaf\xcc\xa3",
        b"b\xcc\xa3\xcc\x81\xef\xbf\xbd\xef\xbf\xbd\xef\xbf\xbd\xcc\xa3",
        b"b\xcc\xa3\xcc\x81\xef\xbf\xbd\xef\xbf\xbd\xef\xbf\xbd\xcc\xa3",
    ),
    // a surrogate
    (
        b"\xed\xa0\x80\xcc\xa3\xc3\xa1",
        b"\xef\xbf\xbd\xef\xbf\xbd\xef\xbf\xbd\xcc\xa3a\xcc\x81",
        b"\xef\xbf\xbd\xef\xbf\xbd\xef\xbf\xbd\xcc\xa3\xc3\xa1",
    ),
    (
        b"ab\xed\xa0\x80",
        b"ab\xef\xbf\xbd\xef\xbf\xbd\xef\xbf\xbd",
        b"ab\xef\xbf\xbd\xef\xbf\xbd\xef\xbf\xbd",
    ),
    (
        b"b\xcc\xa3\xcc\x81\xed\xa0\x80\xcc\xa3",
        b"b\xcc\xa3\xcc\x81\xef\xbf\xbd\xef\xbf\xbd\xef\xbf\xbd\xcc\xa3",
        b"b\xcc\xa3\xcc\x81\xef\xbf\xbd\xef\xbf\xbd\xef\xbf\xbd\xcc\xa3",
    ),
    // a number past U+10FFFF
    (
        b"\xf4\x90\x80\x80\xcc\xa3\xc3\xa1",
        b"\xef\xbf\xbd\xef\xbf\xbd\xef\xbf\xbd\xef\xbf\xbd\xcc\xa3a\xcc\x81",
        b"\xef\xbf\xbd\xef\xbf\xbd\xef\xbf\xbd\xef\xbf\xbd\xcc\xa3\xc3\xa1",
    ),
    (
        b"ab\xf4\x90\x80\x80",
        b"ab\xef\xbf\xbd\xef\xbf\xbd\xef\xbf\xbd\xef\xbf\xbd",
        b"ab\xef\xbf\xbd\xef\xbf\xbd\xef\xbf\xbd\xef\xbf\xbd",
    ),
    (
        b"b\xcc\xa3\xcc\x81\xf4\x90\x80\x80\xcc\xa3",
        b"b\xcc\xa3\xcc\x81\xef\xbf\xbd\xef\xbf\xbd\xef\xbf\xbd\xef\xbf\xbd\xcc\xa3",
        b"b\xcc\xa3\xcc\x81\xef\xbf\xbd\xef\xbf\xbd\xef\xbf\xbd\xef\xbf\xbd\xcc\xa3",
    ),
    // damage beside what changes
    (
        b"\xffa\xcc\x88\xff",
        b"\xef\xbf\xbda\xcc\x88\xef\xbf\xbd",
        b"\xef\xbf\xbd\xc3\xa4\xef\xbf\xbd",
    ),
    (
        b"a\xcc\x81\xff\xcc\x81\xcc\xa3",
        b"a\xcc\x81\xef\xbf\xbd\xcc\xa3\xcc\x81",
        b"\xc3\xa1\xef\xbf\xbd\xcc\xa3\xcc\x81",
    ),
    (
        b"\xea\xb0\x81\x80",
        b"\xe1\x84\x80\xe1\x85\xa1\xe1\x86\xa8\xef\xbf\xbd",
        b"\xea\xb0\x81\xef\xbf\xbd",
    ),
    (
        b"\xe1\x84\x80\xf0\x9f\xe1\x85\xa1",
        b"\xe1\x84\x80\xef\xbf\xbd\xe1\x85\xa1",
        b"\xe1\x84\x80\xef\xbf\xbd\xe1\x85\xa1",
    ),
    // nothing damaged
    (b"", b"", b""),
    (b"ab", b"ab", b"ab"),
    (b"\xc3\xa1", b"a\xcc\x81", b"\xc3\xa1"),
    (
        b"a\xcc\x81\xcc\xa3",
        b"a\xcc\xa3\xcc\x81",
        b"\xe1\xba\xa1\xcc\x81",
    ),
    (
        b"a\xcc\x81\xef\xbf\xbd",
        b"a\xcc\x81\xef\xbf\xbd",
        b"\xc3\xa1\xef\xbf\xbd",
    ),
    // characters of four bytes
    (
        b"\xf0\x9f\x98\x80",
        b"\xf0\x9f\x98\x80",
        b"\xf0\x9f\x98\x80",
    ),
    (
        b"\xf0\x9f\x98\x80\xcc\x81\xcc\xa3",
        b"\xf0\x9f\x98\x80\xcc\xa3\xcc\x81",
        b"\xf0\x9f\x98\x80\xcc\xa3\xcc\x81",
    ),
    (
        b"a\xf0\x9f\x98\x80\xc3\xa4",
        b"a\xf0\x9f\x98\x80a\xcc\x88",
        b"a\xf0\x9f\x98\x80\xc3\xa4",
    ),
    (
        b"\xf0\x91\x82\x9a",
        b"\xf0\x91\x82\x99\xf0\x91\x82\xba",
        b"\xf0\x91\x82\x9a",
    ),
    (
        b"\xf0\x91\x82\x99\xf0\x91\x82\xba\xcc\x81",
        b"\xf0\x91\x82\x99\xf0\x91\x82\xba\xcc\x81",
        b"\xf0\x91\x82\x9a\xcc\x81",
    ),
    (
        b"\xf0\x91\x82\x99\xcc\x81\xf0\x91\x82\xba",
        b"\xf0\x91\x82\x99\xf0\x91\x82\xba\xcc\x81",
        b"\xf0\x91\x82\x9a\xcc\x81",
    ),
];

/// Units, damaged in each way and not at all.
pub static UNITS: [Row<'static, u16>; 27] = [
    // a high surrogate: before a mark, at the end, and between marks
    (
        &[0xd800, 0x323, 0xe1],
        &[0xfffd, 0x323, 0x61, 0x301],
        &[0xfffd, 0x323, 0xe1],
    ),
    (
        &[0x61, 0x62, 0xd800],
        &[0x61, 0x62, 0xfffd],
        &[0x61, 0x62, 0xfffd],
    ),
    (
        &[0x62, 0x323, 0x301, 0xd800, 0x323],
        &[0x62, 0x323, 0x301, 0xfffd, 0x323],
        &[0x62, 0x323, 0x301, 0xfffd, 0x323],
    ),
    // a low one
    (
        &[0xdfff, 0x323, 0xe1],
        &[0xfffd, 0x323, 0x61, 0x301],
        &[0xfffd, 0x323, 0xe1],
    ),
    (
        &[0x61, 0x62, 0xdfff],
        &[0x61, 0x62, 0xfffd],
        &[0x61, 0x62, 0xfffd],
    ),
    (
        &[0x62, 0x323, 0x301, 0xdfff, 0x323],
        &[0x62, 0x323, 0x301, 0xfffd, 0x323],
        &[0x62, 0x323, 0x301, 0xfffd, 0x323],
    ),
    // both, the low one first
    (
        &[0xdc00, 0xd800, 0x323, 0xe1],
        &[0xfffd, 0xfffd, 0x323, 0x61, 0x301],
        &[0xfffd, 0xfffd, 0x323, 0xe1],
    ),
    (
        &[0x61, 0x62, 0xdc00, 0xd800],
        &[0x61, 0x62, 0xfffd, 0xfffd],
        &[0x61, 0x62, 0xfffd, 0xfffd],
    ),
    (
        &[0x62, 0x323, 0x301, 0xdc00, 0xd800, 0x323],
        &[0x62, 0x323, 0x301, 0xfffd, 0xfffd, 0x323],
        &[0x62, 0x323, 0x301, 0xfffd, 0xfffd, 0x323],
    ),
    // damage beside what changes, and beside a pair
    (
        &[0xdc00, 0x61, 0x308, 0xd800],
        &[0xfffd, 0x61, 0x308, 0xfffd],
        &[0xfffd, 0xe4, 0xfffd],
    ),
    (
        &[0x61, 0x301, 0xdc00, 0x301, 0x323],
        &[0x61, 0x301, 0xfffd, 0x323, 0x301],
        &[0xe1, 0xfffd, 0x323, 0x301],
    ),
    (
        &[0xac01, 0xd800],
        &[0x1100, 0x1161, 0x11a8, 0xfffd],
        &[0xac01, 0xfffd],
    ),
    (
        &[0x1100, 0xdc00, 0x1161],
        &[0x1100, 0xfffd, 0x1161],
        &[0x1100, 0xfffd, 0x1161],
    ),
    (
        &[0xd83d, 0xd83d, 0xde00, 0xde00],
        &[0xfffd, 0xd83d, 0xde00, 0xfffd],
        &[0xfffd, 0xd83d, 0xde00, 0xfffd],
    ),
    (
        &[0xd804, 0xdc99, 0xd804],
        &[0xd804, 0xdc99, 0xfffd],
        &[0xd804, 0xdc99, 0xfffd],
    ),
    // nothing damaged
    (&[], &[], &[]),
    (&[0x61, 0x62], &[0x61, 0x62], &[0x61, 0x62]),
    (&[0xe1], &[0x61, 0x301], &[0xe1]),
    (
        &[0x61, 0x301, 0x323],
        &[0x61, 0x323, 0x301],
        &[0x1ea1, 0x301],
    ),
    (
        &[0x61, 0x301, 0xfffd],
        &[0x61, 0x301, 0xfffd],
        &[0xe1, 0xfffd],
    ),
    // pairs
    (&[0xd83d, 0xde00], &[0xd83d, 0xde00], &[0xd83d, 0xde00]),
    (
        &[0xd83d, 0xde00, 0x301, 0x323],
        &[0xd83d, 0xde00, 0x323, 0x301],
        &[0xd83d, 0xde00, 0x323, 0x301],
    ),
    (
        &[0x61, 0xd83d, 0xde00, 0xe4],
        &[0x61, 0xd83d, 0xde00, 0x61, 0x308],
        &[0x61, 0xd83d, 0xde00, 0xe4],
    ),
    (
        &[0xd800, 0xdc00, 0xdbff, 0xdfff],
        &[0xd800, 0xdc00, 0xdbff, 0xdfff],
        &[0xd800, 0xdc00, 0xdbff, 0xdfff],
    ),
    (
        &[0xd804, 0xdc9a],
        &[0xd804, 0xdc99, 0xd804, 0xdcba],
        &[0xd804, 0xdc9a],
    ),
    (
        &[0xd804, 0xdc99, 0xd804, 0xdcba, 0x301],
        &[0xd804, 0xdc99, 0xd804, 0xdcba, 0x301],
        &[0xd804, 0xdc9a, 0x301],
    ),
    (
        &[0xd804, 0xdc99, 0x301, 0xd804, 0xdcba],
        &[0xd804, 0xdc99, 0xd804, 0xdcba, 0x301],
        &[0xd804, 0xdc9a, 0x301],
    ),
];
