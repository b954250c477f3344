//! The values of `-k`, `-t` and `-S`.

use collate_merge::column::{Column, Separator};

/// Whole fields of a line, as `-k` gives them.
#[derive(Clone, Copy, Debug, PartialEq, Eq)]
pub struct Fields {
    /// How many fields stand before.
    pub before: usize,
    /// How many fields it is; `None` for all to the end of the line.
    pub count: Option<usize>,
}

impl Fields {
    /// The column of these fields, between which a byte stands, or blanks.
    pub fn column(self, separator: Option<u8>) -> Column {
        Column::Fields {
            separator: match separator {
                Some(byte) => Separator::Byte(byte),
                None => Separator::Blanks,
            },
            before: self.before,
            count: self.count,
        }
    }
}

/// The number that digits write; `None` where there is none, or another character, or it is past all numbers.
fn number_of(digits: &str) -> Option<usize> {
    if digits.is_empty() || !digits.bytes().all(|byte| byte.is_ascii_digit()) {
        return None;
    }
    digits.parse().ok()
}

/// The fields that `F` or `F,G` gives: the Fth to the last, or to the Gth. `None` where F is no number from 1 on, or G none
/// from F on.
pub fn fields_of(text: &str) -> Option<Fields> {
    let (first, last) = match text.split_once(',') {
        Some((first, last)) => (number_of(first)?, Some(number_of(last)?)),
        None => (number_of(text)?, None),
    };
    if first == 0 {
        return None;
    }
    let before = first - 1;
    match last {
        Some(last) if last < first => None,
        Some(last) => Some(Fields {
            before,
            count: Some(last - before),
        }),
        None => Some(Fields {
            before,
            count: None,
        }),
    }
}

/// The byte that a word gives: its only one, or NUL where it is `\0`. `None` for any other.
pub fn separator_of(text: &str) -> Option<u8> {
    match text.as_bytes() {
        [byte] => Some(*byte),
        b"\\0" => Some(0),
        _ => None,
    }
}

/// How many bytes of memory a word gives: a number of KiB, or one after which the letter of another unit stands: `b` for
/// bytes, `K`, `M`, `G` or `T`. `None` for any other, and past all numbers.
pub fn size_of(text: &str) -> Option<usize> {
    let units: [(char, usize); 5] = [
        ('b', 1),
        ('K', 1 << 10),
        ('M', 1 << 20),
        ('G', 1 << 30),
        ('T', 1 << 40),
    ];
    for (letter, unit) in units {
        if let Some(digits) = text.strip_suffix(letter) {
            return number_of(digits)?.checked_mul(unit);
        }
    }
    number_of(text)?.checked_mul(1 << 10)
}
