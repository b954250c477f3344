//! What is recorded of the texts that begin with one character.

use icu_collator_types::elements::Element;

/// What stands beside a character, and the elements that it has there.
#[derive(Clone, Copy)]
pub struct Beside<'a> {
    /// The characters after it or before it, in reading order.
    pub characters: &'a [char],
    /// The elements of the character with them.
    pub elements: &'a [Element],
}

/// What is true of the suffixes of a character.
#[derive(Clone, Copy)]
pub struct SuffixFlags {
    /// Each begins with a mark.
    pub all_begin: bool,
    /// One ends in a mark.
    pub one_ends: bool,
    /// One holds a starter.
    pub one_holds: bool,
}

/// What is recorded of the texts that begin with one character.
#[derive(Drop)]
pub struct Entry<'a> {
    /// The elements of the character alone.
    pub own: Option<&'a [Element]>,
    /// What moves the primary of a range to the character, 64 bits, where it has no elements of its own: the primary of
    /// the range's first character (32 bits), that character (24), whether the lead is compressible (1), the step (7).
    pub offset: Option<u64>,
    /// Its value as a digit.
    pub digit: Option<u8>,
    /// What stands after it in longer texts.
    pub suffixes: Vec<Beside<'a>>,
    /// What stands before it in prefixes.
    pub prefixes: Vec<Beside<'a>>,
    /// What is true of its suffixes.
    pub flags: SuffixFlags,
}
