//! Numbers that code points are packed into, with 21 bits for each.

/// Code points are below it: `packed % CODE_LIMIT` is the last one of a packed number.
pub(crate) const CODE_LIMIT: u64 = 0x20_0000;

/// Two packed code points are below it: `packed / TWO_CODES_LIMIT` is what stands before the last two.
pub(crate) const TWO_CODES_LIMIT: u64 = 0x400_0000_0000;
