//! The bytes of a key while it is written.

pub(super) mod short_primaries;

ghost use Rattle.std.specs.Prelude.{◌≡◌, ◌≤◌, ◌∷◌, [], ◌++◌, false, true, take, OnOk};

use std::alloc::{AllocError, Global};
use std::marker::Model;

/// How many bytes a key has room for without memory.
const ROOM: usize = 512;

/// The bytes of a key: the first of them in an array, and once that is full all of them in memory.
pub(crate) struct KeyBytes {
    /// The bytes, as long as they fit.
    array: [u8; ROOM],
    /// How many of the array count; all, where the bytes don't fit.
    length: usize,
    /// Whether they don't fit.
    is_long: bool,
    /// The bytes that don't fit.
    list: Vec<u8>,
}

// (let go of as one, and not part by part, so that what owns one is proved sooner)
impl Drop for KeyBytes {
    fn drop(self) {
        let KeyBytes {
            array: _,
            length: _,
            is_long: _,
            list: _,
        } = self;
    }
}

impl Model for KeyBytes {
    ghost use Rattle.std.specs.Prelude.{◌≡◌, ◌≤◌, cond, take, true};
    ghost use Rattle.icu_collator.specs.KeyBuffers.{KeyItems};

    ghost Value = { KeyItems };

    ghost view = { λ inside. record { items = cond inside.is_long inside.list.items (take inside.length inside.array) } };

    ghost invariant = { λ inside. (inside.length ≤ 512) × (inside.is_long ≡ true → inside.length ≡ 512) };
}

impl KeyBytes {
    /// No byte. No memory is taken.
    pub(crate) fn new(alloc: Global) -> KeyBytes
        ensures { result.items ≡ [] }
    {
        KeyBytes {
            array: [0; ROOM],
            length: 0,
            is_long: false,
            list: Vec::new(alloc),
        }
    }

    /// The allocator that longer keys get their memory from.
    pub(crate) fn allocator(&self) -> Global {
        *self.list.allocator()
    }

    /// All bytes.
    pub(crate) fn as_slice(&self) -> &[u8]
        ensures { result.now ≡ self.now.items }
    {
        if self.is_long {
            self.list.as_slice()
        } else {
            &self.array[..self.length]
        }
    }

    /// Appends a byte. Fails only if memory is refused, and not while there is room.
    #[inline(always)]
    pub(crate) fn push(&mut self, byte: u8) -> Result<(), AllocError>
        ensures ok { OnOk result (self.new.items ≡ self.old.items ++ byte ∷ []) }
    {
        if self.length < ROOM {
            self.array[self.length] = byte;
            self.length += 1;
            return Ok(());
        }
        self.push_long(byte)
    }

    /// Appends so many of four bytes, where there is room for all four without memory; else nothing.
    #[inline(always)]
    pub(crate) fn put(&mut self, first: u8, second: u8, third: u8, fourth: u8, count: usize) -> bool
        requires { count ≤ 4 }
        ensures put { result ≡ true → self.new.items ≡ self.old.items ++ take count (first ∷ second ∷ third ∷ fourth ∷ []) }
        ensures full { result ≡ false → self.new.items ≡ self.old.items }
    {
        let index = self.length;
        if index > ROOM - 4 {
            return false;
        }
        self.array[index] = first;
        self.array[index + 1] = second;
        self.array[index + 2] = third;
        self.array[index + 3] = fourth;
        self.length = index + count;
        true
    }

    /// Whether there is room for two bytes without memory.
    #[inline(always)]
    pub(crate) fn has_room(&self) -> bool {
        self.length <= ROOM - 2
    }

    /// Appends two bytes, where there is room for both without memory; else nothing.
    #[inline(always)]
    pub(crate) fn put_two(&mut self, first: u8, second: u8) -> bool
        ensures put { result ≡ true → self.new.items ≡ self.old.items ++ first ∷ second ∷ [] }
        ensures full { result ≡ false → self.new.items ≡ self.old.items }
    {
        let index = self.length;
        if index > ROOM - 2 {
            return false;
        }
        self.array[index] = first;
        self.array[index + 1] = second;
        self.length = index + 2;
        true
    }

    /// Appends a byte to an array that is full, or to those that don't fit. Fails only if memory is refused.
    #[cold]
    #[inline(never)]
    fn push_long(&mut self, byte: u8) -> Result<(), AllocError>
        ensures { OnOk result (self.new.items ≡ self.old.items ++ byte ∷ []) }
    {
        if self.is_long {
            self.list.push(byte)?;
            return Ok(());
        }
        let mut list = self.array[..self.length].to_vec(self.allocator())?;
        list.push(byte)?;
        self.list = list;
        self.is_long = true;
        self.length = ROOM;
        Ok(())
    }
}
