//! The check of collation tables: a function for each kind of fault.

pub(crate) mod apart;
pub(crate) mod context_rules;
pub(crate) mod digits;
pub(crate) mod faults;
pub(crate) mod flags;
pub(crate) mod forms;
pub(crate) mod indices;
pub(crate) mod keys;
pub(crate) mod layers;
pub(crate) mod prefixes;
pub(crate) mod records;
pub(crate) mod refused_characters;
pub(crate) mod runs;
pub(crate) mod suffixes;
pub(crate) mod values;
pub(crate) mod walks;
pub(crate) mod weights;

use std::alloc::AllocError;
use std::error::Error;
use std::fmt;

/// Why tables are no collation data. The causes are looked for in this order, and where one names a character, it
/// is the root's least, or the tailoring's least where there is none in the root.
#[derive(Clone, Copy, Debug, PartialEq, Eq)]
pub enum TableFault {
    /// The trie has no word for the character.
    Trie(char),
    /// The word of the character, or one that stands within it, has none of the forms that may stand there; or the
    /// character is U+FFFE, U+FFFD or U+FFFF, and its word says something else than what the character is.
    Word(char),
    /// The word of the character, or one that stands within it, names an index that is not in the lists, or no items.
    Index(char),
    /// The context of the character breaks the grammar of unit tries, or a rule on contexts.
    Context(char),
    /// An element of the character breaks a rule on weights.
    Weight(char),
    /// The bytes of a weight begin those of another one on its level.
    PrefixOfWeight,
    /// The secondaries of marks are too many or too few, or break a rule on weights.
    Diacritics,
    /// The word of the jamo at this index in its table is missing, or is not one with a sound element.
    Jamo(usize),
    /// The table of leads lacks some, or sends two to one, or moves one that stays.
    Reordering,
    /// The groups, the lead of numbers or the compressible leads break the rules on settings.
    SpecialPrimaries,
    /// Out of memory.
    Memory,
}

impl fmt::Display for TableFault {
    ghost use Rattle.std.specs.Prelude.{Some};
    ghost use Rattle.icu_collator_core.specs.TableFaults.{fault_text};

    ghost output = { λ fault. Some (fault_text fault) };

    fn fmt<W: fmt::Write>(&self, f: &mut fmt::Formatter<W>) -> fmt::Result {
        match self {
            TableFault::Trie(c) => write!(f, "no word at {:X}", *c as u32),
            TableFault::Word(c) => write!(f, "bad word at {:X}", *c as u32),
            TableFault::Index(c) => write!(f, "bad index at {:X}", *c as u32),
            TableFault::Context(c) => write!(f, "bad context at {:X}", *c as u32),
            TableFault::Weight(c) => write!(f, "bad weight at {:X}", *c as u32),
            TableFault::PrefixOfWeight => f.write_str("a weight begins another one"),
            TableFault::Diacritics => f.write_str("bad diacritics"),
            TableFault::Jamo(i) => write!(f, "bad jamo at {}", *i),
            TableFault::Reordering => f.write_str("bad reordering"),
            TableFault::SpecialPrimaries => f.write_str("bad special primaries"),
            TableFault::Memory => f.write_str("out of memory"),
        }
    }
}

impl Error for TableFault {}

impl From<AllocError> for TableFault {
    ghost use Rattle.std.specs.Prelude.{◌≡◌};
    ghost use Rattle.icu_collator_core.specs.declared.check.TableFault.TheVariants.{Memory};

    ghost from_gives = { λ _ error. error ≡ Memory };

    fn from(_: AllocError) -> TableFault {
        TableFault::Memory
    }
}
