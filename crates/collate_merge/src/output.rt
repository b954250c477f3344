//! Lines written, of equal ones the first alone if that is wanted.

ghost use Rattle.std.specs.Prelude.{◌≡◌, ◌&&◌, ℕ, List, Option, None, IfErr, OnOk};
ghost use Rattle.collate_keyed_lines.specs.KeyedLines.{turned};
ghost use Rattle.collate_lists.specs.Names.{is_equal};
ghost use Rattle.collate_rules.specs.Accepted.{AreAccepted};
ghost use Rattle.collate_merge.specs.KeyOrder.{byte_order};
ghost use Rattle.collate_merge.specs.Merges.{Merge, order_in, text_of};
ghost use Rattle.collate_merge.specs.Sending.{IsOfWriting, Sends};
ghost use Rattle.collate_merge.specs.Sources.{IsOutput, KeepsKey, key_in};
ghost use Rattle.collate_merge.specs.Written.{last_behind, written_of};

use crate::compare::is_same;
use crate::errors::MergeError;
use crate::writing::write_line;
use collate_keyed_lines::direction::Direction;
use std::alloc::Global;
use std::io::Write;

/// How lines are written, and the key of the last.
#[derive(Drop)]
pub struct Output {
    direction: Direction,
    /// Whether of equal lines the first alone is written.
    unique: bool,
    separator: u8,
    /// The key of the last line that was written, if equal ones aren't.
    last: Vec<u8>,
    has_last: bool,
}

impl Output {
    /// Lines written so; none has been.
    pub fn new(alloc: Global, direction: Direction, unique: bool, separator: u8) -> Output
        ensures { (m : Merge) → m.rule.direction ≡ direction → m.unique ≡ unique → m.separator ≡ separator → IsOutput m None result }
    {
        Output {
            direction,
            unique,
            separator,
            last: Vec::new(alloc),
            has_last: false,
        }
    }

    /// Whether a key is that of the last line.
    fn repeats_last(&self, key: &[u8]) -> bool
        ensures { result ≡ (self.now.has_last && is_equal (turned self.now.direction byte_order key.now self.now.last.items)) }
    {
        self.has_last && is_same(self.direction, key, &self.last)
    }

    /// Keeps a key as that of the last line.
    ///
    /// Errors: `Memory` where memory is refused; no key is then kept.
    fn keep(&mut self, key: &[u8]) -> Result<(), MergeError>
        ensures kept { OnOk result (KeepsKey key.now self.old self.new) }
        ensures fault { IfErr result IsOfWriting }
    {
        self.last.clear();
        self.has_last = false;
        match self.last.extend_from_slice(key) {
            Ok(()) => {}
            Err(_) => return Err(MergeError::Memory),
        }
        self.has_last = true;
        Ok(())
    }

    /// Writes a line, unless equal ones aren't written and it is equal to the last.
    ///
    /// Errors: `Write` and `Memory` of `MergeError`; a first part of the line may then be written.
    pub fn put<W: Write>(
        &mut self,
        writer: &mut W,
        line: &[u8],
        key: &[u8],
    ) -> Result<(), MergeError>
        ensures sent { (m : Merge) (last : Option (List ℕ)) → AreAccepted m.rule.records.lines → IsOutput m last self.old → key.now ≡ key_in m line.now
            → Sends result (W.contents writer.old) (W.contents writer.new) (text_of m.separator (written_of m.unique (order_in m) last line.now)) }
        ensures kept { (m : Merge) (last : Option (List ℕ)) → AreAccepted m.rule.records.lines → IsOutput m last self.old → key.now ≡ key_in m line.now
            → OnOk result (IsOutput m (last_behind m.unique (order_in m) last line.now) self.new) }
        ensures fault { IfErr result IsOfWriting }
    {
        if !self.unique {
            return write_line(writer, line, self.separator);
        }
        if self.repeats_last(key) {
            return Ok(());
        }
        match self.keep(key) {
            Ok(()) => write_line(writer, line, self.separator),
            Err(error) => Err(error),
        }
    }
}
