//! A tailoring put over a root, as one records file: the lines of the root that stay, then those of the tailoring. Begin
//! with `join`.
#![tactic(auto)]

ghost use Rattle.std.specs.Prelude.{◌≡◌, ◌+◌, ◌++◌, ◌∷◌, ℕ, [], List, filter, flat_map, length, map, IfOk, OnOk};
ghost use Rattle.collate_lines.specs.Lines.{lines_of};
ghost use Rattle.collate_join.specs.Join.{IsJoin, first_fault, is_fault, numbers_from, origin_of, stays};
ghost use Rattle.collate_join.specs.Kept.{HasKept, HasParts, with_lf};
ghost use Rattle.collate_join.specs.declared.keys.Part.TheVariants.{Key, LeftOut, Weighed};

mod keys;

use crate::keys::{Part, Parts, is_among, is_key, left_out_by, part_of, parts_in};
use std::alloc::{AllocError, Global};
use thiserror::Error;

/// A tailoring over a root: the bytes of one records file, and where its lines stand.
#[derive(Drop)]
pub struct Joined {
    bytes: Vec<u8>,
    kept: Vec<usize>,
}

/// Where a line of a join stands: in the root or in the tailoring, and which line it is there, counted from 1.
#[derive(Clone, Copy, Debug, PartialEq, Eq)]
pub enum Origin {
    /// A line of the root.
    Root(usize),
    /// A line of the tailoring.
    Tailoring(usize),
}

/// Why a tailoring can't be put over a root.
#[derive(Clone, Copy, Debug, PartialEq, Eq, Error)]
pub enum JoinError {
    /// This line of the tailoring, counted from 1, leaves out what is no prefix and text, or what the root doesn't weigh.
    #[error("a line leaves out what no line of the root weighs")]
    NoSuchRecord(usize),
    /// Memory was refused.
    #[error("out of memory")]
    Memory,
}

impl From<AllocError> for JoinError {
    ghost use Rattle.std.specs.Prelude.{◌≡◌};
    ghost use Rattle.collate_join.specs.declared.JoinError.TheVariants.{Memory};

    ghost from_gives = { λ refused error. error ≡ Memory };

    fn from(_: AllocError) -> JoinError {
        JoinError::Memory
    }
}

impl Joined {
    /// The join, as the bytes of a records file.
    pub fn bytes(&self) -> &[u8]
        ensures { result.now ≡ self.now.bytes.items }
    {
        &self.bytes
    }

    /// Where a line of the join stands; both count from 1.
    pub fn origin(&self, line: usize) -> Origin
        ensures { result ≡ origin_of self.now.kept.items line }
    {
        match self.kept.get(line.saturating_sub(1)) {
            Some(number) => Origin::Root(*number),
            None => Origin::Tailoring(line.saturating_sub(self.kept.len())),
        }
    }

    /// Adds a line of the root, of this number. Errors: `AllocError` where memory is refused; it is of no use then.
    fn keep(&mut self, number: usize, line: &[u8]) -> Result<(), AllocError>
        ensures bytes { OnOk result (self.new.bytes.items ≡ self.old.bytes.items ++ line.now ++ 10 ∷ []) }
        ensures kept { OnOk result (self.new.kept.items ≡ self.old.kept.items ++ number ∷ []) }
    {
        self.bytes.extend_from_slice(line)?;
        self.bytes.push(b'\n')?;
        self.kept.push(number)?;
        Ok(())
    }

    /// Adds the next line of the root, of this number, if it stays beside a tailoring that has these keys and leaves these
    /// out. Errors: as those of `keep`.
    fn take_line<'a>(
        &mut self,
        keys: &Parts<'a>,
        left_out: &Parts<'a>,
        number: usize,
        line: &'a [u8],
    ) -> Result<(), AllocError>
        ensures { (tailoring lines : List (List ℕ)) → HasParts keys.now Key tailoring → HasParts left_out.now LeftOut tailoring
            → HasKept self.old (stays tailoring) lines → number ≡ length lines + 1
            → OnOk result (HasKept self.new (stays tailoring) (lines ++ line.now ∷ [])) }
    {
        if !stays(keys, left_out, line) {
            return Ok(());
        }
        self.keep(number, line)?;
        Ok(())
    }
}

/// The lines of a file.
fn lines_in(alloc: Global, file: &[u8]) -> Result<Vec<&[u8]>, AllocError>
    ensures { IfOk result (λ lines. map (λ line. line.now) lines.items ≡ lines_of file.now) }
{
    file.split(|byte| *byte == b'\n').collect(alloc)
}

/// Whether a line of the tailoring leaves out what is no prefix and text, or what no line of the root weighs.
fn is_fault<'a>(alloc: Global, weighed: &Parts<'a>, line: &'a [u8]) -> Result<bool, AllocError>
    ensures { (root : List (List ℕ)) → HasParts weighed.now Weighed root → IfOk result (λ is. is ≡ is_fault root line.now) }
{
    match left_out_by(line) {
        Some(part) => Ok(!(is_key(alloc, part)? && is_among(weighed, Some(part)))),
        None => Ok(false),
    }
}

/// The first line of the tailoring that is at fault, counted from 1.
fn first_fault<'a>(
    alloc: Global,
    root: &[&'a [u8]],
    tailoring: &[&'a [u8]],
) -> Result<Option<usize>, AllocError>
    ensures { IfOk result (λ found. found ≡ first_fault (map (λ line. line.now) root.now) (map (λ line. line.now) tailoring.now)) }
{
    let weighed = parts_in(alloc, Part::Weighed, root)?;
    for (i, line) in tailoring.iter().enumerate() {
        let is_bad = is_fault(alloc, &weighed, line)?;
        if is_bad {
            return Ok(Some(i + 1));
        }
    }
    Ok(None)
}

/// Whether a line of the root stays.
fn stays<'a>(keys: &Parts<'a>, left_out: &Parts<'a>, line: &'a [u8]) -> bool
    ensures { (tailoring : List (List ℕ)) → HasParts keys.now Key tailoring → HasParts left_out.now LeftOut tailoring → result ≡ stays tailoring line.now }
{
    !(is_among(keys, part_of(Part::Key, line)) || is_among(left_out, part_of(Part::Weighed, line)))
}

/// The lines of the root that stay beside those of a tailoring.
fn kept_lines<'a>(
    alloc: Global,
    root: &[&'a [u8]],
    tailoring: &[&'a [u8]],
) -> Result<Joined, AllocError>
    ensures { IfOk result (λ kept. HasKept kept (stays (map (λ line. line.now) tailoring.now)) (map (λ line. line.now) root.now)) }
{
    let keys = parts_in(alloc, Part::Key, tailoring)?;
    let left_out = parts_in(alloc, Part::LeftOut, tailoring)?;
    let mut kept = Joined {
        bytes: Vec::new(alloc),
        kept: Vec::new(alloc),
    };
    for (i, line) in root.iter().enumerate() {
        kept.take_line(&keys, &left_out, i + 1, line)?;
    }
    Ok(kept)
}

/// The lines of the root that stay beside those of a tailoring, with the bytes of the tailoring after them.
fn written<'a>(
    alloc: Global,
    root: &[&'a [u8]],
    lines: &[&'a [u8]],
    tailoring: &[u8],
) -> Result<Joined, AllocError>
    ensures bytes { IfOk result (λ join. join.bytes.items ≡ flat_map with_lf (filter (stays (map (λ line. line.now) lines.now)) (map (λ line. line.now) root.now)) ++ tailoring.now) }
    ensures kept { IfOk result (λ join. join.kept.items ≡ numbers_from 1 (stays (map (λ line. line.now) lines.now)) (map (λ line. line.now) root.now)) }
{
    let mut joined = kept_lines(alloc, root, lines)?;
    joined.bytes.extend_from_slice(tailoring)?;
    Ok(joined)
}

/// What `join` answers of a root and a tailoring that have these lines.
fn join_lines<'a>(
    alloc: Global,
    root: &[&'a [u8]],
    lines: &[&'a [u8]],
    tailoring: &[u8],
) -> Result<Joined, JoinError>
    ensures { (file : List ℕ) → map (λ line. line.now) root.now ≡ lines_of file → map (λ line. line.now) lines.now ≡ lines_of tailoring.now → IsJoin file tailoring.now result }
{
    let found = first_fault(alloc, root, lines)?;
    match found {
        Some(line) => return Err(JoinError::NoSuchRecord(line)),
        None => {}
    }
    let joined = written(alloc, root, lines, tailoring)?;
    Ok(joined)
}

/// A tailoring put over a root: the lines of the root but those whose key a line of the tailoring has and those that it
/// leaves out, then the lines of the tailoring (docs/LANGUAGES.md). Neither is looked at otherwise.
///
/// Errors: `NoSuchRecord` at the first line of the tailoring that leaves out what is no prefix and text, or what no line
/// of the root weighs; `Memory` where memory is refused.
pub fn join<'a>(alloc: Global, root: &'a [u8], tailoring: &'a [u8]) -> Result<Joined, JoinError>
    ensures { IsJoin root.now tailoring.now result }
{
    let root_lines = lines_in(alloc, root)?;
    let lines = lines_in(alloc, tailoring)?;
    join_lines(alloc, &root_lines, &lines, tailoring)
}
