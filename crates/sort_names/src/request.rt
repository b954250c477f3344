//! What the words of the program ask for.

ghost use Rattle.std.specs.Prelude.{◌≡◌};
ghost use Rattle.sort_names.specs.Texts.{part_in};

use collate_merge::column::Column;
use collate_merge::part::LinePart;
use collate_sort::Direction;
use icu_collator_types::options::{CollatorOptions, CollatorPreferences};

/// Where the order comes from.
#[derive(Clone, Copy, Debug, PartialEq, Eq)]
pub enum Source<'w> {
    /// A records file.
    Records(&'w str),
    /// A records file that is put over another, the root.
    Over {
        /// The root.
        root: &'w str,
        /// What is put over it.
        file: &'w str,
    },
}

/// What is to be done with the lines.
#[derive(Clone, Copy, Debug, PartialEq, Eq)]
pub enum Task {
    /// They are put in order and written.
    Sort,
    /// It is said whether they are in order.
    Check {
        /// Whether the first line out of order is told by the status alone.
        silent: bool,
    },
    /// Files that are in order are merged.
    Merge,
    /// The characters that the records don't name are listed.
    Unknown,
}

/// What a line is, and what of it is compared.
#[derive(Clone, Copy, Debug, PartialEq, Eq)]
pub struct Shape {
    /// The byte that ends a line.
    pub end: u8,
    /// Whether a CR at the end of a line isn't compared.
    pub crlf: bool,
    /// What of a line is compared.
    pub column: Column,
}

impl Shape {
    /// What of a line is compared.
    pub fn part(&self) -> LinePart
        ensures { result ≡ part_in self.now }
    {
        LinePart {
            column: self.column,
            crlf: self.crlf,
        }
    }
}

/// How lines are put in order.
#[derive(Clone, Copy, Debug)]
pub struct OrderChoice<'w> {
    /// Where the order comes from.
    pub source: Source<'w>,
    /// The preferences.
    pub preferences: CollatorPreferences<'w>,
    /// The options.
    pub options: CollatorOptions,
    /// Which end of the order comes first.
    pub direction: Direction,
    /// Whether of equal lines the first alone is kept.
    pub unique: bool,
}

/// A run that the words ask for.
#[derive(Debug, Drop)]
pub struct Request<'w> {
    /// What is to be done.
    pub task: Task,
    /// How lines are put in order.
    pub order: OrderChoice<'w>,
    /// What a line is.
    pub shape: Shape,
    /// Whether each line is written after its key.
    pub keys: bool,
    /// How many bytes of memory the lines may fill before they are kept in parts; `None` for any.
    pub size: Option<usize>,
    /// The folder that parts are kept in; `None` for that of temporary files.
    pub folder: Option<&'w str>,
    /// Whether it is said how far the run is.
    pub progress: bool,
    /// Whether nothing is said of what the records don't name.
    pub quiet: bool,
    /// The column by which records of CSV are compared, where they are that.
    pub csv: Option<&'w str>,
    /// The file that is written; `None` for standard output.
    pub output: Option<&'w str>,
    /// The files that are read, `-` for standard input, which alone is read where the words name none.
    pub operands: Vec<&'w str>,
}

/// What the words of the program ask for.
#[derive(Debug, Drop)]
pub enum Asked<'w> {
    /// The text that says what words there are.
    Help,
    /// The version.
    Version,
    /// A run.
    Run(Request<'w>),
}
