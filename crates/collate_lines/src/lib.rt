//! The lines of a records file: what each says by the grammar, and the rules by which a file is refused. Begin with
//! `lines::split_line` and `line::parse_line`.
#![tactic(auto)]

mod fields;
pub mod limits;
pub mod line;
pub mod lines;
mod list_fields;
pub mod record;
pub mod rule;
pub mod seen;
mod settings;
