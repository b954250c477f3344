//! Words, paths and characters as a line of text shows them.

use std::fmt;

/// A text on one line: as it is, or, where it is empty or has control characters, quoted with these escaped.
#[derive(Clone, Copy)]
pub struct Shown<'a>(pub &'a str);

impl fmt::Display for Shown<'_> {
    fn fmt<W: fmt::Write>(&self, f: &mut fmt::Formatter<W>) -> fmt::Result {
        let text = self.0;
        if text.is_empty() || text.chars().any(|c| c.is_control()) {
            write!(f, "{text:?}")
        } else {
            f.write_str(text)
        }
    }
}

/// A character by its code point, and itself after it, where it is no control character.
#[derive(Clone, Copy)]
pub struct Character(pub char);

impl fmt::Display for Character {
    fn fmt<W: fmt::Write>(&self, f: &mut fmt::Formatter<W>) -> fmt::Result {
        let character = self.0;
        let code = character as u32;
        write!(f, "U+{code:04X}")?;
        if character.is_control() {
            Ok(())
        } else if character == char::REPLACEMENT_CHARACTER {
            f.write_str(" (or damaged bytes)")
        } else {
            write!(f, " {character}")
        }
    }
}
