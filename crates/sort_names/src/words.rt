//! The words of the program: switches, settings with their values, options, and the files that are read.

use crate::draft::Draft;
use crate::flags::{Flag, Setting, Switch, flag_of_letter, flag_of_name, is_option_name};
use crate::request::{Asked, Source};
use crate::word_faults::WordFault;
use std::alloc::Global;

/// The words that are left.
#[derive(Drop)]
struct Words<'w> {
    rest: &'w [String],
}

impl<'w> Words<'w> {
    /// The next word; `None` after the last.
    fn take_next(&mut self) -> Option<&'w str> {
        let (first, others) = self.rest.split_first()?;
        self.rest = others;
        Some(first.as_str())
    }

    /// The value of a word, which is the next.
    fn value_of(&mut self, word: &'w str) -> Result<&'w str, WordFault<'w>> {
        self.take_next().ok_or(WordFault::NoValue(word))
    }
}

/// What a word asked for.
#[derive(Clone, Copy, Debug, PartialEq, Eq)]
enum Taken {
    /// Part of a request.
    Part,
    /// The text that says what words there are.
    Help,
    /// The version.
    Version,
}

/// Takes a switch.
fn take_switch<'w>(draft: &mut Draft<'w>, switch: Switch) -> Result<Taken, WordFault<'w>> {
    match switch {
        Switch::Help => Ok(Taken::Help),
        Switch::Version => Ok(Taken::Version),
        _ => {
            draft.take_switch(switch)?;
            Ok(Taken::Part)
        }
    }
}

/// Takes a setting: its value is `attached`, or the next word. Where it names what is put over a root, there are two.
fn take_setting<'w>(
    draft: &mut Draft<'w>,
    setting: Setting,
    word: &'w str,
    attached: Option<&'w str>,
    words: &mut Words<'w>,
) -> Result<Taken, WordFault<'w>> {
    let value = match attached {
        Some(value) => value,
        None => words.value_of(word)?,
    };
    match setting {
        Setting::Over => {
            let file = words.value_of(word)?;
            draft.take_source(Source::Over { root: value, file })?;
        }
        Setting::DefaultOver => {
            let file = words.value_of(word)?;
            draft.take_default(Source::Over { root: value, file })?;
        }
        _ => draft.take_setting(setting, value)?,
    }
    Ok(Taken::Part)
}

/// Takes a word of letters after `-`, as `-ru` or `-ofile`.
fn take_letters<'w>(
    draft: &mut Draft<'w>,
    word: &'w str,
    letters: &'w str,
    words: &mut Words<'w>,
) -> Result<Taken, WordFault<'w>> {
    let mut rest = letters.chars();
    for _ in 0..letters.len() {
        let Some(letter) = rest.next() else {
            break;
        };
        match flag_of_letter(letter) {
            Some(Flag::Switch(switch)) => match take_switch(draft, switch)? {
                Taken::Part => {}
                text => return Ok(text),
            },
            Some(Flag::Setting(setting)) => {
                let attached = rest.as_str();
                let attached = (!attached.is_empty()).then_some(attached);
                return take_setting(draft, setting, word, attached, words);
            }
            None => return Err(WordFault::Unknown(word)),
        }
    }
    Ok(Taken::Part)
}

/// Takes a name after `--`, as `--reverse`, `--output FILE`, `--output=FILE` or `--strength=primary`.
fn take_name<'w>(
    draft: &mut Draft<'w>,
    word: &'w str,
    name: &'w str,
    words: &mut Words<'w>,
) -> Result<Taken, WordFault<'w>> {
    match flag_of_name(name) {
        Some(Flag::Switch(switch)) => return take_switch(draft, switch),
        Some(Flag::Setting(setting)) => return take_setting(draft, setting, word, None, words),
        None => {}
    }
    if is_option_name(name) {
        let value = words.value_of(word)?;
        draft.take_option(name, value)?;
        return Ok(Taken::Part);
    }
    match name.split_once('=') {
        Some((name, value)) if is_option_name(name) => {
            draft.take_option(name, value)?;
            Ok(Taken::Part)
        }
        Some((name, value)) => match flag_of_name(name) {
            Some(Flag::Setting(setting)) => take_setting(draft, setting, word, Some(value), words),
            _ => Err(WordFault::Unknown(word)),
        },
        None => Err(WordFault::Unknown(word)),
    }
}

/// Takes a word, and the values after it.
fn take_word<'w>(
    draft: &mut Draft<'w>,
    word: &'w str,
    words: &mut Words<'w>,
) -> Result<Taken, WordFault<'w>> {
    if let Some(name) = word.strip_prefix("--") {
        return take_name(draft, word, name, words);
    }
    match word.strip_prefix('-') {
        Some(letters) if !letters.is_empty() => take_letters(draft, word, letters, words),
        _ => {
            draft.take_operand(word, true)?;
            Ok(Taken::Part)
        }
    }
}

/// Reads the words of the program, without its name; parts are kept in the folder `temporary` where no word names one. Those that begin with `-` may stand after the files, up to a word
/// `--`, after which all are files.
///
/// Errors: the first word that isn't understood, words that don't go together, or refused memory.
pub fn read_words<'w>(
    alloc: Global,
    words: &'w [String],
    temporary: &'w str,
) -> Result<Asked<'w>, WordFault<'w>> {
    let mut draft = Draft::new(alloc)?;
    let mut left = Words { rest: words };
    for _ in 0..words.len() {
        let Some(word) = left.take_next() else {
            break;
        };
        if word == "--" {
            for file in left.rest {
                draft.take_operand(file.as_str(), false)?;
            }
            break;
        }
        match take_word(&mut draft, word, &mut left)? {
            Taken::Part => {}
            Taken::Help => return Ok(Asked::Help),
            Taken::Version => return Ok(Asked::Version),
        }
    }
    Ok(Asked::Run(draft.finish(temporary)?))
}
