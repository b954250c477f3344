//! A request as the words give it, one after another.

use crate::fields::{Fields, fields_of, separator_of, size_of};
use crate::flags::{Setting, Switch, is_option_name};
use crate::request::{OrderChoice, Request, Shape, Source, Task};
use crate::word_faults::WordFault;
use collate_choice::Choice;
use collate_merge::column::Column;
use collate_sort::Direction;
use icu_collator_types::options::{CollatorOptions, CollatorPreferences};
use std::alloc::{AllocError, Global};

/// What the words before have given.
#[derive(Drop)]
pub struct Draft<'w> {
    alloc: Global,
    source: Option<Source<'w>>,
    /// Where the order comes from if no other word says so.
    default: Option<Source<'w>>,
    /// The words that give options, after an empty one.
    option_words: Vec<String>,
    /// The first operand that gives an option.
    option_operand: Option<&'w str>,
    fields: Option<Fields>,
    separator: Option<u8>,
    /// All else; its source and its column are put in at the end.
    request: Request<'w>,
}

/// A request for all that is so where no word says otherwise.
fn plain_request<'w>(alloc: Global) -> Request<'w> {
    Request {
        task: Task::Sort,
        order: OrderChoice {
            source: Source::Records(""),
            preferences: CollatorPreferences {
                locale: "",
                collation_type: None,
                case_first: None,
                numeric_ordering: None,
            },
            options: CollatorOptions::default(),
            direction: Direction::Ascending,
            unique: false,
        },
        shape: Shape {
            end: b'\n',
            crlf: false,
            column: Column::Line,
        },
        keys: false,
        size: None,
        folder: None,
        progress: false,
        quiet: false,
        csv: None,
        output: None,
        operands: Vec::new(alloc),
    }
}

/// Sets what may be given once.
fn set_once<T: Copy>(
    slot: &mut Option<T>,
    value: T,
    name: &'static str,
) -> Result<(), WordFault<'static>> {
    if slot.is_some() {
        return Err(WordFault::Twice(name));
    }
    *slot = Some(value);
    Ok(())
}

/// The name of an option as a constant; `numeric` for any other.
fn static_name(name: &str) -> &'static str {
    match name {
        "strength" => "strength",
        "alternate" => "alternate",
        "maxvariable" => "maxvariable",
        "caselevel" => "caselevel",
        "casefirst" => "casefirst",
        _ => "numeric",
    }
}

impl<'w> Draft<'w> {
    /// A draft that no word has given anything.
    ///
    /// Errors: `AllocError` where memory is refused.
    pub fn new(alloc: Global) -> Result<Draft<'w>, AllocError> {
        let mut option_words = Vec::new(alloc);
        option_words.push(String::new(alloc))?;
        Ok(Draft {
            alloc,
            source: None,
            default: None,
            option_words,
            option_operand: None,
            fields: None,
            separator: None,
            request: plain_request(alloc),
        })
    }

    /// Takes what is to be done in place of sorting, which only one word may say.
    fn take_task(&mut self, task: Task, name: &'static str) -> Result<(), WordFault<'w>> {
        let before = match self.request.task {
            Task::Sort => {
                self.request.task = task;
                return Ok(());
            }
            Task::Check { silent: false } => "-c",
            Task::Check { silent: true } => "-C",
            Task::Merge => "-m",
            Task::Unknown => "--unknown",
        };
        if self.request.task == task {
            Ok(())
        } else {
            Err(WordFault::Together(before, name))
        }
    }

    /// Takes a word without a value. `Help` and `Version` give nothing here.
    ///
    /// Errors: those of the words that it gives.
    pub fn take_switch(&mut self, switch: Switch) -> Result<(), WordFault<'w>> {
        match switch {
            Switch::Reverse => self.request.order.direction = Direction::Descending,
            Switch::Unique => self.request.order.unique = true,
            Switch::Stable | Switch::Help | Switch::Version => {}
            Switch::ZeroEnded => self.request.shape.end = 0,
            Switch::Check => return self.take_task(Task::Check { silent: false }, "-c"),
            Switch::CheckSilently => return self.take_task(Task::Check { silent: true }, "-C"),
            Switch::Merge => return self.take_task(Task::Merge, "-m"),
            Switch::Keys => self.request.keys = true,
            Switch::Progress => self.request.progress = true,
            Switch::CrLf => self.request.shape.crlf = true,
            Switch::Quiet => self.request.quiet = true,
            Switch::Unknown => return self.take_task(Task::Unknown, "--unknown"),
            Switch::Numeric => return self.take_option("numeric", "on"),
            Switch::Shifted => return self.take_option("alternate", "shifted"),
            Switch::UpperFirst => return self.take_option("casefirst", "upper"),
        }
        Ok(())
    }

    /// Takes a word with its value. `Over` and `DefaultOver` have a second one, and aren't taken here.
    ///
    /// Errors: the word was given before, or the value is none that it may have.
    pub fn take_setting(&mut self, setting: Setting, value: &'w str) -> Result<(), WordFault<'w>> {
        match setting {
            Setting::Output => set_once(&mut self.request.output, value, "-o"),
            Setting::Key => match fields_of(value) {
                Some(fields) => set_once(&mut self.fields, fields, "-k"),
                None => Err(WordFault::Fields(value)),
            },
            Setting::Separator => match separator_of(value) {
                Some(byte) => set_once(&mut self.separator, byte, "-t"),
                None => Err(WordFault::Separator(value)),
            },
            Setting::Csv => set_once(&mut self.request.csv, value, "--csv"),
            Setting::Size => match size_of(value) {
                Some(size) => set_once(&mut self.request.size, size, "-S"),
                None => Err(WordFault::Size(value)),
            },
            Setting::Folder => set_once(&mut self.request.folder, value, "-T"),
            Setting::Records | Setting::Over => self.take_source(Source::Records(value)),
            Setting::DefaultRecords | Setting::DefaultOver => {
                self.take_default(Source::Records(value))
            }
        }
    }

    /// Takes where the order comes from.
    ///
    /// Errors: it was given before.
    pub fn take_source(&mut self, source: Source<'w>) -> Result<(), WordFault<'w>> {
        match self.source {
            None => {
                self.source = Some(source);
                Ok(())
            }
            Some(_) => Err(WordFault::Twice("--records or --language")),
        }
    }

    /// Takes where the order comes from if no other word says so.
    ///
    /// Errors: it was given before.
    pub fn take_default(&mut self, source: Source<'w>) -> Result<(), WordFault<'w>> {
        set_once(
            &mut self.default,
            source,
            "--default-records or --default-over",
        )
    }

    /// Takes the value of an option.
    ///
    /// Errors: it was given before, it has no such value, or memory is refused.
    pub fn take_option(&mut self, name: &str, value: &'w str) -> Result<(), WordFault<'w>> {
        let alloc = self.alloc;
        let word = format!(in alloc; "{name}={value}")?;
        let start = format!(in alloc; "{name}=")?;
        let twice = self
            .option_words
            .iter()
            .any(|given| given.as_str().starts_with(start.as_str()));
        if twice {
            return Err(WordFault::Twice(static_name(name)));
        }
        self.option_words.push(word)?;
        match Choice::read(&self.option_words) {
            Some(choice) => {
                self.request.order.options = choice.options;
                self.request.order.preferences.case_first = choice.prefs.case_first;
                self.request.order.preferences.numeric_ordering = choice.prefs.numeric_ordering;
                Ok(())
            }
            None => Err(WordFault::Value(static_name(name), value)),
        }
    }

    /// Takes an operand: a file, or, where it may be one, an option.
    ///
    /// Errors: those of the option, or memory is refused.
    pub fn take_operand(
        &mut self,
        word: &'w str,
        may_be_option: bool,
    ) -> Result<(), WordFault<'w>> {
        match word.split_once('=') {
            Some((name, value)) if may_be_option && is_option_name(name) => {
                if self.option_operand.is_none() {
                    self.option_operand = Some(word);
                }
                self.take_option(name, value)
            }
            _ => {
                self.request.operands.push(word)?;
                Ok(())
            }
        }
    }

    /// Where the order comes from.
    ///
    /// Errors: no word says it, or none but a default does and an operand has the form of records or of an option.
    fn chosen_source(&self) -> Result<Source<'w>, WordFault<'w>> {
        if let Some(source) = self.source {
            return Ok(source);
        }
        for operand in &self.request.operands {
            if operand.ends_with(".records") && !operand.starts_with("./") {
                return Err(WordFault::RecordsAsOperand(*operand));
            }
        }
        if let Some(word) = self.option_operand {
            return Err(WordFault::OptionAsOperand(word));
        }
        self.default.ok_or(WordFault::NoRecords)
    }

    /// Why words don't go together with `--csv`; `None` where they do.
    fn csv_conflict(&self) -> Option<WordFault<'w>> {
        self.request.csv?;
        let other = if self.fields.is_some() || self.separator.is_some() {
            "-k or -t"
        } else if self.request.shape.end != b'\n' {
            "-z"
        } else if self.request.shape.crlf {
            "--crlf"
        } else if self.request.keys {
            "--keys"
        } else if self.request.size.is_some() {
            "-S"
        } else if self.request.progress {
            "--progress"
        } else if self.request.task != Task::Sort {
            "-c, -C, -m or --unknown"
        } else {
            return None;
        };
        Some(WordFault::Together("--csv", other))
    }

    /// Why keys can't be written where readers are merged; `None` where none are, or no keys are wanted.
    fn keys_conflict(&self) -> Option<WordFault<'w>> {
        if !self.request.keys {
            None
        } else if self.request.task == Task::Merge {
            Some(WordFault::Together("-m", "--keys"))
        } else if self.request.size.is_some() {
            Some(WordFault::Together("-S", "--keys"))
        } else {
            None
        }
    }

    /// Why words don't go together; `None` where they do.
    fn conflict(&self) -> Option<WordFault<'w>> {
        if let Some(fault) = self.csv_conflict() {
            return Some(fault);
        }
        let name = match self.request.task {
            Task::Sort | Task::Merge => return self.keys_conflict(),
            Task::Check { silent: false } => "-c",
            Task::Check { silent: true } => "-C",
            Task::Unknown => "--unknown",
        };
        if self.request.output.is_some() {
            return Some(WordFault::Together(name, "-o"));
        }
        if self.request.keys {
            return Some(WordFault::Together(name, "--keys"));
        }
        match self.request.operands.get(1) {
            Some(second) if self.request.task != Task::Unknown => Some(WordFault::SecondFile(
                *second,
            )),
            _ => None,
        }
    }

    /// The request that all words gave; parts are kept in the folder `temporary` where none gave another.
    ///
    /// Errors: words don't go together, there are no records, or memory is refused.
    pub fn finish(self, temporary: &'w str) -> Result<Request<'w>, WordFault<'w>> {
        if let Some(fault) = self.conflict() {
            return Err(fault);
        }
        let source = self.chosen_source()?;
        let Draft {
            alloc: _,
            source: _,
            default: _,
            option_words: _,
            option_operand: _,
            fields,
            separator,
            mut request,
        } = self;
        let mut order = request.order;
        order.source = source;
        request.order = order;
        if request.operands.is_empty() {
            request.operands.push("-")?;
        }
        if request.folder.is_none() && request.size.is_some() {
            request.folder = Some(temporary);
        }
        if let Some(fields) = fields {
            let mut shape = request.shape;
            shape.column = fields.column(separator);
            request.shape = shape;
        }
        Ok(request)
    }
}
