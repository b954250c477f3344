//! What is asked of each text.

/// A question to a normaliser about a text.
#[derive(Clone, Copy)]
pub enum Question {
    /// What its form is.
    Form,
    /// Whether it is its own form.
    IsForm,
    /// In which two parts it is split.
    Parts,
}

/// What the program is asked to do with the texts of a file.
#[derive(Clone, Copy)]
pub struct Task<'w> {
    /// What is asked of each text.
    pub question: Question,
    /// Whether the answers are printed.
    pub shows: bool,
    /// The name of the form.
    pub form: &'w str,
    /// How the file is read: `utf8` as any bytes, `utf16` as any units, low bytes first, and nothing as known UTF-8.
    pub encoding: &'w str,
    /// How often each text is asked about.
    pub rounds: u32,
}

/// The task of this name.
pub fn task_of(name: &str, rounds: u32) -> Task<'_> {
    let (question, shows, rest) = match name.split_once('_') {
        Some(("is", rest)) => (Question::IsForm, false, rest),
        Some(("tell", rest)) => (Question::IsForm, true, rest),
        Some(("show", rest)) => (Question::Form, true, rest),
        Some(("split", rest)) => (Question::Parts, true, rest),
        _ => (Question::Form, false, name),
    };
    let (form, encoding) = rest.split_once('_').unwrap_or((rest, ""));
    Task {
        question,
        shows,
        form,
        encoding,
        rounds,
    }
}
