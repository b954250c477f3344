//! What becomes of changed tables.

/// What the calls of one kind do over changed tables.
#[derive(Clone, Copy)]
pub enum Answer<E> {
    /// The tables are refused, with this error.
    Refused(E),
    /// Every call answers what the tables mean.
    Answered,
    /// This call doesn't; or memory is refused.
    Misread(&'static str),
}

/// What there is to say where this call, if one, is wrong.
pub fn answered<E>(wrong: Option<&'static str>) -> Answer<E> {
    match wrong {
        Some(call) => Answer::Misread(call),
        None => Answer::Answered,
    }
}

impl<E> Answer<E> {
    /// The same, whatever the error.
    pub fn kind(&self) -> Answer<()> {
        match self {
            Answer::Refused(_) => Answer::Refused(()),
            Answer::Answered => Answer::Answered,
            Answer::Misread(call) => Answer::Misread(*call),
        }
    }
}

/// Numbers of changed tables.
#[derive(Clone, Copy, Default)]
pub struct Counts {
    /// Those that were refused.
    pub refused: u32,
    /// Those of which every call was answered.
    pub answered: u32,
    /// The others.
    pub misread: u32,
}

impl Counts {
    /// Counts one more.
    pub fn count(&mut self, answer: Answer<()>) {
        let counted = match answer {
            Answer::Refused(_) => &mut self.refused,
            Answer::Answered => &mut self.answered,
            Answer::Misread(_) => &mut self.misread,
        };
        *counted = counted.wrapping_add(1);
    }
}
