//! What calls answer, a line each.

ghost use Rattle.std.specs.Iterator.{IsFinite};

use std::alloc::AllocError;
use std::fmt::Debug;

/// Prints that a value was made, or the refusal.
fn made_of<T, E: Debug + Drop>(rt: &HostRuntime, name: &str, answer: Result<T, E>) -> Option<T> {
    match answer {
        Ok(value) => {
            let _ = println!(rt; "{name} | - | made");
            Some(value)
        }
        Err(error) => {
            let _ = println!(rt; "{name} | - | Err({error:?})");
            None
        }
    }
}

/// What a call makes, which is made again if it is refused; `None` if it is refused twice.
pub fn made<T, E: Debug + Drop, F: Fn() -> Result<T, E> + Drop>(
    rt: &HostRuntime,
    name: &str,
    call: F,
) -> Option<T>
    requires { F.IsAlwaysCallable call }
{
    match made_of(rt, name, call()) {
        Some(value) => Some(value),
        None => made_of(rt, name, call()),
    }
}

/// Prints an answer after which nothing is left, and tells whether it is no error.
pub fn is_told<T: Debug, E: Debug>(rt: &HostRuntime, name: &str, answer: &Result<T, E>) -> bool {
    let _ = println!(rt; "{name} | - | {answer:?}");
    answer.is_ok()
}

/// Prints the characters that an iterator gives, and its refusal, after which it has to have ended; and tells whether it
/// wasn't refused.
pub fn gives_all<I: Iterator<Item = Result<char, AllocError>> + Drop>(
    rt: &HostRuntime,
    name: &str,
    chars: I,
) -> bool
    requires can { I.can_next chars }
    requires ends { IsFinite (I.remaining chars) }
{
    let _ = print!(rt; "{name} |");
    let mut is_refused = false;
    for item in chars {
        match item {
            Ok(c) => {
                let _ = print!(rt; " {c:?}");
            }
            Err(error) => {
                is_refused = true;
                let _ = print!(rt; " | Err({error:?})");
            }
        }
    }
    if !is_refused {
        let _ = print!(rt; " | Ok(())");
    }
    let _ = println!(rt);
    !is_refused
}
