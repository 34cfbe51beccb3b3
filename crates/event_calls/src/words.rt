//! Names, and the words that an event chooses from.

use cadf_event::{EventType, Name, Outcome, Role};
use std::alloc::{AllocError as Memory, Global};
use std::fmt::Debug;

/// Answers the name, copied.
pub(crate) fn name(alloc: Global, text: &str) -> Result<String, Memory> {
    match Name::read(alloc, text) {
        Ok(name) => {
            let copy = name.copy(alloc)?;
            calls::answer(alloc, "ok", &[copy.as_str()])
        }
        Err(fault) => calls::refused(alloc, &fault),
    }
}

/// Answers whether the text is a name.
pub(crate) fn named(alloc: Global, text: &str) -> Result<String, Memory> {
    format!(in alloc; "{}", cadf_event::is_valid_name(text))
}

/// Answers whether the name is reserved.
pub(crate) fn reserved(alloc: Global, text: &str) -> Result<String, Memory> {
    format!(in alloc; "{}", cadf_event::is_reserved(text))
}

/// Answers what the word is, if it is one.
fn told(alloc: Global, found: Option<impl Debug + Drop>) -> Result<String, Memory> {
    match found {
        Some(found) => format!(in alloc; "some\t{found:?}"),
        None => calls::answer(alloc, "none", &[]),
    }
}

/// Answers the event type that the word is.
pub(crate) fn event_type(alloc: Global, text: &str) -> Result<String, Memory> {
    told(alloc, EventType::read(text))
}

/// Answers the outcome that the word is.
pub(crate) fn outcome(alloc: Global, text: &str) -> Result<String, Memory> {
    told(alloc, Outcome::read(text))
}

/// Answers the role that the word is.
pub(crate) fn role(alloc: Global, text: &str) -> Result<String, Memory> {
    told(alloc, Role::read(text))
}
