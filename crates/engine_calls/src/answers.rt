//! The answer of a call: its result, and what it wrote.

use calls::push_bytes;
use std::alloc::{AllocError as Memory, Global};

/// The answer of one call.
#[derive(Drop)]
pub(crate) struct Answer {
    /// `ok` or `err` and fields.
    pub(crate) told: String,
    /// What was written.
    pub(crate) written: Vec<u8>,
}

impl Answer {
    /// Makes the answer of no call.
    pub(crate) fn none(alloc: Global) -> Answer {
        Answer::of(alloc, String::new(alloc))
    }

    /// Makes the answer of a call that writes nothing.
    pub(crate) fn of(alloc: Global, told: String) -> Answer {
        Answer {
            told,
            written: Vec::new(alloc),
        }
    }

    /// Appends what differs from the previous answer: the result, and what was written beyond what that one wrote.
    pub(crate) fn push_after(&self, before: &Answer, line: &mut String) -> Result<(), Memory> {
        if self.told != before.told {
            if !line.is_empty() {
                line.push('\t')?;
            }
            line.push_str(self.told.as_str())?;
        }
        let written = self.written.as_slice();
        let more = written.strip_prefix(before.written.as_slice());
        match more.unwrap_or(written) {
            [] => Ok(()),
            more => push_bytes(line, more),
        }
    }
}
