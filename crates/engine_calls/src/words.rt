//! The words of a call: texts, numbers, readers and writers.

use calls::{Call, MemorySink, MemorySource};
use std::alloc::Global;

/// A call whose name is one of the words of a line.
#[derive(Clone, Copy, Drop)]
pub(crate) struct Words<'a> {
    call: &'a Call,
    /// The place of the call's name.
    first: usize,
    /// The value of the word `N` if a number is expected.
    number: usize,
}

impl<'a> Words<'a> {
    /// Makes the call whose name is the word at `first`.
    pub(crate) fn new(call: &'a Call, first: usize, number: usize) -> Words<'a> {
        Words {
            call,
            first,
            number,
        }
    }

    /// Returns the call whose name is this call's first word.
    pub(crate) fn inner(self) -> Words<'a> {
        Words::new(self.call, self.first.saturating_add(1), self.number)
    }

    /// Counts the words after the name.
    pub(crate) fn count(self) -> usize {
        self.call.count().saturating_sub(self.first)
    }

    /// Returns the text of a word, of which 0 is the name.
    pub(crate) fn text(self, place: usize) -> &'a str {
        self.call.text(self.first.saturating_add(place))
    }

    /// Returns the number of a word, 0 if it is no number.
    pub(crate) fn number(self, place: usize) -> usize {
        match self.text(place) {
            "N" => self.number,
            text => text.parse().unwrap_or(0),
        }
    }

    /// Makes the reader of the three words from that place on. Its bytes can be borrowed if its pieces have none.
    pub(crate) fn source(self, place: usize) -> MemorySource<'a> {
        let bytes = self.call.bytes(self.first.saturating_add(place));
        MemorySource::new(
            bytes,
            self.number(place.saturating_add(1)),
            self.number(place.saturating_add(2)),
        )
    }

    /// Makes the writer of the three words from that place on.
    pub(crate) fn sink(self, alloc: Global, place: usize) -> MemorySink {
        MemorySink::new(
            alloc,
            self.number(place),
            self.text(place.saturating_add(1)),
            self.number(place.saturating_add(2)),
        )
    }
}
