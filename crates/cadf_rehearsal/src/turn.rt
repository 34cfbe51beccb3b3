//! The turns of a schedule.
use cadf_event::Document;

/// A step of a schedule. Sites are numbered from 0, messages from 1 in the order in which they are made.
#[derive(Drop)]
pub enum Turn {
    /// The site learns the document.
    Learn(usize, Document),
    /// The site makes a message: its inventory as it is now.
    Ask(usize),
    /// The site answers the inventory of that message with a delta: site, then message. The answer is a message for the
    /// site that asked.
    Answer(usize, usize),
    /// The site makes a message: a copy of all that it has.
    Send(usize),
    /// The message is delivered to the site: message, then site. A message may be delivered any number of times, or
    /// never.
    Deliver(usize, usize),
}
