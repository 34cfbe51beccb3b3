//! A short sketch of an inventory, from which the holder of a similar inventory computes it.
#![tactic(auto)]

mod cell;
mod laws;
mod layout;
mod peel;
mod reading;
mod sketch;
mod sketch_lines;
mod tally;

pub use cell::Cell;
pub use laws::{
    cells_are_what_stands_there, counts_are_of_the_digests, enough_cells_are_read,
    read_is_what_was_sketched, sketch_file_is_injective, sketch_is_read_back,
};
pub use layout::{Cells, Head, Layout, Salt};
pub use reading::{ReadFault, missing_by_sketch, read};
pub use sketch::Sketch;
pub use tally::Tally;
