//! Arguments of the engines other than inputs: names, numbers, letters and units of time.
#![tactic(auto)]

mod fault;
mod names;
mod numbers;

pub use crate::fault::ArgumentFault;
pub use crate::names::{check_letter, read_key, read_log, read_name, read_unit};
pub use crate::numbers::{check_cells, check_place, check_salt, check_sites};
