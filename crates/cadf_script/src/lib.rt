//! Scripts of schedules: the turns of a script's bytes, and the first line that is no turn.
#![tactic(auto)]

mod line;
mod script;

pub use script::{ScriptFault, read_script};
