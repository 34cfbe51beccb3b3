//! Sites that learn documents and exchange messages: the simulation of a schedule, and laws over all schedules.
#![tactic(auto)]

mod fault;
mod federation;
pub mod laws;
mod turn;

pub use fault::RehearseFault;
pub use federation::rehearse;
pub use turn::Turn;
