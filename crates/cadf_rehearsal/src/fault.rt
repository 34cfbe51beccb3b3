//! Why a schedule can't be simulated to its end.
use cadf_json::Memory;
use thiserror::Error;

/// Why a turn fails, with its number, from 1: the first of these in their order, or `Memory`.
#[derive(Clone, Copy, Debug, PartialEq, Eq, Drop, Error)]
pub enum RehearseFault {
    /// No site has the number that the turn names.
    #[error("line {0}: no such site")]
    NoSite(usize),
    /// No message has that number yet.
    #[error("line {0}: no such message")]
    NoMessage(usize),
    /// The message to answer is no inventory.
    #[error("line {0}: not an inventory")]
    NotInventory(usize),
    /// The answer is delivered to a site other than the one that asked.
    #[error("line {0}: wrong addressee")]
    WrongAddressee(usize),
    /// The document names another log.
    #[error("line {0}: other log")]
    OtherLog(usize),
    /// An allocation failed.
    #[error("out of memory")]
    Memory,
}

impl From<Memory> for RehearseFault {
    ghost use Rattle.std.specs.Prelude.{◌≡◌};
    ghost use Rattle.cadf_rehearsal.specs.declared.fault.RehearseFault.TheVariants.{Memory as OutOfMemory};

    ghost from_gives = { λ e f. f ≡ OutOfMemory };

    fn from(_refused: Memory) -> Self {
        RehearseFault::Memory
    }
}
