//! What is wrong with the parts of a proof.
ghost use Rattle.std.specs.Prelude.{◌≡◌};
ghost use Rattle.cadf_evidence.specs.Fault.{proof_fault, input_of};

use cadf_tree::TreeFault;
use thiserror::Error;

/// Why the parts of a proof show nothing under a seal, or under two.
#[derive(Clone, Copy, Debug, Drop, PartialEq, Eq, Error)]
pub enum ProofFault {
    /// No tree has so many leaves and these parts.
    #[error("other count")]
    OtherCount,
    /// The parts are no tree in preorder, or one that is too deep.
    #[error("no tree")]
    NoTree,
    /// The tree has another root than the seal.
    #[error("other root")]
    OtherRoot,
    /// Leaves beside each other don't rise.
    #[error("order")]
    Order,
    /// A leaf that was added or is gone is beside a hash.
    #[error("neighbour hidden")]
    NeighbourHidden,
    /// A part says nothing that is asked.
    #[error("not needed")]
    NotNeeded,
}

/// Returns the fault of parts that are refused so.
pub(crate) fn proof_fault(fault: TreeFault) -> ProofFault
    ensures { result ≡ proof_fault fault }
{
    match fault {
        TreeFault::OtherCount => ProofFault::OtherCount,
        TreeFault::NoTree => ProofFault::NoTree,
        TreeFault::OtherEarlierRoot => ProofFault::OtherRoot,
        TreeFault::OtherLaterRoot => ProofFault::OtherRoot,
        TreeFault::Order => ProofFault::Order,
        TreeFault::NeighbourHidden => ProofFault::NeighbourHidden,
        TreeFault::NotNeeded => ProofFault::NotNeeded,
    }
}

/// Returns the input that the fault is told of: 1 is the earlier seal, 2 the later one, and 3 the proof.
pub(crate) fn input_of(fault: TreeFault) -> u64
    ensures { result ≡ input_of fault }
{
    match fault {
        TreeFault::OtherEarlierRoot => 1,
        TreeFault::OtherLaterRoot => 2,
        _ => 3,
    }
}
