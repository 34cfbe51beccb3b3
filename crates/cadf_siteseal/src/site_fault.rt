//! Why a proof of growth doesn't show how a site came of an earlier one.
ghost use Rattle.cadf_siteseal.specs.SiteGrown.{IsNamed};

use crate::part_name::PartName;
use cadf_evidence::GrowthFault;
use cadf_json::Memory;
use thiserror::Error;

/// Why a proof of growth, which is input 3, doesn't show how the site of input 2, a seal, came of that of input 1, an earlier
/// one.
#[derive(Debug, Drop, Error)]
pub enum SiteFault {
    /// The input of that number names another log than the first.
    #[error("input {0}: other log")]
    OtherLog(u64),
    /// The input of that number has windows of another unit than the first.
    #[error("input {0}: other unit")]
    OtherUnit(u64),
    /// The first window that is kept is none of the unit.
    #[error("kept from: other unit")]
    OtherWindow,
    /// The later seal has the part no more.
    #[error("{0}: gone")]
    Gone(PartName),
    /// The part changed, and has no proof.
    #[error("{0}: not shown")]
    NotShown(PartName),
    /// The part has a proof, and needs none.
    #[error("{0}: not needed")]
    NotNeeded(PartName),
    /// The proof of the part is refused.
    #[error("{0}: {1}")]
    Part(PartName, GrowthFault),
    /// An allocation failed.
    #[error("out of memory")]
    Memory,
}

impl From<Memory> for SiteFault {
    ghost use Rattle.std.specs.Prelude.{◌≡◌};
    ghost use Rattle.cadf_siteseal.specs.declared.site_fault.SiteFault.TheVariants.{Memory as OutOfMemory};

    ghost from_gives = { λ _ e. e ≡ OutOfMemory };

    fn from(_refused: Memory) -> SiteFault {
        SiteFault::Memory
    }
}

/// Makes the fault of a part of that name, of the fault of its proof.
pub(crate) fn named_fault(name: PartName, fault: GrowthFault) -> SiteFault
    ensures { IsNamed name fault result }
{
    match fault {
        GrowthFault::OtherLog(input) => SiteFault::Part(name, GrowthFault::OtherLog(input)),
        GrowthFault::Proof(input, set, fault) => {
            SiteFault::Part(name, GrowthFault::Proof(input, set, fault))
        }
        GrowthFault::Gone(set, digest) => SiteFault::Part(name, GrowthFault::Gone(set, digest)),
        GrowthFault::Memory => SiteFault::Memory,
    }
}
