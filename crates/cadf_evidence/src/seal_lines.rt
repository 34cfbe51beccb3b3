//! The file of a seal.
ghost use Rattle.std.specs.Prelude.{◌≡◌, refl};
ghost use Rattle.cadf_evidence.specs.SealFile.{seal_lines, IsSeal};
ghost use Rattle.cadf_evidence.specs.SealVerdict.{seal_kind};
ghost use Rattle.cadf_evidence.specs.SealLines.{told_lines, AreTold, IsPut};

use crate::marked::{digest_after, digest_line, number_after, number_line};
use crate::seal::Seal;
use cadf_event::Name;
use cadf_json::Memory;
use cadf_linefile::{Cause, LineFault, ModelFile};
use cadf_tree::Root;
use std::alloc::Global;

/// The values decoded from the lines after the log line, so far.
#[derive(Clone, Copy, Debug)]
pub enum Told {
    Nothing,
    Count(u64),
    Facts(Root),
    KeyCount(Root, u64),
    Whole(Root, Root),
}

/// Decodes the next line. `None` if it is none.
fn with_line(told: &Told, line: &[u8]) -> Option<Told>
    requires { AreTold told.now }
    ensures { IsPut told.now line.now result }
{
    match told {
        Told::Nothing => Some(Told::Count(number_after(b"N ", line)?)),
        Told::Count(count) => {
            let hash = digest_after(b"R ", line)?;
            let count = *count;
            Some(Told::Facts(Root { count, hash }))
        }
        Told::Facts(facts) => Some(Told::KeyCount(*facts, number_after(b"M ", line)?)),
        Told::KeyCount(facts, count) => {
            let hash = digest_after(b"S ", line)?;
            let count = *count;
            Some(Told::Whole(*facts, Root { count, hash }))
        }
        Told::Whole(_, _) => None,
    }
}

impl ModelFile for Seal {
    ghost kind = { seal_kind };

    ghost holds = { IsSeal };

    ghost log = { λ s. s.log };

    ghost lines = { seal_lines };

    ghost body = { λ _. refl };

    type Told = Told;

    ghost told_lines = { told_lines };

    ghost sound = { AreTold };

    fn accepted() {}

    fn first_line() -> &'static str {
        "CADF-SEAL 1"
    }

    fn nothing() -> Told {
        Told::Nothing
    }

    fn put_line(_alloc: Global, told: &mut Told, line: &[u8]) -> Result<(), LineFault> {
        *told = with_line(told, line).ok_or(LineFault::Here(Cause::Shape))?;
        Ok(())
    }

    fn is_whole(told: &Told) -> bool {
        matches!(told, Told::Whole(_, _))
    }

    fn of_lines(name: Name, told: Told) -> Seal {
        match told {
            Told::Whole(facts, keys) => Seal {
                log: name,
                facts,
                keys,
            },
            _ => unreachable!(),
        }
    }

    fn log_name(&self) -> &Name {
        self.log()
    }

    fn line_count(&self) -> usize {
        4
    }

    fn line_at(&self, alloc: Global, place: usize) -> Result<Vec<u8>, Memory> {
        match place {
            0 => number_line(alloc, b"N ", self.facts().count),
            1 => digest_line(alloc, b"R ", &self.facts().hash),
            2 => number_line(alloc, b"M ", self.keys().count),
            _ => digest_line(alloc, b"S ", &self.keys().hash),
        }
    }
}
