//! A visitor that keeps the lists that it visits.
ghost use Rattle.std.specs.Prelude.{⊤};

use cadf_join::{Memory, Visitor};
use cadf_replica::Replica;
use std::alloc::Global;

/// The lists that were visited.
#[derive(Drop)]
struct Kept {
    lists: Vec<Vec<String>>,
    alloc: Global,
}

impl Visitor for Kept {
    type Fault = Memory;

    ghost takes = { λ _ _ _. ⊤ };

    ghost stops = { λ _ _ _ _. ⊤ };

    ghost keeps = { λ _ _ _. ⊤ };

    fn visit(&mut self, list: &[&str], _shared: usize) -> Result<(), Memory> {
        self.lists.push(copied(self.alloc, list)?)?;
        Ok(())
    }

    ghost keeps_none = { λ _ _. tt };

    ghost keeps_shared = { λ _ _ _ _ _ _ _ _. tt };

    ghost takes_none = { λ _. tt };

    ghost takes_more = { λ _ _ _ _ _ _ _. tt };

    ghost stops_at_once = { λ _ _ _ _ _. tt };

    ghost stops_later = { λ _ _ _ _ _ _ _ _. tt };

    ghost stops_before = { λ _ _ _ _ _ _. tt };
}

/// Copies the texts.
fn copied(alloc: Global, list: &[&str]) -> Result<Vec<String>, Memory> {
    let mut texts = Vec::new(alloc);
    for text in list {
        texts.push(String::from_str(alloc, *text)?)?;
    }
    Ok(texts)
}

/// Lists the atoms that a walk of the replica visits, each as its texts.
pub(crate) fn lists(alloc: Global, replica: &Replica) -> Result<Vec<Vec<String>>, Memory> {
    let mut kept = Kept {
        lists: Vec::new(alloc),
        alloc,
    };
    replica.walk(&mut kept)?;
    Ok(kept.lists)
}
