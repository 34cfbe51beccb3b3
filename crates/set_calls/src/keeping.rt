//! A visitor that keeps the lists that it visits.
ghost use Rattle.std.specs.Prelude.{⊤};

use crate::told;
use cadf_pathset::{Memory, PathSet, Visitor, Walk};
use std::alloc::Global;

/// The lists that were visited.
#[derive(Drop)]
struct Keeping {
    lists: Vec<Vec<String>>,
    alloc: Global,
}

impl Visitor for Keeping {
    type Fault = Memory;

    ghost takes = { λ _ _ _. ⊤ };

    ghost stops = { λ _ _ _ _. ⊤ };

    ghost keeps = { λ _ _ _. ⊤ };

    fn visit(&mut self, list: &[&str], _shared: usize) -> Result<(), Memory> {
        self.lists.push(kept(self.alloc, list)?)?;
        Ok(())
    }

    ghost keeps_none = { λ _ _. tt };

    ghost keeps_shared = { λ _ _ _ _ _ _ _ _. tt };

    ghost takes_none = { λ _. tt };

    ghost takes_more = { λ _ _ _ _ _ _ _. tt };

    ghost stops_at_once = { λ _ _ _ _ _. tt };

    ghost stops_later = { λ _ _ _ _ _ _ _ _. tt };

    ghost stops_before = { λ _ _ _ _ _ _. tt };
}

/// Copies the texts.
fn kept(alloc: Global, list: &[&str]) -> Result<Vec<String>, Memory> {
    let mut texts = Vec::new(alloc);
    for text in list {
        texts.push(String::from_str(alloc, *text)?)?;
    }
    Ok(texts)
}

/// Answers the lists that a walk of the set visits after a path.
pub(crate) fn walked<'a>(
    alloc: Global,
    set: &'a PathSet,
    path: &mut Vec<&'a str>,
) -> Result<String, Memory> {
    let mut keeping = Keeping {
        lists: Vec::new(alloc),
        alloc,
    };
    set.walk(path, &mut keeping)?;
    told::lists(alloc, &keeping.lists)
}
