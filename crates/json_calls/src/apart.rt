//! Objects of which the items of one list are taken apart.

ghost use Rattle.std.specs.Prelude.{◌≡◌, ◌++◌, ◌∷◌, [], List, OnOk, map, string_bytes};
ghost use Rattle.serde_json.specs.Data.{Data};
ghost use Rattle.cadf_json.specs.Value.{text as text_of};

use cadf_json::{ItemVisitor, Json, View};
use json::Scratch;
use std::alloc::{AllocError as Memory, Global};

/// The canonical texts of the items, in the order in which they were taken.
#[derive(Drop)]
struct Texts {
    alloc: Global,
    texts: Vec<String>,
}

/// Keeps the text of a further item.
fn keep(alloc: Global, texts: &mut Vec<String>, item: &View<'_>) -> Result<(), Memory>
    ensures { OnOk result ((ds : List Data) → map string_bytes texts.old.items ≡ map text_of ds
        → map string_bytes texts.new.items ≡ map text_of (ds ++ item.now ∷ [])) }
{
    let text = item.text(alloc)?;
    texts.push(text)?;
    Ok(())
}

impl ItemVisitor for Texts {
    ghost use Rattle.std.specs.Prelude.{◌≡◌, map, string_bytes};
    ghost use Rattle.cadf_json.specs.Value.{text as text_of};

    ghost took = { λ s ds. map string_bytes s.texts.items ≡ map text_of ds };

    fn begin(&mut self) {
        self.texts.clear();
    }

    fn take(&mut self, item: &View<'_>) -> Result<(), Memory> {
        keep(self.alloc, &mut self.texts, item)
    }
}

/// Answers how many items of the list `list` were taken, these, and what is left of the object. `no`: the bytes aren't
/// read so.
pub(crate) fn read(alloc: Global, bytes: &[u8]) -> Result<String, Memory> {
    let mut scratch = Scratch::new(alloc);
    let mut json = Json::new(alloc);
    let mut taker = Texts {
        alloc,
        texts: Vec::new(alloc),
    };
    if !json.read_apart(alloc, &mut scratch, bytes, "list", &mut taker)? {
        return calls::answer(alloc, "no", &[]);
    }
    let mut line = calls::answer(alloc, "apart", &[])?;
    calls::push_number(alloc, &mut line, taker.texts.len() as i128)?;
    for text in taker.texts.iter() {
        calls::push(&mut line, text.as_str())?;
    }
    let left = json.view().text(alloc)?;
    calls::push(&mut line, left.as_str())?;
    Ok(line)
}
