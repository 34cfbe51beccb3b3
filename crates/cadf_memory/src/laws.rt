//! Laws of what is made of bytes in memory, over the clauses that `over` ensures. Each law is the contract of a function
//! with an empty body. What follows for the files is in `cadf_tool::exchange`.
ghost use Rattle.std.specs.Prelude.{ℕ, List, map};
ghost use Rattle.cadf_join.specs.Contents.{Text};
ghost use Rattle.cadf_tool.specs.declared.request.Request.{Request};
ghost use Rattle.cadf_tool.specs.Requested.{IsAnswered, AreAccepted};
ghost use Rattle.cadf_memory.specs.Memory.{unread};
ghost use Rattle.cadf_memory.specs.Made.{IsMadeFor};

/// States of what a request makes of bytes in memory what `cadf_tool::exchange` states of a run: it is the text of the
/// files that the bytes are, and the bytes that were read as inputs are files from outside.
pub fn engines_make_files()
    ensures made { (q : Request) (inputs : List (List ℕ)) (text : Text) → IsMadeFor q inputs text → IsAnswered q (map unread inputs) text }
    ensures accepted { (q : Request) (inputs : List (List ℕ)) (text : Text) → IsMadeFor q inputs text → AreAccepted q (map unread inputs) }
{}
