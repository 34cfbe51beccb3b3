//! Bytes that only proofs read.
ghost use Rattle.std.specs.Prelude.{◌≡◌, ℕ, List, [], ◌++◌};
ghost use Rattle.std.specs.Borrow.{ftrue};

use std::marker::Model;

/// Bytes that exist only in proofs: they take no memory, and its methods do nothing at run time.
#[derive(Drop)]
pub(crate) struct GhostBytes {
    pub(crate) ghost items: { List ℕ },
}

impl Model for GhostBytes {
    ghost also_owns = { λ _. ftrue };
}

/// Bytes to note.
#[derive(Clone, Copy, Drop)]
pub(crate) struct Given<'b> {
    pub(crate) bytes: &'b [u8],
}

impl GhostBytes {
    /// Returns an empty note.
    pub(crate) fn new() -> GhostBytes
        ensures { result.items ≡ [] }
    {
        GhostBytes {}
    }

    /// Notes the bytes too, behind those before.
    #[inline(always)]
    pub(crate) fn then(&self, _more: &Given<'_>) -> GhostBytes
        ensures { result.items ≡ self.now.items ++ _more.now.bytes.now }
    {
        GhostBytes {}
    }
}
