//! The kinds of lists.
ghost use Rattle.std.specs.Prelude.{◌≡◌, ℕ, List, true, refl};
ghost use Rattle.cadf_event.specs.LogName.{is_unbroken};
ghost use Rattle.cadf_listed.specs.ListFile.{erased_header, sealed_header};

/// A kind of lists, which has files of its own.
pub trait ListKind {
    // The first line of a file.
    ghost header: { List ℕ };

    ghost unbroken: { is_unbroken header ≡ true };

    /// Returns the first line of a file.
    fn first_line() -> &'static str
        ensures { result.now ≡ header };
}

/// The kind of lists of all that a replica has.
pub struct Sealed;

impl ListKind for Sealed {
    ghost header = { sealed_header };

    ghost unbroken = { refl };

    fn first_line() -> &'static str {
        "CADF-SEALED 1"
    }
}

/// The kind of lists of what was erased of a log.
pub struct Erased;

impl ListKind for Erased {
    ghost header = { erased_header };

    ghost unbroken = { refl };

    fn first_line() -> &'static str {
        "CADF-ERASED 1"
    }
}
