//! What opens files by their names.
ghost use Rattle.std.specs.Prelude.{◌≡◌, [], ◌∷◌, None, IfOk, is_ok};
ghost use Rattle.cadf_tool.specs.Inputs.{source_state};
ghost use Rattle.cadf.specs.Opened.{OpenerState, and_asked, unread};

use cadf_json::{Failed, FromStd, Source};
use std::fs;
use std::fs::File;

/// Opens files by their names.
pub(crate) trait Opener {
    type File: Source + Drop;

    // The names that were asked for, and what is known of their files.
    ghost state: { Self → OpenerState };

    /// Opens the file of that name, to be read from its start. `Err`: it can't be opened.
    fn open(&mut self, name: &str) -> Result<Self::File, Failed>
        ensures asked { state self.new ≡ and_asked (state self.old) ((name.now, is_ok result) ∷ []) }
        ensures opened { IfOk result (λ file. source_state Self.File.Source file ≡ unread ((state self.old).bytes name.now)) };
}

/// Opens the machine's files, of which nothing is known.
#[derive(Drop)]
pub(crate) struct SystemOpener<'r> {
    pub(crate) rt: &'r HostRuntime,
}

impl Opener for SystemOpener<'_> {
    type File = FromStd<File>;

    ghost state = { λ _. record { asked = None; bytes = λ _. None } };

    fn open(&mut self, name: &str) -> Result<FromStd<File>, Failed> {
        match fs::open(self.rt, name) {
            Ok(file) => Ok(FromStd::new(file)),
            Err(_) => Err(Failed),
        }
    }
}
