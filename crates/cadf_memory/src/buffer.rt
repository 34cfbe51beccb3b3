//! A buffer that is written to as far as it has room.
ghost use Rattle.std.specs.Prelude.{◌≡◌, [], ◌∷◌, ◌++◌, true, Some, Ok, Err, IfErr, MatchResult, length as length_of};
ghost use Rattle.cadf_memory.specs.Handed.{handed};
ghost use Rattle.cadf_memory.specs.Made.{fault_in_memory_of, is_of_memory};

use crate::ghost_bytes::{GhostBytes, Given};
use cadf_json::{Failed, Sink};
use cadf_tool::ToolFault;

/// A buffer that is written to: bytes for which it has no room are counted. A write fails only if the count has no
/// 64 bits.
#[derive(Drop)]
pub(crate) struct Buffer<'o> {
    output: &'o mut [u8],
    length: usize,
    writes: u64,
    failures: u64,
    before: GhostBytes,
    text: GhostBytes,
    ghost told: { length ≡ length_of text.items },
    ghost fits: { output.now ≡ handed text.items before.items },
}

impl<'o> Buffer<'o> {
    ghost use Rattle.cadf_memory.specs.Buffers.{buffer_name, buffer_before, buffer_text};

    /// Returns a buffer to which nothing was written.
    pub(crate) fn new(output: &'o mut [u8]) -> Buffer<'o>
        ensures same { buffer_name result ≡ output.entry.ghost_name }
        ensures before { buffer_before result ≡ output.old }
        ensures text { buffer_text result ≡ [] }
    {
        let before = GhostBytes::new().then(&Given { bytes: output });
        Buffer {
            output,
            length: 0,
            writes: 0,
            failures: 0,
            before,
            text: GhostBytes::new(),
        }
    }

    /// Returns the length of what an engine wrote, with the bytes that are only counted. `Err`: its fault; no read fails in
    /// memory, and a text that is too long to count has no memory.
    pub(crate) fn told(&self, run: Result<(), ToolFault>) -> Result<usize, ToolFault>
        ensures same { MatchResult run (λ _. result ≡ Ok (length_of (buffer_text self.now))) (λ fault. result ≡ Err (fault_in_memory_of fault)) }
        ensures only { IfErr result (λ fault. is_of_memory fault ≡ true) }
    {
        match run {
            Ok(()) => Ok(self.length),
            Err(ToolFault::ReadFault(_) | ToolFault::WriteFault) => Err(ToolFault::Memory),
            Err(fault) => Err(fault),
        }
    }
}

impl<'o> Sink for Buffer<'o> {
    // Before the text stand the name of the reference, and what the buffer held at first with its length. So what is said of
    // any sink says that an engine keeps all three.
    ghost written = { λ s. Some (s.output.ghost_name ∷ length_of s.before.items ∷ s.before.items ++ s.text.items) };

    ghost writes = { λ s. s.writes };

    ghost failures = { λ s. s.failures };

    fn write(&mut self, bytes: &[u8]) -> Result<usize, Failed> {
        self.writes = self.writes.saturating_add(1);
        let Some(length) = self.length.checked_add(bytes.len()) else {
            self.failures = self.failures.saturating_add(1);
            return Err(Failed);
        };
        let start = self.length.min(self.output.len());
        let end = length.min(self.output.len());
        self.output[start..end].copy_from_slice(&bytes[..end - start]);
        self.length = length;
        self.text = self.text.then(&Given { bytes });
        Ok(bytes.len())
    }
}
