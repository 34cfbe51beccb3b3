//! The output of a request, which is counted, and flushed at the end.
ghost use Rattle.std.specs.Prelude.{◌≡◌, [], Option, Result, IfOk, IfErr};
ghost use Rattle.std.specs.Io.KnownBytes.{Keeps};
ghost use Rattle.std.specs.Io.Buffered.{writer_buffer, writer_contents};
ghost use Rattle.cadf_json.specs.declared.stream.Failed.{Failed};
ghost use Rattle.cadf_tool.specs.declared.counting_sink.OverLimit.{OverLimit};

use cadf_json::{Failed, FromStd, Sink};
use cadf_tool::{CountingSink, FILE_LIMIT, OverLimit};
use std::io::{BufWriter, Write};

/// A sink that may hold bytes back to its end.
pub(crate) trait Output: Sink {
    // What it may answer at its end.
    ghost ends: { Self → Result (Option OverLimit) Failed → Type 0 };

    /// Writes what is held back. Returns a report if more bytes were written than an input may have. `Err`: a write
    /// failed.
    fn end(self) -> Result<Option<OverLimit>, Failed>
        ensures { ends self result };
}

/// Counts the bytes that are written to a buffer.
#[derive(Drop)]
pub(crate) struct CountedBuffer<W: Write + Drop> {
    sink: CountingSink<FromStd<BufWriter<W>>>,
}

/// Flushes the buffer, and returns it. `Err`: a write failed.
fn flushed<W: Write + Drop>(mut buffer: BufWriter<W>) -> Result<BufWriter<W>, Failed>
    ensures { IfOk result (λ after. (writer_buffer after ≡ []) × Keeps (writer_contents W.contents buffer) (writer_contents W.contents after)) }
{
    match buffer.flush() {
        Ok(()) => Ok(buffer),
        Err(_) => Err(Failed),
    }
}

impl<W: Write + Drop> CountedBuffer<W> {
    ghost use Rattle.cadf.specs.Output.{buffer_of, bytes_of};

    /// Wraps a buffer. The count begins at 0.
    pub(crate) fn new(buffer: BufWriter<W>) -> CountedBuffer<W>
        ensures buffer { buffer_of result ≡ buffer }
        ensures bytes { bytes_of result ≡ 0 }
    {
        CountedBuffer {
            sink: CountingSink::new(FromStd::new(buffer)),
        }
    }
}

impl<W: Write + Drop> Sink for CountedBuffer<W> {
    ghost use Rattle.cadf.specs.Output.{buffer_of};

    ghost written = { λ s. writer_contents W.contents (buffer_of s) };

    ghost writes = { λ s. s.sink.sink.calls };

    ghost failures = { λ s. s.sink.sink.failures };

    fn write(&mut self, bytes: &[u8]) -> Result<usize, Failed> {
        self.sink.write(bytes)
    }
}

impl<W: Write + Drop> Output for CountedBuffer<W> {
    ghost use Rattle.cadf.specs.Output.{EndsBuffer};

    ghost ends = { λ s r. EndsBuffer W.contents s r };

    fn end(self) -> Result<Option<OverLimit>, Failed> {
        let over_limit = self.sink.over_limit(FILE_LIMIT);
        flushed(self.sink.into_inner().into_inner())?;
        Ok(over_limit)
    }
}
