//! A sink that counts its bytes, and reports an output that is larger than an input may be.
ghost use Rattle.std.specs.Prelude.{◌≡◌};
ghost use Rattle.std.specs.Io.{WritesAtMost};
ghost use Rattle.std.specs.Io.KnownBytes.{WriteAppends};
ghost use Rattle.cadf_json.specs.Streams.{one_more, counted, write_fails};

use cadf_json::{Failed, Sink};
use thiserror::Error;

/// The report that more bytes were written than an input may have.
#[derive(Clone, Copy, Debug, Drop, PartialEq, Eq, Error)]
#[error("{written} bytes were written, and no input above {limit} is read")]
pub struct OverLimit {
    written: u64,
    limit: u64,
}

/// Counts the bytes that are written to a sink.
#[derive(Drop)]
pub struct CountingSink<W> {
    sink: W,
    taken: u64,
}

impl<W> CountingSink<W> {
    ghost use Rattle.cadf_tool.specs.CountingSink.{counting_sink_inner, counting_sink_taken, report_of};

    /// Wraps a sink. The count begins at 0.
    pub fn new(sink: W) -> CountingSink<W>
        ensures sink { counting_sink_inner result ≡ sink }
        ensures taken { counting_sink_taken result ≡ 0 }
    {
        CountingSink { sink, taken: 0 }
    }

    /// Returns the number of bytes written, at most 2^64-1.
    pub fn bytes_written(&self) -> u64
        ensures { result ≡ counting_sink_taken self.now }
    {
        self.taken
    }

    /// Reports the number of bytes written if it is more than `limit`, otherwise `None`.
    pub fn over_limit(&self, limit: u64) -> Option<OverLimit>
        ensures { result ≡ report_of (counting_sink_taken self.now) limit }
    {
        if self.taken > limit {
            return Some(OverLimit {
                written: self.taken,
                limit,
            });
        }
        None
    }

    /// Returns the sink without its count.
    pub fn into_inner(self) -> W
        ensures { result ≡ counting_sink_inner self }
    {
        self.sink
    }
}

impl<W: Sink> Sink for CountingSink<W> {
    ghost use Rattle.cadf_tool.specs.CountingSink.{counting_sink_inner, counting_sink_taken, with_taken};

    ghost written = { λ m. W.written m.sink };

    ghost writes = { λ m. W.writes m.sink };

    ghost failures = { λ m. W.failures m.sink };

    fn write(&mut self, bytes: &[u8]) -> Result<usize, Failed>
        ensures bound { WritesAtMost result bytes.now }
        ensures bytes { WriteAppends (W.written (counting_sink_inner self.old)) (W.written (counting_sink_inner self.new))
            result bytes.now }
        ensures writes { W.writes (counting_sink_inner self.new) ≡ one_more (W.writes (counting_sink_inner self.old)) }
        ensures failures { W.failures (counting_sink_inner self.new)
            ≡ counted (write_fails result bytes.now) (W.failures (counting_sink_inner self.old)) }
        ensures taken { counting_sink_taken self.new ≡ with_taken (counting_sink_taken self.old) result }
    {
        let count = self.sink.write(bytes)?;
        self.taken = self.taken.saturating_add(count as u64);
        Ok(count)
    }
}
