//! Standard output, and whatever else std writes to.
ghost use Rattle.std.specs.Prelude.{◌≡◌, ◌<◌, ◌≤◌, [], None, length, IfOk, OnOk, OnErr, IfErr};
ghost use Rattle.std.specs.Io.KnownBytes.{Keeps, WriteAppends};
ghost use Rattle.tcs_io.specs.Faults.{last_u64, one_more};

use crate::{Failed, Sink, SinkStop};
use std::alloc::{AllocError, Global};
use std::io::{BufWriter, Write};
use std::marker::Model;

/// Writes through a buffer, and counts each error in 64 bits, up to the last value. A write that takes nothing of a
/// piece that is not empty is an error too. As a sink it tells no bytes, since std tells those of few writers. Contracts
/// see what its buffer keeps, its count, and what the writer and the buffer hold by std's account: exactly what was
/// written.
///
/// What the buffer still keeps when it is dropped is passed on too, but no error is told then: call `flush` first.
#[derive(Debug, Drop)]
pub struct StdSink<W: Write + Drop> {
    writer: BufWriter<W>,
    faults: u64,
}

impl<W: Write + Drop> Model for StdSink<W> {
    ghost use Rattle.std.specs.Io.Buffered.{writer_buffer, writer_contents};
    ghost use Rattle.tcs_io.specs.Streams.{Output};

    ghost Value = { Output };

    ghost view = { λ sink. record {
      waiting = writer_buffer sink.writer;
      contents = writer_contents W.contents sink.writer;
      faults = sink.faults;
    } };
}

impl<W: Write + Drop> StdSink<W> {
    /// Writes to this writer. It fails only for want of memory, and then drops the writer.
    pub fn new(alloc: Global, writer: W) -> Result<Self, AllocError>
        ensures waiting { IfOk result (λ sink. sink.waiting ≡ []) }
        ensures faults { IfOk result (λ sink. sink.faults ≡ 0) }
        ensures bytes { IfOk result (λ sink. sink.contents ≡ W.contents writer) }
    {
        let writer = BufWriter::new(alloc, writer).map_err(|_| AllocError)?;
        Ok(StdSink { writer, faults: 0 })
    }

    /// Passes on what the buffer still keeps. Call it after the last write.
    pub fn flush(&mut self) -> Result<(), Failed>
        ensures passed { OnOk result (self.new.waiting ≡ []) }
        ensures kept { Keeps self.old.contents self.new.contents }
        ensures ok { OnOk result (self.new.faults ≡ self.old.faults) }
        ensures failed { OnErr result (self.new.faults ≡ one_more self.old.faults) }
    {
        match self.writer.flush() {
            Ok(()) => Ok(()),
            Err(_) => {
                self.faults = self.faults.saturating_add(1);
                Err(Failed)
            }
        }
    }
}

impl<W: Write + Drop> Sink for StdSink<W> {
    ghost faults = { λ sink. sink.faults };

    ghost held = { λ _. None };

    fn write(&mut self, piece: &[u8]) -> Result<usize, SinkStop>
        ensures within { IfOk result (λ n. n ≤ length piece.now) }
        ensures some { IfOk result (λ n. 0 < length piece.now → 1 ≤ n) }
        // What is taken of the piece is held behind what was.
        ensures appended { WriteAppends self.old.contents self.new.contents result piece.now }
        ensures ok { OnOk result (self.new.faults ≡ self.old.faults) }
        ensures failed { OnErr result (self.new.faults ≡ one_more self.old.faults) }
        ensures cause { IfErr result (λ stop. stop ≡ SinkStop.Failed) }

        ensures count { self.old.faults ≤ self.new.faults }
        ensures limit { self.new.faults ≤ last_u64 }
    {
        let faults = self.faults;
        match self.writer.write(piece) {
            Ok(n) if n > 0 || piece.is_empty() => Ok(n),
            _ => {
                self.faults = faults.saturating_add(1);
                Err(SinkStop::Failed)
            }
        }
    }
}

#[cfg(test)]
mod tests {
    use super::*;
    use crate::write_all;
    use std::io;
    use std::test::Fail;

    // Takes no byte.
    #[derive(Drop)]
    struct Stuck;

    impl Write for Stuck {
        fn write(&mut self, _buf: &[u8]) -> io::Result<usize> {
            Ok(0)
        }

        fn flush(&mut self) -> io::Result<()> {
            Ok(())
        }
    }

    #[test]
    fn passes_its_bytes_on(rt: HostRuntime) -> Result<(), Fail> {
        let mut sink = StdSink::new(rt.alloc(), Vec::new(rt.alloc()))?;
        assert_eq!(rt; write_all(&mut sink, b"abc"), Ok(()));
        assert_eq!(rt; write_all(&mut sink, b""), Ok(()));
        assert_eq!(rt; sink.flush(), Ok(()));
        assert_eq!(rt; sink.writer.get_ref().as_slice(), b"abc".as_slice());
        assert_eq!(rt; sink.faults, 0);
        Ok(())
    }

    #[test]
    fn a_write_of_nothing_is_a_fault(rt: HostRuntime) -> Result<(), Fail> {
        let mut sink = StdSink::new(rt.alloc(), Stuck)?;
        assert_eq!(rt; sink.write(&[7; 9000]), Err(SinkStop::Failed));
        assert_eq!(rt; sink.faults, 1);
        assert_eq!(rt; sink.write(b"abc"), Ok(3));
        assert_eq!(rt; sink.flush(), Err(Failed));
        assert_eq!(rt; sink.faults, 2);
        sink.faults = u64::MAX;
        assert_eq!(rt; sink.flush(), Err(Failed));
        assert_eq!(rt; sink.faults, u64::MAX);
        Ok(())
    }
}
