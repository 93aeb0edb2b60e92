//! What bytes are written to.
ghost use Rattle.std.specs.Prelude.{◌≡◌, ℕ, ◌<◌, ◌≤◌, List, ◌++◌, Option, None, Some, length, take, IfOk, OnOk, OnErr, IsErrOf};
ghost use Rattle.tcs_io.specs.declared.writing.SinkStop.TheVariants.{OutOfMemory};
ghost use Rattle.tcs_io.specs.Bytes.{HoldsFront};
ghost use Rattle.tcs_io.specs.Faults.{Rose, last_u64};

use std::alloc::AllocError;

/// Why a sink took nothing.
#[derive(Clone, Copy, Debug, PartialEq, Eq)]
pub enum SinkStop {
    /// Writing failed. Its cause stays with the sink, which counts it.
    Failed,
    /// The sink keeps its bytes in memory, and there was no room.
    OutOfMemory,
}

impl From<AllocError> for SinkStop {
    ghost from_gives = { λ _ stop. stop ≡ OutOfMemory };

    fn from(_: AllocError) -> Self {
        SinkStop::OutOfMemory
    }
}

/// Takes bytes in order.
pub trait Sink {
    /// How often writing has failed: a number of 64 bits that never falls, and stays at its last value.
    ghost faults: { Self → ℕ };

    /// The bytes that the sink holds, where it tells them.
    ghost held: { Self → Option (List ℕ) };

    /// Appends a front of the piece, and answers how many bytes that is: at least 1 where the piece is not empty.
    /// `Failed` comes only where the count of faults rose. An `Err` appends nothing.
    fn write(&mut self, piece: &[u8]) -> Result<usize, SinkStop>
        ensures within { IfOk result (λ n. n ≤ length piece.now) }
        ensures some { IfOk result (λ n. 0 < length piece.now → 1 ≤ n) }
        ensures appended { (bytes : List ℕ) → held self.old ≡ Some bytes
            → IfOk result (λ n. held self.new ≡ Some (bytes ++ take n piece.now)) }
        ensures kept { OnErr result (held self.new ≡ held self.old) }
        ensures untold { held self.old ≡ None → held self.new ≡ None }

        ensures count { faults self.old ≤ faults self.new }
        ensures limit { faults self.new ≤ last_u64 }
        ensures failed { IsErrOf result SinkStop.Failed → Rose (faults self.old) (faults self.new) }
        ensures memory { IsErrOf result SinkStop.OutOfMemory → faults self.new ≡ faults self.old };
}

/// Writes the whole piece, in as many writes as it takes. At an `Err` the sink has taken a front of it, but not all.
pub fn write_all<K: Sink>(sink: &mut K, piece: &[u8]) -> Result<(), SinkStop>
    ensures whole { (bytes : List ℕ) → K.held sink.old ≡ Some bytes
        → OnOk result (K.held sink.new ≡ Some (bytes ++ piece.now)) }
    ensures front { (bytes : List ℕ) → K.held sink.old ≡ Some bytes
        → OnErr result (HoldsFront bytes piece.now (K.held sink.new)) }
    ensures untold { K.held sink.old ≡ None → K.held sink.new ≡ None }

    ensures count { K.faults sink.old ≤ K.faults sink.new }
    ensures failed { IsErrOf result SinkStop.Failed → Rose (K.faults sink.old) (K.faults sink.new) }
{
    let mut done = 0;
    while done < piece.len() {
        done += sink.write(&piece[done..])?;
    }
    Ok(())
}
