//! The last bytes of the output.
ghost use Rattle.std.specs.Prelude.{◌≡◌, ◌⊎◌, []};
ghost use Rattle.std.specs.Io.KnownBytes.{Keeps};
ghost use Rattle.tcs_io.specs.Faults.{Rose};

use crate::status::Status;
use std::io::Write;
use tcs_io::StdSink;

/// Passes on what the buffer of the output still keeps, and answers how the run ended in the end.
///
/// Where that fails some of what was written is lost. It was written before whatever else ended the run, so a write fault
/// is told then. With bad words nothing was written, and nothing is done here.
pub fn after_flush<W: Write + Drop>(status: Status, output: &mut StdSink<W>) -> Status
    // All was passed on, unless a write fault is told.
    ensures passed { (status ≡ Status.BadWords → ⊥) → (result ≡ Status.WriteFault → ⊥) → output.new.waiting ≡ [] }

    // The status stays, unless passing on failed, and that was counted.
    ensures told { (result ≡ status) ⊎ ((result ≡ Status.WriteFault) × Rose output.old.faults output.new.faults) }

    // Bad words are told where the words were bad, and nowhere else.
    ensures words { status ≡ Status.BadWords → (result ≡ Status.BadWords) × (output.new ≡ output.old) }

    // What the writer and the buffer held they hold.
    ensures kept { Keeps output.old.contents output.new.contents }
{
    if status == Status::BadWords {
        return status;
    }
    match output.flush() {
        Ok(()) => status,
        Err(_) => Status::WriteFault,
    }
}
