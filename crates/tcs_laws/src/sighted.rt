//! Rules that go by what payloads saw of the objects that others write.
ghost use Rattle.std.specs.Prelude.{◌≡◌, ℕ, Bool, not, List, IsTrue};
ghost use Rattle.tcs_terms.specs.Payloads.{Accesses};
ghost use Rattle.tcs_laws.specs.Sight.{GoesBySight, CountsWritten};

use crate::certifiers::Certifier;
use tcs_terms::{Name, Payload};

/// A certifier that asks of each object that one payload writes at which version the other one saw it, where that
/// counts. So it can be answered by looking objects up.
pub trait BySight: Certifier {
    ghost counts: { Accesses → List ℕ → Bool };

    ghost COUNTS_UNWRITTEN: { Bool };

    /// Whether what a payload saw of an object may count although it does not write the object.
    const COUNTS_UNWRITTEN: bool;

    /// Whether it counts for this rule what `payload` saw of an object.
    fn sight_counts(payload: &Payload, name: &Name) -> bool
        ensures { result ≡ counts payload.now name.now };

    ghost goes_by_sight: { GoesBySight counts Self.tests };

    ghost counts_written: { IsTrue (not COUNTS_UNWRITTEN) → CountsWritten counts };
}
