//! What a certifier is, and the laws that generic code knows it by.
ghost use Rattle.std.specs.Prelude.{◌≡◌, Bool, IsTrue};
ghost use Rattle.tcs_laws.specs.Certification.{Tests};
ghost use Rattle.tcs_laws.specs.Laws.{IsLawful, OrdersWrites, ChecksReads};

use tcs_terms::Payload;

/// A rule that says which transactions may commit beside each other: two tests of an older payload against a newer
/// one, after Chockler and Gotsman, DISC 2018.
pub trait Certifier {
    ghost tests: { Tests };

    ghost ORDERS_WRITES: { Bool };

    ghost CHECKS_READS: { Bool };

    /// Whether the versions of an object increase in the order in which its writers commit.
    const ORDERS_WRITES: bool;

    /// Whether each transaction that commits read what it finds at its place in the order.
    const CHECKS_READS: bool;

    /// Whether `new` may commit although `old` has committed.
    fn committed_ok(old: &Payload, new: &Payload) -> bool
        ensures { result ≡ tests.committed_ok old.now new.now };

    /// Whether `new` may be prepared while `old` is prepared, with its outcome open.
    fn prepared_ok(old: &Payload, new: &Payload) -> bool
        ensures { result ≡ tests.prepared_ok old.now new.now };

    ghost lawful: { IsLawful tests };

    ghost orders_writes: { IsTrue ORDERS_WRITES → OrdersWrites tests };

    ghost checks_reads: { IsTrue CHECKS_READS → ChecksReads tests };
}
