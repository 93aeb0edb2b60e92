//! Versions of objects, and one copy of the data.

ghost use Rattle.std.specs.Prelude.{◌≡◌, true, List};
ghost use Rattle.tcs_terms.specs.declared.inputs.Event.{Event};
ghost use Rattle.tcs_terms.specs.Runs.{AreEventsOf};
ghost use Rattle.tcs_terms.specs.Setups.{Deployment};
ghost use Rattle.tcs_laws.specs.Certification.{Tests};
ghost use Rattle.tcs_laws.specs.Laws.{ChecksReads, IsLawful, OrdersWrites};
ghost use Rattle.protocol.specs.OneCopy.{is_honest, is_one_copy};
ghost use Rattle.protocol.specs.Run.{run};
ghost use Rattle.protocol_laws.specs.Rising.{VersionsRise};

/// Commit versions of the committed transactions that write one object strictly rise along the order of first
/// decisions, by a certifier that orders writes.
pub fn versions_rise()
    ensures { (tests : Tests) (setup : Deployment) (events : List Event) → IsLawful tests → OrdersWrites tests → AreEventsOf setup events
        → VersionsRise (run tests setup events).history }
{}

/// If reads were honest, the committed transactions behave as on one copy of the data, ranges included, by a certifier
/// that checks reads.
pub fn one_copy()
    ensures { (tests : Tests) (setup : Deployment) (events : List Event) → IsLawful tests → ChecksReads tests → AreEventsOf setup events
        → is_honest (run tests setup events).history ≡ true → is_one_copy (run tests setup events).history ≡ true }
{}
