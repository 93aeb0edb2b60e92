//! Why an entry has no payload.

ghost use Rattle.std.specs.Prelude.{List};
ghost use Rattle.tcs_terms.specs.declared.inputs.Event.{Event};
ghost use Rattle.tcs_terms.specs.Setups.{Deployment};
ghost use Rattle.tcs_laws.specs.Certification.{Tests};
ghost use Rattle.protocol.specs.Run.{run};
ghost use Rattle.protocol_laws.specs.Losses.{LossesWereCaused};
ghost use Rattle.tcs_terms.specs.Runs.{AreEventsOf};

/// Each entry that was lost, in a row, in a case or in a message to a node, is of a transaction of which some event of the
/// run, a take-over's PREPARE that was delivered, found nothing in the entry's shard.
pub fn losses_were_caused()
    ensures { (tests : Tests) (setup : Deployment) (events : List Event) → AreEventsOf setup events → LossesWereCaused tests setup events (run tests setup events) }
{}
