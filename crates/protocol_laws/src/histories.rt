//! The history of each run is correct.

ghost use Rattle.std.specs.Prelude.{◌≡◌, ℕ, true, List};
ghost use Rattle.tcs_terms.specs.declared.ids.TxId.{TxId};
ghost use Rattle.tcs_terms.specs.declared.inputs.Event.{Event};
ghost use Rattle.tcs_terms.specs.declared.inputs.Note.TheVariants.{Decide};
ghost use Rattle.tcs_terms.specs.declared.votes.Cause.TheVariants.{Lost};
ghost use Rattle.tcs_terms.specs.declared.votes.Decision.TheVariants.{Abort};
ghost use Rattle.tcs_terms.specs.Runs.{AreEventsOf};
ghost use Rattle.tcs_terms.specs.Setups.{Deployment};
ghost use Rattle.tcs_laws.specs.Certification.{Tests};
ghost use Rattle.tcs_laws.specs.Laws.{IsLawful};
ghost use Rattle.protocol.specs.CorrectHistory.{agrees, is_legal, keeps_time, names_clashes, names_losses, IsCorrect};
ghost use Rattle.protocol.specs.FoundNothing.{found_nothing};
ghost use Rattle.protocol.specs.Invariant.Time.{StandsIn};
ghost use Rattle.protocol.specs.Run.{run};
ghost use Rattle.protocol_laws.specs.Told.{ToldRightly};

/// Agreement: each decision stands after its transaction's beginning, and all decisions of one transaction are equal,
/// the shard and the cause of an abort included.
pub fn agreement()
    ensures { (tests : Tests) (setup : Deployment) (events : List Event) → AreEventsOf setup events → agrees (run tests setup events).history ≡ true }
{}

/// Legality, by a certifier that obeys the laws: each committed transaction passes the committed test, on whole payloads,
/// against all that stand before it in the order of first decisions.
pub fn legality()
    ensures { (tests : Tests) (setup : Deployment) (events : List Event) → IsLawful tests → AreEventsOf setup events → is_legal tests (run tests setup events).history ≡ true }
{}

/// Real time: where one committed transaction is decided before another begins, it stands before it in the order of
/// first decisions.
pub fn real_time()
    ensures { (tests : Tests) (setup : Deployment) (events : List Event) → AreEventsOf setup events → keeps_time (run tests setup events).history ≡ true }
{}

/// Clash cause, by a certifier that obeys the laws: an abort that names a transaction names another one, which began
/// before, and whose part in the named shard fails the prepared test against this one's.
pub fn clash_cause()
    ensures { (tests : Tests) (setup : Deployment) (events : List Event) → IsLawful tests → AreEventsOf setup events → names_clashes tests setup.shards (run tests setup events).history ≡ true }
{}

/// Lost cause: an abort of a lost transaction stands after a take-over of it.
pub fn lost_cause()
    ensures { (tests : Tests) (setup : Deployment) (events : List Event) → AreEventsOf setup events → names_losses (run tests setup events).history ≡ true }
{}

/// And in the named shard some take-over's PREPARE found no preparation, by an event up to the decision: the law speaks of
/// any run, and so of the one that ends with the decision.
pub fn lost_found_nothing()
    ensures { (tests : Tests) (setup : Deployment) (events : List Event) → AreEventsOf setup events → (txn : TxId) (shard : ℕ)
        → StandsIn (Decide txn (Abort shard Lost)) (run tests setup events).history → found_nothing tests setup events txn shard ≡ true }
{}

/// Whatever tells a decision tells one that was taken: each DECISION and OUTCOME message, each mark in a row or in state
/// that is sent, and each outcome that is kept.
pub fn told_rightly()
    ensures { (tests : Tests) (setup : Deployment) (events : List Event) → AreEventsOf setup events → ToldRightly (run tests setup events) }
{}

/// The history of each run is correct, by a certifier that obeys the laws: the three laws above; an abort by a clash
/// names another transaction that began before and truly clashes; and an abort of a lost transaction stands after a
/// take-over of it.
pub fn correctness()
    ensures { (tests : Tests) (setup : Deployment) (events : List Event) → IsLawful tests → AreEventsOf setup events → IsCorrect tests setup.shards (run tests setup events).history }
{}
