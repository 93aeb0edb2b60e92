//! Transactions stay among the nodes of the setup, and in their shards.

ghost use Rattle.std.specs.Prelude.{List};
ghost use Rattle.tcs_terms.specs.declared.inputs.Event.{Event};
ghost use Rattle.tcs_terms.specs.Setups.{Deployment};
ghost use Rattle.tcs_laws.specs.Certification.{Tests};
ghost use Rattle.protocol.specs.Run.{run};
ghost use Rattle.protocol_laws.specs.Addresses.{TransactionsStayAmongNodes};
ghost use Rattle.protocol_laws.specs.NamedShards.{EmptyAfterTakeOver, ShardsAreNamed};
ghost use Rattle.tcs_terms.specs.Runs.{AreEventsOf};

/// The home of each transaction is a node, and each message that names a transaction or brings rows is sent by a node to a
/// node, never by or to the service.
pub fn transactions_stay_among_nodes()
    ensures { (tests : Tests) (setup : Deployment) (events : List Event) → AreEventsOf setup events → TransactionsStayAmongNodes setup (run tests setup events) }
{}

/// The shard in which a transaction is prepared is one of the transaction's: so say each row, each part of a case, each
/// PREPARE, ACCEPT and answer to a node, and all rows that are sent.
pub fn shards_are_named()
    ensures { (tests : Tests) (setup : Deployment) (events : List Event) → AreEventsOf setup events → ShardsAreNamed (run tests setup events) }
{}

/// So what is prepared without payload was taken over: a transaction has a part in each of its shards.
pub fn empty_after_take_over()
    ensures { (tests : Tests) (setup : Deployment) (events : List Event) → AreEventsOf setup events → EmptyAfterTakeOver (run tests setup events) }
{}
