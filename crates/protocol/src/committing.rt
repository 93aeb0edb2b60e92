//! Transactions in shards that stay as they are. Each function has an empty body: its contract is what computing the run shows.
#![tactic(auto, unfolding(crate::proofs::OpenAll::open_all))]

ghost use Rattle.protocol.specs.Worked.OneCommit.{OneCommitShows};
ghost use Rattle.protocol.specs.Worked.NoEvents.{NoEventsShows};
ghost use Rattle.protocol.specs.Worked.ClashWithPrepared.{ClashWithPreparedShows};
ghost use Rattle.protocol.specs.Worked.ClashWithCommitted.{ClashWithCommittedShows};
ghost use Rattle.protocol.specs.Worked.DisjointObjects.{DisjointObjectsShows};
ghost use Rattle.protocol.specs.Worked.AbortNamesLowestShard.{AbortNamesLowestShardShows};
ghost use Rattle.protocol.specs.Worked.AcknowledgementMissing.{AcknowledgementMissingShows};
ghost use Rattle.protocol.specs.Worked.AcceptPhase.{AcceptPhaseShows};
ghost use Rattle.protocol.specs.Worked.LateAcknowledgement.{LateAcknowledgementShows};
ghost use Rattle.protocol.specs.Worked.RepeatedDatagram.{RepeatedDatagramShows};
ghost use Rattle.protocol.specs.Worked.StoppedNodeAndUnsentMessage.{StoppedNodeAndUnsentMessageShows};
ghost use Rattle.protocol.specs.Worked.ReadCommittedValue.{ReadCommittedValueShows};
ghost use Rattle.protocol.specs.Worked.LostPreparation.{LostPreparationShows};

/// One transaction at a node alone in its shard: it commits.
pub fn one_commit()
    ensures { OneCommitShows }
{}

/// A run without events sends and notes nothing.
pub fn no_events()
    ensures { NoEventsShows }
{}

/// Two transactions write one object: the second meets the first prepared, and aborts.
pub fn clash_with_prepared()
    ensures { ClashWithPreparedShows }
{}

/// A transaction that read a version before a committed write aborts; one that read it commits.
pub fn clash_with_committed()
    ensures { ClashWithCommittedShows }
{}

/// Two transactions of different objects commit, in the order in which their answers come.
pub fn disjoint_objects()
    ensures { DisjointObjectsShows }
{}

/// Both shards of a transaction refuse it: the abort names the lower one.
pub fn abort_names_lowest_shard()
    ensures { AbortNamesLowestShardShows }
{}

/// One of two followers acknowledges, and again: that decides nothing.
pub fn acknowledgement_missing()
    ensures { AcknowledgementMissingShows }
{}

/// A transaction in a shard with a follower: it is accepted, then it commits.
pub fn accept_phase()
    ensures { AcceptPhaseShows }
{}

/// An acknowledgement that comes again after the decision is held.
pub fn late_acknowledgement()
    ensures { LateAcknowledgementShows }
{}

/// A PREPARE_ACK that comes a second time, after the decision, is held.
pub fn repeated_datagram()
    ensures { RepeatedDatagramShows }
{}

/// A stopped node takes nothing, and a number that was not sent names nothing.
pub fn stopped_node_and_unsent_message()
    ensures { StoppedNodeAndUnsentMessageShows }
{}

/// A read of a committed object tells its version and value.
pub fn read_committed_value()
    ensures { ReadCommittedValueShows }
{}

/// A take-over finds no preparation in the second shard: the transaction is lost there, and the late PREPARE gets the same entry.
pub fn lost_preparation()
    ensures { LostPreparationShows }
{}
