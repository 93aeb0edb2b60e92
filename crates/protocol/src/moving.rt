//! Shards that move to new configurations. Each function has an empty body: its contract is what computing the run shows.
#![tactic(auto, unfolding(crate::proofs::OpenAll::open_all))]

ghost use Rattle.protocol.specs.Worked.TakeOverAfterLeaderStops.{TakeOverAfterLeaderStopsShows};
ghost use Rattle.protocol.specs.Worked.StateIsNotTakenTwice.{StateIsNotTakenTwiceShows};
ghost use Rattle.protocol.specs.Worked.LowerEpochAfterLowAnswer.{LowerEpochAfterLowAnswerShows};
ghost use Rattle.protocol.specs.Worked.LowerWithoutLowAnswer.{LowerWithoutLowAnswerShows};
ghost use Rattle.protocol.specs.Worked.TwoProbersOneEpoch.{TwoProbersOneEpochShows};
ghost use Rattle.protocol.specs.Worked.FencedLeaderHoldsPrepare.{FencedLeaderHoldsPrepareShows};
ghost use Rattle.protocol.specs.Worked.FencedFollowerRefusesAccept.{FencedFollowerRefusesAcceptShows};
ghost use Rattle.protocol.specs.Worked.ViewChangesDuringACase.{ViewChangesDuringACaseShows};
ghost use Rattle.protocol.specs.Worked.GuardMoves.{GuardMovesShows};
ghost use Rattle.protocol.specs.Worked.GuardStaysQuiet.{GuardStaysQuietShows};

/// A shard is moved after its leader stopped; a node of the new configuration takes over and decides the same.
pub fn take_over_after_leader_stops()
    ensures { TakeOverAfterLeaderStopsShows }
{}

/// A follower does not take the state of its epoch a second time, and loses no row.
pub fn state_is_not_taken_twice()
    ensures { StateIsNotTakenTwiceShows }
{}

/// After a low answer the prober goes down one epoch, and finds a leader there.
pub fn lower_epoch_after_low_answer()
    ensures { LowerEpochAfterLowAnswerShows }
{}

/// Without a low answer the prober does not go down.
pub fn lower_without_low_answer()
    ensures { LowerWithoutLowAnswerShows }
{}

/// Two nodes propose one epoch: the first is stored, and the second hears what was stored.
pub fn two_probers_one_epoch()
    ensures { TwoProbersOneEpochShows }
{}

/// A fenced leader holds a PREPARE of the epoch that it promised, until it leads it.
pub fn fenced_leader_holds_prepare()
    ensures { FencedLeaderHoldsPrepareShows }
{}

/// A fenced follower refuses an ACCEPT of the epoch that it left.
pub fn fenced_follower_refuses_accept()
    ensures { FencedFollowerRefusesAcceptShows }
{}

/// A shard moves while a case is open: it is asked again in the new epoch, and decided there.
pub fn view_changes_during_a_case()
    ensures { ViewChangesDuringACaseShows }
{}

/// A shard whose leader stopped is moved, and the case of a third node is decided there.
pub fn guard_moves()
    ensures { GuardMovesShows }
{}

/// A case whose leader stopped stays open while nothing moves the shard.
pub fn guard_stays_quiet()
    ensures { GuardStaysQuietShows }
{}
