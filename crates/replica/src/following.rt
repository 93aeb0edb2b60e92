//! A node becomes follower of a configuration, with its leader's rows.
ghost use Rattle.std.specs.Prelude.{◌≡◌, ◌&&◌, ◌==◌, ◌≤◌, None, IsTrue, IsErr, IfOk, OnOk};
ghost use Rattle.std.specs.Result.{is_err};
ghost use Rattle.tcs_terms.specs.Versions.{version_number};
ghost use Rattle.protocol.specs.Pieces.{takes_piece};
ghost use Rattle.protocol.specs.Records.{NodeRecord};
ghost use Rattle.protocol.specs.ShardRules.{gathers, on_new_state, on_state_piece};
ghost use Rattle.state_transfer.specs.Arriving.{kept_as};
ghost use Rattle.replica.specs.Duties.{least_of};
ghost use Rattle.replica.specs.Replicas.{can_follow, duty_in, within};

use crate::replicas::Replica;
use crate::roles::is_follower;
use answers::refusal;
use state_transfer::{Gathering, StatePiece, drop_below, gather, takes_piece};
use std::alloc::Global;
use tcs_laws::VoteGuard;
use tcs_terms::{Config, Handled, OutOfMemory, Rows, Version};

impl<G: VoteGuard> Replica<G> {
    /// Whether the node may follow a configuration: it is of its shard and a member that does not lead, and the epoch is
    /// not below its least.
    fn may_follow(&self, config: &Config) -> bool
        ensures { result ≡ can_follow self.now config.now }
    {
        config.shard() == self.shard
            && self.least() <= config.epoch()
            && is_follower(config, self.name)
    }

    /// Whether a state of this configuration may be taken whole.
    fn may_take_whole(&self, version: Version, config: &Config) -> bool
        ensures { result ≡ ((version_number version == 1) && can_follow self.now config.now) }
    {
        match version {
            Version::One => self.may_follow(config),
            Version::Two => false,
        }
    }

    /// Whether a piece of a state of this configuration may be taken.
    fn may_take_piece(&self, version: Version, config: &Config, piece: &StatePiece) -> bool
        ensures { result ≡ ((version_number version == 2) && can_follow self.now config.now
            && takes_piece self.now.gathering config.now piece.now.pieces (kept_as piece.now)) }
    {
        match version {
            Version::One => false,
            Version::Two => {
                self.may_follow(config) && takes_piece(&self.gathering, config, piece)
            }
        }
    }

    /// NEW_STATE, under version 1: the node becomes follower with these rows. Nothing is sent.
    pub fn new_state(
        &mut self,
        alloc: Global,
        version: Version,
        config: Config,
        rows: Rows,
    ) -> Result<Handled, OutOfMemory>
        ensures answer { (node : NodeRecord) → IfOk result (λ h. h ≡ (on_new_state (version_number version) (within node self.old) config rows).answer) }
        ensures kept { (node : NodeRecord) → OnOk result (within node self.new ≡ (on_new_state (version_number version) (within node self.old) config rows).kept) }
        ensures spent { self.new.spent ≡ is_err result }
        ensures refuses { IsTrue self.old.spent → IsErr result }
    {
        if self.spent {
            return Err(OutOfMemory);
        }
        if !self.may_take_whole(version, &config) {
            return Ok(refusal(config.epoch(), self.least()));
        }
        self.spent = true;
        drop_below(&mut self.gathering, config.epoch());
        self.duty.follow(alloc, config, rows.into_list())?;
        self.spent = false;
        Ok(Handled::Acted)
    }

    /// The node goes on with what it gathered for a configuration: it follows once every piece is there.
    #[tactic(auto, unfolding(protocol::specs::Choices::when))]
    fn go_on(
        &mut self,
        alloc: Global,
        config: Config,
        gathering: Gathering,
    ) -> Result<(), OutOfMemory>
        requires least { least_of (duty_in self.old) ≤ config.epoch }
        requires none { self.old.gathering ≡ None }
        ensures kept { (node : NodeRecord) → OnOk result (within node self.new ≡ (gathers (within node self.old) config gathering).kept) }
        ensures spent { self.new.spent ≡ self.old.spent }
    {
        if gathering.is_whole() {
            let rows = gathering.into_rows(alloc)?;
            return self.duty.follow(alloc, config, rows);
        }
        self.gathering = Some(gathering);
        Ok(())
    }

    /// STATE_PIECE, under version 2: the piece is added to what is gathered for its configuration, and the node becomes
    /// follower once all are there. Nothing is sent.
    pub fn state_piece(
        &mut self,
        alloc: Global,
        version: Version,
        config: Config,
        piece: StatePiece,
    ) -> Result<Handled, OutOfMemory>
        requires from_one { 1 ≤ piece.number }
        requires one_of { piece.number ≤ piece.pieces }
        ensures answer { (node : NodeRecord) → IfOk result (λ h. h
            ≡ (on_state_piece (version_number version) (within node self.old) config piece.pieces (kept_as piece)).answer) }
        ensures kept { (node : NodeRecord) → OnOk result (within node self.new
            ≡ (on_state_piece (version_number version) (within node self.old) config piece.pieces (kept_as piece)).kept) }
        ensures spent { self.new.spent ≡ is_err result }
        ensures refuses { IsTrue self.old.spent → IsErr result }
    {
        if self.spent {
            return Err(OutOfMemory);
        }
        if !self.may_take_piece(version, &config, &piece) {
            return Ok(refusal(config.epoch(), self.least()));
        }
        self.spent = true;
        let before = self.gathering.take();
        let gathering = gather(alloc, before, &config, piece)?;
        self.go_on(alloc, config, gathering)?;
        self.spent = false;
        Ok(Handled::Acted)
    }
}
