//! The stages of moving a shard.
ghost use Rattle.std.specs.Prelude.{◌≡◌};
ghost use Rattle.protocol.specs.Probing.{prober_epoch, awaits};
ghost use Rattle.prober.specs.Stages.{stage_of};

use tcs_terms::limits::MAX_EPOCH;
use tcs_terms::{Config, Epoch, NodeId, ShardId, Wanted};

/// What a prober waits for.
#[derive(Drop)]
pub(crate) enum Stage {
    Idle,
    /// The last configuration of the shard was asked for.
    AskedLast {
        shard: ShardId,
        want: Wanted,
    },
    /// The members of a configuration are asked to promise the epoch that is to come; those in `low` answered that
    /// they were not initialised at its epoch or later.
    Probing {
        shard: ShardId,
        want: Wanted,
        epoch: Epoch,
        probed: Config,
        low: Vec<NodeId>,
    },
    /// The configuration of a lower epoch was asked for.
    AskedLower {
        shard: ShardId,
        want: Wanted,
        epoch: Epoch,
        asked: Epoch,
    },
    /// A configuration was proposed.
    CasSent {
        config: Config,
    },
}

impl Stage {
    /// The epoch that is to come, 0 before it is known.
    pub(crate) fn epoch(&self) -> Epoch
        ensures { result ≡ prober_epoch (stage_of self.now) }
    {
        match self {
            Stage::Idle | Stage::AskedLast { .. } => 0,
            Stage::Probing { epoch, .. } | Stage::AskedLower { epoch, .. } => *epoch,
            Stage::CasSent { config } => config.epoch(),
        }
    }

    /// Whether this stored configuration is waited for, where the view of its shard has that epoch.
    pub(crate) fn awaits(&self, stored: &Config, view: Epoch) -> bool
        ensures { result ≡ awaits (stage_of self.now) stored.now view }
    {
        match self {
            Stage::Idle | Stage::Probing { .. } => false,
            Stage::AskedLast { shard, .. } => {
                stored.shard() == *shard && view <= stored.epoch() && stored.epoch() < MAX_EPOCH
            }
            Stage::AskedLower { shard, asked, .. } => {
                stored.shard() == *shard && stored.epoch() == *asked
            }
            Stage::CasSent { config } => {
                stored.shard() == config.shard() && stored.epoch() == config.epoch()
            }
        }
    }
}
