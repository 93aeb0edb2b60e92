//! Which member of which configuration is missing.
ghost use Rattle.std.specs.Prelude.{◌≡◌, ◌≤◌, length, find, option_copied, IfOk};
ghost use Rattle.monitor.specs.Moves.{has_other, is_missing, missing_in, missing, move_of};

use crate::moves::{Proposal, is_spare, move_to, others};
use crate::tally::count_of;
use std::alloc::Global;
use tcs_terms::{Config, NodeId, OutOfMemory, ShardId};

/// What a configuration is judged by: at which count a member is missing, the shards of the nodes, and their counts.
#[derive(Clone, Copy)]
pub(crate) struct Judge<'a> {
    pub(crate) miss: u32,
    pub(crate) nodes: &'a [ShardId],
    pub(crate) counts: &'a [u32],
}

impl Judge<'_> {
    /// Whether a shard has a node other than this one.
    fn has_other(&self, shard: ShardId, member: NodeId) -> bool
        ensures { result ≡ has_other self.now.nodes.now shard member }
    {
        let mut found = false;
        for node in 1..self.nodes.len() as u64 + 1 {
            if is_spare(self.nodes, shard, member, node) {
                found = true;
            }
        }
        found
    }

    /// Whether a member of a shard's configuration is missing, and the shard has another node.
    fn is_missing(&self, shard: ShardId, member: NodeId) -> bool
        ensures { result ≡ is_missing self.now.miss self.now.nodes.now self.now.counts.now shard member }
    {
        self.miss <= count_of(self.counts, member) && self.has_other(shard, member)
    }

    /// The lowest missing member of a configuration.
    pub(crate) fn missing_in(&self, config: &Config) -> Option<NodeId>
        ensures { result ≡ missing_in self.now.miss self.now.nodes.now self.now.counts.now config.now }
    {
        first_missing(self, config.shard(), config.members()).copied()
    }

    /// The first of these configurations that has a missing member.
    pub(crate) fn missing<'a>(&self, configs: &'a [Config]) -> Option<&'a Config>
        ensures { option_copied result ≡ missing self.now.miss self.now.nodes.now self.now.counts.now configs.now }
    {
        configs
            .iter()
            .find(|config| self.missing_in(config).is_some())
    }

    /// The move that is proposed of a configuration.
    pub(crate) fn move_of(
        &self,
        alloc: Global,
        config: &Config,
    ) -> Result<Option<Proposal>, OutOfMemory>
        requires { length self.now.nodes.now ≤ 64 }
        ensures { IfOk result (λ answer. answer
            ≡ move_of self.now.miss self.now.nodes.now self.now.counts.now config.now) }
    {
        match self.missing_in(config) {
            None => Ok(None),
            Some(missed) => {
                let spares = others(alloc, self.nodes, config.shard(), missed)?;
                move_to(alloc, self.counts, config, missed, &spares)
            }
        }
    }
}

/// The first of these members of a shard's configuration that is missing.
fn first_missing<'a>(judge: &Judge<'_>, shard: ShardId, members: &'a [NodeId]) -> Option<&'a NodeId>
    ensures { option_copied result
        ≡ find (is_missing judge.now.miss judge.now.nodes.now judge.now.counts.now shard) members.now }
{
    members
        .iter()
        .find(|member| judge.is_missing(shard, **member))
}
