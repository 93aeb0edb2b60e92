//! The configurations that a node has seen last, one for each shard.
ghost use Rattle.std.specs.Prelude.{◌≡◌, ◌<◌, ◌≤◌, length, option_copied, IfSome};
ghost use Rattle.tcs_terms.specs.declared.limits.TheConstants.{MAX_SHARDS};
ghost use Rattle.protocol.specs.Outcomes.{refusal};
ghost use Rattle.protocol.specs.Views.{view_of, view_epoch, is_follower, is_older, replaced};
ghost use Rattle.coordinator.specs.InOrder.{AreViews, place_among};

use answers::refusal;
use std::marker::Model;
use tcs_terms::{Config, Epoch, Handled, NodeId, ShardId};

/// One view for each shard, shard 1 first, so that a shard's is found by its place. Seen as their list.
#[derive(Debug, Drop)]
pub(crate) struct Views {
    list: Vec<Config>,
}

impl Model for Views {
    ghost use Rattle.std.specs.Prelude.{List};
    ghost use Rattle.tcs_terms.specs.Places.{Membership};
    ghost use Rattle.coordinator.specs.InOrder.{AreViews};

    ghost Value = { List Membership };

    ghost view = { λ v. v.list.items };

    ghost invariant = { λ v. AreViews v.list.items };
}

impl Views {
    pub(crate) fn new(list: Vec<Config>) -> Views
        requires { AreViews list.items }
        ensures { result ≡ list.items }
    {
        Views { list }
    }

    pub(crate) fn list(&self) -> &[Config]
        ensures { result.now ≡ self.now }
    {
        self.list.as_slice()
    }

    /// How many shards there are: 1 to 16.
    pub(crate) fn count(&self) -> u8
        ensures count { result ≡ length self.now }
        ensures some { 1 ≤ result }
        ensures few { result ≤ MAX_SHARDS }
    {
        self.list.len() as u8
    }

    /// The view of a shard, if the run has that shard.
    pub(crate) fn of(&self, shard: ShardId) -> Option<&Config>
        ensures { option_copied result ≡ view_of self.now shard }
    {
        let list = self.list.as_slice();
        match place_of(list, shard) {
            None => None,
            Some(at) => Some(&list[at]),
        }
    }

    /// The epoch of a shard's view, 0 where the run does not have the shard.
    pub(crate) fn epoch(&self, shard: ShardId) -> Epoch
        ensures { result ≡ view_epoch self.now shard }
    {
        match self.of(shard) {
            None => 0,
            Some(view) => view.epoch(),
        }
    }

    /// Whether a configuration is newer than the view of its shard.
    pub(crate) fn is_older_than(&self, config: &Config) -> bool
        ensures { result ≡ is_older (view_of self.now config.now.shard) config.now }
    {
        match self.of(config.shard()) {
            None => false,
            Some(view) => view.epoch() < config.epoch(),
        }
    }

    /// The answer to a message of an epoch that does not act, about a shard.
    pub(crate) fn refusal(&self, shard: ShardId, epoch: Epoch) -> Handled
        ensures { result ≡ refusal epoch (view_epoch self.now shard) }
    {
        refusal(epoch, self.epoch(shard))
    }

    /// A configuration takes the place of its shard's.
    pub(crate) fn replace(&mut self, config: Config)
        ensures { self.new ≡ replaced self.old config }
    {
        if let Some(at) = place_of(&self.list, config.shard()) {
            self.list[at] = config;
        }
    }
}

/// The place of a shard's view, if the run has that shard.
fn place_of(list: &[Config], shard: ShardId) -> Option<usize>
    requires { AreViews list.now }
    ensures place { result ≡ place_among list.now shard }
    ensures within { IfSome result (λ at. at < length list.now) }
{
    if shard == 0 {
        return None;
    }
    let at = usize::from(shard) - 1;
    if at < list.len() { Some(at) } else { None }
}

/// Whether a node is a member that does not lead.
pub(crate) fn is_follower(view: &Config, node: NodeId) -> bool
    ensures { result ≡ is_follower view.now node }
{
    view.members().contains(&node) && node != view.leader()
}
