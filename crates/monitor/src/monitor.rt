//! The monitor of a run.
ghost use Rattle.std.specs.Prelude.{◌≡◌, ◌≤◌, ◌==◌, ◌&&◌, nat_lt, if◌then◌else◌, length, fold, IfOk, OnOk, OnErr};
ghost use Rattle.monitor.specs.Watch.{first_watch, renewed, announced, after_event, proposal, after_asking};

use crate::missing::Judge;
use crate::moves::Proposal;
use crate::tally::{clear_shard, count};
use std::alloc::Global;
use std::marker::Model;
use tcs_terms::{Config, Message, NodeId, OutOfMemory, Outgoing, Setup};

/// Counts, for each node, the messages that came to it since it last sent one, up to 1,000,000, and knows the newest
/// configuration of each shard that was announced. A member whose count has reached a bound is missing: a move of its
/// shard to the nodes that answer best is proposed.
#[derive(Debug, Drop)]
pub struct Monitor {
    setup: Setup,
    miss: u32,
    counts: Vec<u32>,
    configs: Vec<Config>,
}

impl Model for Monitor {
    ghost use Rattle.monitor.specs.Watch.{Watch};

    ghost Value = { Watch };

    ghost view = { λ m. record { setup = m.setup; miss = m.miss; counts = m.counts.items; configs = m.configs.items } };
}

impl Monitor {
    /// The monitor of a run that begins with this setup. A member whose count is at least `miss`, 1 to 1,000,000, is
    /// missing.
    pub fn new(alloc: Global, setup: &Setup, miss: u32) -> Result<Monitor, OutOfMemory>
        requires some { 1 ≤ miss }
        requires few { miss ≤ 1000000 }
        ensures { IfOk result (λ m. m ≡ first_watch setup.now miss) }
    {
        let mut counts = Vec::new(alloc);
        counts.resize(setup.nodes().len(), 0)?;
        Ok(Monitor {
            setup: setup.copy(alloc)?,
            miss,
            counts,
            configs: setup.copy_configs(alloc)?,
        })
    }

    /// Is told of the messages that an event sent, each with its sender. The count of every sender is set back; then
    /// each message raises the count of its receiver, where that is not its sender; and a newer configuration that is
    /// announced is taken. Nodes and shards that the setup does not have are passed over.
    pub fn saw(&mut self, sent: &[(NodeId, Outgoing)])
        ensures { self.new ≡ after_event self.old sent.now }
    {
        count(&mut self.counts, sent);
        take_announced(&mut self.configs, sent);
    }

    /// The move that is proposed now, if a member of some shard's configuration is missing and the shard has another
    /// node: of the lowest such shard and its lowest such member. The shard's other nodes are ordered by count, then
    /// number; the first of them is to make the move, and wanted are the first of them, at most 6 and as many as the
    /// configuration has members. Then the counts of all nodes of the shard are set back.
    ///
    /// `None` comes exactly where no shard has such a member. After `OutOfMemory` the monitor is as it was.
    pub fn propose(&mut self) -> Result<Option<Proposal>, OutOfMemory>
        ensures answer { IfOk result (λ answer. answer ≡ proposal self.old) }
        ensures after { OnOk result (self.new ≡ after_asking self.old) }
        ensures err { OnErr result (self.new ≡ self.old) }
    {
        let alloc = *self.counts.allocator();
        let nodes = self.setup.nodes();
        let judge = Judge {
            miss: self.miss,
            nodes,
            counts: &self.counts,
        };
        let config = match judge.missing(&self.configs) {
            None => return Ok(None),
            Some(config) => config,
        };
        let proposal = judge.move_of(alloc, config)?;
        clear_shard(nodes, config.shard(), &mut self.counts);
        Ok(proposal)
    }
}

/// A newer configuration takes the place of the one of its shard.
fn renew_one(old: &mut Config, new: &Config)
    ensures { old.new
        ≡ (if (old.old.shard == new.now.shard) && nat_lt old.old.epoch new.now.epoch then new.now else old.old) }
{
    if old.shard() == new.shard() && old.epoch() < new.epoch() {
        *old = Config::of(
            new.shard(),
            new.epoch(),
            new.members(),
            new.leader(),
            new.by(),
        );
    }
}

fn renew(configs: &mut [Config], new: &Config)
    ensures { configs.new ≡ renewed configs.old new.now }
{
    for i in 0..configs.len() {
        renew_one(&mut configs[i], new);
    }
}

fn take_announcement(configs: &mut [Config], message: &Message)
    ensures { configs.new ≡ announced configs.old message.now }
{
    if let Message::ConfigChange { config } = message {
        renew(configs, config);
    }
}

/// Takes the newer configurations that these messages announce.
fn take_announced(configs: &mut [Config], sent: &[(NodeId, Outgoing)])
    ensures { configs.new ≡ fold (λ configs letter. announced configs letter.1.message) configs.old sent.now }
{
    for letter in sent {
        take_announcement(configs, &letter.1.message);
    }
}
