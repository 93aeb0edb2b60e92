//! Reads the header of a schedule or script, line by line.
ghost use Rattle.std.specs.Prelude.{◌≡◌, ◌+◌, ◌<◌, ◌≤◌, ◌==◌, ◌&&◌, ◌||◌, not, nat_lt, length, IfOk, IsTrue};
ghost use Rattle.tcs_terms.specs.Payloads.{same_name};
ghost use Rattle.tcs_terms.specs.Setups.{Deployment};
ghost use Rattle.schedule_text.specs.Words.{Gives, Tells, end_at};
ghost use Rattle.schedule_text.specs.Header.{Head, no_parts, rule_at, version_at, certifier_at, shards_at, next_at, node_at, shard_in_order_at, members_at, config_or, first_config_at, config_at, setup_or, begun_at, has_place_for, events_at, part_at, head_at};

use crate::faults::{LineFault, bad};
use crate::node_lists::nodes;
use crate::places::Place;
use crate::word_readers::{between, end, fixed, node_of, number};
use std::alloc::Global;
use std::marker::Model;
use tcs_terms::limits::{MAX_MEMBERS, MAX_NODES, MAX_SHARDS};
use tcs_terms::{Config, NodeId, OutOfMemory, Rule, Setup, ShardId};
use text_words::{Reason, Words};

/// The parts of a setup, put together line by line. Seen as the place in the text, and the parts so far.
#[derive(Debug, Drop)]
pub(crate) struct Header {
    alloc: Global,
    pub(crate) place: Place,
    version: u8,
    pub(crate) rule: Rule,
    shards: u8,
    nodes: Vec<ShardId>,
    configs: Vec<Config>,
}

impl Model for Header {
    ghost use Rattle.std.specs.Prelude.{◌≤◌, ◌==◌, ◌||◌, length, IsTrue};
    ghost use Rattle.tcs_terms.specs.declared.limits.TheConstants.{MAX_NODES, MAX_SHARDS};
    ghost use Rattle.schedule_text.specs.Header.{Head};

    ghost Value = { Head };

    ghost view = { λ h. record {
      place = h.place;
      setup = record {
        version = h.version;
        rule = h.rule;
        shards = h.shards;
        nodes = h.nodes.items;
        configs = h.configs.items;
      };
    } };

    ghost invariant = { λ h. (length h.nodes.items ≤ MAX_NODES) × (h.shards ≤ MAX_SHARDS) × IsTrue ((h.version == 1) || (h.version == 2)) };
}

#[tactic(auto, unfolding(crate::specs::Header::rule_at))]
fn rule(words: &mut Words) -> Result<Rule, LineFault>
    ensures { Tells (λ r. r) result words.new (rule_at words.old) }
{
    let Some(word) = words.take() else {
        return bad(Reason::Word);
    };
    match Rule::named(word) {
        Some(rule) => Ok(rule),
        None => bad(Reason::Word),
    }
}

/// The number of the node after so many.
#[tactic(auto, unfolding(crate::specs::Header::next_at))]
fn next(count: usize, words: &mut Words) -> Result<u64, LineFault>
    ensures told { Tells (λ n. n) result words.new (next_at count words.old) }
    ensures room { IfOk result (λ n. count < MAX_NODES) }
{
    let number = number(words)?;
    if count >= MAX_NODES as usize {
        return bad(Reason::Many);
    }
    if number != count as u64 + 1 {
        return bad(Reason::Order);
    }
    Ok(number)
}

fn copies(alloc: Global, configs: &[Config]) -> Result<Vec<Config>, OutOfMemory>
    ensures { IfOk result (λ copies. copies.items ≡ configs.now) }
{
    let mut copies = Vec::new(alloc);
    'configs: for config in configs {
        copies.push(config.copy(alloc)?)?;
    }
    Ok(copies)
}

impl Header {
    /// Waits for the first line.
    pub(crate) fn new(alloc: Global) -> Header
        ensures { result ≡ record { place = Place.Version; setup = no_parts } }
    {
        Header {
            alloc,
            place: Place::Version,
            version: 1,
            rule: Rule::Serial,
            shards: 0,
            nodes: Vec::new(alloc),
            configs: Vec::new(alloc),
        }
    }

    /// The shard of each node so far, node 1 first.
    pub(crate) fn nodes(&self) -> &[ShardId]
        ensures nodes { result.now ≡ self.now.setup.nodes }
        ensures few { length result.now ≤ MAX_NODES }
    {
        self.nodes.as_slice()
    }

    pub(crate) fn shards(&self) -> u8
        ensures shards { result ≡ self.now.setup.shards }
        ensures few { result ≤ MAX_SHARDS }
    {
        self.shards
    }

    pub(crate) fn version(&self) -> u8
        ensures version { result ≡ self.now.setup.version }
        ensures known { IsTrue ((result == 1) || (result == 2)) }
    {
        self.version
    }

    /// Takes the next line. The last one gives the setup. An `Err` leaves the header as it was.
    pub(crate) fn take(
        &mut self,
        only: Option<NodeId>,
        words: &mut Words,
    ) -> Result<Option<Setup>, LineFault>
        ensures { Tells (λ s. s) result self.new (head_at only self.old.place self.old.setup words.old) }
    {
        match self.place {
            Place::Version => self.take_version(words),
            Place::Certifier => self.take_certifier(words),
            Place::Shards => self.take_shards(words),
            Place::Parts => self.take_part(only, words),
            Place::Events => bad(Reason::Word),
            Place::Ended => bad(Reason::Word),
        }
    }

    #[tactic(auto, unfolding(crate::specs::Header::version_at))]
    fn take_version(&mut self, words: &mut Words) -> Result<Option<Setup>, LineFault>
        ensures { Tells (λ s. s) result self.new (version_at self.old.setup words.old) }
    {
        fixed(b"tcs", words)?;
        let version = between(1, 2, words)?;
        end(words)?;
        self.version = version as u8;
        self.place = Place::Certifier;
        Ok(None)
    }

    #[tactic(auto, unfolding(crate::specs::Header::certifier_at))]
    fn take_certifier(&mut self, words: &mut Words) -> Result<Option<Setup>, LineFault>
        ensures { Tells (λ s. s) result self.new (certifier_at self.old.setup words.old) }
    {
        fixed(b"certifier", words)?;
        let rule = rule(words)?;
        end(words)?;
        self.rule = rule;
        self.place = Place::Shards;
        Ok(None)
    }

    #[tactic(auto, unfolding(crate::specs::Header::shards_at))]
    fn take_shards(&mut self, words: &mut Words) -> Result<Option<Setup>, LineFault>
        ensures { Tells (λ s. s) result self.new (shards_at self.old.setup words.old) }
    {
        fixed(b"shards", words)?;
        let shards = between(1, u64::from(MAX_SHARDS), words)?;
        end(words)?;
        self.shards = shards as u8;
        self.place = Place::Parts;
        Ok(None)
    }

    #[tactic(auto, unfolding(crate::specs::Header::part_at))]
    fn take_part(
        &mut self,
        only: Option<NodeId>,
        words: &mut Words,
    ) -> Result<Option<Setup>, LineFault>
        ensures { Tells (λ s. s) result self.new (part_at only self.old.setup words.old) }
    {
        if self.configs.is_empty() && words.begins(b"node") {
            words.skip();
            return self.take_node(words);
        }
        if self.may_configure() && words.begins(b"config") {
            words.skip();
            return self.take_config(words);
        }
        self.take_events(only, words)
    }

    /// There is a node, and a shard without a configuration.
    fn may_configure(&self) -> bool
        ensures { result ≡ (not (length self.now.setup.nodes == 0) && nat_lt (length self.now.setup.configs) self.now.setup.shards) }
    {
        !self.nodes.is_empty() && self.configs.len() < self.shards as usize
    }

    #[tactic(auto, unfolding(crate::specs::Header::node_at))]
    fn take_node(&mut self, words: &mut Words) -> Result<Option<Setup>, LineFault>
        ensures { Tells (λ s. s) result self.new (node_at self.old.setup words.old) }
    {
        let _node = next(self.nodes.len(), words)?;
        let shard = between(1, u64::from(self.shards), words)?;
        end(words)?;
        self.nodes.push(shard as ShardId)?;
        self.place = Place::Parts;
        Ok(None)
    }

    #[tactic(auto, unfolding(crate::specs::Header::config_at))]
    fn take_config(&mut self, words: &mut Words) -> Result<Option<Setup>, LineFault>
        ensures { Tells (λ s. s) result self.new (config_at self.old.setup words.old) }
    {
        let config = self.first_config(words)?;
        self.configs.push(config)?;
        self.place = Place::Parts;
        Ok(None)
    }

    #[tactic(auto, unfolding(crate::specs::Header::first_config_at))]
    fn first_config(&self, words: &mut Words) -> Result<Config, LineFault>
        ensures { Gives (λ c. c) result (first_config_at self.now.setup words.old) }
    {
        let shard = self.shard_in_order(words)?;
        let leader = node_of(self.nodes(), shard, words)?;
        let members = self.members(shard, words)?;
        first_config(shard, members, leader)
    }

    #[tactic(auto, unfolding(crate::specs::Header::shard_in_order_at))]
    fn shard_in_order(&self, words: &mut Words) -> Result<ShardId, LineFault>
        ensures { Tells (λ s. s) result words.new (shard_in_order_at self.now.setup words.old) }
    {
        let shard = between(1, u64::from(self.shards), words)?;
        if !self.is_next_shard(shard) {
            return bad(Reason::Order);
        }
        Ok(shard as ShardId)
    }

    /// Whether the next configuration is that of this shard.
    fn is_next_shard(&self, shard: u64) -> bool
        ensures { result ≡ (shard == length self.now.setup.configs + 1) }
    {
        shard == self.configs.len() as u64 + 1
    }

    #[tactic(auto, unfolding(crate::specs::Header::members_at))]
    fn members(&self, shard: ShardId, words: &mut Words) -> Result<Vec<NodeId>, LineFault>
        ensures { Gives (λ ns. ns.items) result (members_at self.now.setup shard words.old) }
    {
        if words.is_empty() {
            return bad(Reason::Word);
        }
        nodes(self.alloc, self.nodes(), shard, MAX_MEMBERS, words)
    }

    #[tactic(auto, unfolding(crate::specs::Header::events_at))]
    fn take_events(
        &mut self,
        only: Option<NodeId>,
        words: &mut Words,
    ) -> Result<Option<Setup>, LineFault>
        ensures { Tells (λ s. s) result self.new (events_at only self.old.setup words.old) }
    {
        let setup = self.begun(words)?;
        end(words)?;
        if !self.has_place_for(only) {
            return bad(Reason::Range);
        }
        self.place = Place::Events;
        Ok(Some(setup))
    }

    fn has_place_for(&self, only: Option<NodeId>) -> bool
        ensures { result ≡ has_place_for only self.now.setup }
    {
        match only {
            None => true,
            Some(only) => only as usize <= self.nodes.len(),
        }
    }

    #[tactic(auto, unfolding(crate::specs::Header::begun_at))]
    fn begun(&self, words: &mut Words) -> Result<Setup, LineFault>
        ensures { Tells (λ s. s) result words.new (begun_at self.now.setup words.old) }
    {
        fixed(b"events", words)?;
        self.setup()
    }

    /// The setup of the parts.
    fn setup(&self) -> Result<Setup, LineFault>
        ensures { Gives (λ s. s) result (setup_or self.now.setup) }
    {
        let nodes = Vec::from_slice(self.alloc, &self.nodes)?;
        let configs = copies(self.alloc, &self.configs)?;
        built(self.version, self.rule, self.shards, nodes, configs)
    }
}

/// A first configuration, which has its leader among its members.
fn first_config(shard: ShardId, members: Vec<NodeId>, leader: NodeId) -> Result<Config, LineFault>
    ensures { Gives (λ c. c) result (config_or (record { shard = shard; epoch = 1; members = members.items; leader = leader; by = 0 })) }
{
    match Config::build(shard, 1, members, leader, 0) {
        Ok(config) => Ok(config),
        Err(_) => bad(Reason::Range),
    }
}

fn built(
    version: u8,
    rule: Rule,
    shards: u8,
    nodes: Vec<ShardId>,
    configs: Vec<Config>,
) -> Result<Setup, LineFault>
    ensures { Gives (λ s. s) result (setup_or (record { version = version; rule = rule; shards = shards; nodes = nodes.items; configs = configs.items })) }
{
    match Setup::build_version(version, rule, shards, nodes, configs) {
        Ok(setup) => Ok(setup),
        Err(_) => bad(Reason::Word),
    }
}
