//! The setup of a run: its version, its rule of certification, its shards, nodes and first configurations.
ghost use Rattle.std.specs.Prelude.{◌≡◌, ◌↔◌, Some, IsOk, IfOk, IfErr};

use crate::configurations::Config;
use crate::copies::copy_all;
use crate::faults::BadSetup;
use crate::ids::ShardId;
use crate::memory::OutOfMemory;
use crate::setup_faults::setup_fault;
use crate::versions::Version;
use std::alloc::Global;
use std::marker::Model;

/// The rule by which transactions are certified.
#[derive(Clone, Copy, Debug, PartialEq, Eq, Hash)]
pub enum Rule {
    Serial,
    Snapshot,
    /// Serial, but additions to one counter commute.
    Commute,
}

/// What a run starts from: the version of the protocol, 1 or 2; the rule; the number of shards, 1 to 16; the shard
/// of each node, node 1 first; and the first configuration of each shard, shard 1 first.
#[derive(Debug, Drop)]
pub struct Setup {
    version: u8,
    rule: Rule,
    shards: u8,
    nodes: Vec<ShardId>,
    configs: Vec<Config>,
}

impl Model for Setup {
    ghost use Rattle.tcs_terms.specs.Setups.{Deployment, IsDeployment};

    ghost Value = { Deployment };

    ghost view = { λ s. record {
      version = s.version;
      rule = s.rule;
      shards = s.shards;
      nodes = s.nodes.items;
      configs = s.configs.items;
    } };

    ghost invariant = { λ s. IsDeployment (record {
      version = s.version;
      rule = s.rule;
      shards = s.shards;
      nodes = s.nodes.items;
      configs = s.configs.items;
    }) };
}

impl Setup {
    ghost use Rattle.tcs_terms.specs.Setups.{IsDeployment};
    ghost use Rattle.tcs_terms.specs.SetupFaults.{setup_fault};
    ghost use Rattle.tcs_terms.specs.Versions.{version_number};

    /// The setup of these parts, of version 1.
    ///
    /// # Errors
    /// The first of `Shards`, `Nodes` and `Configs` that is wrong.
    pub fn build(
        rule: Rule,
        shards: u8,
        nodes: Vec<ShardId>,
        configs: Vec<Config>,
    ) -> Result<Setup, BadSetup>
        ensures ok { IsOk result ↔ IsDeployment (record {
          version = 1;
          rule = rule;
          shards = shards;
          nodes = nodes.items;
          configs = configs.items;
        }) }
        ensures value { IfOk result (λ s. s ≡ record {
          version = 1;
          rule = rule;
          shards = shards;
          nodes = nodes.items;
          configs = configs.items;
        }) }
        ensures refusal { IfErr result (λ fault. setup_fault (record {
          version = 1;
          rule = rule;
          shards = shards;
          nodes = nodes.items;
          configs = configs.items;
        }) ≡ Some fault) }
    {
        Setup::build_version(1, rule, shards, nodes, configs)
    }

    /// The setup of these parts.
    ///
    /// # Errors
    /// The first of these: `Version`, where it is neither 1 nor 2; `Shards`, where there are none or more than 16;
    /// `Nodes`, where there are none, more than 64, or one that is in none of the shards; `Configs`, where there is not
    /// one configuration for each shard, in order, of epoch 1, proposed by nobody, with members that are nodes of the
    /// shard.
    pub fn build_version(
        version: u8,
        rule: Rule,
        shards: u8,
        nodes: Vec<ShardId>,
        configs: Vec<Config>,
    ) -> Result<Setup, BadSetup>
        ensures ok { IsOk result ↔ IsDeployment (record {
          version = version;
          rule = rule;
          shards = shards;
          nodes = nodes.items;
          configs = configs.items;
        }) }
        ensures value { IfOk result (λ s. s ≡ record {
          version = version;
          rule = rule;
          shards = shards;
          nodes = nodes.items;
          configs = configs.items;
        }) }
        ensures refusal { IfErr result (λ fault. setup_fault (record {
          version = version;
          rule = rule;
          shards = shards;
          nodes = nodes.items;
          configs = configs.items;
        }) ≡ Some fault) }
    {
        match setup_fault(version, rule, shards, &nodes, &configs) {
            Some(fault) => Err(fault),
            None => Ok(Setup {
                version,
                rule,
                shards,
                nodes,
                configs,
            }),
        }
    }

    /// The same setup again.
    pub fn copy(&self, alloc: Global) -> Result<Setup, OutOfMemory>
        ensures { IfOk result (λ c. c ≡ self.now) }
    {
        Ok(Setup {
            version: self.version,
            rule: self.rule,
            shards: self.shards,
            nodes: Vec::from_slice(alloc, &self.nodes)?,
            configs: copy_all(alloc, &self.configs)?,
        })
    }

    /// Copies of the first configurations, shard 1 first.
    pub fn copy_configs(&self, alloc: Global) -> Result<Vec<Config>, OutOfMemory>
        ensures configs { IfOk result (λ v. v.items ≡ self.now.configs) }
        ensures setup { IsDeployment self.now }
    {
        copy_all(alloc, &self.configs)
    }

    /// The version of the protocol: 1, or 2 with state in pieces and range reads.
    pub fn version(&self) -> u8
        ensures version { result ≡ self.now.version }
        ensures setup { IsDeployment self.now }
    {
        self.version
    }

    /// The version of the protocol, as a type.
    pub fn protocol(&self) -> Version
        ensures version { version_number result ≡ self.now.version }
        ensures setup { IsDeployment self.now }
    {
        match self.version {
            2 => Version::Two,
            _ => Version::One,
        }
    }

    pub fn rule(&self) -> Rule
        ensures rule { result ≡ self.now.rule }
        ensures setup { IsDeployment self.now }
    {
        self.rule
    }

    /// How many shards there are: 1 to 16.
    pub fn shards(&self) -> u8
        ensures shards { result ≡ self.now.shards }
        ensures setup { IsDeployment self.now }
    {
        self.shards
    }

    /// The shard of each node, node 1 first.
    pub fn nodes(&self) -> &[ShardId]
        ensures nodes { result.now ≡ self.now.nodes }
        ensures setup { IsDeployment self.now }
    {
        self.nodes.as_slice()
    }

    /// The first configuration of each shard, shard 1 first.
    pub fn configs(&self) -> &[Config]
        ensures configs { result.now ≡ self.now.configs }
        ensures setup { IsDeployment self.now }
    {
        self.configs.as_slice()
    }
}
