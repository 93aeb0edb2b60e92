//! The setup of every generated schedule.
ghost use Rattle.std.specs.Prelude.{◌≡◌, ◌<◌, false, IfOk};
ghost use Rattle.protocol.specs.Limit.Progress.{Live};
ghost use Rattle.protocol.specs.World.{first_world};
ghost use Rattle.tcs_terms.specs.Places.{IsMembership};
ghost use Rattle.generated_runs.specs.Setup.{config_of, setup};

use conflict_index::SerialIndex;
use std::alloc::Global;
use tcs_terms::{Config, OutOfMemory, Rule, Setup};
use world::World;

/// The first configuration of a shard: its leader and the node behind it.
fn config_of(shard: u8, leader: u8) -> Config
    requires few { leader < 255 }
    requires config { IsMembership (config_of shard leader) }
    ensures { result ≡ config_of shard leader }
{
    Config::of(shard, 1, &[leader, leader + 1], leader, 0)
}

/// Three shards of three nodes each, under the serial rule.
#[tactic(auto, unfolding(generated_runs::specs::Setup::setup))]
fn generated_setup(alloc: Global) -> Result<Setup, OutOfMemory>
    ensures { IfOk result (λ s. s ≡ setup) }
{
    let mut nodes = Vec::new(alloc);
    nodes.extend_from_slice(&[1, 1, 1, 2, 2, 2, 3, 3, 3])?;
    let mut configs = Vec::new(alloc);
    configs.push(config_of(1, 1))?;
    configs.push(config_of(2, 4))?;
    configs.push(config_of(3, 7))?;
    match Setup::build(Rule::Serial, 3, nodes, configs) {
        Ok(setup) => Ok(setup),
        Err(_) => unreachable!(),
    }
}

/// The world of this setup before its first event.
pub(crate) fn generated_world(alloc: Global) -> Result<World<SerialIndex>, OutOfMemory>
    ensures { IfOk result (λ w. w ≡ record {
      setup = setup;
      progress = Live (first_world setup) 0 0;
      spent = false;
    }) }
{
    let setup = generated_setup(alloc)?;
    World::new(alloc, setup)
}
