//! The configurations that are stored, and an index by shard and epoch, so that no look-up goes through all of them.
ghost use Rattle.std.specs.Prelude.{◌≡◌, ◌<◌, ◌++◌, ◌∷◌, [], length, slice_set, IfOk, OnOk, OnErr, IsTrue, option_copied};
ghost use Rattle.std.specs.List.{slice_get};
ghost use Rattle.std.specs.Option.{option_and_then};
ghost use Rattle.protocol.specs.Service.{last_config, config_at, is_next};
ghost use Rattle.config_service.specs.Index.{last_place, place_in, places_of, first_index};
ghost use Rattle.config_service.specs.Firsts.{AreFirsts};

use crate::places::Places;
use std::alloc::Global;
use std::marker::Model;
use tcs_terms::{Config, Epoch, OutOfMemory, ShardId};

/// The configuration service of a run. Seen as the list of all configurations that it stores, in the order in which they
/// were stored.
#[derive(Debug, Drop)]
pub struct ConfigService {
    pub(crate) configs: Vec<Config>,
    /// The places in `configs` of each shard's configurations, at the shard's number.
    index: Vec<Places>,
}

impl Model for ConfigService {
    ghost use Rattle.std.specs.Prelude.{List};
    ghost use Rattle.tcs_terms.specs.Places.{Membership};
    ghost use Rattle.config_service.specs.Index.{IsIndex};

    ghost Value = { List Membership };

    ghost view = { λ s. s.configs.items };

    ghost invariant = { λ s. IsIndex s.configs.items s.index.items };
}

impl ConfigService {
    /// The service that stores the first configurations of a run: one for each shard, shard 1 first, of epoch 1. Those of
    /// a setup are.
    #[tactic(auto, using(crate::proofs::FirstIndex::firsts_indexed))]
    pub fn build(alloc: Global, firsts: Vec<Config>) -> Result<ConfigService, OutOfMemory>
        requires { AreFirsts firsts.items }
        ensures { IfOk result (λ s. s ≡ firsts.items) }
    {
        let index = first_index(alloc, firsts.len())?;
        Ok(ConfigService {
            configs: firsts,
            index,
        })
    }

    /// All configurations that are stored, in the order in which they were stored.
    pub fn configs(&self) -> &[Config]
        ensures { result.now ≡ self.now }
    {
        self.configs.as_slice()
    }

    /// The last configuration of a shard.
    pub fn last(&self, shard: ShardId) -> Option<&Config>
        ensures { option_copied result ≡ last_config self.now shard }
    {
        config_of(&self.configs, last_place(&self.index, shard))
    }

    /// The configuration of a shard's epoch.
    pub fn at(&self, shard: ShardId, epoch: Epoch) -> Option<&Config>
        ensures { option_copied result ≡ config_at self.now shard epoch }
    {
        config_of(&self.configs, place_at(&self.index, shard, epoch))
    }

    /// Stores the next configuration of a shard. Where memory runs out nothing is stored.
    pub(crate) fn keep(&mut self, config: Config) -> Result<(), OutOfMemory>
        requires { IsTrue (is_next (last_config self.old config.shard) config) }
        ensures ok { OnOk result (self.new ≡ self.old ++ config ∷ []) }
        ensures err { OnErr result (self.new ≡ self.old) }
    {
        self.configs.reserve(1)?;
        push_place(&mut self.index, config.shard(), self.configs.len())?;
        Ok(self.configs.push(config)?)
    }
}

/// The index of so many first configurations of a run.
fn first_index(alloc: Global, count: usize) -> Result<Vec<Places>, OutOfMemory>
    ensures { IfOk result (λ index. index.items ≡ first_index count) }
{
    let mut index = Vec::new(alloc);
    index.push(Places::new(alloc))?;
    for place in 0..count {
        let mut places = Places::new(alloc);
        places.push(place)?;
        index.push(places)?;
    }
    Ok(index)
}

/// The place of a shard's last configuration.
fn last_place(index: &[Places], shard: ShardId) -> Option<usize>
    ensures { result ≡ last_place (places_of index.now shard) }
{
    index.get(usize::from(shard))?.last()
}

/// The place of the configuration of a shard's epoch.
fn place_at(index: &[Places], shard: ShardId, epoch: Epoch) -> Option<usize>
    ensures { result ≡ place_in (places_of index.now shard) epoch }
{
    index.get(usize::from(shard))?.at(epoch)
}

/// The configuration at a place, where there is a place.
fn config_of(configs: &[Config], place: Option<usize>) -> Option<&Config>
    ensures { option_copied result ≡ option_and_then (λ p. slice_get configs.now p) place }
{
    configs.get(place?)
}

/// Appends a place to those of a shard.
fn push_place(index: &mut Vec<Places>, shard: ShardId, place: usize) -> Result<(), OutOfMemory>
    requires { shard < length index.old.items }
    ensures ok { OnOk result (index.new.items ≡ slice_set index.old.items shard (places_of index.old.items shard ++ place ∷ [])) }
    ensures err { OnErr result (index.new.items ≡ index.old.items) }
{
    index[usize::from(shard)].push(place)
}
