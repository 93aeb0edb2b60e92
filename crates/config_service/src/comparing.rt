//! Storing a configuration where its epoch is the next one.
ghost use Rattle.std.specs.Prelude.{◌≡◌, IfOk, OnOk, OnErr};
ghost use Rattle.config_service.specs.Comparing.{cas_answer, cas_configs};

use crate::service::ConfigService;
use crate::serving::is_next;
use tcs_terms::{Config, Epoch, OutOfMemory};

/// What became of a configuration that was to be stored.
#[derive(Clone, Copy, Debug, PartialEq, Eq)]
pub enum CasAnswer {
    /// Its epoch was the next one of its shard, and now it is stored.
    Stored,
    /// A configuration of its epoch is stored already.
    Already,
    /// Its epoch is not the next one; this is the last one of its shard, 0 where the run does not have the shard.
    Ahead(Epoch),
}

impl ConfigService {
    /// Stores a configuration where its epoch is the next one of its shard. Otherwise nothing changes.
    pub fn cas(&mut self, config: Config) -> Result<CasAnswer, OutOfMemory>
        ensures answer { IfOk result (λ a. a ≡ cas_answer self.old config) }
        ensures kept { OnOk result (self.new ≡ cas_configs self.old config) }
        ensures err { OnErr result (self.new ≡ self.old) }
    {
        if self.at(config.shard(), config.epoch()).is_some() {
            return Ok(CasAnswer::Already);
        }
        if !is_next(self.last(config.shard()), &config) {
            return Ok(CasAnswer::Ahead(self.last_epoch(config.shard())));
        }
        self.keep(config)?;
        Ok(CasAnswer::Stored)
    }
}
