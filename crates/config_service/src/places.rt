//! The places of a shard's configurations in a list of configurations.
ghost use Rattle.std.specs.Prelude.{◌≡◌, ◌++◌, ◌∷◌, [], OnOk, OnErr};
ghost use Rattle.config_service.specs.Index.{place_in, last_place};

use std::alloc::Global;
use std::marker::Model;
use tcs_terms::{Epoch, OutOfMemory};

/// The places of a shard's configurations, those of its epochs from 1 on. Seen as their list.
#[derive(Debug, Drop)]
pub(crate) struct Places {
    list: Vec<usize>,
}

impl Model for Places {
    ghost use Rattle.std.specs.Prelude.{List, ℕ};

    ghost Value = { List ℕ };

    ghost view = { λ p. p.list.items };
}

impl Places {
    pub(crate) fn new(alloc: Global) -> Places
        ensures { result ≡ [] }
    {
        Places {
            list: Vec::new(alloc),
        }
    }

    /// Appends the place of the next epoch's configuration.
    pub(crate) fn push(&mut self, place: usize) -> Result<(), OutOfMemory>
        ensures ok { OnOk result (self.new ≡ self.old ++ place ∷ []) }
        ensures err { OnErr result (self.new ≡ self.old) }
    {
        Ok(self.list.push(place)?)
    }

    /// The place of the last epoch's configuration.
    pub(crate) fn last(&self) -> Option<usize>
        ensures { result ≡ last_place self.now }
    {
        self.list.last().copied()
    }

    /// The place of an epoch's configuration.
    pub(crate) fn at(&self, epoch: Epoch) -> Option<usize>
        ensures { result ≡ place_in self.now epoch }
    {
        let before = epoch.checked_sub(1)?;
        self.list.get(before as usize).copied()
    }
}
