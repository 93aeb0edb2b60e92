//! Sets of shards.
ghost use Rattle.std.specs.Prelude.{◌≡◌, ◌↔◌, IsOk, IfOk};

use crate::faults::BadShards;
use crate::ids::ShardId;
use crate::inline::inline;
use crate::limits::MAX_SHARDS;
use crate::memory::OutOfMemory;
use crate::order::ascends;
use crate::places::are_shards;
use arrayvec::ArrayVec;
use std::alloc::Global;
use std::marker::Model;

/// A set has at most all shards.
const SET_ROOM: usize = MAX_SHARDS as usize;

/// The shards of a transaction: 1 to 16 of them, which lie in the value itself. Seen as the ascending list of their
/// numbers.
#[derive(Debug, Drop)]
pub struct ShardSet {
    list: ArrayVec<ShardId, SET_ROOM>,
}

impl Model for ShardSet {
    ghost use Rattle.std.specs.Prelude.{List, ℕ};
    ghost use Rattle.tcs_terms.specs.Places.{IsShardSet};

    ghost Value = { List ℕ };

    ghost view = { λ s. s.list.items };

    ghost invariant = { λ s. IsShardSet s.list.items };
}

impl ShardSet {
    ghost use Rattle.tcs_terms.specs.Places.{IsShardSet};

    /// The set of these shards.
    ///
    /// # Errors
    /// Where there are none, or they do not strictly ascend within 1 to 16.
    pub fn build(list: Vec<ShardId>) -> Result<ShardSet, BadShards>
        ensures ok { IsOk result ↔ IsShardSet list.items }
        ensures value { IfOk result (λ s. s ≡ list.items) }
    {
        if list.is_empty() || !are_shards(&list) || !ascends(&list) {
            return Err(BadShards);
        }
        Ok(ShardSet::of(&list))
    }

    /// The set of shards that are one.
    #[tactic(auto, using(crate::proofs::PlaceLaws::few_shards))]
    pub fn of(list: &[ShardId]) -> ShardSet
        requires { IsShardSet list.now }
        ensures { result ≡ list.now }
    {
        ShardSet { list: inline(list) }
    }

    /// Another set of the same shards.
    pub fn copy(&self, _alloc: Global) -> Result<ShardSet, OutOfMemory>
        ensures { IfOk result (λ c. c ≡ self.now) }
    {
        Ok(ShardSet::of(self.list()))
    }

    /// The shards, ascending.
    pub fn list(&self) -> &[ShardId]
        ensures list { result.now ≡ self.now }
        ensures set { IsShardSet self.now }
    {
        self.list.as_slice()
    }
}
