//! A transaction that a node coordinates.
ghost use Rattle.std.specs.Prelude.{◌≡◌, ◌<◌, length, map, IfOk, IfSome, OnOk, option_copied};
ghost use Rattle.protocol.specs.Cases.{asked, new_case, part_of};
ghost use Rattle.protocol.specs.Coordination.{ask_again};
ghost use Rattle.coordinator.specs.Acknowledged.{voted_case, acknowledged_case};
ghost use Rattle.coordinator.specs.InOrder.{part_place};

use crate::parts::Part;
use std::alloc::Global;
use std::marker::Model;
use tcs_terms::{Entry, NodeId, OutOfMemory, Payload, ShardId, ShardSet};

/// A case: the transaction's shards, its payload where the node has it, and a part for each shard.
#[derive(Debug, Drop)]
pub(crate) struct Case {
    pub(crate) shards: ShardSet,
    pub(crate) payload: Option<Payload>,
    pub(crate) parts: Vec<Part>,
}

impl Model for Case {
    ghost use Rattle.protocol.specs.Records as records;
    ghost use Rattle.coordinator.specs.InOrder.{HasParts};

    ghost Value = { records.Case };

    ghost view = { λ c. record { shards = c.shards; payload = c.payload; parts = c.parts.items } };

    ghost invariant = { λ c. HasParts (record { shards = c.shards; payload = c.payload; parts = c.parts.items }) };
}

/// A part for each of these shards, all asked.
fn asked_parts(alloc: Global, shards: &[ShardId]) -> Result<Vec<Part>, OutOfMemory>
    ensures { IfOk result (λ parts. parts.items ≡ map asked shards.now) }
{
    let mut parts = Vec::new(alloc);
    for shard in shards {
        parts.push(Part::asked(alloc, *shard))?;
    }
    Ok(parts)
}

/// The place of a shard's part.
fn place_of(parts: &[Part], shard: ShardId) -> Option<usize>
    ensures place { result ≡ part_place parts.now shard }
    ensures within { IfSome result (λ at. at < length parts.now) }
{
    parts.iter().position(|part| part.shard == shard)
}

impl Case {
    /// A case that begins: all its shards are asked.
    pub(crate) fn new(
        alloc: Global,
        shards: ShardSet,
        payload: Option<Payload>,
    ) -> Result<Case, OutOfMemory>
        ensures { IfOk result (λ case. case ≡ new_case shards payload) }
    {
        let parts = asked_parts(alloc, shards.list())?;
        Ok(Case {
            shards,
            payload,
            parts,
        })
    }

    /// The part of a shard, if the case has that shard.
    pub(crate) fn part_of(&self, shard: ShardId) -> Option<&Part>
        ensures { option_copied result ≡ part_of self.now.parts shard }
    {
        self.parts.iter().find(|part| part.shard == shard)
    }

    /// The leader of a shard answered this entry.
    pub(crate) fn vote(&mut self, shard: ShardId, entry: Entry)
        ensures { self.new ≡ voted_case shard entry self.old }
    {
        if let Some(at) = place_of(&self.parts, shard) {
            self.parts[at].vote(entry);
        }
    }

    /// A follower of a shard acknowledged its entry.
    pub(crate) fn acknowledge(&mut self, shard: ShardId, from: NodeId) -> Result<(), OutOfMemory>
        ensures { OnOk result (self.new ≡ acknowledged_case shard from self.old) }
    {
        if let Some(at) = place_of(&self.parts, shard) {
            self.parts[at].acknowledge(from)?;
        }
        Ok(())
    }

    /// A shard of the case got a new view: it is asked again.
    pub(crate) fn ask_again(&mut self, shard: ShardId)
        ensures { self.new ≡ ask_again shard self.old }
    {
        if let Some(at) = place_of(&self.parts, shard) {
            self.parts[at].ask_again();
        }
    }
}
