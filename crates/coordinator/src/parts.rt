//! A shard of a case: asked for its vote, or voted, with the followers that acknowledged its entry.
ghost use Rattle.std.specs.Prelude.{◌≡◌, OnOk};
ghost use Rattle.protocol.specs.Cases.{asked};
ghost use Rattle.protocol.specs.Coordination.{fits_slot, voted_at, voted, acknowledged};

use std::alloc::Global;
use std::marker::Model;
use tcs_terms::{Entry, NodeId, OutOfMemory, ShardId, Slot};

/// A shard of a case. It is asked while it has no entry; then it is voted, with the entry that its leader answered and the
/// followers that acknowledged it.
#[derive(Debug, Drop)]
pub(crate) struct Part {
    pub(crate) shard: ShardId,
    pub(crate) entry: Option<Entry>,
    pub(crate) acks: Vec<NodeId>,
}

impl Model for Part {
    ghost use Rattle.protocol.specs.Records as records;

    ghost Value = { records.Part };

    ghost view = { λ p. record { shard = p.shard; entry = p.entry; acks = p.acks.items } };
}

impl Part {
    /// A shard that is asked.
    pub(crate) fn asked(alloc: Global, shard: ShardId) -> Part
        ensures { result ≡ asked shard }
    {
        Part {
            shard,
            entry: None,
            acks: Vec::new(alloc),
        }
    }

    /// Whether an answer of this slot fits what the shard has: it is asked, or voted at that slot.
    pub(crate) fn fits_slot(&self, slot: Slot) -> bool
        ensures { result ≡ fits_slot self.now.entry slot }
    {
        match &self.entry {
            None => true,
            Some(kept) => kept.slot == slot,
        }
    }

    /// Whether the shard is voted with an entry of this slot.
    pub(crate) fn is_voted_at(&self, slot: Slot) -> bool
        ensures { result ≡ voted_at self.now.entry slot }
    {
        match &self.entry {
            None => false,
            Some(kept) => kept.slot == slot,
        }
    }

    /// The leader answered this entry: it is kept, unless the shard has one.
    pub(crate) fn vote(&mut self, entry: Entry)
        ensures { self.new ≡ voted self.old entry }
    {
        if self.entry.is_none() {
            self.entry = Some(entry);
        }
    }

    /// A follower acknowledged the entry: that is kept once.
    pub(crate) fn acknowledge(&mut self, from: NodeId) -> Result<(), OutOfMemory>
        ensures kept { OnOk result (self.new ≡ acknowledged self.old from) }
        ensures shard { self.new.shard ≡ self.old.shard }
    {
        if !self.acks.contains(&from) {
            self.acks.push(from)?;
        }
        Ok(())
    }

    /// The shard is asked again: its entry and its acknowledgements are forgotten.
    pub(crate) fn ask_again(&mut self)
        ensures { self.new ≡ asked self.old.shard }
    {
        self.entry = None;
        self.acks.clear();
    }
}
