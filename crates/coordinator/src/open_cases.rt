//! The open cases of a coordinator, in order of opening.
ghost use Rattle.std.specs.Prelude.{◌≡◌, [], ◌∷◌, ◌++◌, None, Some, true, map, length, is_some, option_copied, flat_map, filter, IfOk, OnOk};
ghost use Rattle.std.specs.Map.{lookup};
ghost use Rattle.tcs_terms.specs.Logs.{same_txn, txns_differ};
ghost use Rattle.protocol.specs.Cases.{prepare, send_case};
ghost use Rattle.protocol.specs.Coordination.{ask_again, has_part, on_prepare_ack, on_accept_ack};
ghost use Rattle.coordinator.specs.Acknowledged.{having};
ghost use Rattle.coordinator.specs.OpenCases.{taken, txn_at, asked_at, asks_at, sends_at};

use crate::cases::Case;
use crate::sending::{push_prepare, send_case};
use crate::views::Views;
use std::alloc::Global;
use std::collections::HashMap;
use std::marker::Model;
use std::mem;
use tcs_terms::{
    Config, Entry, Epoch, Handled, NodeId, Note, OutOfMemory, Outgoing, ShardId, Slot, TxId,
};

/// What the case at a place still waits for is sent again.
fn send_at(
    alloc: Global,
    views: &Views,
    slot: &Option<(TxId, Case)>,
    out: &mut Vec<Outgoing>,
) -> Result<(), OutOfMemory>
    ensures { OnOk result (out.new.items ≡ out.old.items ++ sends_at views.now slot.now) }
{
    match slot {
        None => Ok(()),
        Some((txn, case)) => send_case(alloc, views, *txn, case, out),
    }
}

/// The case at a place asks the leader of a configuration, where it has its shard, and asks the shard again.
fn change_one(
    alloc: Global,
    views: &Views,
    slot: &mut Option<(TxId, Case)>,
    config: &Config,
    out: &mut Vec<Outgoing>,
) -> Result<(), OutOfMemory>
    ensures txn { txn_at slot.new ≡ txn_at slot.old }
    ensures case { OnOk result (slot.new ≡ asked_at config.now.shard slot.old) }
    ensures sends { OnOk result (out.new.items ≡ out.old.items ++ asks_at (length views.now) config.now slot.old) }
{
    if let Some((txn, case)) = slot {
        if case.part_of(config.shard()).is_some() {
            push_prepare(alloc, views, *txn, case, config, out)?;
        }
        case.ask_again(config.shard());
    }
    Ok(())
}

/// The open cases. Seen as the list of transactions and their cases, in order of opening.
///
/// A case that is closed leaves its place empty, so that closing takes the same time however many are open. Once more
/// places are empty than not, the next opening moves the cases together.
#[derive(Debug, Drop)]
pub(crate) struct OpenCases {
    alloc: Global,
    slots: Vec<Option<(TxId, Case)>>,
    /// The place of each open case.
    places: HashMap<TxId, usize>,
}

impl Model for OpenCases {
    ghost use Rattle.std.specs.Prelude.{List, map};
    ghost use Rattle.tcs_terms.specs.declared.ids.TxId.{TxId};
    ghost use Rattle.protocol.specs.Records as records;
    ghost use Rattle.coordinator.specs.OpenCases.{taken, txn_at, IsPlaced};

    ghost Value = { List (TxId × records.Case) };

    ghost view = { λ c. taken c.slots.items };

    ghost invariant = { λ c. IsPlaced c.places.entries (map txn_at c.slots.items) };
}

impl OpenCases {
    pub(crate) fn new(alloc: Global) -> OpenCases
        ensures { result ≡ [] }
    {
        OpenCases {
            alloc,
            slots: Vec::new(alloc),
            places: HashMap::new(alloc),
        }
    }

    /// How many cases are open.
    pub(crate) fn len(&self) -> usize
        ensures { result ≡ length self.now }
    {
        self.places.len()
    }

    /// Whether a case of the transaction is open.
    pub(crate) fn has(&self, txn: TxId) -> bool
        ensures { result ≡ is_some (lookup (same_txn txn) self.now) }
    {
        self.places.contains_key(&txn)
    }

    /// Opens a case, behind the others.
    pub(crate) fn open(&mut self, txn: TxId, case: Case) -> Result<(), OutOfMemory>
        requires { lookup (same_txn txn) self.old ≡ None }
        ensures { OnOk result (self.new ≡ self.old ++ (txn, case) ∷ []) }
    {
        if self.slots.len() / 2 > self.places.len() {
            let cases = mem::replace(self, OpenCases::new(self.alloc));
            *self = cases.moved_together()?;
        }
        self.append(txn, case)
    }

    /// The same, where there is room enough.
    fn append(&mut self, txn: TxId, case: Case) -> Result<(), OutOfMemory>
        requires { lookup (same_txn txn) self.old ≡ None }
        ensures { OnOk result (self.new ≡ self.old ++ (txn, case) ∷ []) }
    {
        self.slots.reserve(1)?;
        self.places.insert(txn, self.slots.len())?;
        Ok(self.slots.push(Some((txn, case)))?)
    }

    /// The same cases, without empty places.
    fn moved_together(self) -> Result<OpenCases, OutOfMemory>
        ensures { IfOk result (λ cases. cases ≡ self) }
    {
        let mut together = OpenCases::new(self.alloc);
        for slot in self.slots {
            if let Some((txn, case)) = slot {
                together.append(txn, case)?;
            }
        }
        Ok(together)
    }

    /// PREPARE_ACK: an asked shard becomes voted.
    pub(crate) fn hear_vote(
        &mut self,
        views: &Views,
        from: NodeId,
        shard: ShardId,
        epoch: Epoch,
        entry: Entry,
        out: &mut Vec<Outgoing>,
        notes: &mut Vec<Note>,
    ) -> Result<Handled, OutOfMemory>
        ensures answer { IfOk result (λ h. h ≡ (on_prepare_ack (having views.now self.old) from shard epoch entry).answer) }
        ensures kept { OnOk result (having views.now self.new ≡ (on_prepare_ack (having views.now self.old) from shard epoch entry).kept) }
        ensures sends { OnOk result (out.new.items ≡ out.old.items ++ (on_prepare_ack (having views.now self.old) from shard epoch entry).sends) }
        ensures notes { OnOk result (notes.new.items ≡ notes.old.items ++ (on_prepare_ack (having views.now self.old) from shard epoch entry).notes) }
    {
        let txn = entry.txn;
        match self.places.get(&txn).copied() {
            None => Ok(views.refusal(shard, epoch)),
            Some(at) => match &mut self.slots[at] {
                None => Ok(views.refusal(shard, epoch)),
                Some((_, case)) => {
                    if !case.hear_vote(self.alloc, views, from, shard, epoch, entry, out)? {
                        return Ok(views.refusal(shard, epoch));
                    }
                    if case.decide(views, txn, out, notes)? {
                        self.slots[at] = None;
                        self.places.remove(&txn);
                    }
                    Ok(Handled::Acted)
                }
            },
        }
    }

    /// ACCEPT_ACK: the acknowledgement of a follower is kept.
    pub(crate) fn hear_acceptance(
        &mut self,
        views: &Views,
        from: NodeId,
        shard: ShardId,
        epoch: Epoch,
        slot: Slot,
        txn: TxId,
        out: &mut Vec<Outgoing>,
        notes: &mut Vec<Note>,
    ) -> Result<Handled, OutOfMemory>
        ensures answer { IfOk result (λ h. h ≡ (on_accept_ack (having views.now self.old) from shard epoch slot txn).answer) }
        ensures kept { OnOk result (having views.now self.new ≡ (on_accept_ack (having views.now self.old) from shard epoch slot txn).kept) }
        ensures sends { OnOk result (out.new.items ≡ out.old.items ++ (on_accept_ack (having views.now self.old) from shard epoch slot txn).sends) }
        ensures notes { OnOk result (notes.new.items ≡ notes.old.items ++ (on_accept_ack (having views.now self.old) from shard epoch slot txn).notes) }
    {
        match self.places.get(&txn).copied() {
            None => Ok(views.refusal(shard, epoch)),
            Some(at) => match &mut self.slots[at] {
                None => Ok(views.refusal(shard, epoch)),
                Some((_, case)) => {
                    if !case.hear_acceptance(views, from, shard, epoch, slot)? {
                        return Ok(views.refusal(shard, epoch));
                    }
                    if case.decide(views, txn, out, notes)? {
                        self.slots[at] = None;
                        self.places.remove(&txn);
                    }
                    Ok(Handled::Acted)
                }
            },
        }
    }

    /// A shard got a new configuration: each case that has the shard asks its leader, and asks the shard again.
    pub(crate) fn change_view(
        &mut self,
        views: &Views,
        config: &Config,
        out: &mut Vec<Outgoing>,
    ) -> Result<(), OutOfMemory>
        ensures cases { OnOk result (self.new ≡ map (λ e. (e.0, ask_again config.now.shard e.1)) self.old) }
        ensures sends { OnOk result (out.new.items ≡ out.old.items
            ++ flat_map (λ e. prepare (length views.now) e.0 e.1 (Some config.now)) (filter (λ e. has_part e.1 config.now.shard) self.old)) }
    {
        for at in 0..self.slots.len() {
            change_one(self.alloc, views, &mut self.slots[at], config, out)?;
        }
        Ok(())
    }

    /// What is still waited for is sent again, case by case.
    pub(crate) fn resend(&self, views: &Views, out: &mut Vec<Outgoing>) -> Result<(), OutOfMemory>
        ensures { OnOk result (out.new.items ≡ out.old.items ++ flat_map (λ e. send_case views.now e.0 e.1) self.now) }
    {
        for slot in &self.slots {
            send_at(self.alloc, views, slot, out)?;
        }
        Ok(())
    }
}
