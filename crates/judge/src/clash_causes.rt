//! Clash causes: an abort by a clash names another transaction, begun before, that clashes in the named shard.
ghost use Rattle.std.specs.Prelude.{◌≡◌, ◌≤◌, not, ◌&&◌, IfOk};
ghost use Rattle.std.specs.Map.{lookup};
ghost use Rattle.std.specs.Option.{option_copied};
ghost use Rattle.tcs_terms.specs.declared.limits.TheConstants.{MAX_SHARDS};
ghost use Rattle.tcs_terms.specs.Logs.{same_txn};
ghost use Rattle.tcs_terms.specs.Shards.{restricted};
ghost use Rattle.tcs_laws.specs.Certification.{parts_ok};
ghost use Rattle.protocol.specs.CorrectHistory.{clash_in, clash_after};
ghost use Rattle.judge.specs.Watching.{ArePayloads, clash_decided, clash_now};

use crate::payloads::{Payloads, keep_begun};
use crate::watch::Watch;
use indexmap::IndexMap;
use std::alloc::Global;
use std::marker::PhantomData;
use tcs_laws::Certifier;
use tcs_terms::{Cause, Decision, Note, OutOfMemory, Payload, ShardId, TxId};

/// Whether the parts of two payloads in a shard pass the prepared test. An absent part passes.
fn parts_pass<C: Certifier>(
    alloc: Global,
    shards: u8,
    shard: ShardId,
    old: &Payload,
    new: &Payload,
) -> Result<bool, OutOfMemory>
    requires some { 1 ≤ shards }
    requires few { shards ≤ MAX_SHARDS }
    ensures { IfOk result (λ b. b ≡ parts_ok C.tests.prepared_ok (restricted shards shard old.now) (restricted shards shard new.now)) }
{
    let old_part = old.restrict(alloc, shard, shards)?;
    let new_part = new.restrict(alloc, shard, shards)?;
    let passes = match (&old_part, &new_part) {
        (Some(old), Some(new)) => C::prepared_ok(old, new),
        (Some(_), None) | (None, _) => true,
    };
    Ok(passes)
}

/// Whether the parts of two transactions in a shard clash. Both are to have begun.
fn clash_in<C: Certifier>(
    alloc: Global,
    shards: u8,
    shard: ShardId,
    old: Option<&Payload>,
    new: Option<&Payload>,
) -> Result<bool, OutOfMemory>
    requires some { 1 ≤ shards }
    requires few { shards ≤ MAX_SHARDS }
    ensures { IfOk result (λ b. b ≡ clash_in C.tests shards shard (option_copied old.entry) (option_copied new.entry)) }
{
    match old {
        None => Ok(false),
        Some(old) => match new {
            None => Ok(false),
            Some(new) => Ok(!parts_pass::<C>(alloc, shards, shard, old, new)?),
        },
    }
}

/// The payloads of the transactions that have begun, with the rule.
#[derive(Debug, Drop)]
pub struct Begun<C> {
    payloads: Payloads,
    rule: PhantomData<C>,
}

impl<C: Certifier> Begun<C> {
    /// Whether a clash is named rightly.
    fn names(
        &self,
        alloc: Global,
        shards: u8,
        txn: TxId,
        shard: ShardId,
        other: TxId,
    ) -> Result<bool, OutOfMemory>
        requires some { 1 ≤ shards }
        requires few { shards ≤ MAX_SHARDS }
        ensures { IfOk result (λ b. b ≡ (not (same_txn other txn)
            && clash_in C.tests shards shard (lookup (same_txn other) self.now.payloads.entries) (lookup (same_txn txn) self.now.payloads.entries))) }
    {
        if other == txn {
            return Ok(false);
        }
        let old = self.payloads.get(&other);
        let new = self.payloads.get(&txn);
        clash_in::<C>(alloc, shards, shard, old, new)
    }

    /// Whether a decision names a clash rightly, where it names one.
    fn allows(
        &self,
        alloc: Global,
        shards: u8,
        txn: TxId,
        decision: Decision,
    ) -> Result<bool, OutOfMemory>
        requires some { 1 ≤ shards }
        requires few { shards ≤ MAX_SHARDS }
        ensures { IfOk result (λ b. b ≡ clash_decided C.tests shards self.now.payloads.entries txn decision) }
    {
        match decision {
            Decision::Commit => Ok(true),
            Decision::Abort { shard, cause } => match cause {
                Cause::Clash(other) => self.names(alloc, shards, txn, shard, other),
                Cause::Lost => Ok(true),
            },
        }
    }

    /// The same of a note.
    fn passes(&self, alloc: Global, shards: u8, note: &Note) -> Result<bool, OutOfMemory>
        requires some { 1 ≤ shards }
        requires few { shards ≤ MAX_SHARDS }
        ensures { IfOk result (λ b. b ≡ clash_now C.tests shards self.now.payloads.entries note.now) }
    {
        match note {
            Note::Begin { .. } | Note::Take { .. } | Note::ReadValue { .. } => Ok(true),
            Note::Decide { txn, decision } => self.allows(alloc, shards, *txn, *decision),
        }
    }
}

impl<C: Certifier> Watch for Begun<C> {
    ghost test = { clash_after C.tests };

    ghost StandsFor = { λ b past. ArePayloads b.payloads.entries past };

    fn fresh(alloc: Global) -> Self {
        Begun {
            payloads: IndexMap::new(alloc),
            rule: PhantomData,
        }
    }

    fn take(&mut self, alloc: Global, shards: u8, note: &Note) -> Result<bool, OutOfMemory> {
        let passes = self.passes(alloc, shards, note)?;
        keep_begun(alloc, &mut self.payloads, note)?;
        Ok(passes)
    }
}
