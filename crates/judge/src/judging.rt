//! The verdict on a history.
ghost use Rattle.std.specs.Prelude.{◌≡◌, ◌↔◌, ◌≤◌, ◌<◌, ◌^◌, length, IfOk};
ghost use Rattle.tcs_terms.specs.declared.limits.TheConstants.{MAX_SHARDS};
ghost use Rattle.protocol.specs.CorrectHistory.{IsCorrect};
ghost use Rattle.protocol.specs.History.{order_of};
ghost use Rattle.judge.specs.declared.verdicts.Verdict.TheVariants.{Incorrect};
ghost use Rattle.judge.specs.Verdicts.{SaysCorrect, tests_of, unless_fails, from_lost, from_clash, from_legality, verdict_on};

use crate::agreement::Decisions;
use crate::clash_causes::Begun;
use crate::counts::{counted, order_of};
use crate::legality::first_illegal;
use crate::losses::TakeOvers;
use crate::verdicts::{Clause, Verdict};
use crate::watch::first_decision;
use cert_commute::Commute;
use cert_serial::Serial;
use cert_snapshot::Snapshot;
use indexmap::IndexSet;
use std::alloc::Global;
use tcs_laws::{BySight, Certifier};
use tcs_terms::{Note, OutOfMemory, Rule, TxId};

/// The verdict on a history of fewer than 2 ^ 32 notes, by the number of shards, 1 to 16, and the rule: correct with the
/// numbers of transactions exactly where each clause of a correct history holds, else the first clause that fails, and
/// the transaction of its first failing decision (for legality, of the first failing place in the order of commits).
pub fn judge(
    alloc: Global,
    history: &[Note],
    shards: u8,
    rule: Rule,
) -> Result<Verdict, OutOfMemory>
    requires some { 1 ≤ shards }
    requires few { shards ≤ MAX_SHARDS }
    requires short { length history.now < 2 ^ 32 }
    ensures verdict { IfOk result (λ verdict. verdict ≡ verdict_on (tests_of rule) shards history.now) }
    ensures exact { IfOk result (λ verdict. SaysCorrect verdict ↔ IsCorrect (tests_of rule) shards history.now) }
{
    match rule {
        Rule::Serial => judge_by::<Serial>(alloc, history, shards),
        Rule::Snapshot => judge_by::<Snapshot>(alloc, history, shards),
        Rule::Commute => judge_by::<Commute>(alloc, history, shards),
    }
}

/// The verdict by a certifier.
fn judge_by<C: BySight>(alloc: Global, history: &[Note], shards: u8) -> Result<Verdict, OutOfMemory>
    requires some { 1 ≤ shards }
    requires few { shards ≤ MAX_SHARDS }
    requires short { length history.now < 2 ^ 32 }
    ensures verdict { IfOk result (λ verdict. verdict ≡ verdict_on C.tests shards history.now) }
    ensures exact { IfOk result (λ verdict. SaysCorrect verdict ↔ IsCorrect C.tests shards history.now) }
{
    let order = order_of(alloc, history)?;
    let verdict = judge_agreement::<C>(alloc, history, &order, shards)?;
    Ok(verdict)
}

/// The verdict from agreement on. `order` has the committed transactions.
fn judge_agreement<C: BySight>(
    alloc: Global,
    history: &[Note],
    order: &IndexSet<TxId>,
    shards: u8,
) -> Result<Verdict, OutOfMemory>
    requires some { 1 ≤ shards }
    requires few { shards ≤ MAX_SHARDS }
    requires short { length history.now < 2 ^ 32 }
    requires order { order.now.keys ≡ order_of history.now }
    requires listed { length order.now.keys ≤ length history.now }
    ensures { IfOk result (λ verdict. verdict ≡ verdict_on C.tests shards history.now) }
{
    let disagreement = first_decision::<Decisions>(alloc, history, shards)?;
    match disagreement {
        Some(txn) => Ok(incorrect(Clause::Agreement, txn)),
        None => judge_legality::<C>(alloc, history, order, shards),
    }
}

/// The verdict from legality on.
fn judge_legality<C: BySight>(
    alloc: Global,
    history: &[Note],
    order: &IndexSet<TxId>,
    shards: u8,
) -> Result<Verdict, OutOfMemory>
    requires some { 1 ≤ shards }
    requires few { shards ≤ MAX_SHARDS }
    requires short { length history.now < 2 ^ 32 }
    requires order { order.now.keys ≡ order_of history.now }
    requires listed { length order.now.keys ≤ length history.now }
    ensures { IfOk result (λ verdict. verdict ≡ from_legality C.tests shards history.now) }
{
    let illegal = first_illegal::<C>(alloc, history, order.as_slice())?;
    match illegal {
        Some(txn) => Ok(incorrect(Clause::Legality, txn)),
        None => judge_clashes::<C>(alloc, history, order, shards),
    }
}

/// The verdict from clash causes on.
fn judge_clashes<C: Certifier>(
    alloc: Global,
    history: &[Note],
    order: &IndexSet<TxId>,
    shards: u8,
) -> Result<Verdict, OutOfMemory>
    requires some { 1 ≤ shards }
    requires few { shards ≤ MAX_SHARDS }
    requires short { length history.now < 2 ^ 32 }
    requires order { order.now.keys ≡ order_of history.now }
    requires listed { length order.now.keys ≤ length history.now }
    ensures { IfOk result (λ verdict. verdict ≡ from_clash C.tests shards history.now) }
{
    let false_clash = first_decision::<Begun<C>>(alloc, history, shards)?;
    match false_clash {
        Some(txn) => Ok(incorrect(Clause::Clash, txn)),
        None => judge_losses(alloc, history, order, shards),
    }
}

/// The verdict from lost causes on.
fn judge_losses(
    alloc: Global,
    history: &[Note],
    order: &IndexSet<TxId>,
    shards: u8,
) -> Result<Verdict, OutOfMemory>
    requires some { 1 ≤ shards }
    requires few { shards ≤ MAX_SHARDS }
    requires short { length history.now < 2 ^ 32 }
    requires order { order.now.keys ≡ order_of history.now }
    requires listed { length order.now.keys ≤ length history.now }
    ensures { IfOk result (λ verdict. verdict ≡ from_lost history.now) }
{
    let false_loss = first_decision::<TakeOvers>(alloc, history, shards)?;
    match false_loss {
        Some(txn) => Ok(incorrect(Clause::Lost, txn)),
        None => counted(alloc, history, order),
    }
}

fn incorrect(clause: Clause, txn: TxId) -> Verdict
    ensures { result ≡ Incorrect clause txn }
{
    Verdict::Incorrect { clause, txn }
}
