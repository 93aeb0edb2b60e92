//! What a trace has told so far.
ghost use Rattle.std.specs.Prelude.{◌≡◌, ◌≤◌, ◌<◌, ◌^◌, IfOk, OnOk, length};
ghost use Rattle.audit_core.specs.Told.{HasShards, and_last, nothing_told, verdict_told, with_item};

use crate::orders::first_difference;
use judge::{Clause, Verdict, judge, order_of};
use std::alloc::Global;
use std::marker::Model;
use tcs_terms::{Note, OutOfMemory, Rule, TxId};
use trace_text::{TraceItem, TxList};

/// What a trace has told so far: of its text nothing is kept. Seen as what was told.
#[derive(Debug, Drop)]
pub struct History {
    rule: Rule,
    shards: u8,
    notes: Vec<Note>,
    order: Option<TxList>,
    ended: bool,
}

impl Model for History {
    ghost use Rattle.std.specs.Prelude.{◌≤◌};
    ghost use Rattle.tcs_terms.specs.declared.limits.TheConstants.{MAX_SHARDS};
    ghost use Rattle.audit_core.specs.Told.{Told, order_told};

    ghost Value = { Told };

    ghost view = { λ h. record { rule = h.rule; shards = h.shards; notes = h.notes.items; order = order_told h.order; ended = h.ended } };

    ghost invariant = { λ h. (1 ≤ h.shards) × (h.shards ≤ MAX_SHARDS) };
}

impl History {
    /// Nothing was told.
    pub fn new(alloc: Global) -> History
        ensures { result ≡ nothing_told }
    {
        History {
            rule: Rule::Serial,
            shards: 1,
            notes: Vec::new(alloc),
            order: None,
            ended: false,
        }
    }

    /// Takes in what a line says: a number of shards is 1 to 16.
    pub fn hear(&mut self, item: TraceItem) -> Result<(), OutOfMemory>
        requires { HasShards item }
        ensures { OnOk result (self.new ≡ with_item self.old item) }
    {
        match item {
            TraceItem::Head { rule, shards } => {
                self.rule = rule;
                self.shards = shards;
            }
            TraceItem::NoteLine(note) => self.notes.push(note)?,
            TraceItem::Order(order) => self.order = Some(order),
            TraceItem::End => self.ended = true,
            TraceItem::Event | TraceItem::MessageLine => {}
        }
        Ok(())
    }

    /// Whether the last line came.
    pub fn is_ended(&self) -> bool
        ensures { result ≡ self.now.ended }
    {
        self.ended
    }

    /// The verdict on what was told.
    pub fn judge(&self, alloc: Global) -> Result<Verdict, OutOfMemory>
        requires { length self.now.notes < 2 ^ 32 }
        ensures { IfOk result (λ verdict. verdict ≡ verdict_told self.now) }
    {
        let verdict = judge(alloc, &self.notes, self.shards, self.rule)?;
        let order = order_of(alloc, &self.notes)?;
        let fails = first_difference(self.told_order(), order.as_slice());
        Ok(and_last(verdict, fails))
    }

    /// The order that was told.
    fn told_order(&self) -> &[TxId]
        ensures { result.now ≡ self.now.order }
    {
        match &self.order {
            None => &[],
            Some(order) => order.list(),
        }
    }
}

/// The verdict with the clause on the order, which is tried last.
fn and_last(verdict: Verdict, fails: Option<TxId>) -> Verdict
    ensures { result ≡ and_last verdict fails }
{
    match verdict {
        Verdict::Correct { .. } => match fails {
            None => verdict,
            Some(txn) => Verdict::Incorrect {
                clause: Clause::Order,
                txn,
            },
        },
        Verdict::Incorrect { .. } => verdict,
    }
}
