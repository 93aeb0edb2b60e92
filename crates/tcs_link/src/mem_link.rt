//! A network in memory.
ghost use Rattle.std.specs.Prelude.{◌≡◌, ℕ, false, ◌≤◌, ◌==◌, ◌++◌, [], Some, None, length, drop, if◌then◌else◌, IfOk, OnOk, OnErr, IsErrOf, IsTrue, ◌↔◌};
ghost use Rattle.std.specs.List.{slice_get};
ghost use Rattle.std.specs.Option.{option_map, option_copied, unwrap_or};
ghost use Rattle.tcs_io.specs.Faults.{last_u64, one_more};
ghost use Rattle.tcs_io.specs.Plan.{called, fails_next};
ghost use Rattle.tcs_link.specs.Told.{after_attach, after_send, after_poll, arrival_of, IsWithin};
ghost use Rattle.tcs_link.specs.Network.{Network, waiting, carried, is_failing, next_fate, fails_attach, cut, IsUnchanged};

use crate::fault_plan::FaultPlan;
use crate::mail::{Alien, Fate, Mail};
use crate::telling::{Arrival, Attachment, Poll, Sent};
use crate::{Bytes, Link, LinkStop, Polled};
use std::alloc::Global;
use std::marker::Model;
use tcs_terms::NodeId;

/// A queue of frames for each receiver, whose losses, doubles and faults are planned. It tells its calls.
#[derive(Debug, Drop)]
pub struct MemLink {
    fates: Vec<Fate>,
    mail: Mail,
    plan: FaultPlan,
    failed_sends: u64,
    attached: Option<Attachment>,
    sent: Vec<Sent>,
    polls: Vec<Poll>,
}

impl Model for MemLink {
    ghost Value = { Network };

    ghost view = { λ l. record {
      fates = l.fates.items;
      mail = l.mail;
      plan = l.plan;
      failed_sends = l.failed_sends;
      told = record { attached = l.attached; sent = l.sent.items; polls = l.polls.items };
    } };
}

impl MemLink {
    /// A network on which these aliens are under way. The k-th send has the k-th of these fates, from 1, and `Keep`
    /// past their end. The polls whose numbers, from 1, are in `fails` fail, and `attach` fails where 0 is among them.
    /// A call that runs out of memory has no number and changes nothing.
    pub fn new(alloc: Global, fates: Vec<Fate>, aliens: Vec<Alien>, fails: Vec<u32>) -> Self
        ensures { result ≡ record {
          fates = fates.items;
          mail = record { aliens = aliens.items; queues = [] };
          plan = record { fails = fails.items; calls = 0; faults = 0 };
          failed_sends = 0;
          told = record { attached = None; sent = []; polls = [] };
        } }
    {
        MemLink {
            fates,
            mail: Mail::new(alloc, aliens),
            plan: FaultPlan::new(fails),
            failed_sends: 0,
            attached: None,
            sent: Vec::new(alloc),
            polls: Vec::new(alloc),
        }
    }

    /// What was attached last.
    pub fn attached(&self) -> Option<&Attachment>
        ensures { option_copied result ≡ self.now.told.attached }
    {
        self.attached.as_ref()
    }

    /// The frames that were handed to `send`, also those that it failed to send.
    pub fn sent(&self) -> &[Sent]
        ensures { result.now ≡ self.now.told.sent }
    {
        self.sent.as_slice()
    }

    /// The polls that were answered.
    pub fn polls(&self) -> &[Poll]
        ensures { result.now ≡ self.now.told.polls }
    {
        self.polls.as_slice()
    }

    /// How often `attach` and `poll` have failed.
    pub fn faults(&self) -> u64
        ensures { result ≡ self.now.plan.faults }
    {
        self.plan.faults()
    }

    /// How often `send` has failed.
    pub fn failed_sends(&self) -> u64
        ensures { result ≡ self.now.failed_sends }
    {
        self.failed_sends
    }
}

/// The fate of a send, given how many were before it.
fn fate_of(fates: &[Fate], before: usize) -> Fate
    ensures { result ≡ unwrap_or (slice_get fates.now before) Fate.Keep }
{
    fates.get(before).copied().unwrap_or(Fate::Keep)
}

/// Whether `send` fails.
fn is_failing(fate: Fate) -> bool
    ensures { result ≡ is_failing fate }
{
    matches!(fate, Fate::Fail)
}

/// Gives a frame to the buffer of a poll, and keeps what the buffer had room for.
fn give(arrived: Option<Arrival>, buf: &mut [u8]) -> (Polled, Option<Arrival>)
    ensures kept { result.1 ≡ option_map (cut (length buf.old)) arrived }
    ensures given { arrival_of result.0 buf.new ≡ result.1 }
    ensures within { IsWithin (length buf.old) result.0 }
{
    match arrived {
        None => (Polled::Nothing, None),
        Some(mut frame) => {
            let from = frame.from;
            let len = frame.bytes.cut_into(buf);
            (Polled::Frame { from, len }, Some(frame))
        }
    }
}

impl Link for MemLink {
    ghost faults = { λ link. link.plan.faults };

    ghost failed_sends = { λ link. link.failed_sends };

    ghost told = { λ link. Some link.told };

    fn attach(&mut self, names: &[NodeId], port: u16) -> Result<(), LinkStop>
        // It fails exactly where it is told to, unless memory runs out.
        ensures fails { IsErrOf result LinkStop.Failed ↔ IsTrue (fails_attach self.old.plan) }
        ensures attached { OnOk result (self.new ≡ record self.old { told = after_attach self.old.told names.now port }) }
        ensures fault { IsErrOf result LinkStop.Failed
            → self.new ≡ record self.old { plan = record self.old.plan { faults = one_more self.old.plan.faults } } }
        ensures memory { IsErrOf result LinkStop.OutOfMemory → self.new ≡ self.old }

        ensures count { self.old.plan.faults ≤ self.new.plan.faults }
        ensures limit { self.new.plan.faults ≤ last_u64 }
    {
        if self.plan.fails_attach() {
            self.plan.fault();
            return Err(LinkStop::Failed);
        }
        let alloc = *self.sent.allocator();
        self.attached = Some(Attachment::of(alloc, names, port)?);
        Ok(())
    }

    #[tactic(auto, using(crate::proofs::Carrying::carried_on, crate::proofs::Carrying::all_kept))]
    fn send(&mut self, from: NodeId, to: NodeId, frame: &[u8]) -> Result<(), LinkStop>
        // It fails exactly where that is its fate, unless memory runs out.
        ensures fails { IsErrOf result LinkStop.Failed → IsTrue (is_failing (next_fate self.old)) }
        ensures works { OnOk result (is_failing (next_fate self.old) ≡ false) }
        ensures carried { OnOk result ((n : ℕ) → waiting self.new.mail n
            ≡ waiting self.old.mail n
            ++ (if n == to then carried (next_fate self.old) (record { from = from; bytes = frame.now }) else [])) }
        ensures dropped { IsErrOf result LinkStop.Failed → (n : ℕ) → waiting self.new.mail n ≡ waiting self.old.mail n }
        ensures handed { OnOk result (self.new.told
            ≡ after_send self.old.told (record { from = from; to = to; bytes = frame.now })) }
        ensures lost { IsErrOf result LinkStop.Failed → self.new.told
            ≡ after_send self.old.told (record { from = from; to = to; bytes = frame.now }) }
        ensures ok { OnOk result (self.new.failed_sends ≡ self.old.failed_sends) }
        ensures failed { IsErrOf result LinkStop.Failed → self.new.failed_sends ≡ one_more self.old.failed_sends }
        ensures count { self.old.failed_sends ≤ self.new.failed_sends }
        ensures memory { IsErrOf result LinkStop.OutOfMemory → IsUnchanged self.old self.new }
        ensures plan { self.new.plan ≡ self.old.plan }
        ensures fates { self.new.fates ≡ self.old.fates }
        ensures limit { self.new.failed_sends ≤ last_u64 }
    {
        let failed_sends = self.failed_sends;
        let alloc = *self.sent.allocator();
        let fate = fate_of(&self.fates, self.sent.len());
        let bytes = Bytes::of(alloc, frame)?;
        self.sent.reserve(1)?;
        self.mail.carry(fate, from, to, frame)?;
        self.sent.push_reserved(Sent { from, to, bytes });
        if is_failing(fate) {
            self.failed_sends = failed_sends.saturating_add(1);
            return Err(LinkStop::Failed);
        }
        Ok(())
    }

    fn poll(&mut self, node: NodeId, buf: &mut [u8]) -> Result<Polled, LinkStop>
        // It fails exactly where it is told to, unless memory runs out.
        ensures fails { IsErrOf result LinkStop.Failed ↔ IsTrue (fails_next self.old.plan) }
        // What comes is the next frame that waits, cut to the buffer; nothing exactly where none waits.
        ensures next { IfOk result (λ p. arrival_of p buf.new
            ≡ option_map (cut (length buf.old)) (slice_get (waiting self.old.mail node) 0)) }
        ensures nothing { IfOk result (λ p. (p ≡ Polled.Nothing) ↔ (waiting self.old.mail node ≡ [])) }
        ensures taken { OnOk result ((n : ℕ) → waiting self.new.mail n
            ≡ (if n == node then drop 1 (waiting self.old.mail n) else waiting self.old.mail n)) }
        ensures kept { OnErr result (self.new.mail ≡ self.old.mail) }
        ensures told { IfOk result (λ p. self.new.told ≡ after_poll self.old.told node (arrival_of p buf.new)) }
        ensures untold { OnErr result (self.new.told ≡ self.old.told) }
        ensures within { IfOk result (IsWithin (length buf.old)) }
        ensures plan { OnOk result (self.new.plan ≡ called self.old.plan) }
        ensures fault { IsErrOf result LinkStop.Failed → self.new.plan ≡ called self.old.plan }
        ensures memory { IsErrOf result LinkStop.OutOfMemory → self.new.plan ≡ self.old.plan }
        ensures sends { self.new.failed_sends ≡ self.old.failed_sends }
        ensures fates { self.new.fates ≡ self.old.fates }

        ensures count { self.old.plan.faults ≤ self.new.plan.faults }
        ensures limit { self.new.plan.faults ≤ last_u64 }
    {
        if self.plan.fails_next() {
            self.plan.call();
            return Err(LinkStop::Failed);
        }
        self.polls.reserve(1)?;
        self.plan.call();
        let (polled, arrived) = give(self.mail.next(node), buf);
        self.polls.push_reserved(Poll { node, arrived });
        Ok(polled)
    }
}
