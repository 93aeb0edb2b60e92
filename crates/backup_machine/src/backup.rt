//! The machine.
ghost use Rattle.std.specs.Prelude.{◌≡◌, Some, None, IfOk, IfErr, OnOk, OnErr};
ghost use Rattle.std.specs.Option.{unwrap_or, option_copied};
ghost use Rattle.backup_machine.specs.declared.faults.BackupFault.TheVariants.{OutOfMemory as no_memory};
ghost use Rattle.backup_machine.specs.Backups.{empty, new_fault, value_fault, with_value, payloads_fault, payloads, handed_out, outcome_fault, with_outcome, file};

use crate::faults::BackupFault;
use crate::objects::{Kept, MAX_OBJECTS, comes_after, in_range, keep};
use crate::outcomes::{all_commit, lacks_outcome, none_yet};
use crate::slices::all_slices;
use std::alloc::Global;
use std::marker::Model;
use tcs_terms::{Decision, Name, Payload, Value, name_before};

/// A backup of the objects of a range. It is given their values by name, ascending, and keeps those that are there;
/// hands out a payload for each slice of the range, which reads what was seen and that nothing else is there; and is
/// told the outcome of each. A call that is refused changes nothing.
#[derive(Debug, Drop)]
pub struct Backup {
    from: Name,
    upto: Name,
    width: u8,
    last: Option<Name>,
    kept: Vec<Kept>,
    waiting: bool,
    outcomes: Vec<Option<Decision>>,
}

impl Model for Backup {
    ghost use Rattle.backup_machine.specs.Backups.{BackupRecord, IsBackup};

    ghost Value = { BackupRecord };

    ghost view = { λ b. record {
      from = b.from;
      upto = b.upto;
      width = b.width;
      last = b.last;
      kept = b.kept.items;
      waiting = b.waiting;
      outcomes = b.outcomes.items;
    } };

    ghost invariant = { λ b. IsBackup (record {
      from = b.from;
      upto = b.upto;
      width = b.width;
      last = b.last;
      kept = b.kept.items;
      waiting = b.waiting;
      outcomes = b.outcomes.items;
    }) };
}

impl Backup {
    /// A backup of the objects from `from` on and below `upto`, in slices of `width` objects.
    ///
    /// # Errors
    /// The first of these: `Span`, where `from` is not below `upto`; `Width`, where it is not 1 to 16.
    pub fn new(alloc: Global, from: Name, upto: Name, width: u8) -> Result<Backup, BackupFault>
        ensures ok { OnOk result (new_fault from upto width ≡ None) }
        ensures value { IfOk result (λ b. b ≡ empty from upto width) }
        ensures fault { IfErr result (λ fault. new_fault from upto width ≡ Some fault) }
    {
        if !name_before(from.bytes(), upto.bytes()) {
            return Err(BackupFault::Span);
        }
        if !(1..=16).contains(&width) {
            return Err(BackupFault::Width);
        }
        Ok(Backup {
            from,
            upto,
            width,
            last: None,
            kept: Vec::new(alloc),
            waiting: false,
            outcomes: Vec::new(alloc),
        })
    }

    /// Takes the version and the value at which an object was read; at version 0 it is absent, and not kept.
    ///
    /// # Errors
    /// The first of these: `NotActive`, where the payloads were handed out; `Outside`, where the name is not in the
    /// range; `Order`, where it does not stand behind the last one that was taken; `VersionSpent`, where no version is
    /// above this one; `TooMany`, where it would be kept and be the 4,097th.
    pub fn on_value(&mut self, name: Name, version: u64, value: Value) -> Result<(), BackupFault>
        ensures ok { OnOk result (value_fault self.old name version ≡ None) }
        ensures taken { OnOk result (self.new ≡ with_value self.old (record { name = name; version = version; value = value })) }
        ensures fault { IfErr result (λ fault. fault ≡ unwrap_or (value_fault self.old name version) no_memory) }
        ensures kept { OnErr result (self.new ≡ self.old) }
    {
        if self.waiting {
            return Err(BackupFault::NotActive);
        }
        if !in_range(&self.from, &self.upto, &name) {
            return Err(BackupFault::Outside);
        }
        if !comes_after(&self.last, &name) {
            return Err(BackupFault::Order);
        }
        if version == u64::MAX {
            return Err(BackupFault::VersionSpent);
        }
        if version > 0 && self.kept.len() >= MAX_OBJECTS {
            return Err(BackupFault::TooMany);
        }
        let last = name.again();
        keep(
            &mut self.kept,
            Kept {
                name,
                version,
                value,
            },
        )?;
        self.last = Some(last);
        Ok(())
    }

    /// Hands out the payload of each slice, and waits for their outcomes. A slice reads its objects at the versions that
    /// were seen, and that nothing else is in its range; it writes nothing; and its version is 1 above the greatest that
    /// it reads, or 1.
    ///
    /// # Errors
    /// `NotActive`, where they were handed out.
    pub fn payloads(&mut self) -> Result<Vec<Payload>, BackupFault>
        ensures ok { OnOk result (payloads_fault self.old ≡ None) }
        ensures payloads { IfOk result (λ list. list.items ≡ payloads self.old) }
        ensures waits { OnOk result (self.new ≡ handed_out self.old) }
        ensures fault { IfErr result (λ fault. fault ≡ unwrap_or (payloads_fault self.old) no_memory) }
        ensures kept { OnErr result (self.new ≡ self.old) }
    {
        if self.waiting {
            return Err(BackupFault::NotActive);
        }
        let alloc = *self.kept.allocator();
        let width = usize::from(self.width);
        let list = all_slices(alloc, width, &self.from, &self.upto, &self.kept)?;
        self.outcomes = none_yet(alloc, &list)?;
        self.waiting = true;
        Ok(list)
    }

    /// Takes the outcome of a slice, numbered from 1 in the order of the payloads.
    ///
    /// # Errors
    /// `NotWaiting`, where the payloads were not handed out, the slice is not there, or its outcome was taken.
    pub fn on_outcome(&mut self, slice: u16, decision: Decision) -> Result<(), BackupFault>
        ensures ok { OnOk result (outcome_fault self.old slice ≡ None) }
        ensures taken { OnOk result (self.new ≡ with_outcome self.old slice decision) }
        ensures fault { IfErr result (λ fault. outcome_fault self.old slice ≡ Some fault) }
        ensures kept { OnErr result (self.new ≡ self.old) }
    {
        if !self.waiting || !lacks_outcome(&self.outcomes, slice) {
            return Err(BackupFault::NotWaiting);
        }
        self.outcomes[usize::from(slice) - 1] = Some(decision);
        Ok(())
    }

    /// What was kept, by name, once each slice is known to commit.
    pub fn file(&self) -> Option<&[Kept]>
        ensures { option_copied result ≡ file self.now }
    {
        if self.waiting && all_commit(&self.outcomes) {
            Some(self.kept.as_slice())
        } else {
            None
        }
    }
}
