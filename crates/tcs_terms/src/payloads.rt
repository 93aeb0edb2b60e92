//! Payloads: what a transaction read and what it wants to write.
ghost use Rattle.std.specs.Prelude.{◌≡◌, [], IfOk, IfErr, OnOk};

use crate::copies::{Copied, copy_all};
use crate::faults::BadPayload;
use crate::memory::OutOfMemory;
use crate::objects::{Name, Value};
use crate::payload_faults::payload_fault;
use std::alloc::Global;
use std::marker::Model;
use std::rc::Rc;

/// An object that was read by name, and the version that was seen: 0 where the object was absent.
#[derive(Debug, Drop)]
pub struct ReadPart {
    pub name: Name,
    pub version: u64,
}

/// A range that was read: every object from `from` on and below `upto` that is not read by name was seen at
/// `version` at most, 0 where it was absent.
#[derive(Debug, Drop)]
pub struct RangePart {
    pub from: Name,
    pub upto: Name,
    pub version: u64,
}

/// An object and the value that it is to get.
#[derive(Debug, Drop)]
pub struct WritePart {
    pub name: Name,
    pub value: Value,
}

/// The parts of a payload.
#[derive(Debug, Drop)]
struct Parts {
    reads: Vec<ReadPart>,
    ranges: Vec<RangePart>,
    writes: Vec<WritePart>,
    version: u64,
}

/// What a transaction read, what it wants to write, and the version that its writes are to have.
/// Well formed by its type: see `specs/Payloads.antt`. Copies share their parts.
#[derive(Debug, Drop)]
pub struct Payload {
    parts: Rc<Parts>,
}

impl Model for Payload {
    ghost use Rattle.std.specs.Rc.{rc_value};
    ghost use Rattle.tcs_terms.specs.Payloads.{Accesses, IsPayload};

    ghost Value = { Accesses };

    ghost view = { λ p. record {
      reads = (rc_value p.parts).reads.items;
      ranges = (rc_value p.parts).ranges.items;
      writes = (rc_value p.parts).writes.items;
      version = (rc_value p.parts).version;
    } };

    ghost invariant = { λ p. IsPayload (record {
      reads = (rc_value p.parts).reads.items;
      ranges = (rc_value p.parts).ranges.items;
      writes = (rc_value p.parts).writes.items;
      version = (rc_value p.parts).version;
    }) };
}

impl ReadPart {
    pub fn copy(&self, alloc: Global) -> Result<ReadPart, OutOfMemory>
        ensures { IfOk result (λ c. c ≡ self.now) }
    {
        Ok(ReadPart {
            name: self.name.copy(alloc)?,
            version: self.version,
        })
    }
}

impl RangePart {
    pub fn copy(&self, alloc: Global) -> Result<RangePart, OutOfMemory>
        ensures { IfOk result (λ c. c ≡ self.now) }
    {
        Ok(RangePart {
            from: self.from.copy(alloc)?,
            upto: self.upto.copy(alloc)?,
            version: self.version,
        })
    }
}

impl WritePart {
    pub fn copy(&self, alloc: Global) -> Result<WritePart, OutOfMemory>
        ensures { IfOk result (λ c. c ≡ self.now) }
    {
        Ok(WritePart {
            name: self.name.copy(alloc)?,
            value: self.value.copy(alloc)?,
        })
    }
}

impl Copied for ReadPart {
    fn copied(&self, alloc: Global) -> Result<ReadPart, OutOfMemory> {
        self.copy(alloc)
    }
}

impl Copied for RangePart {
    fn copied(&self, alloc: Global) -> Result<RangePart, OutOfMemory> {
        self.copy(alloc)
    }
}

impl Copied for WritePart {
    fn copied(&self, alloc: Global) -> Result<WritePart, OutOfMemory> {
        self.copy(alloc)
    }
}

impl Payload {
    ghost use Rattle.tcs_terms.specs.Payloads.{IsPayload};
    ghost use Rattle.tcs_terms.specs.PayloadFaults.{PayloadRefused};
    ghost use Rattle.tcs_terms.specs.declared.faults.BadPayload.TheVariants as faults;

    /// The payload of these parts, which reads no range.
    ///
    /// # Errors
    /// The first fault of the parts: `Empty`, `TooMany`, `Version(0)`, then the fault of the first part that has one,
    /// reads before writes.
    pub fn build(
        reads: Vec<ReadPart>,
        writes: Vec<WritePart>,
        version: u64,
    ) -> Result<Payload, BadPayload>
        ensures ok { OnOk result (IsPayload (record {
          reads = reads.items;
          ranges = [];
          writes = writes.items;
          version = version;
        })) }
        ensures value { IfOk result (λ p. p ≡ record {
          reads = reads.items;
          ranges = [];
          writes = writes.items;
          version = version;
        }) }
        ensures refusal { IfErr result (PayloadRefused (record {
          reads = reads.items;
          ranges = [];
          writes = writes.items;
          version = version;
        })) }
    {
        let ranges = Vec::new(*reads.allocator());
        Payload::build_ranges(reads, ranges, writes, version)
    }

    /// The payload of these parts.
    ///
    /// # Errors
    /// The first fault of the parts: `Empty`, `TooMany`, `Version(0)`, then the fault of the first part that has one,
    /// reads before ranges before writes.
    pub fn build_ranges(
        reads: Vec<ReadPart>,
        ranges: Vec<RangePart>,
        writes: Vec<WritePart>,
        version: u64,
    ) -> Result<Payload, BadPayload>
        ensures ok { OnOk result (IsPayload (record {
          reads = reads.items;
          ranges = ranges.items;
          writes = writes.items;
          version = version;
        })) }
        ensures value { IfOk result (λ p. p ≡ record {
          reads = reads.items;
          ranges = ranges.items;
          writes = writes.items;
          version = version;
        }) }
        ensures refusal { IfErr result (PayloadRefused (record {
          reads = reads.items;
          ranges = ranges.items;
          writes = writes.items;
          version = version;
        })) }
    {
        match payload_fault(&reads, &ranges, &writes, version) {
            Some(fault) => Err(fault),
            None => Payload::kept(reads, ranges, writes, version),
        }
    }

    /// The payload of parts that are one, as a builder answers it.
    fn kept(
        reads: Vec<ReadPart>,
        ranges: Vec<RangePart>,
        writes: Vec<WritePart>,
        version: u64,
    ) -> Result<Payload, BadPayload>
        requires { IsPayload (record {
          reads = reads.items;
          ranges = ranges.items;
          writes = writes.items;
          version = version;
        }) }
        ensures value { IfOk result (λ p. p ≡ record {
          reads = reads.items;
          ranges = ranges.items;
          writes = writes.items;
          version = version;
        }) }
        ensures memory { IfErr result (λ e. e ≡ faults.OutOfMemory) }
    {
        match Payload::of(reads, ranges, writes, version) {
            Ok(payload) => Ok(payload),
            Err(OutOfMemory) => Err(BadPayload::OutOfMemory),
        }
    }

    /// The payload of parts that are one.
    pub fn of(
        reads: Vec<ReadPart>,
        ranges: Vec<RangePart>,
        writes: Vec<WritePart>,
        version: u64,
    ) -> Result<Payload, OutOfMemory>
        requires { IsPayload (record {
          reads = reads.items;
          ranges = ranges.items;
          writes = writes.items;
          version = version;
        }) }
        ensures { IfOk result (λ p. p ≡ record {
          reads = reads.items;
          ranges = ranges.items;
          writes = writes.items;
          version = version;
        }) }
    {
        let alloc = *reads.allocator();
        let parts = Parts {
            reads,
            ranges,
            writes,
            version,
        };
        Ok(Payload {
            parts: Rc::new(alloc, parts)?,
        })
    }

    /// Another payload of the same parts, which it shares: it takes no memory.
    pub fn copy(&self, _alloc: Global) -> Result<Payload, OutOfMemory>
        ensures { IfOk result (λ c. c ≡ self.now) }
    {
        Ok(Payload {
            parts: self.parts.clone()?,
        })
    }

    /// The objects that were read by name, names ascending.
    pub fn reads(&self) -> &[ReadPart]
        ensures reads { result.now ≡ self.now.reads }
        ensures payload { IsPayload self.now }
    {
        self.parts.reads.as_slice()
    }

    /// The ranges that were read, ascending and apart.
    pub fn ranges(&self) -> &[RangePart]
        ensures ranges { result.now ≡ self.now.ranges }
        ensures payload { IsPayload self.now }
    {
        self.parts.ranges.as_slice()
    }

    /// The objects that are to be written, names ascending.
    pub fn writes(&self) -> &[WritePart]
        ensures writes { result.now ≡ self.now.writes }
        ensures payload { IsPayload self.now }
    {
        self.parts.writes.as_slice()
    }

    /// The commit version: the version that the writes are to have, at least 1.
    pub fn version(&self) -> u64
        ensures version { result ≡ self.now.version }
        ensures payload { IsPayload self.now }
    {
        self.parts.version
    }
}

/// A copy of the payload, where there is one.
pub(crate) fn copy_payload(
    alloc: Global,
    payload: &Option<Payload>,
) -> Result<Option<Payload>, OutOfMemory>
    ensures { IfOk result (λ c. c ≡ payload.now) }
{
    match payload {
        Some(payload) => Ok(Some(payload.copy(alloc)?)),
        None => Ok(None),
    }
}
