//! Generated rows and payloads: a fixed sequence, so that each run of the tests has the same.
ghost use Rattle.std.specs.Prelude.{◌≡◌, ◌<◌, IfOk};

use std::alloc::Global;
use std::test::Fail;
use tcs_terms::{
    Entry, Mark, Name, Payload, RangePart, ReadPart, Row, ShardSet, Slot, TxId, Value, Vote,
    WritePart,
};

/// The objects that payloads are about: so many letters from `a` on, and then counters `n_a`, `n_b` and so on.
const OBJECTS: u16 = 24;

const LETTERS: u16 = 13;

/// Numbers drawn by a linear congruential generator modulo 2^64, with the multiplier and increment of Knuth's MMIX.
#[derive(Drop)]
pub struct Draws {
    state: u64,
}

impl Draws {
    pub fn new(seed: u64) -> Draws {
        Draws { state: seed }
    }

    /// A number below a bound.
    pub fn below(&mut self, bound: u16) -> u16
        requires { 0 < bound }
        ensures { result < bound }
    {
        self.state = self
            .state
            .wrapping_mul(6_364_136_223_846_793_005)
            .wrapping_add(1_442_695_040_888_963_407);
        ((self.state >> 33) % u64::from(bound)) as u16
    }
}

/// A payload of a few objects read and some of these written, and now and then a range, which has seen most of what
/// committed before `now`.
pub fn payload(alloc: Global, draws: &mut Draws, now: Slot) -> Result<Payload, Fail>
    requires { now < 1000 }
{
    let mut reads = Vec::new(alloc);
    let mut writes = Vec::new(alloc);
    for object in 0..OBJECTS {
        let choice = draws.below(16);
        if choice < 2 {
            let version = seen_version(draws, now);
            reads.push(ReadPart {
                name: name(alloc, object)?,
                version,
            })?;
        }
        if choice == 0 {
            let value = Value::build(alloc, b"")?;
            writes.push(WritePart {
                name: name(alloc, object)?,
                value,
            })?;
        }
    }
    let mut ranges = Vec::new(alloc);
    if reads.is_empty() || draws.below(4) == 0 {
        ranges.push(range(alloc, draws, now)?)?;
    }
    Ok(Payload::build_ranges(reads, ranges, writes, u64::from(now) + 1)?)
}

/// A row with or without payload, with any vote and any mark.
pub fn row(alloc: Global, draws: &mut Draws, slot: Slot) -> Result<Row, Fail>
    requires { slot < 1000 }
    ensures { IfOk result (λ r. r.entry.slot ≡ slot) }
{
    let entry = entry(alloc, draws, slot)?;
    let mark = match draws.below(8) {
        0 => Mark::Committed,
        1 => Mark::Aborted,
        _ => Mark::Undecided,
    };
    Ok(Row { entry, mark })
}

fn entry(alloc: Global, draws: &mut Draws, slot: Slot) -> Result<Entry, Fail>
    requires { slot < 1000 }
    ensures { IfOk result (λ e. e.slot ≡ slot) }
{
    let txn = TxId {
        home: 1,
        seq: u32::from(slot),
    };
    let shards = ShardSet::build([1u8].to_vec(alloc)?)?;
    let payload = payload(alloc, draws, slot)?;
    match draws.below(8) {
        0 => Ok(Entry {
            slot,
            txn,
            shards,
            payload: None,
            vote: Vote::Lost,
        }),
        1 => Ok(Entry {
            slot,
            txn,
            shards,
            payload: Some(payload),
            vote: Vote::Clash(txn),
        }),
        _ => Ok(Entry {
            slot,
            txn,
            shards,
            payload: Some(payload),
            vote: Vote::Commit,
        }),
    }
}

fn range(alloc: Global, draws: &mut Draws, now: Slot) -> Result<RangePart, Fail> {
    let first = draws.below(OBJECTS);
    let upto = first + 1 + draws.below(4);
    Ok(RangePart {
        from: name(alloc, first)?,
        upto: name(alloc, upto)?,
        version: seen_version(draws, now),
    })
}

fn seen_version(draws: &mut Draws, now: Slot) -> u64 {
    u64::from(now.saturating_sub(draws.below(8)))
}

/// The name of an object: later ones have greater names.
fn name(alloc: Global, object: u16) -> Result<Name, Fail>
    requires { object < 32 }
{
    if object < LETTERS {
        Ok(Name::build(alloc, &[b'a' + object as u8])?)
    } else {
        Ok(Name::build(alloc, &[b'n', b'_', b'a' + (object - LETTERS) as u8])?)
    }
}
