//! Which shard an object lies in, the shards of a payload, and its part in a shard.
ghost use Rattle.std.specs.Prelude.{◌≡◌, ◌+◌, ◌≤◌, ◌<◌, ◌&&◌, nat_le, filter, length, sum, IsTrue, IfOk};
ghost use Rattle.std.specs.List.{list_all, list_any, range_with_len};
ghost use Rattle.tcs_terms.specs.Payloads.{IsPayload};
ghost use Rattle.tcs_terms.specs.Shards.{shard_of, lies_in, restricted, shards_of};

use crate::copies::copy_all;
use crate::ids::ShardId;
use crate::limits::{MAX_NAME, MAX_SHARDS};
use crate::memory::OutOfMemory;
use crate::payload_faults::reads_nothing;
use crate::payloads::{Payload, ReadPart, WritePart};
use crate::shard_sets::ShardSet;
use std::alloc::Global;

/// The sum of the bytes of a name.
fn sum_of(name: &[u8]) -> u32
    requires { length name.now ≤ MAX_NAME }
    ensures { result ≡ sum name.now }
{
    name.iter().map(|byte| u32::from(*byte)).sum()
}

/// The shard of an object among `n` shards: the sum of the bytes of its name, modulo `n`, plus 1.
pub fn shard_of(name: &[u8], n: u8) -> ShardId
    requires some { 1 ≤ n }
    requires short { length name.now ≤ MAX_NAME }
    ensures { result ≡ shard_of name.now n }
{
    (sum_of(name) % u32::from(n)) as u8 + 1
}

/// Whether an object that is read lies in the shard.
fn read_lies_in(read: &ReadPart, shard: ShardId, n: u8) -> bool
    requires { 1 ≤ n }
    ensures { result ≡ lies_in n shard read.now.name }
{
    shard_of(read.name.bytes(), n) == shard
}

/// Whether an object that is written lies in the shard.
fn write_lies_in(write: &WritePart, shard: ShardId, n: u8) -> bool
    requires { 1 ≤ n }
    ensures { result ≡ lies_in n shard write.now.name }
{
    shard_of(write.name.bytes(), n) == shard
}

/// The reads of objects of the shard.
fn reads_in(
    alloc: Global,
    reads: &[ReadPart],
    shard: ShardId,
    n: u8,
) -> Result<Vec<ReadPart>, OutOfMemory>
    requires { 1 ≤ n }
    ensures { IfOk result (λ rs. rs.items ≡ filter (λ r. lies_in n shard r.name) reads.now) }
{
    let mut part = Vec::new(alloc);
    for read in reads {
        if read_lies_in(read, shard, n) {
            part.push(read.copy(alloc)?)?;
        }
    }
    Ok(part)
}

/// The writes of objects of the shard.
fn writes_in(
    alloc: Global,
    writes: &[WritePart],
    shard: ShardId,
    n: u8,
) -> Result<Vec<WritePart>, OutOfMemory>
    requires { 1 ≤ n }
    ensures { IfOk result (λ ws. ws.items ≡ filter (λ w. lies_in n shard w.name) writes.now) }
{
    let mut part = Vec::new(alloc);
    for write in writes {
        if write_lies_in(write, shard, n) {
            part.push(write.copy(alloc)?)?;
        }
    }
    Ok(part)
}

/// Whether an object of the shard is read by name.
fn reads_some(reads: &[ReadPart], shard: ShardId, n: u8) -> bool
    requires { 1 ≤ n }
    ensures { result ≡ list_any (λ r. lies_in n shard r.name) reads.now }
{
    reads.iter().any(|read| read_lies_in(read, shard, n))
}

/// The shards from 1 to `n` of which an object is read by name.
fn shards_read(alloc: Global, reads: &[ReadPart], n: u8) -> Result<Vec<ShardId>, OutOfMemory>
    requires some { 1 ≤ n }
    requires few { n ≤ MAX_SHARDS }
    ensures { IfOk result (λ list.
        list.items ≡ filter (λ shard. list_any (λ r. lies_in n shard r.name) reads.now) (range_with_len 1 n)) }
{
    let mut list = Vec::new(alloc);
    for shard in 1..n + 1 {
        if reads_some(reads, shard, n) {
            list.push(shard)?;
        }
    }
    Ok(list)
}

/// The shards from 1 to `n`.
fn all_shards(alloc: Global, n: u8) -> Result<Vec<ShardId>, OutOfMemory>
    requires few { n ≤ MAX_SHARDS }
    ensures { IfOk result (λ list. list.items ≡ range_with_len 1 n) }
{
    let mut list = Vec::new(alloc);
    for shard in 1..n + 1 {
        list.push(shard)?;
    }
    Ok(list)
}

/// The shards of a payload, as a list.
fn shard_list(alloc: Global, payload: &Payload, n: u8) -> Result<Vec<ShardId>, OutOfMemory>
    requires some { 1 ≤ n }
    requires few { n ≤ MAX_SHARDS }
    ensures list { IfOk result (λ list. list.items ≡ shards_of n payload.now) }
    ensures payload { IsPayload payload.now }
{
    let reads = payload.reads();
    if payload.ranges().is_empty() {
        return shards_read(alloc, reads, n);
    }
    all_shards(alloc, n)
}

/// Whether every object that is read by name lies in the shard.
fn all_lie_in(reads: &[ReadPart], shard: ShardId, n: u8) -> bool
    requires { 1 ≤ n }
    ensures { result ≡ list_all (λ r. lies_in n shard r.name) reads.now }
{
    reads.iter().all(|read| read_lies_in(read, shard, n))
}

impl Payload {
    /// The shards of the payload, of `n` shards (1 to 16): those of its reads, or all where it has a range.
    pub fn shards(&self, alloc: Global, n: u8) -> Result<ShardSet, OutOfMemory>
        requires some { 1 ≤ n }
        requires few { n ≤ MAX_SHARDS }
        ensures { IfOk result (λ shards. shards ≡ shards_of n self.now) }
    {
        let list = shard_list(alloc, self, n)?;
        Ok(ShardSet::of(&list))
    }

    /// The part of the payload in a shard, of `n` shards (1 to 16): its reads and writes of objects of the shard, all
    /// ranges and the commit version. There is none where no read is in the shard and there is no range. Where the shard
    /// holds all of it, the part is a copy and takes no memory.
    pub fn restrict(
        &self,
        alloc: Global,
        shard: ShardId,
        n: u8,
    ) -> Result<Option<Payload>, OutOfMemory>
        requires some { 1 ≤ n }
        requires few { n ≤ MAX_SHARDS }
        ensures { IfOk result (λ part. part ≡ restricted n shard self.now) }
    {
        let all_reads = self.reads();
        // Each written object is read too, so that the shard holds all of the payload.
        if all_lie_in(all_reads, shard, n) {
            return Ok(Some(self.copy(alloc)?));
        }
        let all_ranges = self.ranges();
        let reads = reads_in(alloc, all_reads, shard, n)?;
        if reads_nothing(&reads, all_ranges) {
            return Ok(None);
        }
        let ranges = copy_all(alloc, all_ranges)?;
        let writes = writes_in(alloc, self.writes(), shard, n)?;
        let part = Payload::of(reads, ranges, writes, self.version())?;
        Ok(Some(part))
    }
}
