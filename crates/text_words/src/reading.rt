//! The payload that words spell.
ghost use Rattle.std.specs.Prelude.{◌≡◌, ◌==◌, ◌||◌, IsTrue, Ok, IfOk, IfErr};
ghost use Rattle.text_words.specs.declared.words.WordFault.TheVariants as faults;
ghost use Rattle.tcs_terms.specs.Payloads.{Accesses, IsPayload};
ghost use Rattle.text_words.specs.PayloadText.{payload_text};
ghost use Rattle.text_words.specs.PayloadWords.{FitsVersion, Gives, Tells, Reads, reading, read_at, range_at, write_at, reads_at, ranges_at, ranges_in, writes_at, some_read, payload_at, last_read, last_end, last_write};

use crate::cursor::Words;
use crate::word_readers::{
    all_read, commit_word, fixed_word, from_word, name_word, value_word, version_word, written_word,
};
use crate::words::{Reason, Stop, WordFault};
use std::alloc::Global;
use tcs_terms::limits::{MAX_RANGES, MAX_READS, MAX_WRITES};
use tcs_terms::{OutOfMemory, Payload, RangePart, ReadPart, WritePart, reads_nothing};

/// The name of the last read, or the empty one where there is none.
fn last_read(reads: &[ReadPart]) -> &[u8]
    ensures { result.now ≡ last_read reads.now }
{
    match reads {
        [] => &[],
        [.., last] => last.name.bytes(),
    }
}

/// The end of the last range, or the empty name where there is none.
fn last_end(ranges: &[RangePart]) -> &[u8]
    ensures { result.now ≡ last_end ranges.now }
{
    match ranges {
        [] => &[],
        [.., last] => last.upto.bytes(),
    }
}

/// The name of the last write, or the empty one where there is none.
fn last_write(writes: &[WritePart]) -> &[u8]
    ensures { result.now ≡ last_write writes.now }
{
    match writes {
        [] => &[],
        [.., last] => last.name.bytes(),
    }
}

/// A read, after its `r`.
#[tactic(auto, unfolding(crate::specs::PayloadWords::read_at))]
fn read_at(alloc: Global, commit: u64, before: &[u8], words: &mut Words) -> Result<ReadPart, Stop>
    ensures { Tells (λ r. r) result words.new (read_at commit before.now words.old) }
{
    let name = name_word(alloc, before, words)?;
    let version = version_word(commit, words)?;
    Ok(ReadPart { name, version })
}

/// A range, after its `q`.
#[tactic(auto, unfolding(crate::specs::PayloadWords::range_at))]
fn range_at(alloc: Global, commit: u64, end: &[u8], words: &mut Words) -> Result<RangePart, Stop>
    ensures { Tells (λ q. q) result words.new (range_at commit end.now words.old) }
{
    let from = from_word(alloc, end, words)?;
    let upto = name_word(alloc, from.bytes(), words)?;
    let version = version_word(commit, words)?;
    Ok(RangePart {
        from,
        upto,
        version,
    })
}

/// A write, after its `w`.
#[tactic(auto, unfolding(crate::specs::PayloadWords::write_at))]
fn write_at(
    alloc: Global,
    reads: &[ReadPart],
    before: &[u8],
    words: &mut Words,
) -> Result<WritePart, Stop>
    ensures { Tells (λ w. w) result words.new (write_at reads.now before.now words.old) }
{
    let name = written_word(alloc, reads, before, words)?;
    let value = value_word(alloc, words)?;
    Ok(WritePart { name, value })
}

/// The reads.
fn reads_at(alloc: Global, commit: u64, words: &mut Words) -> Result<Vec<ReadPart>, Stop>
    ensures { Tells (λ rs. rs.items) result words.new (reads_at commit words.old) }
{
    let mut reads = Vec::new(alloc);
    'parts: while words.begins(b"r") {
        if reads.len() >= MAX_READS {
            return words.misfit(Reason::Many);
        }
        words.skip();
        let read = read_at(alloc, commit, last_read(&reads), words)?;
        reads.push(read)?;
    }
    Ok(reads)
}

/// The ranges.
fn ranges_at(alloc: Global, commit: u64, words: &mut Words) -> Result<Vec<RangePart>, Stop>
    ensures { Tells (λ qs. qs.items) result words.new (ranges_at commit words.old) }
{
    let mut ranges = Vec::new(alloc);
    'parts: while words.begins(b"q") {
        if ranges.len() >= MAX_RANGES {
            return words.misfit(Reason::Many);
        }
        words.skip();
        let range = range_at(alloc, commit, last_end(&ranges), words)?;
        ranges.push(range)?;
    }
    Ok(ranges)
}

/// The ranges of a version of the texts; version 1 has none.
fn ranges_in(
    alloc: Global,
    version: u8,
    commit: u64,
    words: &mut Words,
) -> Result<Vec<RangePart>, Stop>
    ensures { Tells (λ qs. qs.items) result words.new (ranges_in version commit words.old) }
{
    if version == 1 {
        return Ok(Vec::new(alloc));
    }
    ranges_at(alloc, commit, words)
}

/// The writes.
fn writes_at(alloc: Global, reads: &[ReadPart], words: &mut Words) -> Result<Vec<WritePart>, Stop>
    ensures { Tells (λ ws. ws.items) result words.new (writes_at reads.now words.old) }
{
    let mut writes = Vec::new(alloc);
    'parts: while words.begins(b"w") {
        if writes.len() >= MAX_WRITES {
            return words.misfit(Reason::Many);
        }
        words.skip();
        let write = write_at(alloc, reads, last_write(&writes), words)?;
        writes.push(write)?;
    }
    Ok(writes)
}

/// Something must be read.
fn some_read(reads: &[ReadPart], ranges: &[RangePart], words: &mut Words) -> Result<(), Stop>
    ensures { Tells (λ x. x) result words.new (some_read reads.now ranges.now words.old) }
{
    if reads_nothing(reads, ranges) {
        return words.misfit(Reason::Word);
    }
    Ok(())
}

/// The payload that a text spells in a version of the texts: 1, or 2, which has ranges. Its words stand with one space
/// between them.
///
/// # Errors
/// `Bad` with the number, from 1, of the first word that does not fit, and the reason; in one word `many` comes before
/// `word`, then `number`, `order`, `version` and `unread`.
pub fn read_payload(alloc: Global, text: &[u8], version: u8) -> Result<Payload, WordFault>
    requires { IsTrue ((version == 1) || (version == 2)) }
    // What is read is spelled so.
    ensures found { IfOk result (λ p. IsPayload p × FitsVersion version p × (text.now ≡ payload_text p)) }
    // What is spelled so is read, unless memory runs out.
    ensures only { (p : Accesses) → IsPayload p → FitsVersion version p → text.now ≡ payload_text p → Reads result (Ok p) }
    // Which fault it is.
    ensures exact { Reads result (reading version text.now) }
{
    let mut words = Words::of(text);
    match parts_at(alloc, version, &mut words) {
        Ok(parts) => parts.into_payload(),
        Err(Stop::OutOfMemory) => Err(WordFault::OutOfMemory),
        Err(Stop::Misfit { left, reason }) => Err(WordFault::Bad {
            word: (Words::of(text).left() + 1).saturating_sub(left),
            reason,
        }),
    }
}

/// The parts that the words of a payload spell.
#[derive(Debug, Drop)]
struct Parts {
    reads: Vec<ReadPart>,
    ranges: Vec<RangePart>,
    writes: Vec<WritePart>,
    version: u64,
}

impl Parts {
    /// The payload of parts that are one.
    fn into_payload(self) -> Result<Payload, WordFault>
        requires { IsPayload (record {
          reads = self.reads.items;
          ranges = self.ranges.items;
          writes = self.writes.items;
          version = self.version;
        }) }
        ensures value { IfOk result (λ p. p ≡ record {
          reads = self.reads.items;
          ranges = self.ranges.items;
          writes = self.writes.items;
          version = self.version;
        }) }
        ensures memory { IfErr result (λ e. e ≡ faults.OutOfMemory) }
    {
        match Payload::of(self.reads, self.ranges, self.writes, self.version) {
            Ok(payload) => Ok(payload),
            Err(OutOfMemory) => Err(WordFault::OutOfMemory),
        }
    }
}

/// The parts that all of the words spell.
#[tactic(auto, unfolding(crate::specs::PayloadWords::payload_at))]
fn parts_at(alloc: Global, version: u8, words: &mut Words) -> Result<Parts, Stop>
    ensures { Gives (λ p. record { reads = p.reads.items; ranges = p.ranges.items; writes = p.writes.items; version = p.version })
        result (payload_at version words.old) }
{
    fixed_word(b"v", words)?;
    let commit = commit_word(words)?;
    let reads = reads_at(alloc, commit, words)?;
    let ranges = ranges_in(alloc, version, commit, words)?;
    some_read(&reads, &ranges, words)?;
    let writes = writes_at(alloc, &reads, words)?;
    all_read(words)?;
    Ok(Parts {
        reads,
        ranges,
        writes,
        version: commit,
    })
}
