//! Reads the lines of an input, one after the other.
ghost use Rattle.std.specs.Prelude.{◌≡◌, ◌≤◌, ◌<◌, ◌+◌, true, nat_le, is_some, IfOk, IfSome, MatchOption};
ghost use Rattle.std.specs.List.{list_all};
ghost use Rattle.tcs_terms.specs.declared.limits.TheConstants.{MAX_NODES};
ghost use Rattle.quorum_config.specs.declared.limits.TheConstants.{MAX_PROPOSERS};
ghost use Rattle.quorum_config.specs.Readings.{is_within, only_within, config_in, version_at, acceptors_at, proposers_at, shards_at, first_config_of, configs_at, begin_at, may_propose, cas_of, cas_at, deliver_at, stop_at, event_at, end_at, events_at, read_at, line_reading};
ghost use Rattle.quorum_config.specs.Walks.{IsReader, Walks, read_of};
ghost use Rattle.quorum_config.specs.declared.places.Place.{Place};

use crate::limits::{FIRST_PROPOSER, MAX_EVENTS, MAX_MESSAGE, MAX_PROPOSERS, MAX_ROUND};
use crate::parts::parts_of;
use crate::places::{Item, Place, Progress};
use quorum_protocol::Event;
use std::alloc::Global;
use tcs_terms::limits::{MAX_EPOCH, MAX_NODES, MAX_SHARDS};
use tcs_terms::{Config, Epoch, NodeId, OutOfMemory, ShardId, same_name};

/// What a line is, and where the reader stands after it. What makes one, for a line of the header, is kept apart
/// (`inline(never)`): an event's line, of which there are many, is not to make room for it.
type Read = Option<(Item, Progress)>;

fn is_within(low: u64, high: u64, number: u64) -> bool
    ensures { result ≡ is_within low high number }
{
    low <= number && number <= high
}

/// One number, in this range.
fn only_within(low: u64, high: u64, numbers: &[u64]) -> Option<u64>
    ensures told { result ≡ only_within low high numbers.now }
    ensures range { IfSome result (λ n. (low ≤ n) × (n ≤ high)) }
{
    if numbers.len() == 1 && is_within(low, high, numbers[0]) {
        Some(numbers[0])
    } else {
        None
    }
}

fn are_small(numbers: &[u64]) -> bool
    ensures { result ≡ list_all (λ n. nat_le n MAX_NODES) numbers.now }
{
    numbers.iter().all(|number| *number <= u64::from(MAX_NODES))
}

/// Small numbers, as nodes.
fn nodes_of(alloc: Global, numbers: &[u64]) -> Result<Option<Vec<NodeId>>, OutOfMemory>
    ensures same { IfOk result (λ nodes. IfSome nodes (λ v. v.items ≡ numbers.now)) }
    ensures small { list_all (λ n. nat_le n MAX_NODES) numbers.now ≡ true → IfOk result (λ nodes. is_some nodes ≡ true) }
{
    let mut nodes = Vec::new(alloc);
    for number in numbers {
        if *number > u64::from(MAX_NODES) {
            return Ok(None);
        }
        nodes.push(*number as NodeId)?;
    }
    Ok(Some(nodes))
}

/// A configuration of these numbers, if they are those of one.
#[tactic(auto, unfolding(crate::specs::Readings::config_in))]
fn config_in(
    alloc: Global,
    shard: ShardId,
    epoch: Epoch,
    by: NodeId,
    leader: u64,
    members: &[u64],
) -> Result<Option<Config>, OutOfMemory>
    ensures { IfOk result (λ config. config ≡ config_in shard epoch by leader members.now) }
{
    if leader > u64::from(MAX_NODES) || !are_small(members) {
        return Ok(None);
    }
    match nodes_of(alloc, members)? {
        None => unreachable!(),
        Some(nodes) => match Config::build(shard, epoch, nodes, leader as NodeId, by) {
            Ok(config) => Ok(Some(config)),
            Err(_) => Ok(None),
        },
    }
}

#[tactic(auto, unfolding(crate::specs::Readings::version_at))]
#[inline(never)]
fn version_at(p: Progress, verb: &[u8], numbers: &[u64]) -> Read
    requires reader { IsReader p }
    requires place { p.place ≡ Place.Version }
    ensures told { result ≡ version_at p verb.now numbers.now }
    ensures walks { IfSome result (λ r. Walks p r.0 r.1) }
{
    if !same_name(verb, b"quorum") {
        return None;
    }
    match only_within(1, 1, numbers) {
        None => None,
        Some(_) => Some((
            Item::Header,
            Progress {
                place: Place::Acceptors,
                ..p
            },
        )),
    }
}

#[tactic(auto, unfolding(crate::specs::Readings::acceptors_at))]
#[inline(never)]
fn acceptors_at(p: Progress, verb: &[u8], numbers: &[u64]) -> Read
    requires reader { IsReader p }
    requires place { p.place ≡ Place.Acceptors }
    ensures told { result ≡ acceptors_at p verb.now numbers.now }
    ensures walks { IfSome result (λ r. Walks p r.0 r.1) }
{
    if !same_name(verb, b"acceptors") {
        return None;
    }
    match only_within(3, 5, numbers) {
        None => None,
        Some(number) => {
            if number == 4 {
                return None;
            }
            Some((
                Item::Header,
                Progress {
                    place: Place::Proposers,
                    acceptors: number as u8,
                    ..p
                },
            ))
        }
    }
}

#[tactic(auto, unfolding(crate::specs::Readings::proposers_at))]
#[inline(never)]
fn proposers_at(p: Progress, verb: &[u8], numbers: &[u64]) -> Read
    requires reader { IsReader p }
    requires place { p.place ≡ Place.Proposers }
    ensures told { result ≡ proposers_at p verb.now numbers.now }
    ensures walks { IfSome result (λ r. Walks p r.0 r.1) }
{
    if !same_name(verb, b"proposers") {
        return None;
    }
    match only_within(1, u64::from(MAX_PROPOSERS), numbers) {
        None => None,
        Some(number) => Some((
            Item::Header,
            Progress {
                place: Place::Shards,
                proposers: number as u8,
                ..p
            },
        )),
    }
}

#[tactic(auto, unfolding(crate::specs::Readings::shards_at))]
#[inline(never)]
fn shards_at(p: Progress, verb: &[u8], numbers: &[u64]) -> Read
    requires reader { IsReader p }
    requires place { p.place ≡ Place.Shards }
    ensures told { result ≡ shards_at p verb.now numbers.now }
    ensures walks { IfSome result (λ r. Walks p r.0 r.1) }
{
    if !same_name(verb, b"shards") {
        return None;
    }
    match only_within(1, u64::from(MAX_SHARDS), numbers) {
        None => None,
        Some(number) => Some((
            Item::Header,
            Progress {
                place: Place::Configs,
                shards: number as u8,
                ..p
            },
        )),
    }
}

/// The first configuration of the next shard.
fn first_config_of(
    alloc: Global,
    p: Progress,
    shard: u64,
    leader: u64,
    members: &[u64],
) -> Result<Read, OutOfMemory>
    requires reader { IsReader p }
    requires place { p.place ≡ Place.Configs }
    ensures told { IfOk result (λ read. read ≡ first_config_of p shard leader members.now) }
    ensures walks { IfOk result (λ read. IfSome read (λ r. Walks p r.0 r.1)) }
{
    let next = p.configs + 1;
    if shard != u64::from(next) {
        return Ok(None);
    }
    match config_in(alloc, next, 1, 0, leader, members)? {
        None => Ok(None),
        Some(_) => {
            let place = if next == p.shards {
                Place::Begin
            } else {
                Place::Configs
            };
            Ok(Some((
                Item::Header,
                Progress {
                    place,
                    configs: next,
                    ..p
                },
            )))
        }
    }
}

#[tactic(auto, unfolding(crate::specs::Readings::configs_at))]
#[inline(never)]
fn configs_at(alloc: Global, p: Progress, verb: &[u8], numbers: &[u64]) -> Result<Read, OutOfMemory>
    requires reader { IsReader p }
    requires place { p.place ≡ Place.Configs }
    ensures told { IfOk result (λ read. read ≡ configs_at p verb.now numbers.now) }
    ensures walks { IfOk result (λ read. IfSome read (λ r. Walks p r.0 r.1)) }
{
    if !same_name(verb, b"config") || numbers.len() < 2 {
        return Ok(None);
    }
    first_config_of(alloc, p, numbers[0], numbers[1], &numbers[2..])
}

#[tactic(auto, unfolding(crate::specs::Readings::begin_at))]
#[inline(never)]
fn begin_at(p: Progress, verb: &[u8], numbers: &[u64]) -> Read
    requires reader { IsReader p }
    requires place { p.place ≡ Place.Begin }
    ensures told { result ≡ begin_at p verb.now numbers.now }
    ensures walks { IfSome result (λ r. Walks p r.0 r.1) }
{
    if !(same_name(verb, b"events") && numbers.len() == 0) {
        return None;
    }
    Some((
        Item::Begun,
        Progress {
            place: Place::Events,
            ..p
        },
    ))
}

/// Whether the numbers of a proposal are in their ranges.
fn may_propose(p: Progress, proposer: u64, round: u64, shard: u64, epoch: u64) -> bool
    requires { p.proposers ≤ MAX_PROPOSERS }
    ensures { result ≡ may_propose p proposer round shard epoch }
{
    is_within(
        u64::from(FIRST_PROPOSER),
        u64::from(FIRST_PROPOSER) - 1 + u64::from(p.proposers),
        proposer,
    ) && is_within(1, u64::from(MAX_ROUND), round)
        && is_within(1, u64::from(p.shards), shard)
        && is_within(2, u64::from(MAX_EPOCH), epoch)
}

#[tactic(auto, unfolding(crate::specs::Readings::cas_of))]
fn cas_of(
    alloc: Global,
    p: Progress,
    proposer: u64,
    round: u64,
    shard: u64,
    epoch: u64,
    leader: u64,
    members: &[u64],
) -> Result<Option<Event>, OutOfMemory>
    requires { p.proposers ≤ MAX_PROPOSERS }
    ensures { IfOk result (λ event. event ≡ cas_of p proposer round shard epoch leader members.now) }
{
    if !may_propose(p, proposer, round, shard, epoch) {
        return Ok(None);
    }
    match config_in(
        alloc,
        shard as ShardId,
        epoch as Epoch,
        proposer as NodeId,
        leader,
        members,
    )? {
        None => Ok(None),
        Some(config) => Ok(Some(Event::Cas {
            round: round as u32,
            config,
        })),
    }
}

fn cas_at(alloc: Global, p: Progress, numbers: &[u64]) -> Result<Option<Event>, OutOfMemory>
    requires { p.proposers ≤ MAX_PROPOSERS }
    ensures { IfOk result (λ event. event ≡ cas_at p numbers.now) }
{
    if numbers.len() < 5 {
        return Ok(None);
    }
    cas_of(
        alloc,
        p,
        numbers[0],
        numbers[1],
        numbers[2],
        numbers[3],
        numbers[4],
        &numbers[5..],
    )
}

fn deliver_at(numbers: &[u64]) -> Option<Event>
    ensures { result ≡ deliver_at numbers.now }
{
    match only_within(1, u64::from(MAX_MESSAGE), numbers) {
        None => None,
        Some(number) => Some(Event::Deliver(number as u32)),
    }
}

fn stop_at(p: Progress, numbers: &[u64]) -> Option<Event>
    ensures { result ≡ stop_at p numbers.now }
{
    match only_within(1, u64::from(p.acceptors), numbers) {
        None => None,
        Some(number) => Some(Event::Stop(number as NodeId)),
    }
}

#[tactic(auto, unfolding(crate::specs::Readings::event_at))]
fn event_at(
    alloc: Global,
    p: Progress,
    verb: &[u8],
    numbers: &[u64],
) -> Result<Option<Event>, OutOfMemory>
    requires { p.proposers ≤ MAX_PROPOSERS }
    ensures { IfOk result (λ event. event ≡ event_at p verb.now numbers.now) }
{
    if same_name(verb, b"cas") {
        return cas_at(alloc, p, numbers);
    }
    if same_name(verb, b"deliver") {
        return Ok(deliver_at(numbers));
    }
    if same_name(verb, b"stop") {
        return Ok(stop_at(p, numbers));
    }
    Ok(None)
}

/// Goes to where a line leads, if it may stand where the reader stands.
fn go_on(p: &mut Progress, read: Read) -> Option<Item>
    requires reader { IsReader p.old }
    requires walks { IfSome read (λ r. Walks p.old r.0 r.1) }
    ensures told { read_of result p.new ≡ read }
    ensures walks { IfSome result (λ item. Walks p.old item p.new) }
    ensures reader { IsReader p.new }
{
    match read {
        None => None,
        Some((item, next)) => {
            *p = next;
            Some(item)
        }
    }
}

fn end_at(p: &mut Progress, numbers: &[u64]) -> Option<Item>
    requires reader { IsReader p.old }
    requires place { p.old.place ≡ Place.Events }
    ensures told { read_of result p.new ≡ end_at p.old numbers.now }
    ensures walks { IfSome result (λ item. Walks p.old item p.new) }
    ensures reader { IsReader p.new }
{
    if numbers.len() == 0 {
        p.place = Place::Ended;
        return Some(Item::End);
    }
    None
}

/// The reader is changed in place: of all lines, those between `events` and `end` are the many.
#[tactic(auto, unfolding(crate::specs::Readings::events_at))]
fn events_at(
    alloc: Global,
    p: &mut Progress,
    verb: &[u8],
    numbers: &[u64],
) -> Result<Option<Item>, OutOfMemory>
    requires reader { IsReader p.old }
    requires place { p.old.place ≡ Place.Events }
    ensures told { IfOk result (λ item. read_of item p.new ≡ events_at p.old verb.now numbers.now) }
    ensures walks { IfOk result (λ item. IfSome item (λ i. Walks p.old i p.new)) }
    ensures reader { IsReader p.new }
{
    if same_name(verb, b"end") {
        return Ok(end_at(p, numbers));
    }
    if p.events >= MAX_EVENTS {
        return Ok(None);
    }
    match event_at(alloc, *p, verb, numbers)? {
        None => Ok(None),
        Some(event) => {
            p.events += 1;
            Ok(Some(Item::Event(event)))
        }
    }
}

fn read_at(
    alloc: Global,
    p: &mut Progress,
    verb: &[u8],
    numbers: &[u64],
) -> Result<Option<Item>, OutOfMemory>
    requires reader { IsReader p.old }
    ensures told { IfOk result (λ item. read_of item p.new ≡ read_at p.old p.old.place verb.now numbers.now) }
    ensures walks { IfOk result (λ item. IfSome item (λ i. Walks p.old i p.new)) }
    ensures reader { IsReader p.new }
{
    let at = *p;
    match at.place {
        Place::Version => Ok(go_on(p, version_at(at, verb, numbers))),
        Place::Acceptors => Ok(go_on(p, acceptors_at(at, verb, numbers))),
        Place::Proposers => Ok(go_on(p, proposers_at(at, verb, numbers))),
        Place::Shards => Ok(go_on(p, shards_at(at, verb, numbers))),
        Place::Configs => Ok(go_on(p, configs_at(alloc, at, verb, numbers)?)),
        Place::Begin => Ok(go_on(p, begin_at(at, verb, numbers))),
        Place::Events => events_at(alloc, p, verb, numbers),
        Place::Ended => Ok(None),
    }
}

/// Takes a line, if it may stand where the reader stands, and goes on behind it. The buffer is room for its numbers.
#[tactic(auto, unfolding(crate::specs::Readings::line_reading))]
pub(crate) fn read_line(
    alloc: Global,
    numbers: &mut Vec<u64>,
    p: &mut Progress,
    line: &[u8],
) -> Result<Option<Item>, OutOfMemory>
    requires reader { IsReader p.old }
    ensures told { IfOk result (λ item. read_of item p.new ≡ line_reading p.old line.now) }
    ensures walks { IfOk result (λ item. IfSome item (λ i. Walks p.old i p.new)) }
    ensures reader { IsReader p.new }
{
    match parts_of(numbers, line)? {
        None => Ok(None),
        Some(verb) => read_at(alloc, p, verb, numbers),
    }
}
