//! The frames on their way, by receiver.
ghost use Rattle.std.specs.Prelude.{◌≡◌, ℕ, ◌<◌, ◌==◌, ◌++◌, ◌∷◌, [], length, drop, if◌then◌else◌, OnOk, OnErr};
ghost use Rattle.std.specs.List.{slice_get, position};
ghost use Rattle.tcs_link.specs.Network.{Mail as mail_state, waiting, aliens_for, queue_of, carried};

use crate::bytes::Bytes;
use crate::queues::Queue;
use crate::telling::Arrival;
use std::alloc::Global;
use std::marker::Model;
use tcs_terms::{NodeId, OutOfMemory};

/// What becomes of a frame that is sent.
#[derive(Clone, Copy, Debug, PartialEq, Eq)]
pub enum Fate {
    Keep,
    Lose,
    /// The frame comes twice.
    Twice,
    /// The frame is lost, and `send` answers `Failed`.
    Fail,
}

/// A frame that nobody sent.
#[derive(Debug, Drop)]
pub struct Alien {
    pub from: NodeId,
    pub to: NodeId,
    pub bytes: Bytes,
}

/// The frames on their way. The aliens stand before all others of their receiver, in their order.
#[derive(Debug, Drop)]
pub(crate) struct Mail {
    aliens: Vec<Alien>,
    /// The frames for each receiver, at its number.
    queues: Vec<Queue>,
}

impl Model for Mail {
    ghost Value = { mail_state };

    ghost view = { λ m. record { aliens = m.aliens.items; queues = m.queues.items } };
}

impl Mail {
    pub(crate) fn new(alloc: Global, aliens: Vec<Alien>) -> Mail
        ensures { result ≡ record { aliens = aliens.items; queues = [] } }
    {
        Mail {
            aliens,
            queues: Vec::new(alloc),
        }
    }

    /// Takes what comes of a frame that is sent.
    pub(crate) fn carry(
        &mut self,
        fate: Fate,
        from: NodeId,
        to: NodeId,
        frame: &[u8],
    ) -> Result<(), OutOfMemory>
        ensures ok { OnOk result ((n : ℕ) → waiting self.new n
            ≡ waiting self.old n ++ (if n == to then carried fate (record { from = from; bytes = frame.now }) else [])) }
        ensures err { OnErr result ((n : ℕ) → waiting self.new n ≡ waiting self.old n) }
    {
        let alloc = *self.queues.allocator();
        match fate {
            Fate::Lose | Fate::Fail => Ok(()),
            Fate::Keep => {
                let bytes = Bytes::of(alloc, frame)?;
                put(&mut self.queues, to, Arrival { from, bytes })
            }
            Fate::Twice => {
                let first = Bytes::of(alloc, frame)?;
                let first = Arrival { from, bytes: first };
                let bytes = Bytes::of(alloc, frame)?;
                put_two(&mut self.queues, to, first, Arrival { from, bytes })
            }
        }
    }

    /// Takes the next frame for a receiver.
    pub(crate) fn next(&mut self, node: NodeId) -> Option<Arrival>
        ensures next { result ≡ slice_get (waiting self.old node) 0 }
        ensures rest { (n : ℕ) → waiting self.new n
            ≡ (if n == node then drop 1 (waiting self.old n) else waiting self.old n) }
    {
        match take_alien(&mut self.aliens, node) {
            Some(frame) => Some(frame),
            None => take_first(&mut self.queues, node),
        }
    }
}

/// The place of the first alien for a receiver.
fn place_of(aliens: &[Alien], node: NodeId) -> Option<usize>
    ensures { result ≡ position (λ alien. alien.to == node) aliens.now }
{
    aliens.iter().position(|alien| alien.to == node)
}

/// Takes the first alien for a receiver.
fn take_alien(aliens: &mut Vec<Alien>, node: NodeId) -> Option<Arrival>
    ensures next { result ≡ slice_get (aliens_for node aliens.old.items) 0 }
    ensures rest { (n : ℕ) → aliens_for n aliens.new.items
        ≡ (if n == node then drop 1 (aliens_for n aliens.old.items) else aliens_for n aliens.old.items) }
{
    match place_of(aliens, node) {
        None => None,
        Some(place) => {
            let alien = aliens.remove(place);
            Some(Arrival {
                from: alien.from,
                bytes: alien.bytes,
            })
        }
    }
}

/// Takes the next frame that was sent to a receiver.
fn take_first(queues: &mut Vec<Queue>, node: NodeId) -> Option<Arrival>
    ensures next { result ≡ slice_get (queue_of queues.old.items node) 0 }
    ensures rest { (n : ℕ) → queue_of queues.new.items n
        ≡ (if n == node then drop 1 (queue_of queues.old.items n) else queue_of queues.old.items n) }
{
    let place = usize::from(node);
    if place < queues.len() {
        queues[place].pop()
    } else {
        None
    }
}

/// The queue of a receiver, which is an empty one where nothing came so far.
fn reach(queues: &mut Vec<Queue>, node: NodeId) -> Result<(), OutOfMemory>
    ensures there { OnOk result (node < length queues.new.items) }
    ensures same { (n : ℕ) → queue_of queues.new.items n ≡ queue_of queues.old.items n }
{
    let alloc = *queues.allocator();
    while queues.len() <= usize::from(node) {
        queues.push(Queue::new(alloc))?;
    }
    Ok(())
}

/// A frame comes behind all others of its receiver.
fn put(queues: &mut Vec<Queue>, to: NodeId, frame: Arrival) -> Result<(), OutOfMemory>
    ensures ok { OnOk result ((n : ℕ) → queue_of queues.new.items n
        ≡ queue_of queues.old.items n ++ (if n == to then frame ∷ [] else [])) }
    ensures err { OnErr result ((n : ℕ) → queue_of queues.new.items n ≡ queue_of queues.old.items n) }
{
    reach(queues, to)?;
    queues[usize::from(to)].push(frame)
}

/// Two frames come behind all others of their receiver, or none.
fn put_two(
    queues: &mut Vec<Queue>,
    to: NodeId,
    first: Arrival,
    second: Arrival,
) -> Result<(), OutOfMemory>
    ensures ok { OnOk result ((n : ℕ) → queue_of queues.new.items n
        ≡ queue_of queues.old.items n ++ (if n == to then first ∷ second ∷ [] else [])) }
    ensures err { OnErr result ((n : ℕ) → queue_of queues.new.items n ≡ queue_of queues.old.items n) }
{
    reach(queues, to)?;
    queues[usize::from(to)].push_two(first, second)
}
