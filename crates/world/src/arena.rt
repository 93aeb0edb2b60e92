//! The messages of a run, each as its frame in one run of bytes.
ghost use Rattle.std.specs.Prelude.{◌≡◌, ◌+◌, ◌<◌, ◌≤◌, ◌++◌, ◌∷◌, [], length, map, All, IfOk, OnOk, OnErr, IfErr};
ghost use Rattle.tcs_terms.specs.Appends.{Begins};
ghost use Rattle.tcs_terms.specs.Messages.{InRange};
ghost use Rattle.wire_frame.specs.Spelling.{spell};
ghost use Rattle.protocol.specs.Limit.{frame_bytes, frame_limit};
ghost use Rattle.protocol.specs.World.{sent_by, message_of};
ghost use Rattle.world.specs.Frames.{letters_of, letter_at};
ghost use Rattle.world.specs.Writing.{Grown};

use crate::happenings::{Posted, Stop};
use std::alloc::Global;
use std::marker::Model;
use tcs_terms::{Message, NodeId, OutOfMemory, Outgoing};
use wire_frame::{decode, encode_into};

/// The frames of all messages of a run have at most this many bytes together.
pub(crate) const FRAME_LIMIT: u64 = 268_435_456;

/// From whom and to whom a message goes, and where its frame lies.
#[derive(Clone, Copy)]
struct Letter {
    from: NodeId,
    to: NodeId,
    begin: u32,
    end: u32,
}

/// A message that is delivered.
#[derive(Drop)]
pub(crate) struct Delivery {
    pub(crate) from: NodeId,
    pub(crate) to: NodeId,
    pub(crate) message: Message,
}

/// All messages that were sent, within the limit on their bytes. Seen as the list of them.
#[derive(Drop)]
pub(crate) struct Arena {
    bytes: Vec<u8>,
    letters: Vec<Letter>,
}

impl Model for Arena {
    ghost use Rattle.std.specs.Prelude.{List};
    ghost use Rattle.protocol.specs.World.{Sent};
    ghost use Rattle.world.specs.Frames.{read_all, IsArena};

    ghost Value = { List Sent };

    ghost view = { λ a. read_all a.bytes.items a.letters.items };

    ghost invariant = { λ a. IsArena a.bytes.items a.letters.items };
}

/// Appends the frame of a message to bytes that are within the limit, unless it passes the limit with what was sent
/// before; and gives the sum with it.
fn write_one(
    bytes: &mut Vec<u8>,
    letters: &mut Vec<Letter>,
    before: u64,
    from: NodeId,
    sent: &Outgoing,
) -> Result<u64, OutOfMemory>
    requires small { length bytes.old.items ≤ frame_limit }
    requires before { before ≤ frame_limit → before ≡ length bytes.old.items }
    ensures sum { IfOk result (λ sum. sum ≡ before + length (spell sent.now.message)) }
    ensures bytes { IfOk result (λ sum. sum ≤ frame_limit → bytes.new.items ≡ bytes.old.items ++ spell sent.now.message) }
    ensures letters { IfOk result (λ sum. sum ≤ frame_limit
        → letters.new.items ≡ letters.old.items ++ letters_of (length bytes.old.items) (record { from = from; to = sent.now.to; message = sent.now.message } ∷ [])) }
    ensures small { OnOk result (length bytes.new.items ≤ frame_limit) }
    ensures bytes_front { Begins bytes.old.items bytes.new.items }
    ensures letters_front { Begins letters.old.items letters.new.items }
{
    let begin = bytes.len();
    encode_into(&sent.message, bytes)?;
    let end = bytes.len();
    let sum = before.checked_add((end - begin) as u64).ok_or(OutOfMemory)?;
    if sum > FRAME_LIMIT {
        bytes.truncate(begin);
        return Ok(sum);
    }
    letters.push(Letter {
        from,
        to: sent.to,
        begin: begin as u32,
        end: end as u32,
    })?;
    Ok(sum)
}

/// Appends the frames of messages while they keep within the limit, and gives the sum of all frame bytes with all of them.
fn write_all(
    bytes: &mut Vec<u8>,
    letters: &mut Vec<Letter>,
    from: NodeId,
    sends: &[Outgoing],
) -> Result<u64, OutOfMemory>
    requires { length bytes.old.items ≤ frame_limit }
    ensures grown { IfOk result (λ sum. Grown from bytes.old.items letters.old.items sends.now sum bytes.new.items letters.new.items) }
    ensures bytes_front { Begins bytes.old.items bytes.new.items }
    ensures letters_front { Begins letters.old.items letters.new.items }
{
    let mut sum = bytes.len() as u64;
    for sent in sends {
        sum = write_one(bytes, letters, sum, from, sent)?;
    }
    Ok(sum)
}

/// The letter of a number, from 1.
fn letter_at(letters: &[Letter], number: u32) -> Option<Letter>
    ensures { result ≡ letter_at letters.now number }
{
    match number {
        0 => None,
        _ => letters.get(number as usize - 1).copied(),
    }
}

impl Arena {
    ghost use Rattle.world.specs.Posting.{IsPosted, IsDelivery, IsFull};

    pub(crate) fn new(alloc: Global) -> Arena
        ensures { result ≡ [] }
    {
        Arena {
            bytes: Vec::new(alloc),
            letters: Vec::new(alloc),
        }
    }

    /// How many messages were sent.
    pub(crate) fn len(&self) -> u32
        ensures count { result ≡ length self.now }
        ensures few { result ≤ frame_limit }
    {
        self.letters.len() as u32
    }

    /// The message of a number, from 1.
    pub(crate) fn posted(&self, number: u32) -> Option<Posted<'_>>
        ensures { IsPosted result (message_of self.now number) }
    {
        let letter = letter_at(&self.letters, number)?;
        let (begin, end) = (letter.begin as usize, letter.end as usize);
        Some(Posted {
            from: letter.from,
            to: letter.to,
            frame: &self.bytes[begin..end],
        })
    }

    /// The message of a number, from 1, to be delivered.
    pub(crate) fn take(&self, alloc: Global, number: u32) -> Result<Option<Delivery>, OutOfMemory>
        ensures { IfOk result (λ d. IsDelivery d (message_of self.now number)) }
    {
        match self.posted(number) {
            None => Ok(None),
            Some(posted) => match decode(alloc, posted.frame) {
                Ok(message) => Ok(Some(Delivery {
                    from: posted.from,
                    to: posted.to,
                    message,
                })),
                Err(_) => Err(OutOfMemory),
            },
        }
    }

    /// Keeps what a node sends, each message under the next number. What would bring the frames above the limit is not kept.
    ///
    /// # Errors
    /// `SoupFull`, with the sum that would be.
    pub(crate) fn post(&mut self, from: NodeId, sends: &[Outgoing]) -> Result<(), Stop>
        requires { All (λ o. InRange o.message) sends.now }
        ensures ok { OnOk result (self.new ≡ self.old ++ sent_by from sends.now) }
        ensures within { OnOk result (frame_bytes self.old + frame_bytes (sent_by from sends.now) ≤ frame_limit) }
        ensures err { OnErr result (self.new ≡ self.old) }
        ensures full { IfErr result (λ stop. IsFull (frame_bytes self.old + frame_bytes (sent_by from sends.now)) stop) }
    {
        let (bytes, letters) = (self.bytes.len(), self.letters.len());
        let stop = match write_all(&mut self.bytes, &mut self.letters, from, sends) {
            Ok(sum) => {
                if sum <= FRAME_LIMIT {
                    return Ok(());
                }
                Stop::SoupFull(sum)
            }
            Err(OutOfMemory) => Stop::OutOfMemory,
        };
        self.bytes.truncate(bytes);
        self.letters.truncate(letters);
        Err(stop)
    }
}
