//! The lines of a run, each appended to a buffer.
ghost use Rattle.std.specs.Prelude.{◌≡◌, ◌≤◌, ◌+◌, ◌<◌, ◌^◌, ◌++◌, ◌∷◌, [], codes, decimal, length, OnOk};
ghost use Rattle.schedule_text.specs.Text.{spaced_number, numbers_text, with_feed};
ghost use Rattle.quorum_config.specs.Texts.{outcome_text, config_words, say_text, pair_words, rest_words, result_line, stored_line, about_words, ends_words, message_line, message_lines, stored_text, head_text, end_text};

use quorum_protocol::{Accepted, Message, Outcome, Say, Stored};
use tcs_terms::{Config, NodeId, OutOfMemory};
use text_words::{put, put_number};

/// A space and the digit of a number of one digit.
#[tactic(auto, using(crate::proofs::Digits::one_digit))]
fn put_digit(out: &mut Vec<u8>, number: u64) -> Result<(), OutOfMemory>
    requires { number < 10 }
    ensures { OnOk result (out.new.items ≡ out.old.items ++ spaced_number number) }
{
    put(out, &[b' ', b'0' + number as u8])
}

/// A space and the digits of a number of two digits.
#[tactic(auto, using(crate::proofs::Digits::two_digits))]
fn put_digits(out: &mut Vec<u8>, number: u64) -> Result<(), OutOfMemory>
    requires more { 10 ≤ number }
    requires fewer { number < 100 }
    ensures { OnOk result (out.new.items ≡ out.old.items ++ spaced_number number) }
{
    put(
        out,
        &[b' ', b'0' + (number / 10) as u8, b'0' + (number % 10) as u8],
    )
}

/// A space and a number of more digits. It stands alone, so that the short numbers don't pay for its buffer.
#[inline(never)]
fn put_long(out: &mut Vec<u8>, number: u64) -> Result<(), OutOfMemory>
    ensures { OnOk result (out.new.items ≡ out.old.items ++ spaced_number number) }
{
    put(out, b" ")?;
    put_number(out, number)
}

/// A space and a number. Most numbers of a run have one digit or two, and are appended at once.
fn put_field(out: &mut Vec<u8>, number: u64) -> Result<(), OutOfMemory>
    ensures { OnOk result (out.new.items ≡ out.old.items ++ spaced_number number) }
{
    if number < 10 {
        return put_digit(out, number);
    }
    if number < 100 {
        return put_digits(out, number);
    }
    put_long(out, number)
}

fn put_outcome(out: &mut Vec<u8>, outcome: Outcome) -> Result<(), OutOfMemory>
    ensures { OnOk result (out.new.items ≡ out.old.items ++ outcome_text outcome) }
{
    match outcome {
        Outcome::Acted => put(out, b"acted"),
        Outcome::Held(mark) => {
            put(out, b"held")?;
            put_field(out, u64::from(mark))
        }
        Outcome::Stale(round) => {
            put(out, b"stale")?;
            put_field(out, u64::from(round))
        }
        Outcome::Gone => put(out, b"gone"),
        Outcome::Unsent => put(out, b"unsent"),
    }
}

fn put_numbers(out: &mut Vec<u8>, numbers: &[NodeId]) -> Result<(), OutOfMemory>
    ensures { OnOk result (out.new.items ≡ out.old.items ++ numbers_text numbers.now) }
{
    'numbers: for number in numbers {
        put_field(out, u64::from(*number))?;
    }
    Ok(())
}

/// The leader, the proposer, the members.
fn put_config(out: &mut Vec<u8>, config: &Config) -> Result<(), OutOfMemory>
    ensures { OnOk result (out.new.items ≡ out.old.items ++ config_words config.now) }
{
    put_field(out, u64::from(config.leader()))?;
    put_field(out, u64::from(config.by()))?;
    put_numbers(out, config.members())
}

fn put_say(out: &mut Vec<u8>, say: &Say) -> Result<(), OutOfMemory>
    ensures { OnOk result (out.new.items ≡ out.old.items ++ say_text say.now) }
{
    match say {
        Say::Ask => put(out, b"ASK"),
        Say::Told(_) => put(out, b"TOLD"),
        Say::Put(_) => put(out, b"PUT"),
        Say::Kept => put(out, b"KEPT"),
    }
}

fn put_pair(out: &mut Vec<u8>, pair: &Option<Accepted>) -> Result<(), OutOfMemory>
    ensures { OnOk result (out.new.items ≡ out.old.items ++ pair_words pair.now) }
{
    match pair {
        None => put(out, b" none"),
        Some(pair) => {
            put_field(out, u64::from(pair.ballot.round))?;
            put_field(out, u64::from(pair.ballot.proposer))?;
            put_config(out, &pair.config)
        }
    }
}

/// What follows the shard and the epoch of a message.
fn put_rest(out: &mut Vec<u8>, say: &Say) -> Result<(), OutOfMemory>
    ensures { OnOk result (out.new.items ≡ out.old.items ++ rest_words say.now) }
{
    match say {
        Say::Ask => Ok(()),
        Say::Told(pair) => put_pair(out, pair),
        Say::Put(config) => put_config(out, config),
        Say::Kept => Ok(()),
    }
}

/// The ballot of a message, its shard and its epoch.
fn put_about(out: &mut Vec<u8>, m: &Message) -> Result<(), OutOfMemory>
    ensures { OnOk result (out.new.items ≡ out.old.items ++ about_words m.now) }
{
    put_field(out, u64::from(m.ballot.round))?;
    put_field(out, u64::from(m.ballot.proposer))?;
    put_field(out, u64::from(m.shard))?;
    put_field(out, u64::from(m.epoch))
}

/// The number of a message, and its ends.
fn put_ends(out: &mut Vec<u8>, number: u64, m: &Message) -> Result<(), OutOfMemory>
    ensures { OnOk result (out.new.items ≡ out.old.items ++ ends_words number m.now) }
{
    put_field(out, number)?;
    put_field(out, u64::from(m.from))?;
    put_field(out, u64::from(m.to))
}

fn put_message(out: &mut Vec<u8>, number: u64, m: &Message) -> Result<(), OutOfMemory>
    ensures { OnOk result (out.new.items ≡ out.old.items ++ with_feed (message_line number m.now)) }
{
    put(out, b"q")?;
    put_ends(out, number, m)?;
    put(out, b" ")?;
    put_say(out, &m.say)?;
    put_about(out, m)?;
    put_rest(out, &m.say)?;
    put(out, b"\n")
}

/// The lines of messages, of which the first has this number.
pub(crate) fn put_messages(
    out: &mut Vec<u8>,
    first: u64,
    messages: &[Message],
) -> Result<(), OutOfMemory>
    requires { first + length messages.now < 2 ^ 64 }
    ensures { OnOk result (out.new.items ≡ out.old.items ++ message_lines first messages.now) }
{
    let mut number = first;
    'messages: for m in messages {
        put_message(out, number, m)?;
        number += 1;
    }
    Ok(())
}

/// The line of an event's result.
pub(crate) fn put_result(out: &mut Vec<u8>, event: u32, outcome: Outcome) -> Result<(), OutOfMemory>
    ensures { OnOk result (out.new.items ≡ out.old.items ++ with_feed (result_line event outcome)) }
{
    put(out, b"e")?;
    put_field(out, u64::from(event))?;
    put(out, b" ")?;
    put_outcome(out, outcome)?;
    put(out, b"\n")
}

/// The line of what a proposer learned, if it learned anything.
pub(crate) fn put_stored(out: &mut Vec<u8>, stored: &Option<Stored>) -> Result<(), OutOfMemory>
    ensures { OnOk result (out.new.items ≡ out.old.items ++ stored_text stored.now) }
{
    match stored {
        None => Ok(()),
        Some(note) => {
            put(out, b"stored")?;
            put_field(out, u64::from(note.proposer))?;
            put_field(out, u64::from(note.config.shard()))?;
            put_field(out, u64::from(note.config.epoch()))?;
            put_config(out, &note.config)?;
            put(out, b"\n")
        }
    }
}

/// The first line.
pub(crate) fn put_head(out: &mut Vec<u8>, acceptors: u8) -> Result<(), OutOfMemory>
    ensures { OnOk result (out.new.items ≡ out.old.items ++ head_text acceptors) }
{
    put(out, b"quorum 1")?;
    put_field(out, u64::from(acceptors))?;
    put(out, b"\n")
}

/// The last line.
pub(crate) fn put_end(out: &mut Vec<u8>, events: u32, messages: usize) -> Result<(), OutOfMemory>
    ensures { OnOk result (out.new.items ≡ out.old.items ++ end_text events messages) }
{
    put(out, b"end")?;
    put_field(out, u64::from(events))?;
    put_field(out, messages as u64)?;
    put(out, b"\n")
}
