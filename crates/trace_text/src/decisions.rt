//! The words of decisions.
ghost use Rattle.std.specs.Prelude.{◌≡◌};
ghost use Rattle.trace_text.specs.Readings.{clash_in, cause_in, abort_in, decision_in};

use crate::spans::Span;
use crate::words::{cut, number_within, txn_in};
use tcs_terms::{Cause, Decision, ShardId};

/// A cause that names a transaction.
#[tactic(auto, unfolding(crate::specs::Readings::clash_in))]
fn clash_in(text: &[u8]) -> Option<Cause>
    ensures { result ≡ clash_in text.now }
{
    let (word, txn) = cut(text, b' ')?;
    let txn = txn_in(txn)?;
    if word == b"clash".as_slice() {
        Some(Cause::Clash(txn))
    } else {
        None
    }
}

/// The cause that a text writes.
#[tactic(auto, unfolding(crate::specs::Readings::cause_in))]
fn cause_in(text: &[u8]) -> Option<Cause>
    ensures { result ≡ cause_in text.now }
{
    if text == b"lost".as_slice() {
        Some(Cause::Lost)
    } else {
        clash_in(text)
    }
}

/// A decision to abort that names one of so many shards.
#[tactic(auto, unfolding(crate::specs::Readings::abort_in))]
fn abort_in(text: &[u8], shards: u8) -> Option<Decision>
    ensures { result ≡ abort_in shards text.now }
{
    let (word, rest) = cut(text, b' ')?;
    let (shard, cause) = cut(rest, b' ')?;
    let shards = Span {
        low: 1,
        high: u64::from(shards),
    };
    let shard = number_within(shard, shards)? as ShardId;
    let cause = cause_in(cause)?;
    if word == b"abort".as_slice() {
        Some(Decision::Abort { shard, cause })
    } else {
        None
    }
}

/// The decision that a text writes, in a trace of so many shards.
#[tactic(auto, unfolding(crate::specs::Readings::decision_in))]
pub(crate) fn decision_in(text: &[u8], shards: u8) -> Option<Decision>
    ensures { result ≡ decision_in shards text.now }
{
    if text == b"commit".as_slice() {
        Some(Decision::Commit)
    } else {
        abort_in(text, shards)
    }
}
