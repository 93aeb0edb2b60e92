//! What is kept under a key.
ghost use Rattle.std.specs.Prelude.{◌≡◌, nat_eq, IfOk, OnOk};
ghost use Rattle.quorum_protocol.specs.Ballots.{same_place, same_knows, no_ballot, get, put, or_else};

use indexmap::IndexMap;
use quorum_protocol::{Accepted, Ballot, Knows, Place};
use std::alloc::Global;
use tcs_terms::{Epoch, OutOfMemory};

/// The same pair again.
pub(crate) fn copy_of(alloc: Global, pair: &Accepted) -> Result<Accepted, OutOfMemory>
    ensures { IfOk result (λ copy. copy ≡ pair.now) }
{
    Ok(Accepted {
        ballot: pair.ballot,
        config: pair.config.copy(alloc)?,
    })
}

/// The ballot that an acceptor promised: below all others before its first promise.
pub(crate) fn promise_at(promises: &IndexMap<Place, Ballot>, place: Place) -> Ballot
    ensures { result ≡ or_else no_ballot (get same_place promises.now.entries place) }
{
    match promises.get(&place) {
        Some(ballot) => *ballot,
        None => Ballot {
            round: 0,
            proposer: 0,
        },
    }
}

#[tactic(auto, using(crate::proofs::Keyed::insert_place))]
pub(crate) fn put_promise(
    promises: &mut IndexMap<Place, Ballot>,
    place: Place,
    ballot: Ballot,
) -> Result<(), OutOfMemory>
    ensures { OnOk result (promises.new.entries ≡ put same_place promises.old.entries place ballot) }
{
    promises.insert(place, ballot)?;
    Ok(())
}

/// The pair that an acceptor accepted last.
pub(crate) fn accepted_at(
    alloc: Global,
    accepted: &IndexMap<Place, Accepted>,
    place: Place,
) -> Result<Option<Accepted>, OutOfMemory>
    ensures { IfOk result (λ pair. pair ≡ get same_place accepted.now.entries place) }
{
    match accepted.get(&place) {
        Some(pair) => Ok(Some(copy_of(alloc, pair)?)),
        None => Ok(None),
    }
}

#[tactic(auto, using(crate::proofs::Keyed::insert_place))]
pub(crate) fn put_accepted(
    accepted: &mut IndexMap<Place, Accepted>,
    place: Place,
    pair: Accepted,
) -> Result<(), OutOfMemory>
    ensures { OnOk result (accepted.new.entries ≡ put same_place accepted.old.entries place pair) }
{
    accepted.insert(place, pair)?;
    Ok(())
}

/// The greatest epoch that a proposer knows of a shard.
pub(crate) fn known_at(known: &IndexMap<Knows, Epoch>, knows: Knows) -> Epoch
    ensures { result ≡ or_else 1 (get same_knows known.now.entries knows) }
{
    match known.get(&knows) {
        Some(epoch) => *epoch,
        None => 1,
    }
}

#[tactic(auto, using(crate::proofs::Keyed::insert_puts))]
pub(crate) fn put_known(
    known: &mut IndexMap<Knows, Epoch>,
    knows: Knows,
    epoch: Epoch,
) -> Result<(), OutOfMemory>
    ensures { OnOk result (known.new.entries ≡ put same_knows known.old.entries knows epoch) }
{
    known.insert(knows, epoch)?;
    Ok(())
}
