//! Legality: each committed transaction passes the committed test against all before it in the order of commits.
ghost use Rattle.std.specs.Prelude.{◌≡◌, List, IsTrue, IfOk};
ghost use Rattle.std.specs.Option.{option_copied};
ghost use Rattle.tcs_terms.specs.Payloads.{Accesses};
ghost use Rattle.protocol.specs.CorrectHistory.{passes_after};
ghost use Rattle.protocol.specs.History.{order_of};
ghost use Rattle.judge.specs.Newest.{AreNewest, with_payload};
ghost use Rattle.judge.specs.Verdicts.{first_illegal};

use crate::newest::{Newest, put, refuses};
use crate::payloads::payloads_of;
use std::alloc::Global;
use std::collections::BTreeMap;
use tcs_laws::BySight;
use tcs_terms::{Note, OutOfMemory, Payload, TxId};

/// Whether a payload is there and passes against the committed ones. It joins them then.
fn join<C: BySight>(
    alloc: Global,
    newest: &mut Newest,
    payload: Option<&Payload>,
) -> Result<bool, OutOfMemory>
    ensures passes { IfOk result (λ b. (olds : List Accesses) → AreNewest newest.old olds → b ≡ passes_after C.tests olds (option_copied payload.entry)) }
    ensures stands { IfOk result (λ b. IsTrue b → (olds : List Accesses) → AreNewest newest.old olds
        → AreNewest newest.new (with_payload olds (option_copied payload.entry))) }
{
    match payload {
        None => Ok(false),
        Some(payload) => {
            if refuses::<C>(newest, payload) {
                return Ok(false);
            }
            put(alloc, newest, payload)?;
            Ok(true)
        }
    }
}

/// The transaction at the first place in the order of commits that is refused against those before it.
pub fn first_illegal<C: BySight>(
    alloc: Global,
    history: &[Note],
    order: &[TxId],
) -> Result<Option<TxId>, OutOfMemory>
    requires { order.now ≡ order_of history.now }
    ensures { IfOk result (λ txn. txn ≡ first_illegal C.tests history.now) }
{
    let payloads = payloads_of(alloc, history)?;
    let mut newest = BTreeMap::new(alloc);
    for txn in order {
        let passes = join::<C>(alloc, &mut newest, payloads.get(txn))?;
        if !passes {
            return Ok(Some(*txn));
        }
    }
    Ok(None)
}
