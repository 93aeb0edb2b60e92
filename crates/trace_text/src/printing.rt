//! The parts of a trace's text, each appended to a buffer.
ghost use Rattle.std.specs.Prelude.{◌≡◌, ◌++◌, codes, decimal, OnOk, OnErr};
ghost use Rattle.std.specs.List.{flat_map};
ghost use Rattle.tcs_terms.specs.Appends.{Begins};
ghost use Rattle.text_words.specs.Texts.{txn_text};
ghost use Rattle.trace_text.specs.Texts.{handled_text, cause_text, decision_text, order_text};

use tcs_terms::{Cause, Decision, Handled, OutOfMemory, TxId};
use text_words::{put, put_byte, put_number, put_txn};

pub(crate) fn put_handled(out: &mut Vec<u8>, handled: Handled) -> Result<(), OutOfMemory>
    ensures ok { OnOk result (out.new.items ≡ out.old.items ++ handled_text handled) }
    ensures err { OnErr result (Begins out.old.items out.new.items) }
{
    match handled {
        Handled::Acted => put(out, b"acted"),
        Handled::Stale(mark) => {
            put(out, b"stale ")?;
            put_number(out, u64::from(mark))
        }
        Handled::Held(mark) => {
            put(out, b"held ")?;
            put_number(out, u64::from(mark))
        }
        Handled::Full => put(out, b"full"),
    }
}

fn put_cause(out: &mut Vec<u8>, cause: Cause) -> Result<(), OutOfMemory>
    ensures ok { OnOk result (out.new.items ≡ out.old.items ++ cause_text cause) }
    ensures err { OnErr result (Begins out.old.items out.new.items) }
{
    match cause {
        Cause::Clash(txn) => {
            put(out, b"clash ")?;
            put_txn(out, txn)
        }
        Cause::Lost => put(out, b"lost"),
    }
}

pub(crate) fn put_decision(out: &mut Vec<u8>, decision: Decision) -> Result<(), OutOfMemory>
    ensures ok { OnOk result (out.new.items ≡ out.old.items ++ decision_text decision) }
    ensures err { OnErr result (Begins out.old.items out.new.items) }
{
    match decision {
        Decision::Commit => put(out, b"commit"),
        Decision::Abort { shard, cause } => {
            put(out, b"abort ")?;
            put_number(out, u64::from(shard))?;
            put_byte(out, b' ')?;
            put_cause(out, cause)
        }
    }
}

/// A space and a number.
pub(crate) fn put_field(out: &mut Vec<u8>, number: u64) -> Result<(), OutOfMemory>
    ensures ok { OnOk result (out.new.items ≡ out.old.items ++ (codes " " ++ decimal number)) }
    ensures err { OnErr result (Begins out.old.items out.new.items) }
{
    put_byte(out, b' ')?;
    put_number(out, number)
}

/// A space and a transaction.
fn put_next(out: &mut Vec<u8>, txn: TxId) -> Result<(), OutOfMemory>
    ensures ok { OnOk result (out.new.items ≡ out.old.items ++ (codes " " ++ txn_text txn)) }
    ensures err { OnErr result (Begins out.old.items out.new.items) }
{
    put_byte(out, b' ')?;
    put_txn(out, txn)
}

fn put_more(out: &mut Vec<u8>, order: &[TxId]) -> Result<(), OutOfMemory>
    ensures ok { OnOk result (out.new.items ≡ out.old.items ++ flat_map (λ txn. codes " " ++ txn_text txn) order.now) }
    ensures err { OnErr result (Begins out.old.items out.new.items) }
{
    for txn in order {
        put_next(out, *txn)?;
    }
    Ok(())
}

pub(crate) fn put_order(out: &mut Vec<u8>, order: &[TxId]) -> Result<(), OutOfMemory>
    ensures ok { OnOk result (out.new.items ≡ out.old.items ++ order_text order.now) }
    ensures err { OnErr result (Begins out.old.items out.new.items) }
{
    match order {
        [] => put_byte(out, b'-'),
        [first, others @ ..] => {
            put_txn(out, *first)?;
            put_more(out, others)
        }
    }
}
