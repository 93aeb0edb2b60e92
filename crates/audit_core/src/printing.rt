//! The line of a verdict.
ghost use Rattle.std.specs.Prelude.{◌≡◌, ◌++◌, codes, decimal, OnOk};
ghost use Rattle.audit_core.specs.Audits.{clause_text, verdict_text};

use judge::{Clause, Verdict};
use tcs_terms::OutOfMemory;
use text_words::{put, put_byte, put_number, put_txn};

/// The word of a clause.
fn word_of(clause: Clause) -> &'static str
    ensures { result.now ≡ clause_text clause }
{
    match clause {
        Clause::Agreement => "agreement",
        Clause::Legality => "legality",
        Clause::Clash => "clash",
        Clause::Lost => "lost",
        Clause::Order => "order",
    }
}

/// Appends a number behind a text.
fn put_count(out: &mut Vec<u8>, text: &[u8], count: u32) -> Result<(), OutOfMemory>
    ensures { OnOk result (out.new.items ≡ out.old.items ++ text.now ++ decimal count) }
{
    put(out, text)?;
    put_number(out, u64::from(count))
}

/// Appends the line of a verdict.
pub(crate) fn put_verdict(out: &mut Vec<u8>, verdict: Verdict) -> Result<(), OutOfMemory>
    ensures { OnOk result (out.new.items ≡ out.old.items ++ verdict_text verdict) }
{
    match verdict {
        Verdict::Correct {
            decided,
            committed,
            aborted,
        } => {
            put_count(out, b"correct ", decided)?;
            put_count(out, b" ", committed)?;
            put_count(out, b" ", aborted)?;
            put_byte(out, b'\n')
        }
        Verdict::Incorrect { clause, txn } => {
            put(out, b"incorrect ")?;
            put(out, word_of(clause).as_bytes())?;
            put_byte(out, b' ')?;
            put_txn(out, txn)?;
            put_byte(out, b'\n')
        }
    }
}
