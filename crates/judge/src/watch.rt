//! A history is gone through note by note.
ghost use Rattle.std.specs.Prelude.{◌≡◌, ◌≤◌, ◌++◌, [], ◌∷◌, ℕ, Bool, List, IsTrue, IfOk};
ghost use Rattle.tcs_terms.specs.declared.inputs.Note.{Note};
ghost use Rattle.tcs_terms.specs.declared.limits.TheConstants.{MAX_SHARDS};
ghost use Rattle.judge.specs.Verdicts.{first_decision, decided_in};

use std::alloc::Global;
use tcs_terms::{Note, OutOfMemory, TxId};

/// Takes a history note by note, and tells of each whether it passes a test against the notes before it.
pub trait Watch: Drop {
    ghost test: { ℕ → List Note → Note → Bool };

    ghost StandsFor: { Self → List Note → Type 0 };

    /// One that stands for no notes, and takes its memory from `alloc`.
    fn fresh(alloc: Global) -> Self
        ensures { StandsFor result [] };

    /// Whether the next note passes, by the number of shards. It stands for the note too then.
    fn take(&mut self, alloc: Global, shards: u8, note: &Note) -> Result<bool, OutOfMemory>
        requires some { 1 ≤ shards }
        requires few { shards ≤ MAX_SHARDS }
        ensures passes { IfOk result (λ b. (past : List Note) → StandsFor self.old past → b ≡ test shards past note.now) }
        ensures stands { IfOk result (λ b. IsTrue b → (past : List Note) → StandsFor self.old past
            → StandsFor self.new (past ++ note.now ∷ [])) };
}

/// The transaction that a note decides, if it decides one.
pub fn decided_in(note: &Note) -> Option<TxId>
    ensures { result ≡ decided_in note.now }
{
    match note {
        Note::Begin { .. } | Note::Take { .. } | Note::ReadValue { .. } => None,
        Note::Decide { txn, .. } => Some(*txn),
    }
}

/// The transaction of the first decision that does not pass.
pub fn first_decision<W: Watch>(
    alloc: Global,
    history: &[Note],
    shards: u8,
) -> Result<Option<TxId>, OutOfMemory>
    requires some { 1 ≤ shards }
    requires few { shards ≤ MAX_SHARDS }
    ensures { IfOk result (λ txn. txn ≡ first_decision (W.test shards) history.now) }
{
    let mut watch = W::fresh(alloc);
    for note in history {
        let passes = watch.take(alloc, shards, note)?;
        if !passes {
            return Ok(decided_in(note));
        }
    }
    Ok(None)
}
