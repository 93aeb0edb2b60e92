//! The laws of the spelling of messages.
ghost use Rattle.std.specs.Prelude.{◌≡◌, List, ℕ, [], ◌++◌, Result, Ok};
ghost use Rattle.tcs_terms.specs.declared.messages.Message.{Message};
ghost use Rattle.tcs_terms.specs.Messages.{InRange};
ghost use Rattle.wire_frame.specs.declared.faults.DecodeFault.{DecodeFault};
ghost use Rattle.wire_frame.specs.Spelling.{spell};
ghost use Rattle.wire_frame.specs.Frames.{read_frame, Decodes, IsMemoryOr};

/// No two messages in range have one spelling.
pub fn one_spelling()
    ensures { (m n : Message) → InRange m → InRange n → spell m ≡ spell n → m ≡ n }
{}

/// No spelling begins another: what continues the spelling of a message spells a message only where nothing was
/// added.
pub fn begins_no_other()
    ensures { (m n : Message) (more : List ℕ) → InRange m → InRange n → spell m ++ more ≡ spell n → more ≡ [] }
{}

/// Decoding an encoded message gives it back: whatever decoding comes to for the spelling of a message in range is that
/// message, unless memory ran out.
pub fn gives_back()
    ensures read { (m : Message) → InRange m → read_frame (spell m) ≡ Ok m }
    ensures decoded { (m : Message) (r : Result Message DecodeFault) → InRange m → Decodes (spell m) r → IsMemoryOr m r }
{}
