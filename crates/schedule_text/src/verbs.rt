//! The first words of the lines of events.
ghost use Rattle.std.specs.Prelude.{◌≡◌};
ghost use Rattle.tcs_terms.specs.Payloads.{same_name};
ghost use Rattle.schedule_text.specs.Events.{call_verb, verb_of};

/// A call of a client at a node.
#[derive(Clone, Copy, Debug, PartialEq, Eq)]
pub enum CallVerb {
    Certify,
    Take,
    Nudge,
    Move,
    Lower,
    Read,
    Ask,
}

/// A kind of event.
#[derive(Clone, Copy, Debug, PartialEq, Eq)]
pub enum Verb {
    Call(CallVerb),
    Deliver,
    Stop,
}

/// Whether two words are one.
pub(crate) fn is_word(word: &[u8], other: &[u8]) -> bool
    ensures { result ≡ same_name word.now other.now }
{
    word == other
}

fn call_verb(word: &[u8]) -> Option<CallVerb>
    ensures { result ≡ call_verb word.now }
{
    if is_word(word, b"certify") {
        Some(CallVerb::Certify)
    } else if is_word(word, b"take") {
        Some(CallVerb::Take)
    } else if is_word(word, b"nudge") {
        Some(CallVerb::Nudge)
    } else if is_word(word, b"move") {
        Some(CallVerb::Move)
    } else if is_word(word, b"lower") {
        Some(CallVerb::Lower)
    } else if is_word(word, b"read") {
        Some(CallVerb::Read)
    } else if is_word(word, b"ask") {
        Some(CallVerb::Ask)
    } else {
        None
    }
}

/// The kind of event that a word names.
pub fn verb_of(word: &[u8]) -> Option<Verb>
    ensures { result ≡ verb_of word.now }
{
    if is_word(word, b"deliver") {
        return Some(Verb::Deliver);
    }
    if is_word(word, b"stop") {
        return Some(Verb::Stop);
    }
    match call_verb(word) {
        Some(call) => Some(Verb::Call(call)),
        None => None,
    }
}
