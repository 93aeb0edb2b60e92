//! Which lines of a trace may stand behind which.
ghost use Rattle.std.specs.Prelude.{◌≡◌};
ghost use Rattle.trace_text.specs.Stages.{form_of, allows};

/// Behind which lines a reader stands.
#[derive(Clone, Copy, Debug, PartialEq, Eq)]
pub enum Stage {
    /// Behind no line.
    Start,
    /// Behind the first line.
    Begun,
    /// Behind the line of an event, or one of its notes.
    Event,
    /// Behind a message.
    Messages,
    /// Behind the order.
    Ordered,
    /// Behind the last line.
    Ended,
}

/// The form of a line.
#[derive(Clone, Copy, Debug, PartialEq, Eq)]
pub enum LineForm {
    Head,
    Event,
    Note,
    Message,
    Order,
    End,
}

impl LineForm {
    /// The form of a line by its first word. A word that opens no other line opens a note.
    pub(crate) fn of(word: &[u8]) -> LineForm
        ensures { result ≡ form_of word.now }
    {
        if word == b"trace".as_slice() {
            LineForm::Head
        } else if word == b"e".as_slice() {
            LineForm::Event
        } else if word == b"m".as_slice() {
            LineForm::Message
        } else if word == b"order".as_slice() {
            LineForm::Order
        } else if word == b"end".as_slice() {
            LineForm::End
        } else {
            LineForm::Note
        }
    }
}

impl Stage {
    /// Whether a line of this form may come next.
    pub(crate) fn allows(self, form: LineForm) -> bool
        ensures { result ≡ allows self form }
    {
        use LineForm::{End, Event, Head, Message, Note, Order};
        match self {
            Stage::Start => matches!(form, Head),
            Stage::Begun => matches!(form, Event | Order),
            Stage::Event => matches!(form, Event | Note | Message | Order),
            Stage::Messages => matches!(form, Event | Message | Order),
            Stage::Ordered => matches!(form, End),
            Stage::Ended => false,
        }
    }
}
