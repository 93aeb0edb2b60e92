//! Behind which lines a reader stands.
ghost use Rattle.std.specs.Prelude.{◌≡◌};
ghost use Rattle.backup_text.specs.Lines.{in_span, has_place};
ghost use Rattle.backup_text.specs.Readings.{is_start, is_begun, is_at_place};

use backup_machine::in_range;
use tcs_terms::Name;

/// How far a file was read.
#[derive(Clone, Copy, Debug, PartialEq, Eq)]
pub enum Stage {
    /// No line.
    Start,
    /// The first line, and maybe calls.
    Begun,
    /// The place in the order, and maybe objects.
    AtPlace,
    /// A dash for the place.
    NoPlace,
    /// The last line.
    Ended,
}

impl Stage {
    pub(crate) fn is_start(self) -> bool
        ensures { result ≡ is_start self }
    {
        matches!(self, Stage::Start)
    }

    pub(crate) fn is_begun(self) -> bool
        ensures { result ≡ is_begun self }
    {
        matches!(self, Stage::Begun)
    }

    pub(crate) fn is_at_place(self) -> bool
        ensures { result ≡ is_at_place self }
    {
        matches!(self, Stage::AtPlace)
    }

    /// Whether the end may come.
    pub(crate) fn has_place(self) -> bool
        ensures { result ≡ has_place self }
    {
        matches!(self, Stage::AtPlace | Stage::NoPlace)
    }
}

/// The range of a backup: from the first name on, and below the second.
#[derive(Debug, Drop)]
pub struct Span {
    pub from: Name,
    pub upto: Name,
}

/// Whether a name is one of the range that was read.
pub(crate) fn in_span(span: &Option<Span>, name: &Name) -> bool
    ensures { result ≡ in_span span.now name.now }
{
    match span {
        None => false,
        Some(span) => in_range(&span.from, &span.upto, name),
    }
}
