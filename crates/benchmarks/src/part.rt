//! What can be timed.

/// A part of the service, and what of it is timed.
#[derive(Clone, Copy, Debug, PartialEq, Eq)]
pub enum Part {
    /// Copies of payloads, and their parts in a shard.
    Terms,
    /// `decode` and `encode` of frames, which are read from standard input.
    Frames,
    /// Votes over a log of committed rows, by scan and by index.
    Votes,
    /// The lines of a schedule from standard input.
    Lines,
    /// The lines of a trace from standard input.
    Traces,
    /// The steps of the run of a schedule from standard input.
    Steps,
}

const ALL: [Part; 6] = [
    Part::Terms,
    Part::Frames,
    Part::Votes,
    Part::Lines,
    Part::Traces,
    Part::Steps,
];

impl Part {
    /// The part that a word names.
    pub fn named(word: &str) -> Option<Part> {
        for part in ALL {
            if part.word() == word {
                return Some(part);
            }
        }
        None
    }

    fn word(self) -> &'static str {
        match self {
            Part::Terms => "terms",
            Part::Frames => "frames",
            Part::Votes => "votes",
            Part::Lines => "lines",
            Part::Traces => "traces",
            Part::Steps => "steps",
        }
    }
}
