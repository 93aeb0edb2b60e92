//! Reads a schedule, line by line.
ghost use Rattle.std.specs.Prelude.{◌≡◌, ◌==◌, nat_lt, OnErr, Ok};
ghost use Rattle.text_words.specs.Words.{words_of, begins, after};
ghost use Rattle.schedule_text.specs.Words.{Gives, Tells};
ghost use Rattle.schedule_text.specs.Events.{verb_of};
ghost use Rattle.schedule_text.specs.Header.{Head};
ghost use Rattle.schedule_text.specs.Schedules.{Progress, at_start, head_item, header_line_at, end_line_at, counted_event_at, verb_line_at, first_verb, event_line_at, line_at, got_before_end, got_after_end, is_ended, line_reading};

use crate::event_lines::event;
use crate::faults::{LineFault, bad};
use crate::header::Header;
use crate::limits::EVENT_LIMIT;
use crate::lines::Got;
use crate::places::Place;
use crate::verbs::{Verb, is_word, verb_of};
use crate::word_readers::end;
use std::alloc::Global;
use std::marker::Model;
use tcs_terms::{Event, Rule, Setup};
use text_words::{Reason, Words};

/// What a line of a schedule is.
#[derive(Debug, Drop)]
pub enum LineItem {
    /// A line of the header, but not its last.
    Header,
    /// The line `events`, with which the setup is whole.
    Begun(Setup),
    Event(Event),
    /// The line `end`; and, when nothing follows it, the end of the input.
    End,
}

/// Reads a schedule, line by line. Seen as where it stands: the place in the text, the setup or its parts so far, and
/// how many events it has read.
#[derive(Debug, Drop)]
pub struct LineReader {
    alloc: Global,
    head: Header,
    count: u32,
}

impl Model for LineReader {
    ghost use Rattle.schedule_text.specs.Schedules.{Progress};

    ghost Value = { Progress };

    ghost view = { λ r. record { head = r.head; count = r.count } };
}

/// The kind of event that the next word names.
pub(crate) fn first_verb(words: &Words) -> Option<Verb>
    ensures { result ≡ first_verb words.now }
{
    match words.next() {
        Some(word) => verb_of(word),
        None => None,
    }
}

impl LineReader {
    /// Waits for the first line.
    pub fn new(alloc: Global) -> LineReader
        ensures { result ≡ at_start }
    {
        LineReader {
            alloc,
            head: Header::new(alloc),
            count: 0,
        }
    }

    /// The rule that the header names; before its second line was taken, `Serial`.
    pub fn rule(&self) -> Rule
        ensures { result ≡ self.now.head.setup.rule }
    {
        self.head.rule
    }

    /// Takes what the reader of lines found next: a line without its line feed, or the end of the input.
    ///
    /// # Errors
    /// `Bad` where the line may not stand there, with the reason of its first word that does not fit; `OutOfMemory`
    /// where an event or the setup did not get its memory. Then it is not called again.
    pub fn take(&mut self, got: Got, line: &[u8]) -> Result<LineItem, LineFault>
        ensures { Tells (λ i. i) result self.new (line_reading self.old got line.now) }
    {
        if matches!(self.head.place, Place::Ended) {
            return self.after_end(got);
        }
        match got {
            Got::Whole => self.take_line(&mut Words::of(line)),
            Got::Long => bad(Reason::Long),
            Got::Cut => bad(Reason::Missing),
            Got::Nothing => bad(Reason::Missing),
        }
    }

    fn after_end(&self, got: Got) -> Result<LineItem, LineFault>
        ensures { Tells (λ i. i) result self.now (got_after_end self.now got) }
    {
        match got {
            Got::Nothing => Ok(LineItem::End),
            Got::Whole => bad(Reason::Extra),
            Got::Cut => bad(Reason::Extra),
            Got::Long => bad(Reason::Extra),
        }
    }

    fn take_line(&mut self, words: &mut Words) -> Result<LineItem, LineFault>
        ensures { Tells (λ i. i) result self.new (line_at self.old self.old.head.place words.old) }
    {
        match self.head.place {
            Place::Version => self.take_header(words),
            Place::Certifier => self.take_header(words),
            Place::Shards => self.take_header(words),
            Place::Parts => self.take_header(words),
            Place::Events => self.take_event_line(words),
            Place::Ended => bad(Reason::Extra),
        }
    }

    #[tactic(auto, unfolding(crate::specs::Schedules::header_line_at))]
    fn take_header(&mut self, words: &mut Words) -> Result<LineItem, LineFault>
        ensures { Tells (λ i. i) result self.new (header_line_at self.old words.old) }
    {
        match self.head.take(None, words)? {
            Some(setup) => Ok(LineItem::Begun(setup)),
            None => Ok(LineItem::Header),
        }
    }

    #[tactic(auto, unfolding(crate::specs::Schedules::event_line_at))]
    fn take_event_line(&mut self, words: &mut Words) -> Result<LineItem, LineFault>
        ensures { Tells (λ i. i) result self.new (event_line_at self.old words.old) }
    {
        let Some(word) = words.take() else {
            return bad(Reason::Word);
        };
        if is_word(word, b"end") {
            return self.take_end(words);
        }
        match verb_of(word) {
            Some(verb) => self.take_event(verb, words),
            None => bad(Reason::Word),
        }
    }

    /// Behind the word `end` nothing stands in its line.
    #[tactic(auto, unfolding(crate::specs::Schedules::end_line_at))]
    fn take_end(&mut self, words: &mut Words) -> Result<LineItem, LineFault>
        ensures { Tells (λ i. i) result self.new (end_line_at self.old words.old) }
    {
        end(words)?;
        self.head.place = Place::Ended;
        Ok(LineItem::End)
    }

    #[tactic(auto, unfolding(crate::specs::Schedules::counted_event_at))]
    fn take_event(&mut self, verb: Verb, words: &mut Words) -> Result<LineItem, LineFault>
        ensures { Tells (λ i. i) result self.new (counted_event_at self.old verb words.old) }
    {
        if self.count >= EVENT_LIMIT {
            return bad(Reason::Many);
        }
        let event = event(self.alloc, None, &self.head, verb, words)?;
        self.count += 1;
        Ok(LineItem::Event(event))
    }
}
