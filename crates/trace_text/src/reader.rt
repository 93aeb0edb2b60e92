//! Reads a trace line by line.
ghost use Rattle.std.specs.Prelude.{◌≡◌, ℕ, List, IfOk, OnErr};
ghost use Rattle.std.specs.Option.{option_map};
ghost use Rattle.trace_text.specs.Lines.{Line, line_text, IsStanding, MayStand, at_start};
ghost use Rattle.trace_text.specs.Stages.{form_of};
ghost use Rattle.trace_text.specs.Readings.{note_of, head_of, event_of, ends_of, message_of, order_of, end_of, line_as, line_of, line_in, Takes, Answers, Accepts, IsMemoryOr};

use crate::frames::frame_in;
use crate::items::{TraceFault, TraceItem, TxList};
use crate::notes::note_in;
use crate::results::result_in;
use crate::spans::{ENDS, SHARDS, VERSIONS};
use crate::stages::{LineForm, Stage};
use crate::words::{cut, next_number, number_within, order_in};
use std::alloc::Global;
use std::marker::Model;
use tcs_terms::{OutOfMemory, Rule};
use text_words::read_number;

/// Reads a trace line by line. Seen as where it stands.
#[derive(Debug, Drop)]
pub struct TraceReader {
    stage: Stage,
    version: u8,
    shards: u8,
    events: u64,
    messages: u64,
}

impl Model for TraceReader {
    ghost use Rattle.trace_text.specs.Lines.{Standing, IsStanding};

    ghost Value = { Standing };

    ghost view = { λ r. record { stage = r.stage; version = r.version; shards = r.shards; events = r.events; messages = r.messages } };

    ghost invariant = { λ r. IsStanding (record { stage = r.stage; version = r.version; shards = r.shards; events = r.events; messages = r.messages }) };
}

impl TraceReader {
    /// It has taken no line yet.
    pub fn new() -> TraceReader
        ensures { result ≡ at_start }
    {
        TraceReader {
            stage: Stage::Start,
            version: 1,
            shards: 0,
            events: 0,
            messages: 0,
        }
    }

    /// Takes the next line, without its line feed. An `Err` leaves the reader as it was.
    ///
    /// # Errors
    /// `Bad` exactly where the line is none that may stand behind the lines so far.
    pub fn take(&mut self, alloc: Global, line: &[u8]) -> Result<TraceItem, TraceFault>
        // What is taken is a line that may stand there, and the item is its.
        ensures found { IfOk result (Accepts self.old line.now self.new) }
        // A line that may stand there is taken, unless memory runs out.
        ensures only { (wanted : Line) → MayStand self.old wanted → line.now ≡ line_text wanted → IsMemoryOr self.old wanted self.new result }
        // Which line it is.
        ensures exact { Answers self.old self.new result (line_in self.old line.now) }
        ensures err { OnErr result (self.new ≡ self.old) }
    {
        self.answer(alloc, line)
    }

    fn stage(&self) -> Stage
        ensures stage { result ≡ self.now.stage }
        ensures standing { IsStanding self.now }
    {
        self.stage
    }

    fn answer(&mut self, alloc: Global, line: &[u8]) -> Result<TraceItem, TraceFault>
        ensures exact { Answers self.old self.new result (line_in self.old line.now) }
        ensures err { OnErr result (self.new ≡ self.old) }
        ensures standing { IsStanding self.old }
    {
        let stage = self.stage();
        match self.take_line(alloc, stage, line) {
            Ok(Some(item)) => Ok(item),
            Ok(None) => Err(TraceFault::Bad),
            Err(OutOfMemory) => Err(TraceFault::OutOfMemory),
        }
    }

    #[tactic(auto, unfolding(crate::specs::Readings::line_in))]
    fn take_line(
        &mut self,
        alloc: Global,
        stage: Stage,
        line: &[u8],
    ) -> Result<Option<TraceItem>, OutOfMemory>
        requires { stage ≡ self.old.stage }
        ensures item { IfOk result (λ item. Takes self.old self.new item (line_in self.old line.now)) }
        ensures err { OnErr result (self.new ≡ self.old) }
    {
        match cut(line, b' ') {
            Some((word, text)) => self.take_words(alloc, stage, word, text),
            None => Ok(None),
        }
    }

    #[tactic(auto, unfolding(crate::specs::Readings::line_of))]
    fn take_words(
        &mut self,
        alloc: Global,
        stage: Stage,
        word: &[u8],
        text: &[u8],
    ) -> Result<Option<TraceItem>, OutOfMemory>
        requires { stage ≡ self.old.stage }
        ensures item { IfOk result (λ item. Takes self.old self.new item (line_of self.old word.now text.now)) }
        ensures err { OnErr result (self.new ≡ self.old) }
    {
        let form = LineForm::of(word);
        if stage.allows(form) {
            self.take_form(alloc, form, word, text)
        } else {
            Ok(None)
        }
    }

    fn take_form(
        &mut self,
        alloc: Global,
        form: LineForm,
        word: &[u8],
        text: &[u8],
    ) -> Result<Option<TraceItem>, OutOfMemory>
        ensures item { IfOk result (λ item. Takes self.old self.new item (line_as form self.old word.now text.now)) }
        ensures err { OnErr result (self.new ≡ self.old) }
    {
        match form {
            LineForm::Head => Ok(self.take_head(text)),
            LineForm::Event => Ok(self.take_event(text)),
            LineForm::Note => self.take_note(alloc, word, text),
            LineForm::Message => self.take_message(alloc, text),
            LineForm::Order => self.take_order(alloc, text),
            LineForm::End => Ok(self.take_end(text)),
        }
    }

    #[tactic(auto, unfolding(crate::specs::Readings::head_of))]
    fn take_head(&mut self, text: &[u8]) -> Option<TraceItem>
        ensures { Takes self.old self.new result (head_of self.old text.now) }
    {
        let (version, rest) = cut(text, b' ')?;
        let (rule, shards) = cut(rest, b' ')?;
        let version = number_within(version, VERSIONS)? as u8;
        let rule = Rule::named(rule)?;
        let shards = number_within(shards, SHARDS)? as u8;
        self.stage = Stage::Begun;
        self.version = version;
        self.shards = shards;
        Some(TraceItem::Head { rule, shards })
    }

    #[tactic(auto, unfolding(crate::specs::Readings::event_of))]
    fn take_event(&mut self, text: &[u8]) -> Option<TraceItem>
        ensures { Takes self.old self.new result (event_of self.old text.now) }
    {
        let (number, result) = cut(text, b' ')?;
        let number = next_number(number, self.events)?;
        let _result = result_in(result)?;
        self.stage = Stage::Event;
        self.events = number;
        Some(TraceItem::Event)
    }

    #[tactic(auto, unfolding(crate::specs::Readings::note_of))]
    fn take_note(
        &mut self,
        alloc: Global,
        word: &[u8],
        text: &[u8],
    ) -> Result<Option<TraceItem>, OutOfMemory>
        ensures item { IfOk result (λ item. Takes self.old self.new item (note_of self.old word.now text.now)) }
        ensures err { OnErr result (self.new ≡ self.old) }
    {
        match note_in(alloc, self.version, self.shards, word, text) {
            Ok(Some(note)) => Ok(Some(TraceItem::NoteLine(note))),
            Ok(None) => Ok(None),
            Err(OutOfMemory) => Err(OutOfMemory),
        }
    }

    #[tactic(auto, unfolding(crate::specs::Readings::message_of))]
    fn take_message(&mut self, alloc: Global, text: &[u8]) -> Result<Option<TraceItem>, OutOfMemory>
        ensures item { IfOk result (λ item. Takes self.old self.new item (message_of self.old text.now)) }
        ensures err { OnErr result (self.new ≡ self.old) }
    {
        let Some((number, frame)) = ends_in(text, self.messages) else {
            return Ok(None);
        };
        match frame_in(alloc, self.version, frame) {
            Ok(Some(_)) => {
                self.stage = Stage::Messages;
                self.messages = number;
                Ok(Some(TraceItem::MessageLine))
            }
            Ok(None) => Ok(None),
            Err(OutOfMemory) => Err(OutOfMemory),
        }
    }

    #[tactic(auto, unfolding(crate::specs::Readings::order_of))]
    fn take_order(&mut self, alloc: Global, text: &[u8]) -> Result<Option<TraceItem>, OutOfMemory>
        ensures item { IfOk result (λ item. Takes self.old self.new item (order_of text.now)) }
        ensures err { OnErr result (self.new ≡ self.old) }
    {
        match order_in(alloc, text) {
            Ok(Some(order)) => {
                self.stage = Stage::Ordered;
                Ok(Some(TraceItem::Order(TxList::of(order))))
            }
            Ok(None) => Ok(None),
            Err(OutOfMemory) => Err(OutOfMemory),
        }
    }

    #[tactic(auto, unfolding(crate::specs::Readings::end_of))]
    fn take_end(&mut self, text: &[u8]) -> Option<TraceItem>
        ensures { Takes self.old self.new result (end_of self.old text.now) }
    {
        let (events, messages) = cut(text, b' ')?;
        let events = read_number(events)?;
        let messages = read_number(messages)?;
        if events == self.events && messages == self.messages {
            self.stage = Stage::Ended;
            Some(TraceItem::End)
        } else {
            None
        }
    }
}

/// The number of a message after so many others, and what follows its ends.
#[tactic(auto, unfolding(crate::specs::Readings::ends_of))]
fn ends_in(text: &[u8], messages: u64) -> Option<(u64, &[u8])>
    ensures { option_map {U = ℕ × List ℕ} (λ x. (x.0, x.1.now)) result ≡ option_map (λ x. (x.number, x.rest)) (ends_of messages text.now) }
{
    let (number, rest) = cut(text, b' ')?;
    let (from, rest) = cut(rest, b' ')?;
    let (to, rest) = cut(rest, b' ')?;
    let number = next_number(number, messages)?;
    let _from = number_within(from, ENDS)?;
    let _to = number_within(to, ENDS)?;
    Some((number, rest))
}
