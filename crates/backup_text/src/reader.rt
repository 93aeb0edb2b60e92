//! Reads a backup file line by line.
ghost use Rattle.std.specs.Prelude.{◌≡◌, IfOk, OnErr};
ghost use Rattle.backup_text.specs.Lines.{Line, line_text, IsStanding, MayStand, at_start};
ghost use Rattle.backup_text.specs.Readings.{head_of, call_of, place_of, object_of, takes_object, end_of, line_of, line_in, Takes, Answers, Accepts, IsMemoryOr};

use crate::items::{BackupItem, BackupLineFault};
use crate::limits::MAX_CALLS;
use crate::stages::{Span, Stage, in_span};
use crate::words::{cut, is_call, object_in, place_in, span_in};
use backup_machine::{MAX_OBJECTS, comes_after};
use std::alloc::Global;
use std::marker::Model;
use tcs_terms::{Name, OutOfMemory};
use text_words::read_number;

/// Reads a backup file line by line. Seen as where it stands.
#[derive(Debug, Drop)]
pub struct BackupReader {
    stage: Stage,
    span: Option<Span>,
    last: Option<Name>,
    calls: u32,
    objects: usize,
}

impl Model for BackupReader {
    ghost use Rattle.backup_text.specs.Lines.{Standing, IsStanding};

    ghost Value = { Standing };

    ghost view = { λ r. record { stage = r.stage; span = r.span; last = r.last; calls = r.calls; objects = r.objects } };

    ghost invariant = { λ r. IsStanding (record { stage = r.stage; span = r.span; last = r.last; calls = r.calls; objects = r.objects }) };
}

impl BackupReader {
    /// It has taken no line yet.
    pub fn new() -> BackupReader
        ensures { result ≡ at_start }
    {
        BackupReader {
            stage: Stage::Start,
            span: None,
            last: None,
            calls: 0,
            objects: 0,
        }
    }

    /// Takes the next line, without its line feed. An `Err` leaves the reader as it was.
    ///
    /// # Errors
    /// `Bad` exactly where the line is none that may stand behind the lines so far.
    pub fn take(&mut self, alloc: Global, line: &[u8]) -> Result<BackupItem, BackupLineFault>
        // What is taken is a line that may stand there, and the item is its.
        ensures found { IfOk result (Accepts self.old line.now self.new) }
        // A line that may stand there is taken, unless memory runs out.
        ensures only { (wanted : Line) → MayStand self.old wanted → line.now ≡ line_text wanted → IsMemoryOr self.old wanted self.new result }
        // Which line it is.
        ensures exact { Answers self.old self.new result (line_in self.old line.now) }
        ensures err { OnErr result (self.new ≡ self.old) }
    {
        self.answer(alloc, line)
    }

    fn answer(&mut self, alloc: Global, line: &[u8]) -> Result<BackupItem, BackupLineFault>
        ensures exact { Answers self.old self.new result (line_in self.old line.now) }
        ensures err { OnErr result (self.new ≡ self.old) }
        ensures standing { IsStanding self.old }
    {
        // Names a field, by which the invariant is known.
        let _ = &self.stage;
        match self.take_line(alloc, line) {
            Ok(Some(item)) => Ok(item),
            Ok(None) => Err(BackupLineFault::Bad),
            Err(OutOfMemory) => Err(BackupLineFault::OutOfMemory),
        }
    }

    #[tactic(auto, unfolding(crate::specs::Readings::line_in))]
    fn take_line(&mut self, alloc: Global, line: &[u8]) -> Result<Option<BackupItem>, OutOfMemory>
        ensures item { IfOk result (λ item. Takes self.old self.new item (line_in self.old line.now)) }
        ensures err { OnErr result (self.new ≡ self.old) }
    {
        match cut(line, b' ') {
            Some((word, text)) => self.take_words(alloc, word, text),
            None => Ok(None),
        }
    }

    #[tactic(auto, unfolding(crate::specs::Readings::line_of))]
    fn take_words(
        &mut self,
        alloc: Global,
        word: &[u8],
        text: &[u8],
    ) -> Result<Option<BackupItem>, OutOfMemory>
        ensures item { IfOk result (λ item. Takes self.old self.new item (line_of self.old word.now text.now)) }
        ensures err { OnErr result (self.new ≡ self.old) }
    {
        if word == b"backup".as_slice() {
            self.take_head(alloc, text)
        } else if word == b"did".as_slice() {
            Ok(self.take_call(text))
        } else if word == b"cut".as_slice() {
            Ok(self.take_place(text))
        } else if word == b"obj".as_slice() {
            self.take_object(alloc, text)
        } else if word == b"end".as_slice() {
            Ok(self.take_end(text))
        } else {
            Ok(None)
        }
    }

    #[tactic(auto, unfolding(crate::specs::Readings::head_of))]
    fn take_head(&mut self, alloc: Global, text: &[u8]) -> Result<Option<BackupItem>, OutOfMemory>
        ensures item { IfOk result (λ item. Takes self.old self.new item (head_of self.old text.now)) }
        ensures err { OnErr result (self.new ≡ self.old) }
    {
        let Some((form, text)) = cut(text, b' ') else {
            return Ok(None);
        };
        let Some(span) = span_in(alloc, text)? else {
            return Ok(None);
        };
        if self.stage.is_start() && form == b"1".as_slice() {
            self.stage = Stage::Begun;
            self.span = Some(span);
            Ok(Some(BackupItem::Head))
        } else {
            Ok(None)
        }
    }

    #[tactic(auto, unfolding(crate::specs::Readings::call_of))]
    fn take_call(&mut self, text: &[u8]) -> Option<BackupItem>
        ensures { Takes self.old self.new result (call_of self.old text.now) }
    {
        if self.stage.is_begun() && self.calls < MAX_CALLS && is_call(text) {
            self.calls += 1;
            Some(BackupItem::Call)
        } else {
            None
        }
    }

    #[tactic(auto, unfolding(crate::specs::Readings::place_of))]
    fn take_place(&mut self, text: &[u8]) -> Option<BackupItem>
        ensures { Takes self.old self.new result (place_of self.old text.now) }
    {
        let place = place_in(text)?;
        if !self.stage.is_begun() {
            return None;
        }
        self.stage = match place {
            None => Stage::NoPlace,
            Some(_) => Stage::AtPlace,
        };
        Some(BackupItem::Place(place))
    }

    /// Whether an object of this name may come.
    fn takes_object(&self, name: &Name) -> bool
        ensures { result ≡ takes_object self.now name.now }
    {
        self.stage.is_at_place()
            && self.objects < MAX_OBJECTS
            && in_span(&self.span, name)
            && comes_after(&self.last, name)
    }

    #[tactic(auto, unfolding(crate::specs::Readings::object_of))]
    fn take_object(&mut self, alloc: Global, text: &[u8]) -> Result<Option<BackupItem>, OutOfMemory>
        ensures item { IfOk result (λ item. Takes self.old self.new item (object_of self.old text.now)) }
        ensures err { OnErr result (self.new ≡ self.old) }
    {
        let Some(object) = object_in(alloc, text)? else {
            return Ok(None);
        };
        if self.takes_object(&object.name) {
            self.last = Some(object.name.again());
            self.objects += 1;
            Ok(Some(BackupItem::Object(object)))
        } else {
            Ok(None)
        }
    }

    #[tactic(auto, unfolding(crate::specs::Readings::end_of))]
    fn take_end(&mut self, text: &[u8]) -> Option<BackupItem>
        ensures { Takes self.old self.new result (end_of self.old text.now) }
    {
        let count = read_number(text)?;
        if self.stage.has_place() && count == self.objects as u64 {
            self.stage = Stage::Ended;
            Some(BackupItem::End)
        } else {
            None
        }
    }
}
