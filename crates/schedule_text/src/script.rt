//! Reads a script, line by line.
ghost use Rattle.std.specs.Prelude.{◌≡◌, ◌+◌, ◌<◌, ◌≤◌, nat_lt, IfOk};
ghost use Rattle.text_words.specs.Words.{words_of, begins, after};
ghost use Rattle.schedule_text.specs.Words.{Gives, Tells};
ghost use Rattle.schedule_text.specs.Scripts.{ScriptProgress, script_start, only_of, script_header_at, script_end_at, turns_at, cluster_settle_at, node_settle_at, counted_settle_at, settle_at, script_event_at, script_verb_at, script_body_at, script_line_at, script_before_end, script_after_end, script_reading};

use crate::event_lines::event;
use crate::faults::{LineFault, bad};
use crate::header::Header;
use crate::limits::{MOST_NODE_TURNS, MOST_TURNS, SCRIPT_LINES};
use crate::lines::Got;
use crate::places::Place;
use crate::reader::first_verb;
use crate::verbs::Verb;
use crate::word_readers::{between, end, number};
use std::alloc::Global;
use std::marker::Model;
use tcs_terms::{Event, NodeId, Setup};
use text_words::{Reason, Words};

/// What a script is for.
#[derive(Clone, Copy, Debug, PartialEq, Eq)]
pub enum ScriptForm {
    /// A whole cluster. The turns of all its `settle` lines are at most so many together.
    Cluster { turns: u32 },
    /// One node, or the configuration service, which has the number 0.
    Node(NodeId),
}

/// What a line of a script is.
#[derive(Debug, Drop)]
pub enum ScriptItem {
    /// A line of the header, but not its last.
    Header,
    /// The line `events`, with which the setup is whole.
    Begun(Setup),
    Event(Event),
    /// So many turns pass.
    Settle(u32),
    /// The line `end`; and, when nothing follows it, the end of the input.
    End,
}

/// Reads a script, line by line. Seen as where it stands.
#[derive(Debug, Drop)]
pub struct ScriptReader {
    alloc: Global,
    form: ScriptForm,
    head: Header,
    lines: u32,
    turns: u32,
}

impl Model for ScriptReader {
    ghost use Rattle.schedule_text.specs.Scripts.{ScriptProgress};

    ghost Value = { ScriptProgress };

    ghost view = { λ r. record {
      form = r.form;
      head = r.head;
      lines = r.lines;
      turns = r.turns;
    } };
}

/// The turns of a line of a cluster's script, where at most so many may pass in all, and some have passed.
#[tactic(auto, unfolding(crate::specs::Scripts::turns_at))]
fn turns(most: u32, so_far: u32, words: &mut Words) -> Result<u32, LineFault>
    ensures told { Tells (λ n. n) result words.new (turns_at most so_far words.old) }
    ensures within { IfOk result (λ n. so_far + n ≤ most) }
{
    let number = number(words)?;
    if is_above(most, so_far, number) {
        return bad(Reason::Many);
    }
    if !(1 <= number && number <= MOST_TURNS) {
        return bad(Reason::Range);
    }
    Ok(number as u32)
}

/// Whether the sum of two numbers is above the most that it may be.
fn is_above(most: u32, so_far: u32, number: u64) -> bool
    ensures { result ≡ nat_lt most (so_far + number) }
{
    most < so_far || number > u64::from(most - so_far)
}

fn only_of(form: ScriptForm) -> Option<NodeId>
    ensures { result ≡ only_of form }
{
    match form {
        ScriptForm::Cluster { .. } => None,
        ScriptForm::Node(id) => Some(id),
    }
}

impl ScriptReader {
    /// Waits for the first line.
    pub fn new(alloc: Global, form: ScriptForm) -> ScriptReader
        ensures { result ≡ script_start form }
    {
        ScriptReader {
            alloc,
            form,
            head: Header::new(alloc),
            lines: 0,
            turns: 0,
        }
    }

    /// Takes what the reader of lines found next: a line without its line feed, or the end of the input.
    ///
    /// # Errors
    /// `Bad` where the line may not stand there, with the reason of its first word that does not fit; `OutOfMemory`
    /// where an event or the setup did not get its memory. Then it is not called again.
    pub fn take(&mut self, got: Got, line: &[u8]) -> Result<ScriptItem, LineFault>
        ensures { Tells (λ i. i) result self.new (script_reading self.old got line.now) }
    {
        if matches!(self.head.place, Place::Ended) {
            return self.after_end(got);
        }
        match got {
            Got::Whole => self.take_line(&mut Words::of(line)),
            Got::Long => bad(Reason::Long),
            Got::Cut => bad(Reason::Missing),
            Got::Nothing => bad(Reason::Missing),
        }
    }

    fn after_end(&self, got: Got) -> Result<ScriptItem, LineFault>
        ensures { Tells (λ i. i) result self.now (script_after_end self.now got) }
    {
        match got {
            Got::Nothing => Ok(ScriptItem::End),
            Got::Whole => bad(Reason::Extra),
            Got::Cut => bad(Reason::Extra),
            Got::Long => bad(Reason::Extra),
        }
    }

    fn take_line(&mut self, words: &mut Words) -> Result<ScriptItem, LineFault>
        ensures { Tells (λ i. i) result self.new (script_line_at self.old self.old.head.place words.old) }
    {
        match self.head.place {
            Place::Version => self.take_header(words),
            Place::Certifier => self.take_header(words),
            Place::Shards => self.take_header(words),
            Place::Parts => self.take_header(words),
            Place::Events => self.take_body(words),
            Place::Ended => bad(Reason::Extra),
        }
    }

    #[tactic(auto, unfolding(crate::specs::Scripts::script_header_at))]
    fn take_header(&mut self, words: &mut Words) -> Result<ScriptItem, LineFault>
        ensures { Tells (λ i. i) result self.new (script_header_at self.old words.old) }
    {
        match self.head.take(only_of(self.form), words)? {
            Some(setup) => Ok(ScriptItem::Begun(setup)),
            None => Ok(ScriptItem::Header),
        }
    }

    #[tactic(auto, unfolding(crate::specs::Scripts::script_body_at))]
    fn take_body(&mut self, words: &mut Words) -> Result<ScriptItem, LineFault>
        ensures { Tells (λ i. i) result self.new (script_body_at self.old words.old) }
    {
        if words.begins(b"end") {
            return self.take_end(words);
        }
        if words.begins(b"settle") {
            words.skip();
            return self.take_settle(words);
        }
        let verb = first_verb(words);
        words.skip();
        self.take_verb(verb, words)
    }

    #[tactic(auto, unfolding(crate::specs::Scripts::script_end_at))]
    fn take_end(&mut self, words: &mut Words) -> Result<ScriptItem, LineFault>
        ensures { Tells (λ i. i) result self.new (script_end_at self.old words.old) }
    {
        words.skip();
        end(words)?;
        self.head.place = Place::Ended;
        Ok(ScriptItem::End)
    }

    fn take_settle(&mut self, words: &mut Words) -> Result<ScriptItem, LineFault>
        ensures { Tells (λ i. i) result self.new (settle_at self.old self.old.form words.old) }
    {
        match self.form {
            ScriptForm::Cluster { turns } => self.take_cluster_settle(turns, words),
            ScriptForm::Node(_) => self.take_counted_settle(words),
        }
    }

    #[tactic(auto, unfolding(crate::specs::Scripts::cluster_settle_at))]
    fn take_cluster_settle(&mut self, most: u32, words: &mut Words) -> Result<ScriptItem, LineFault>
        ensures { Tells (λ i. i) result self.new (cluster_settle_at self.old most words.old) }
    {
        let number = turns(most, self.turns, words)?;
        end(words)?;
        self.turns += number;
        Ok(ScriptItem::Settle(number))
    }

    #[tactic(auto, unfolding(crate::specs::Scripts::counted_settle_at))]
    fn take_counted_settle(&mut self, words: &mut Words) -> Result<ScriptItem, LineFault>
        ensures { Tells (λ i. i) result self.new (counted_settle_at self.old words.old) }
    {
        if self.lines >= SCRIPT_LINES {
            return bad(Reason::Many);
        }
        self.take_node_settle(words)
    }

    #[tactic(auto, unfolding(crate::specs::Scripts::node_settle_at))]
    fn take_node_settle(&mut self, words: &mut Words) -> Result<ScriptItem, LineFault>
        requires { self.old.lines < SCRIPT_LINES }
        ensures { Tells (λ i. i) result self.new (node_settle_at self.old words.old) }
    {
        let number = between(1, MOST_NODE_TURNS, words)?;
        end(words)?;
        self.lines += 1;
        Ok(ScriptItem::Settle(number as u32))
    }

    fn take_verb(&mut self, verb: Option<Verb>, words: &mut Words) -> Result<ScriptItem, LineFault>
        ensures { Tells (λ i. i) result self.new (script_verb_at self.old verb words.old) }
    {
        match verb {
            Some(Verb::Call(call)) => self.take_event(Verb::Call(call), words),
            Some(Verb::Stop) => self.take_event(Verb::Stop, words),
            Some(Verb::Deliver) => bad(Reason::Word),
            None => bad(Reason::Word),
        }
    }

    #[tactic(auto, unfolding(crate::specs::Scripts::script_event_at))]
    fn take_event(&mut self, verb: Verb, words: &mut Words) -> Result<ScriptItem, LineFault>
        ensures { Tells (λ i. i) result self.new (script_event_at self.old verb words.old) }
    {
        if self.lines >= SCRIPT_LINES {
            return bad(Reason::Many);
        }
        let event = event(self.alloc, only_of(self.form), &self.head, verb, words)?;
        self.lines += 1;
        Ok(ScriptItem::Event(event))
    }
}
