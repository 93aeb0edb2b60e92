//! What a run keeps, and what a line does to it.
ghost use Rattle.std.specs.Prelude.{◌≡◌, ◌+◌, ◌++◌, length, IfOk, OnOk};
ghost use Rattle.quorum_config.specs.Texts.{happening_text, end_text};
ghost use Rattle.quorum_config.specs.Walks.{is_ended};
ghost use Rattle.quorum_config.specs.Standing.{first_state, world_after, text_after, TakesOrNot};
ghost use Rattle.quorum_protocol.specs.World.{step as stepping};

use crate::places::{Item, Place, Progress};
use crate::printing::{put_end, put_head, put_messages, put_result, put_stored};
use crate::reading::read_line;
use quorum_protocol::Event;
use quorum_world::World;
use std::alloc::Global;
use std::marker::Model;
use tcs_terms::OutOfMemory;

/// Where the reader stands, and the world of the events so far; and room for the numbers of a line.
#[derive(Debug, Drop)]
pub(crate) struct Store {
    alloc: Global,
    progress: Progress,
    world: World,
    numbers: Vec<u64>,
}

impl Model for Store {
    ghost use Rattle.quorum_config.specs.Standing.{State};
    ghost use Rattle.quorum_config.specs.Walks.{IsReader};

    ghost Value = { State };

    ghost view = { λ s. record { progress = s.progress; world = s.world } };

    ghost invariant = { λ s. IsReader s.progress };
}

impl Store {
    /// No line is taken yet.
    pub(crate) fn first(alloc: Global) -> Store
        ensures { result ≡ first_state }
    {
        Store {
            alloc,
            progress: Progress {
                place: Place::Version,
                acceptors: 0,
                proposers: 0,
                shards: 0,
                configs: 0,
                events: 0,
            },
            world: World::first(alloc, 0),
            numbers: Vec::new(alloc),
        }
    }

    /// Whether the line `end` was taken.
    pub(crate) fn has_ended(&self) -> bool
        ensures { result ≡ is_ended self.now.progress.place }
    {
        matches!(self.progress.place, Place::Ended)
    }

    /// Steps an event, and appends what belongs to it.
    fn step(&mut self, event: Event, text: &mut Vec<u8>) -> Result<(), OutOfMemory>
        ensures world { OnOk result (self.new.world ≡ (stepping self.old.world event).after) }
        ensures progress { OnOk result (self.new.progress ≡ self.old.progress) }
        ensures text { OnOk result (text.new.items ≡ text.old.items ++ happening_text self.old.progress.events (length self.old.world.messages + 1) (stepping self.old.world event)) }
    {
        let before = self.world.messages().len();
        let happening = self.world.step(event)?;
        put_result(text, self.progress.events, happening.result)?;
        put_stored(text, &happening.stored)?;
        put_messages(text, before as u64 + 1, &self.world.messages()[before..])
    }

    /// Does what a line is for.
    fn work(&mut self, item: Item, text: &mut Vec<u8>) -> Result<(), OutOfMemory>
        ensures progress { OnOk result (self.new.progress ≡ self.old.progress) }
        ensures world { OnOk result (self.new.world ≡ world_after self.old.world item self.old.progress) }
        ensures text { OnOk result (text.new.items ≡ text.old.items ++ text_after self.old.world item self.old.progress) }
    {
        match item {
            Item::Header => Ok(()),
            Item::Begun => {
                self.world = World::first(self.alloc, self.progress.acceptors);
                put_head(text, self.progress.acceptors)
            }
            Item::Event(event) => self.step(event, text),
            Item::End => Ok(()),
        }
    }

    /// Takes a line, and puts what belongs to it in place of the text; or answers that it may not stand there.
    pub(crate) fn take(&mut self, line: &[u8], text: &mut Vec<u8>) -> Result<bool, OutOfMemory>
        ensures { IfOk result (λ fits. TakesOrNot fits self.old line.now self.new text.new.items) }
    {
        text.clear();
        match read_line(self.alloc, &mut self.numbers, &mut self.progress, line)? {
            None => Ok(false),
            Some(item) => {
                self.work(item, text)?;
                Ok(true)
            }
        }
    }

    /// Puts the last line in place of the text.
    pub(crate) fn put_end(&self, text: &mut Vec<u8>) -> Result<(), OutOfMemory>
        ensures { OnOk result (text.new.items ≡ end_text self.now.progress.events (length self.now.world.messages)) }
    {
        text.clear();
        put_end(text, self.progress.events, self.world.messages().len())
    }
}
