//! A run, kept step by step.
ghost use Rattle.std.specs.Prelude.{◌≡◌, ◌+◌, ◌-◌, ◌<◌, ◌≤◌, nat_lt, ◌&&◌, ◌++◌, ◌∷◌, [], false, length, drop, List, IsTrue, IfOk, IfErr, option_copied};
ghost use Rattle.std.specs.Option.{option_map};
ghost use Rattle.tcs_terms.specs.declared.inputs.Event.{Event};
ghost use Rattle.tcs_terms.specs.Events.{event_fits};
ghost use Rattle.tcs_terms.specs.Places.{is_among};
ghost use Rattle.tcs_terms.specs.Runs.{MayStand, AreEventsOf};
ghost use Rattle.protocol.specs.History.{order_of};
ghost use Rattle.protocol.specs.Limit.{frame_limit, limited_step, limited_run};
ghost use Rattle.protocol.specs.Limit.Progress.{Live};
ghost use Rattle.protocol.specs.World.{first_world, message_of, node_of};
ghost use Rattle.protocol_laws.specs.Promises.{world_of, KeepsItsPromises};
ghost use Rattle.world.specs.declared.limits.TheConstants.{MAX_EVENTS};
ghost use Rattle.world.specs.Posting.{IsPosted, IsFrame};
ghost use Rattle.world.specs.WorldState.{events_of, Tells, is_memory};

use crate::arena::Arena;
use crate::casts::Cast;
use crate::happenings::{Happening, Posted, Stop};
use crate::limits::MAX_EVENTS;
use crate::turns::{Ledger, take_turn};
use indexmap::IndexSet;
use node_core::Node;
use std::alloc::Global;
use std::marker::Model;
use tcs_laws::VoteGuard;
use tcs_terms::{Event, NodeId, Note, OutOfMemory, Setup, TxId};

/// A run of a setup, whose votes are given by a guard `G`. Seen as the run of the definition under the limit on frame
/// bytes. Where memory runs out in a step the world is spent: each further step runs out of memory too.
#[derive(Drop)]
pub struct World<G: VoteGuard> {
    alloc: Global,
    setup: Setup,
    cast: Cast<G>,
    ledger: Ledger,
    events: u32,
    /// The sum of frame bytes that the last event would have come to, once one would have passed the limit.
    full: Option<u64>,
    spent: bool,
}

impl<G: VoteGuard> Model for World<G> {
    ghost use Rattle.protocol.specs.Limit.{frame_bytes};
    ghost use Rattle.world.specs.WorldState.{WorldState, progress_of};
    ghost use Rattle.world.specs.Soundness.{world_in, IsSoundUnless};

    ghost Value = { WorldState };

    ghost view = { λ w. record {
      setup = w.setup;
      progress = progress_of w.full (world_in w.cast w.ledger.messages w.ledger.history) w.events (frame_bytes w.ledger.messages);
      spent = w.spent;
    } };

    ghost invariant = { λ w. IsSoundUnless w.spent w.full w.setup w.cast w.ledger };
}

impl<G: VoteGuard> World<G> {
    /// The world of a setup before its first event.
    pub fn new(alloc: Global, setup: Setup) -> Result<World<G>, OutOfMemory>
        ensures { IfOk result (λ w. w ≡ record {
          setup = setup;
          progress = Live (first_world setup) 0 0;
          spent = false;
        }) }
    {
        let cast = Cast::first(alloc, &setup)?;
        Ok(World {
            alloc,
            setup,
            cast,
            ledger: Ledger {
                arena: Arena::new(alloc),
                history: Vec::new(alloc),
                order: IndexSet::new(alloc),
            },
            events: 0,
            full: None,
            spent: false,
        })
    }

    /// The setup of the run.
    pub fn setup(&self) -> &Setup
        ensures { result.now ≡ self.now.setup }
    {
        &self.setup
    }

    /// How many events were taken: none that would have passed the limit, or for which memory ran out.
    pub fn events(&self) -> u32
        ensures { result ≡ events_of self.now.progress }
    {
        self.events
    }

    /// How many messages were sent.
    pub fn messages(&self) -> u32
        ensures count { result ≡ length (world_of self.now.progress).messages }
        ensures few { result ≤ frame_limit }
    {
        self.ledger.messages()
    }

    /// The notes that were made, in order.
    pub fn history(&self) -> &[Note]
        ensures { result.now ≡ (world_of self.now.progress).history }
    {
        self.ledger.history()
    }

    /// The last notes that were made, so many of them.
    pub fn last_notes(&self, count: usize) -> &[Note]
        requires { count ≤ length (world_of self.now.progress).history }
        ensures { result.now ≡ drop (length (world_of self.now.progress).history - count) (world_of self.now.progress).history }
    {
        let history = self.ledger.history();
        &history[history.len() - count..]
    }

    /// The transactions that were decided to commit, in the order of their first decisions.
    pub fn order(&self) -> &[TxId]
        ensures { self.now.spent ≡ false → result.now ≡ order_of (world_of self.now.progress).history }
    {
        self.ledger.order()
    }

    /// The message of a number, from 1, as its frame.
    pub fn message(&self, number: u32) -> Option<Posted<'_>>
        ensures { IsPosted result (message_of (world_of self.now.progress).messages number) }
    {
        self.ledger.posted(number)
    }

    /// The frame of the message of a number, from 1.
    pub fn frame(&self, number: u32) -> Option<&[u8]>
        ensures { IsFrame (option_copied result) (message_of (world_of self.now.progress).messages number) }
    {
        match self.ledger.posted(number) {
            None => None,
            Some(posted) => Some(posted.frame),
        }
    }

    /// Whether a node has stopped.
    pub fn stopped(&self, name: NodeId) -> bool
        ensures { result ≡ is_among (world_of self.now.progress).stopped name }
    {
        self.cast.stopped.has(name)
    }

    /// The node of a name. A world that has ended has no nodes.
    pub fn node(&self, name: NodeId) -> Option<&Node<G>>
        ensures { self.now.spent ≡ false
            → option_map (λ n. n.kept) (option_copied result) ≡ node_of (world_of self.now.progress).nodes name }
    {
        match self.full {
            Some(_) => None,
            None => self.cast.node(name),
        }
    }

    /// Whether this may be the next event: it fits the setup, and fewer than 1,000,000 events were taken.
    pub fn takes(&self, event: &Event) -> bool
        ensures exact { result ≡ (nat_lt (events_of self.now.progress) MAX_EVENTS && event_fits self.now.setup event.now) }
        ensures may { IsTrue result → MayStand self.now.setup event.now }
        ensures few { IsTrue result → events_of self.now.progress < MAX_EVENTS }
    {
        self.events() < MAX_EVENTS && self.setup().fits(event)
    }

    /// Takes an event. In a world whose messages would have passed the limit each event has the same answer.
    ///
    /// # Errors
    /// `SoupFull` where the frames of the run would pass the limit, with the bytes that they would have. Nothing of the
    /// event is kept then, and no node is left.
    pub fn step(&mut self, event: Event) -> Result<Happening, Stop>
        requires may { MayStand self.old.setup event }
        requires few { events_of self.old.progress < MAX_EVENTS }
        ensures answer { Tells result (limited_step G.Rule.tests self.old.setup.version self.old.progress event).answer }
        ensures record { self.new.spent ≡ false
            → self.new.progress ≡ (limited_step G.Rule.tests self.old.setup.version self.old.progress event).after }
        ensures setup { self.new.setup ≡ self.old.setup }
        ensures spent { self.new.spent ≡ is_memory result }
        ensures stays { IsTrue self.old.spent → IsTrue self.new.spent }
        ensures promises { (events : List Event) → AreEventsOf self.old.setup events
            → limited_run G.Rule.tests self.old.setup events ≡ self.old.progress → self.new.spent ≡ false
            → KeepsItsPromises G.Rule.tests self.old.setup (events ++ event ∷ []) self.new.progress }
    {
        if self.spent {
            drop(event);
            return Err(Stop::OutOfMemory);
        }
        if let Some(sum) = self.full {
            drop(event);
            return Err(Stop::SoupFull(sum));
        }
        self.spent = true;
        match take_turn(self.alloc, &mut self.cast, &mut self.ledger, event) {
            Ok(happening) => {
                self.events += 1;
                self.spent = false;
                Ok(happening)
            }
            Err(Stop::SoupFull(sum)) => {
                self.full = Some(sum);
                self.spent = false;
                Err(Stop::SoupFull(sum))
            }
            Err(Stop::OutOfMemory) => Err(Stop::OutOfMemory),
        }
    }
}
